//! Ranges of attributes.

ghost use Rattle.std.specs.Prelude.{◌≡◌};
ghost use Rattle.sse_base.specs.Attributes.{range_of};
ghost use Rattle.sse_base.specs.Calls.{word_for};

/// The numbers of the attributes of an event (SBI 3.0, "Supervisor Software Events", event attributes).
pub mod attr {
    /// The state in bits 1:0, pending in bit 2, whether software may inject it in bit 3.
    pub const STATUS: u8 = 0;
    /// The smaller, the more urgent.
    pub const PRIORITY: u8 = 1;
    /// Bit 0: a completion leaves the event registered and not enabled.
    pub const CONFIG: u8 = 2;
    /// The hart on which a global event is delivered where that hart is unmasked.
    pub const PREFERRED_HART: u8 = 3;
    /// Where the handler begins.
    pub const ENTRY_PC: u8 = 4;
    /// What the handler finds in a7.
    pub const ENTRY_ARG: u8 = 5;
    /// The sepc that the handler interrupted.
    pub const INTERRUPTED_SEPC: u8 = 6;
    /// The spp in bit 0 and the spie in bit 1 that the handler interrupted.
    pub const INTERRUPTED_FLAGS: u8 = 7;
    /// The a6 that the handler interrupted.
    pub const INTERRUPTED_A6: u8 = 8;
    /// The a7 that the handler interrupted.
    pub const INTERRUPTED_A7: u8 = 9;
    /// How many attributes there are.
    pub const COUNT: u8 = 10;
}

/// Attributes of an event that follow one another: `count` of them, from number `base` on.
#[derive(Clone, Copy, Debug, PartialEq, Eq)]
pub struct AttrRange {
    pub base: u8,
    pub count: u8,
}

/// Why numbers are no range of attributes.
#[derive(Clone, Copy, Debug, PartialEq, Eq)]
pub enum RangeFault {
    /// It would be empty.
    Zero,
    /// It would reach past the last attribute.
    Reserved,
}

/// The range of `count` attributes from `base` on. `Zero` comes exactly where `count` is 0, and otherwise
/// `Reserved` exactly where `base + count`, as whole numbers, is above 10. The order is this project's own.
pub fn attr_range(base: u64, count: u64) -> Result<AttrRange, RangeFault>
    ensures { result ≡ range_of base count }
{
    if count == 0 {
        return Err(RangeFault::Zero);
    }
    if base > 10 || count > 10 - base {
        return Err(RangeFault::Reserved);
    }
    Ok(AttrRange {
        base: base as u8,
        count: count as u8,
    })
}

/// The word for an attribute in a write of `words` from attribute `base` on, or what it was where the write
/// hasn't it.
#[tactic(auto, unfolding(crate::specs::Calls::word_for))]
pub fn word_for(attr: u8, base: u8, words: &[u64], old: u64) -> u64
    ensures { result ≡ word_for attr base words.now old }
{
    if attr < base {
        return old;
    }
    let place = (attr - base) as usize;
    if place < words.len() {
        words[place]
    } else {
        old
    }
}
