//! Acts, and how far a device goes.

ghost use Rattle.std.specs.Prelude.{◌≡◌, [], ◌∷◌, IfOk};

use ras_device::{Act, ErrorDevice};
use reri_fields::{Report, Severity};
use std::alloc::{AllocError, Global};

/// A corrected error of priority 0 that struck at an address, with the same number as its info and its time.
pub fn ce(bank: u8, rec: u8, code: u8, address: u64, number: u64) -> Act {
    Act::Error(Report {
        bank,
        rec,
        severity: Severity::Ce,
        priority: 0,
        code,
        address,
        info: number,
        supplement: 0,
        time: number,
    })
}

/// An error of a storm.
pub fn stormed(bank: u8, rec: u8, severity: Severity, priority: u8, number: u16) -> Act {
    Act::Error(Report {
        bank,
        rec,
        severity,
        priority,
        code: 2,
        address: 0x100000 + 64 * u64::from(number),
        info: u64::from(number),
        supplement: 0,
        time: u64::from(number),
    })
}

/// A raised event.
pub fn raise(id: u32, hart: u8) -> Act {
    Act::Raise { id, hart }
}

/// Two raises of an event as a list, on one hart and on another.
pub fn two_raises(alloc: Global, id: u32, hart: u8, other: u8) -> Result<Vec<Act>, AllocError>
    ensures { IfOk result (λ acts. acts.items ≡ Act.Raise id hart ∷ Act.Raise id other ∷ []) }
{
    let mut acts = Vec::new(alloc);
    acts.push(Act::Raise { id, hart })?;
    acts.push(Act::Raise { id, hart: other })?;
    Ok(acts)
}

/// The act that a device gives behind so many others.
pub fn act_behind<D: ErrorDevice>(device: &mut D, others: u16) -> Option<Act> {
    for _ in 0..others {
        device.next();
    }
    device.next()
}
