//! Event ids, their classes, and the instances of an event on a board.

ghost use Rattle.std.specs.Prelude.{◌≡◌};
ghost use Rattle.sse_base.specs.Ids.{class_of, is_global, id_of};

/// The id of an event (SBI 3.0, "Supervisor Software Events", event ids). Bit 15 says that the event is
/// global, bit 14 that it is the platform's own.
#[derive(Clone, Copy, Debug, PartialEq, Eq, PartialOrd, Ord, Hash)]
pub struct EventId(pub u32);

/// What kind of id this is. The rule is this project's own.
#[derive(Clone, Copy, Debug, PartialEq, Eq)]
pub enum EventClass {
    /// It stands in SBI's table of events.
    Defined,
    /// It doesn't, and is left to the platform.
    Platform,
    /// Every other id.
    Reserved,
}

impl EventId {
    /// The class of the id. The rule is this project's own.
    #[tactic(auto, unfolding(crate::specs::Ids::class_of, crate::specs::Ids::is_platform))]
    pub fn class(self) -> EventClass
        ensures { result ≡ class_of self.0 }
    {
        match self.0 {
            0x0 | 0x1 | 0x8000 | 0x10000 | 0x100000 | 0x108000 | 0xffff0000 | 0xffff8000 => {
                EventClass::Defined
            }
            n if (n >> 14) % 2 == 1 => EventClass::Platform,
            _ => EventClass::Reserved,
        }
    }

    /// Whether there is one instance for the whole board (SBI 3.0, event ids: bit 15).
    #[tactic(auto, unfolding(crate::specs::Ids::is_global))]
    pub fn is_global(self) -> bool
        ensures { result ≡ is_global self.0 }
    {
        (self.0 >> 15) % 2 == 1
    }
}

/// An event as a hart or the whole board has it: a local event once for each hart, a global one once.
#[derive(Clone, Copy, Debug, PartialEq, Eq)]
pub enum Instance {
    /// A local event on one hart.
    Local { id: EventId, hart: u8 },
    /// A global event.
    Global { id: EventId },
}

impl Instance {
    /// The event of which this is an instance.
    pub fn id(self) -> EventId
        ensures { result ≡ id_of self }
    {
        match self {
            Instance::Local { id, .. } => id,
            Instance::Global { id } => id,
        }
    }
}
