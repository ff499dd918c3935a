//! The functions of the extension.

ghost use Rattle.std.specs.Prelude.{◌≡◌};
ghost use Rattle.sse_base.specs.Functions.{function_of};

/// The ten functions of the extension, in the order of their numbers (SBI 3.0, "Supervisor Software Events",
/// table of functions).
#[derive(Clone, Copy, Debug, PartialEq, Eq)]
pub enum Function {
    /// Reads attributes of an event into memory.
    ReadAttrs,
    /// Writes attributes of an event from memory.
    WriteAttrs,
    /// Registers a handler for an event.
    Register,
    /// Takes the handler of an event away.
    Unregister,
    /// Lets an event be delivered.
    Enable,
    /// Lets an event be delivered no longer.
    Disable,
    /// Ends the newest handler of the calling hart.
    Complete,
    /// Signals an event.
    Inject,
    /// Lets events be delivered on the calling hart.
    HartUnmask,
    /// Lets no event be delivered on the calling hart.
    HartMask,
}

impl Function {
    /// The function with this number, or None exactly where the extension has none.
    pub fn from_number(number: u64) -> Option<Function>
        ensures { result ≡ function_of number }
    {
        match number {
            0 => Some(Function::ReadAttrs),
            1 => Some(Function::WriteAttrs),
            2 => Some(Function::Register),
            3 => Some(Function::Unregister),
            4 => Some(Function::Enable),
            5 => Some(Function::Disable),
            6 => Some(Function::Complete),
            7 => Some(Function::Inject),
            8 => Some(Function::HartUnmask),
            9 => Some(Function::HartMask),
            _ => None,
        }
    }
}
