//! The states of an event and the moves between them.

ghost use Rattle.std.specs.Prelude.{◌≡◌, ◌≤◌};
ghost use Rattle.sse_base.specs.Arrows.{arrow};
ghost use Rattle.sse_base.specs.Calls.{state_number};

/// The state of an instance (SBI 3.0, "Supervisor Software Events", event states).
#[derive(Clone, Copy, Debug, PartialEq, Eq)]
pub enum State {
    Unused,
    Registered,
    Enabled,
    Running,
}

impl State {
    /// The state's number in the attribute STATUS.
    pub fn number(self) -> u64
        ensures number { result ≡ state_number self }
        ensures small { result ≤ 3 }
    {
        match self {
            State::Unused => 0,
            State::Registered => 1,
            State::Enabled => 2,
            State::Running => 3,
        }
    }
}

/// What moves an instance from one state to another.
#[derive(Clone, Copy, Debug, PartialEq, Eq)]
pub enum Move {
    Register,
    Unregister,
    Enable,
    Disable,
    Deliver,
    /// The handler of an event that stays enabled is done.
    Complete,
    /// The handler of a oneshot event is done.
    CompleteOnce,
}

/// The state after a move, or None exactly where the state diagram of SBI 3.0 ("Supervisor Software
/// Events", event states) has no such arrow.
pub fn next_state(state: State, mv: Move) -> Option<State>
    ensures { result ≡ arrow state mv }
{
    match (state, mv) {
        (State::Unused, Move::Register) => Some(State::Registered),
        (State::Registered, Move::Unregister) => Some(State::Unused),
        (State::Registered, Move::Enable) => Some(State::Enabled),
        (State::Enabled, Move::Disable) => Some(State::Registered),
        (State::Enabled, Move::Deliver) => Some(State::Running),
        (State::Running, Move::Complete) => Some(State::Enabled),
        (State::Running, Move::CompleteOnce) => Some(State::Registered),
        _ => None,
    }
}
