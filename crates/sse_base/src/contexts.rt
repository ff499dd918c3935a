//! The privilege of a context.

/// The mode that a hart is in. User is the lesser one.
#[derive(Clone, Copy, Debug, PartialEq, Eq)]
pub enum Privilege {
    User,
    Supervisor,
}
