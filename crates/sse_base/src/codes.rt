//! What a call answers.

ghost use Rattle.std.specs.Prelude.{◌≡◌};
ghost use Rattle.sse_base.specs.Codes.{number_of};

/// The error codes of SBI 3.0 ("Binary Encoding", standard errors) that the calls know.
#[derive(Clone, Copy, Debug, PartialEq, Eq)]
pub enum SbiCode {
    Success,
    /// Never answered by this firmware.
    Failed,
    NotSupported,
    InvalidParam,
    Denied,
    InvalidAddress,
    AlreadyStarted,
    AlreadyStopped,
    InvalidState,
    BadRange,
}

impl SbiCode {
    /// The code's number: 0 for success, and negative for each error.
    pub fn number(self) -> i64
        ensures { result ≡ number_of self }
    {
        match self {
            SbiCode::Success => 0,
            SbiCode::Failed => -1,
            SbiCode::NotSupported => -2,
            SbiCode::InvalidParam => -3,
            SbiCode::Denied => -4,
            SbiCode::InvalidAddress => -5,
            SbiCode::AlreadyStarted => -7,
            SbiCode::AlreadyStopped => -8,
            SbiCode::InvalidState => -10,
            SbiCode::BadRange => -11,
        }
    }
}

/// What a call returns in a0 and a1 (SBI 3.0, "Binary Encoding").
#[derive(Clone, Copy, Debug, PartialEq, Eq)]
pub struct Reply {
    pub error: SbiCode,
    /// 0 for every call of this extension here.
    pub value: u64,
}
