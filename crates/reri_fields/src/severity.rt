//! How bad an error is.

/// How bad an error is, in rising order (RERI 1.0: CE, UED, UEC).
#[derive(Clone, Copy, PartialEq, Eq, Debug, Drop)]
pub enum Severity {
    /// Corrected.
    Ce,
    /// Uncorrected, and deferred: the spoiled data is marked as such, and work can go on until it is used.
    Ued,
    /// Uncorrected, and critical: work must not go on.
    Uec,
}
