//! A whole source, read to its end.
ghost use Rattle.std.specs.Prelude.{◌≡◌, ℕ, ◌+◌, ◌≤◌, length, IfOk, OnOk, IsErrOf};
ghost use Rattle.std.specs.Io.KnownBytes.{Consumes, IsAtEnd};
ghost use Rattle.ras_io.specs.Causes.{Rose};
ghost use Rattle.ras_io.specs.Whole.{TakesAtMost, TakesOneTooMany};

use crate::outside::Source;
use std::alloc::Global;
use thiserror::Error;

/// Why a whole source wasn't read (the rules are this project's own).
#[derive(Debug, Clone, Copy, PartialEq, Eq, Error)]
pub enum ReadAllError {
    /// The source failed.
    #[error("the input failed")]
    ReadFault,
    /// More bytes came than were allowed.
    #[error("the input is too long")]
    TooLong,
    /// No memory was found.
    #[error("out of memory")]
    NoMemory,
}

/// The longest input that any command takes, in bytes: a script with a trace behind it.
pub const MAX_INPUT: usize = 50_331_648;

// the most that one call of `read` is asked for
const PIECE: usize = 16_384;

/// Reads `src` to its end, at most `max` bytes. `ReadFault`: a read failed, which the count of faults
/// tells. `TooLong`: there were more than `max` bytes, and `max` + 1 of them were taken. `NoMemory`: no
/// room was found for them, and no read had failed. Whatever the answer, at most `max` + 1 bytes were taken.
/// A turn that takes no byte is the last one, so this ends.
pub fn read_all<S: Source>(alloc: Global, src: &mut S, max: usize) -> Result<Vec<u8>, ReadAllError>
    requires { max ≤ MAX_INPUT }
    ensures whole { IfOk result (λ v. Consumes (S.left src.old) (S.left src.new) v.items) }
    ensures ended { OnOk result (IsAtEnd (S.left src.new)) }
    ensures short { IfOk result (λ v. length v.items ≤ max) }
    ensures taken { TakesAtMost (S.left src.old) (S.left src.new) (max + 1) }
    ensures kept { OnOk result (S.faults src.new ≡ S.faults src.old) }
    ensures fault { IsErrOf result ReadAllError.ReadFault → Rose (S.faults src.old) (S.faults src.new) }
    ensures long { IsErrOf result ReadAllError.TooLong → TakesOneTooMany (S.left src.old) (S.left src.new) max }
    ensures long_kept { IsErrOf result ReadAllError.TooLong → S.faults src.new ≡ S.faults src.old }
    ensures memory_kept { IsErrOf result ReadAllError.NoMemory → S.faults src.new ≡ S.faults src.old }
    ensures later { S.faults src.old ≤ S.faults src.new }
{
    let mut bytes = Vec::new(alloc);
    let mut piece = [0u8; PIECE];
    while bytes.len() <= max {
        let room = PIECE.min(max + 1 - bytes.len());
        bytes.reserve(room).map_err(|_| ReadAllError::NoMemory)?;
        let count = src
            .read(&mut piece[..room])
            .map_err(|_| ReadAllError::ReadFault)?;
        if count == 0 {
            return Ok(bytes);
        }
        match bytes.extend_from_slice(&piece[..count]) {
            Ok(()) => {}
            Err(_) => unreachable!(),
        }
    }
    Err(ReadAllError::TooLong)
}
