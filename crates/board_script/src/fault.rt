//! Why a text gives no plan.

use board_plan::LineFault;
use ras_io::NoMemory;

/// Why a text gives no plan.
#[derive(Clone, Copy, Debug, PartialEq, Eq)]
pub enum ScriptError {
    /// A line is refused; lines count from 1.
    BadLine { line: u32, kind: LineFault },
    /// No memory was found.
    NoMemory,
}

/// Why a line wasn't taken.
#[derive(Clone, Copy, Debug)]
pub(crate) enum ReadFault {
    Line(LineFault),
    NoMemory,
}

impl From<LineFault> for ReadFault {
    ghost use Rattle.std.specs.Prelude.{◌≡◌};
    ghost use Rattle.board_script.specs.declared.fault.ReadFault.TheVariants.{Line};

    ghost from_gives = { λ kind e. e ≡ Line kind };

    fn from(kind: LineFault) -> ReadFault {
        ReadFault::Line(kind)
    }
}

impl From<NoMemory> for ReadFault {
    ghost use Rattle.std.specs.Prelude.{◌≡◌};
    ghost use Rattle.board_script.specs.declared.fault.ReadFault.TheVariants.{NoMemory as Wanting};

    ghost from_gives = { λ _ e. e ≡ Wanting };

    fn from(_e: NoMemory) -> ReadFault {
        ReadFault::NoMemory
    }
}

impl From<NoMemory> for ScriptError {
    ghost use Rattle.std.specs.Prelude.{◌≡◌};
    ghost use Rattle.board_script.specs.declared.fault.ScriptError.TheVariants.{NoMemory as Wanting};

    ghost from_gives = { λ _ e. e ≡ Wanting };

    fn from(_e: NoMemory) -> ScriptError {
        ScriptError::NoMemory
    }
}
