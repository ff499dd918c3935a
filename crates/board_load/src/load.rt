//! The whole script.

ghost use Rattle.std.specs.Prelude.{◌≡◌, ◌≤◌, ◌++◌, OnOk, IfOk, string_bytes};
ghost use Rattle.board_load.specs.Load.{lines_text, load_lines, load_text};

use crate::board::{write_board, write_lists, write_records};
use crate::errors::write_errors;
use crate::harts::write_harts;
use ras_io::NoMemory;
use std::alloc::{AllocError, Global};

/// Room for any load's script, in bytes.
const ROOM: usize = 131_072;

/// All lines.
#[tactic(auto, using(crate::proofs::Lines::whole))]
fn write_all(text: &mut String, n: u16) -> Result<(), AllocError>
    ensures { OnOk result (string_bytes text.new ≡ string_bytes text.old ++ lines_text (load_lines n)) }
{
    write_board(text)?;
    write_records(text, n)?;
    write_harts(text)?;
    write_lists(text)?;
    write_errors(text, n)
}

#[tactic(auto, unfolding(crate::specs::Load::load_text))]
fn written(alloc: Global, n: u16) -> Result<String, AllocError>
    ensures { IfOk result (λ t. string_bytes t ≡ load_text n) }
{
    let mut text = String::with_capacity(alloc, ROOM)?;
    write_all(&mut text, n)?;
    Ok(text)
}

/// The script of the load of a number, which is at most 1000. Its room is taken once, before the first line.
/// `NoMemory` comes where no room was found. The text is this project's own.
pub fn script(alloc: Global, n: u16) -> Result<Vec<u8>, NoMemory>
    requires { n ≤ 1000 }
    ensures text { IfOk result (λ v. v.items ≡ load_text n) }
{
    let text = written(alloc, n).map_err(|_| NoMemory)?;
    Ok(text.into_bytes())
}
