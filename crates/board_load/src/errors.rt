//! The errors that the load's reporters make, drawn by a generator.

ghost use Rattle.std.specs.Prelude.{◌≡◌, ◌<◌, ◌≤◌, ◌+◌, ◌*◌, ◌/◌, ◌^◌, ◌++◌, OnOk, string_bytes};
ghost use Rattle.board_load.specs.Load.{
  line_text,
  lines_text,
  lines_below,
  next_state,
  state_after,
  severity_word,
  error_line,
  reporter_lines,
};

use std::alloc::AllocError;

/// How many reporters there are.
const REPORTERS: u64 = 4;
/// How many errors each of them makes.
const ACTS: u64 = 500;

/// The draws of a load.
#[derive(Drop)]
pub(crate) struct Draws {
    state: u64,
}

impl Draws {
    /// The draws of the load of a number.
    fn new(n: u16) -> Draws
        ensures { result.state ≡ n + 1 }
    {
        Draws {
            state: u64::from(n) + 1,
        }
    }

    /// The next value: the upper half of the generator's next state.
    fn draw(&mut self) -> u64
        ensures state { self.new.state ≡ next_state self.old.state }
        ensures drawn { result ≡ self.new.state / 2 ^ 32 }
    {
        self.state = self
            .state
            .wrapping_mul(6364136223846793005)
            .wrapping_add(1442695040888963407);
        self.state >> 32
    }
}

fn severity_word(drawn: u64) -> &'static str
    ensures { result.now ≡ severity_word drawn }
{
    match drawn {
        0..=5 => "ce",
        6 => "ued",
        _ => "uec",
    }
}

/// The act of a number of a reporter, from what was drawn for it.
#[tactic(auto, using(crate::proofs::Lines::parts), unfolding(crate::specs::Load::line_text))]
fn write_error(text: &mut String, reporter: u64, i: u64, drawn: u64) -> Result<(), AllocError>
    ensures { OnOk result (string_bytes text.new
        ≡ string_bytes text.old ++ line_text (error_line reporter i drawn)) }
{
    let bank = drawn % 3;
    let rec = drawn / 3 % 4;
    let severity = severity_word(drawn / 12 % 8);
    let priority = drawn / 96 % 4;
    let code = drawn / 384 % 256;
    let address = 4096 * (drawn / 98304 % 64);
    writeln!(
        text,
        "act {reporter} error {bank} {rec} {severity} {priority} {code} {address} {i} 0 {i}"
    )
}

/// The acts of a reporter: the draws stand where those of the reporters before it left them.

fn write_reporter(
    text: &mut String,
    n: u16,
    reporter: u64,
    draws: &mut Draws,
) -> Result<(), AllocError>
    requires few { reporter < 4 }
    requires drawn { draws.old.state ≡ state_after n (500 * reporter) }
    ensures text { OnOk result (string_bytes text.new
        ≡ string_bytes text.old ++ lines_text (reporter_lines n reporter)) }
    ensures drawn { OnOk result (draws.new.state ≡ state_after n (500 * (reporter + 1))) }
{
    for i in 0..ACTS {
        let drawn = draws.draw();
        write_error(text, reporter, i, drawn)?;
    }
    Ok(())
}

/// The acts of all reporters.

pub(crate) fn write_errors(text: &mut String, n: u16) -> Result<(), AllocError>
    ensures { OnOk result (string_bytes text.new
        ≡ string_bytes text.old ++ lines_text (lines_below (reporter_lines n) 4)) }
{
    let mut draws = Draws::new(n);
    for reporter in 0..REPORTERS {
        write_reporter(text, n, reporter, &mut draws)?;
    }
    Ok(())
}
