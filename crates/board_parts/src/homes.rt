//! Where the banks of each hart stand.

ghost use Rattle.std.specs.Prelude.{◌≡◌, ◌<◌, ◌≤◌, ◌+◌, ◌==◌, length, if◌then◌else◌};
ghost use Rattle.board_parts.specs.Homes.{Spans};

use board_plan::BankDecl;

/// How many numbers there are for harts: they have eight bits.
pub(crate) const HARTS: usize = 256;

/// The banks from `first` on that come before `end`.
#[derive(Clone, Copy)]
pub(crate) struct Span {
    pub(crate) first: u8,
    pub(crate) end: u8,
}

impl Span {
    /// The same banks and this one, which comes behind them, with all that stand between.
    fn up_to(self, at: u8) -> Span
        requires { at < 255 }
        ensures first { result.first ≡ if self.first == self.end then at else self.first }
        ensures end { result.end ≡ at + 1 }
    {
        let first = if self.first == self.end {
            at
        } else {
            self.first
        };
        Span { first, end: at + 1 }
    }
}

/// For each hart a span that holds the banks whose home it is.
pub(crate) fn spans(decls: &[BankDecl]) -> [Span; HARTS]
    requires few { length decls.now ≤ 4 }
    ensures { Spans (length decls.now) decls.now result }
{
    let mut spans = [Span { first: 0, end: 0 }; HARTS];
    for at in 0..decls.len() {
        let home = decls[at].home as usize;
        spans[home] = spans[home].up_to(at as u8);
    }
    spans
}
