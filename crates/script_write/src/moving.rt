//! A plan of version 1 as one of version 2.

ghost use Rattle.std.specs.Prelude.{◌≡◌, map};
ghost use Rattle.board_plan.specs.Canonical.{with_gather_1, moved};

use board_plan::{BankDecl, List, Plan};

fn gather_1(banks: &mut List<BankDecl>)
    ensures { banks.new ≡ map with_gather_1 banks.old }
{
    for i in 0..banks.as_slice().len() {
        let bank = banks.as_slice()[i];
        banks.set(i, BankDecl { gather: 1, ..bank });
    }
}

/// Moves a plan to version 2: its banks go on gathering one copy, and all else stays. A plan of version 2 stays
/// as it is. The rule is this project's own.
pub fn moved(plan: &mut Plan)
    ensures { plan.new ≡ moved plan.old }
{
    if plan.version != 2 {
        plan.version = 2;
        gather_1(&mut plan.banks);
    }
}
