//! How a board that keeps no notes is made of its plan.

ghost use Rattle.std.specs.Prelude.{◌≡◌, ◌≤◌, IfOk, sum_by};
ghost use Rattle.board_plan.specs.Plans.{IsPlan, most_steps};
ghost use Rattle.board_core.specs.OwnActs.{IsNew, Paired};
ghost use Rattle.board_core.specs.Played.{AreListsReports, IsSafe, fresh};

use crate::brief::Brief;
use crate::housed::Housed;
use crate::log::Log;
use crate::made::Made;
use board_fates::Tally;
use board_parts::Parts;
use board_plan::{List, Plan, Reporter, Start};
use ras_io::NoMemory;
use std::alloc::Global;

/// How many steps all harts may make.
fn all_budgets(starts: &[Start]) -> usize
    requires { sum_by (λ s. s.budget) starts.now ≤ 160000 }
    ensures { result ≡ sum_by (λ s. s.budget) starts.now }
{
    let mut total = 0;
    for start in starts {
        total += usize::from(start.budget);
    }
    total
}

/// How many acts all reporters may make.
fn all_limits(reporters: &[Reporter]) -> usize
    requires { sum_by (λ r. r.limit) reporters.now ≤ 160000 }
    ensures { result ≡ sum_by (λ r. r.limit) reporters.now }
{
    let mut total = 0;
    for reporter in reporters {
        total += usize::from(reporter.limit);
    }
    total
}

/// How many steps a run of a plan has at most.
fn most_steps(plan: &Plan) -> usize
    requires { IsPlan plan.now }
    ensures { result ≡ most_steps plan.now }
{
    all_budgets(plan.starts.as_slice()) + all_limits(plan.reporters.as_slice())
}

/// No acts of each reporter.
fn no_acts(alloc: Global, reporters: &[Reporter]) -> Result<Vec<Made>, NoMemory>
    ensures { IfOk result (λ v. Paired IsNew reporters.now v.items) }
{
    let mut acts = List::new(alloc);
    for reporter in reporters {
        acts.push(Made::new(alloc, reporter)?)?;
    }
    Ok(acts.into_vec())
}

impl Brief {
    /// A board of a plan before its first step. It takes over the plan, and takes all memory that its steps need.
    /// `NoMemory` comes only where no room was found for it.
    pub fn new(alloc: Global, plan: Plan) -> Result<Brief, NoMemory>
        requires plan { IsPlan plan }
        requires reports { AreListsReports plan }
        ensures fresh { IfOk result (λ b. b ≡ fresh plan) }
        ensures safe { IfOk result (λ b. IsSafe b) }
    {
        let parts = Parts::new(alloc, &plan)?;
        let housed = Housed::new(alloc, parts)?;
        let acts = no_acts(alloc, plan.reporters.as_slice())?;
        let log = Log::new(alloc, most_steps(&plan))?;
        Ok(Brief {
            plan,
            parts: housed,
            acts,
            log,
            tally: Tally::new(),
        })
    }
}
