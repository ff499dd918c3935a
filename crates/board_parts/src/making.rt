//! How the parts of a board are made of its plan.

ghost use Rattle.std.specs.Prelude.{◌≡◌, ◌≤◌, ◌<◌, ℕ, true, Some, All, IfOk, length, map, replicate, slice_get};
ghost use Rattle.std.specs.List.{range_with_len};
ghost use Rattle.reri_fields.specs.Drain.{bank_start};
ghost use Rattle.reri_bank.specs.Registers.{origin_of as origin_from};
ghost use Rattle.board_plan.specs.declared.plan.RecDecl.{RecDecl};
ghost use Rattle.board_plan.specs.State.{bank_plan, budget_of, no_counts, origin_of, start_of, start_places, start_state};
ghost use Rattle.board_plan.specs.Plans.{IsPlan};
ghost use Rattle.board_bank.specs.Standing.{StandsFor};
ghost use Rattle.board_parts.specs.Shows.{AreBanks, Shows};

use crate::counting::HartCounts;
use crate::homes::spans;
use crate::parts::Parts;
use crate::progress::Progress;
use board_bank::BoardBank;
use board_ops::OpIndex;
use board_plan::{BankDecl, List, Plan, RecDecl, Reporter, Start};
use ras_io::NoMemory;
use sbi_sse::Firmware;
use std::alloc::Global;

// ---- Harts ----

/// How many steps a hart may make, by the first start that names it; 0 where none does.
fn budget(starts: &[Start], hart: u8) -> u16
    ensures { result ≡ budget_of hart starts.now }
{
    for start in starts {
        if start.hart == hart {
            return start.budget;
        }
    }
    0
}

/// Where a hart begins, by the first start that names it; at 0 where none does.
fn place(starts: &[Start], hart: u8) -> u64
    ensures { result ≡ start_of hart starts.now }
{
    for start in starts {
        if start.hart == hart {
            return start.pc;
        }
    }
    0
}

/// The budget of each hart.
fn budgets(alloc: Global, harts: u8, starts: &[Start]) -> Result<Vec<u16>, NoMemory>
    ensures { IfOk result (λ v. v.items ≡ map (λ h. budget_of h starts.now) (range_with_len 0 harts)) }
{
    let mut budgets = List::new(alloc);
    for hart in 0..harts {
        budgets.push(budget(starts, hart))?;
    }
    Ok(budgets.into_vec())
}

/// Where each hart begins.
fn places(alloc: Global, harts: u8, starts: &[Start]) -> Result<Vec<u64>, NoMemory>
    ensures { IfOk result (λ v. v.items ≡ start_places harts starts.now) }
{
    let mut places = List::new(alloc);
    for hart in 0..harts {
        places.push(place(starts, hart))?;
    }
    Ok(places.into_vec())
}

/// What is counted of harts that have made no step.
fn fresh_counts(alloc: Global, harts: u8) -> Result<Vec<HartCounts>, NoMemory>
    ensures { IfOk result (λ v. v.items ≡ replicate harts no_counts) }
{
    let mut counts = List::new(alloc);
    for hart in 0..harts {
        counts.push(HartCounts::new())?;
    }
    Ok(counts.into_vec())
}

// ---- Reporters ----

/// How many acts each reporter may make.
fn limits(alloc: Global, reporters: &[Reporter]) -> Result<Vec<u16>, NoMemory>
    ensures { IfOk result (λ v. v.items ≡ map (λ r. r.limit) reporters.now) }
{
    reporters
        .iter()
        .map(|reporter| reporter.limit)
        .collect(alloc)
        .map_err(|_| NoMemory)
}

/// So many reporters that are plugged and have made no act.
fn fresh_reporters(alloc: Global, count: usize) -> Result<Vec<Progress>, NoMemory>
    ensures { IfOk result (λ v. v.items ≡ replicate count (record { made = 0; plugged = true })) }
{
    let mut reporters = List::new(alloc);
    for reporter in 0..count {
        reporters.push(Progress::new())?;
    }
    Ok(reporters.into_vec())
}

// ---- Banks ----

/// The control word and the starting count of a record, by the first declaration that names it; 0 where none does.
fn origin(recs: &[RecDecl], bank: u8, rec: u8) -> (u64, u16)
    requires { (i : ℕ) (d : RecDecl) → slice_get recs.now i ≡ Some d → d.control ≤ 0xff }
    ensures value { origin_from result ≡ origin_of bank rec recs.now }
    ensures control { result.0 ≤ 0xff }
{
    for decl in recs {
        if decl.bank == bank && decl.rec == rec {
            return (decl.control, decl.count);
        }
    }
    (0, 0)
}

/// The control words and the starting counts of a bank's records.
fn origins(
    alloc: Global,
    recs: &[RecDecl],
    bank: u8,
    count: u8,
) -> Result<Vec<(u64, u16)>, NoMemory>
    requires { (i : ℕ) (d : RecDecl) → slice_get recs.now i ≡ Some d → d.control ≤ 0xff }
    ensures values { IfOk result
        (λ v. map origin_from v.items ≡ map (λ rec. origin_of bank rec recs.now) (range_with_len 0 count)) }
    ensures controls { IfOk result (λ v. All (λ first. first.0 ≤ 0xff) v.items) }
{
    let mut origins = List::new(alloc);
    for rec in 0..count {
        origins.push(origin(recs, bank, rec))?;
    }
    Ok(origins.into_vec())
}

/// A bank to which nothing has happened yet.
fn bank(alloc: Global, plan: &Plan, bank: u8, decl: &BankDecl) -> Result<BoardBank, NoMemory>
    requires plan { IsPlan plan.now }
    requires declared { slice_get plan.now.banks bank ≡ Some decl.now }
    ensures { IfOk result (λ b. StandsFor (bank_plan bank decl.now plan.now.recs) bank_start b) }
{
    let origins = origins(alloc, plan.recs.as_slice(), bank, decl.recs)?;
    BoardBank::new(alloc, origins.as_slice(), decl.gather)
}

/// The banks of a plan, to which nothing has happened yet.
fn banks(alloc: Global, plan: &Plan) -> Result<Vec<BoardBank>, NoMemory>
    requires { IsPlan plan.now }
    ensures { IfOk result (λ v. AreBanks plan.now (map (λ d. bank_start) plan.now.banks) v.items) }
{
    let mut banks = List::new(alloc);
    let decls = plan.banks.as_slice();
    for at in 0..decls.len() {
        banks.push(bank(alloc, plan, at as u8, &decls[at])?)?;
    }
    Ok(banks.into_vec())
}

// ---- All parts ----

/// The firmware at its start.
fn firmware(alloc: Global, plan: &Plan) -> Result<Firmware, NoMemory>
    requires { IsPlan plan.now }
    ensures { IfOk result (λ f. f ≡ (start_state plan.now).machine) }
{
    let places = places(alloc, plan.harts, plan.starts.as_slice())?;
    Firmware::new(alloc, plan.harts, plan.events.as_slice(), places.as_slice())
}

impl Parts {
    /// The parts of a plan's board before its first step. `NoMemory` comes only where no room was found for them.
    pub fn new(alloc: Global, plan: &Plan) -> Result<Parts, NoMemory>
        requires { IsPlan plan.now }
        ensures shows { IfOk result (λ p. Shows plan.now (start_state plan.now) p) }
    {
        let reporters = plan.reporters.as_slice();
        let firmware = firmware(alloc, plan)?;
        let index = OpIndex::new(alloc, plan.ops.as_slice())?;
        let decls = plan.banks.copy(alloc)?;
        let homes = spans(decls.as_slice());
        let banks = banks(alloc, plan)?;
        let budgets = budgets(alloc, plan.harts, plan.starts.as_slice())?;
        let counts = fresh_counts(alloc, plan.harts)?;
        let limits = limits(alloc, reporters)?;
        let progress = fresh_reporters(alloc, reporters.len())?;
        Ok(Parts {
            firmware,
            index,
            decls: decls.into_vec(),
            homes,
            banks,
            heard: false,
            budgets,
            counts,
            limits,
            reporters: progress,
        })
    }
}
