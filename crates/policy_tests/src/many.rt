//! As many copies as a run can publish.
ghost use Rattle.std.specs.Prelude.{◌≡◌, ◌≤◌, ℕ, length, IfOk};
ghost use Rattle.std.specs.Vec.{vec_len};

use crate::tables::{ce, page};
use board_plan::Published;
use ras_io::NoMemory;
use ras_policy::{Ledger, Page, pages};
use std::alloc::Global;
use std::test::Fail;

// How many copies are tried.
const MANY: u32 = 80000;

// Corrected copies so many bytes apart, of which the first lies highest.
fn apart(alloc: Global, bytes: u16) -> Result<Vec<Published>, NoMemory>
    ensures { IfOk result (λ v. vec_len v ≡ 80000) }
{
    let mut copies = Vec::with_capacity(alloc, 80000).map_err(|_| NoMemory)?;
    for i in 0..MANY {
        let address = u64::from(bytes) * u64::from(MANY - i);
        copies.push(ce(address)).map_err(|_| NoMemory)?;
    }
    Ok(copies)
}

// A ledger to which these copies were added.
fn filled(alloc: Global, copies: &[Published]) -> Result<Ledger, NoMemory>
    requires { length copies.now ≤ 80000 }
{
    let mut ledger = Ledger::new(alloc, copies.len())?;
    for published in copies {
        ledger.add(published);
    }
    Ok(ledger)
}

// Whether these are the pages from 1 on, each with one corrected copy.
fn are_single(list: &[Page]) -> bool {
    for (i, listed) in list.iter().enumerate() {
        if *listed != page(i as u64 + 1, 1, 0) {
            return false;
        }
    }
    true
}

#[test]
fn each_on_its_own_page(rt: HostRuntime) -> Result<(), Fail> {
    let copies = apart(rt.alloc(), 4096)?;
    let listed = pages(rt.alloc(), copies.as_slice(), 1)?;
    assert_eq!(rt; listed.len(), 80000);
    assert!(rt; are_single(listed.as_slice()));
    let ledger = filled(rt.alloc(), copies.as_slice())?;
    let same = ledger.list(rt.alloc(), 1)?;
    assert_eq!(rt; same.len(), 80000);
    assert!(rt; are_single(same.as_slice()));
    Ok(())
}

#[test]
fn all_on_one_page(rt: HostRuntime) -> Result<(), Fail> {
    let copies = apart(rt.alloc(), 0)?;
    let listed = pages(rt.alloc(), copies.as_slice(), 1000)?;
    assert_eq!(rt; listed.as_slice(), [page(0, MANY, 0)].as_slice());
    let ledger = filled(rt.alloc(), copies.as_slice())?;
    assert_eq!(rt; ledger.page(0), Some(page(0, MANY, 0)));
    assert_eq!(rt; ledger.page(1), None);
    Ok(())
}
