//! A ledger, copy by copy.

use crate::tables::{ce, page, uec};
use ras_policy::Ledger;
use std::test::Fail;

#[test]
fn three_copies(rt: HostRuntime) -> Result<(), Fail> {
    let mut ledger = Ledger::new(rt.alloc(), 3)?;
    ledger.add(&ce(0x1000));
    ledger.add(&ce(0x1fff));
    ledger.add(&ce(0x5000));
    let listed = ledger.list(rt.alloc(), 2)?;
    assert_eq!(rt; listed.as_slice(), [page(1, 2, 0)].as_slice());
    assert_eq!(rt; ledger.page(5), Some(page(5, 1, 0)));
    assert_eq!(rt; ledger.page(2), None);
    Ok(())
}

#[test]
fn asked_between_copies(rt: HostRuntime) -> Result<(), Fail> {
    let mut ledger = Ledger::new(rt.alloc(), 2)?;
    assert_eq!(rt; ledger.page(0), None);
    ledger.add(&ce(0x8000));
    let early = ledger.list(rt.alloc(), 2)?;
    assert_eq!(rt; early.as_slice(), [].as_slice());
    ledger.add(&uec(0x8001));
    assert_eq!(rt; ledger.page(8), Some(page(8, 1, 1)));
    let late = ledger.list(rt.alloc(), 2)?;
    assert_eq!(rt; late.as_slice(), [page(8, 1, 1)].as_slice());
    Ok(())
}
