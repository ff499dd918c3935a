//! Which pages to retire, by all copies that were published.

ghost use Rattle.std.specs.Prelude.{◌≡◌, ◌<◌, ◌^◌, length, IfOk};
ghost use Rattle.ras_policy.specs.Retired.{pages_of};

use crate::ledger::Ledger;
use crate::marks::Page;
use board_plan::Published;
use ras_io::NoMemory;
use std::alloc::Global;

/// The pages to retire, by rising page: those of the published copies with at least `threshold` copies whose greatest
/// severity is CE, or at least one whose greatest is UED or UEC. `NoMemory` comes where no memory was found.
pub fn pages(alloc: Global, blocks: &[Published], threshold: u16) -> Result<Vec<Page>, NoMemory>
    requires { length blocks.now < 2 ^ 32 }
    ensures { IfOk result (λ v. v.items ≡ pages_of threshold blocks.now) }
{
    let mut ledger = Ledger::with_room(alloc, blocks.len())?;
    for published in blocks {
        ledger.add(published);
    }
    ledger.list(alloc, threshold)
}
