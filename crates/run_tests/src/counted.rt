//! A device over another that counts how often it is asked, and how often it is dropped.

ghost use Rattle.std.specs.Prelude.{◌≡◌, [], ◌∷◌, IfOk};

use ras_device::{Act, ErrorDevice, Scrubber};
use std::alloc::{AllocError, Global};
use std::sync::Arc;
use std::sync::atomic::{AtomicU64, Ordering};

/// A count that a test, its gate and its devices share.
pub(crate) type Count = Arc<AtomicU64, Global>;

/// A count that begins at 0.
pub(crate) fn count(alloc: Global) -> Result<Count, AllocError> {
    Ok(Arc::new(alloc, AtomicU64::new(0))?)
}

/// A device that counts for a test.
pub(crate) struct Counted<D: ErrorDevice> {
    pub(crate) inner: D,
    pub(crate) asks: Count,
    pub(crate) drops: Count,
}

impl<D: ErrorDevice> Drop for Counted<D> {
    fn drop(self) {
        self.drops.fetch_add(1, Ordering::SeqCst);
        let Counted {
            inner: _,
            asks: _,
            drops: _,
        } = self;
    }
}

impl<D: ErrorDevice> ErrorDevice for Counted<D> {
    ghost left = { λ d. D.left d.inner };

    fn next(&mut self) -> Option<Act> {
        self.asks.fetch_add(1, Ordering::SeqCst);
        self.inner.next()
    }
}

/// A scrubber of so many errors that counts.
pub(crate) fn scrubber(errors: u16, asks: Count, drops: Count) -> Counted<Scrubber> {
    Counted {
        inner: Scrubber::new(0, 0, errors),
        asks,
        drops,
    }
}

/// Three raises of an event on a hart.
pub(crate) fn three_raises(alloc: Global, id: u32, hart: u8) -> Result<Vec<Act>, AllocError>
    ensures { IfOk result (λ acts. acts.items ≡ Act.Raise id hart ∷ Act.Raise id hart ∷ Act.Raise id hart ∷ []) }
{
    let mut acts = Vec::new(alloc);
    acts.push(Act::Raise { id, hart })?;
    acts.push(Act::Raise { id, hart })?;
    acts.push(Act::Raise { id, hart })?;
    Ok(acts)
}
