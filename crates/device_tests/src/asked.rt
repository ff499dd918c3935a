//! A device that has nothing to give, and counts how often it is asked.

use ras_device::{Act, ErrorDevice};
use std::alloc::{AllocError, Global};
use std::sync::Arc;
use std::sync::atomic::{AtomicU64, Ordering};

/// How often devices were asked.
pub(crate) type Asks = Arc<AtomicU64, Global>;

/// None was asked so far.
pub(crate) fn no_asks(alloc: Global) -> Result<Asks, AllocError> {
    Ok(Arc::new(alloc, AtomicU64::new(0))?)
}

/// A device that has nothing to give, and counts how often it is asked.
#[derive(Drop)]
pub(crate) struct Asked {
    asks: Asks,
}

impl Asked {
    pub(crate) fn new(asks: Asks) -> Asked {
        Asked { asks }
    }
}

impl ErrorDevice for Asked {
    ghost use Rattle.ras_device.specs.Acts.{nothing};

    ghost left = { λ d. nothing };

    fn next(&mut self) -> Option<Act> {
        self.asks.fetch_add(1, Ordering::SeqCst);
        None
    }
}
