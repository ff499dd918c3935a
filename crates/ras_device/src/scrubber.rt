//! A device that comes upon corrected errors of one record.

ghost use Rattle.std.specs.Prelude.{◌≡◌, ◌-◌, ◌≤◌};
ghost use Rattle.ras_device.specs.Lists.{scrubs};

use crate::act::Act;
use crate::device::ErrorDevice;
use reri_fields::{Report, Severity};

/// A device that walks over memory and comes upon a corrected error at each page, all of one record. This project's
/// own.
#[derive(Clone, Copy, Debug, PartialEq, Eq)]
pub struct Scrubber {
    bank: u8,
    rec: u8,
    next: u16,
    end: u16,
    ghost within: { next ≤ end },
}

impl Scrubber {
    /// A device of `n` corrected errors of a record. Error i has code 1, struck at address 4096 i, and has i as its
    /// info and its time.
    pub fn new(bank: u8, rec: u8, n: u16) -> Scrubber
        ensures { (⟦<Scrubber as ErrorDevice>⟧.left result).acts ≡ scrubs bank rec n }
    {
        Scrubber {
            bank,
            rec,
            next: 0,
            end: n,
        }
    }
}

impl ErrorDevice for Scrubber {
    ghost use Rattle.ras_device.specs.Left.{scrubs_from};

    ghost left = { λ d. scrubs_from d.bank d.rec d.next (d.end - d.next) };

    fn next(&mut self) -> Option<Act> {
        if self.next == self.end {
            return None;
        }
        let number = u64::from(self.next);
        self.next += 1;
        Some(Act::Error(Report {
            bank: self.bank,
            rec: self.rec,
            severity: Severity::Ce,
            priority: 0,
            code: 1,
            address: 4096 * number,
            info: number,
            supplement: 0,
            time: number,
        }))
    }
}
