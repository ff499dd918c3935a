//! A device whose errors come over many records.

ghost use Rattle.std.specs.Prelude.{◌≡◌, ◌-◌, ◌≤◌, ◌<◌};
ghost use Rattle.ras_device.specs.Lists.{storms, turn_of};

use crate::act::Act;
use crate::device::ErrorDevice;
use reri_fields::{Report, Severity};

/// A device whose errors come over the records of a bank in turn, of each severity and of each priority. This project's
/// own.
#[derive(Clone, Copy, Debug, PartialEq, Eq)]
pub struct Storm {
    bank: u8,
    recs: u8,
    next: u16,
    end: u16,
    ghost within: { next ≤ end },
    ghost some: { 0 < recs },
}

impl Storm {
    /// A device of `n` errors over so many records of a bank, at least one. Error i comes to record i modulo `recs`;
    /// its severity is CE, UED and UEC in turn, its priority i / 3 modulo 4 and its code 2; it struck at address
    /// 0x100000 + 64 i, and has i as its info and its time.
    pub fn new(bank: u8, recs: u8, n: u16) -> Storm
        requires { 0 < recs }
        ensures { (⟦<Storm as ErrorDevice>⟧.left result).acts ≡ storms bank recs n }
    {
        Storm {
            bank,
            recs,
            next: 0,
            end: n,
        }
    }
}

/// The severity whose turn it is.
fn severity(turn: u16) -> Severity
    ensures { result ≡ turn_of turn }
{
    match turn {
        0 => Severity::Ce,
        1 => Severity::Ued,
        _ => Severity::Uec,
    }
}

impl ErrorDevice for Storm {
    ghost use Rattle.ras_device.specs.Left.{storms_from};

    ghost left = { λ d. storms_from d.bank d.recs d.next (d.end - d.next) };

    fn next(&mut self) -> Option<Act> {
        if self.next == self.end {
            return None;
        }
        let i = self.next;
        let number = u64::from(i);
        self.next += 1;
        Some(Act::Error(Report {
            bank: self.bank,
            rec: (i % u16::from(self.recs)) as u8,
            severity: severity(i % 3),
            priority: (i / 3 % 4) as u8,
            code: 2,
            address: 0x100000 + 64 * number,
            info: number,
            supplement: 0,
            time: number,
        }))
    }
}
