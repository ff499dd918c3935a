//! A countdown, as a device.

ghost use Rattle.std.specs.Prelude.{◌≡◌};
ghost use Rattle.ras_pulse.specs.Lists.{countdown};

use ras_device::{Act, ErrorDevice};
use reri_fields::{Report, Severity};

/// A countdown: it raises an event at each count, and at its end there is an error. This project's own.
#[derive(Clone, Copy, Debug, PartialEq, Eq)]
pub struct CountdownDevice {
    id: u32,
    hart: u8,
    counts: u16,
    raises: u16,
    over: bool,
}

impl CountdownDevice {
    /// A device of `n` raises of the event on the hart, and then one corrected error for record 0 of bank 0, with code
    /// 3 and with `n` as its info and its time.
    pub fn new(id: u32, hart: u8, n: u16) -> CountdownDevice
        ensures { (⟦<CountdownDevice as ErrorDevice>⟧.left result).acts ≡ countdown id hart n }
    {
        CountdownDevice {
            id,
            hart,
            counts: n,
            raises: n,
            over: false,
        }
    }
}

impl ErrorDevice for CountdownDevice {
    ghost use Rattle.ras_pulse.specs.Left.{countdown_left};

    ghost left = { λ d. countdown_left d.over d.id d.hart d.raises d.counts };

    fn next(&mut self) -> Option<Act> {
        if self.over {
            return None;
        }
        if self.raises > 0 {
            self.raises -= 1;
            return Some(Act::Raise {
                id: self.id,
                hart: self.hart,
            });
        }
        self.over = true;
        Some(Act::Error(Report {
            bank: 0,
            rec: 0,
            severity: Severity::Ce,
            priority: 0,
            code: 3,
            address: 0,
            info: u64::from(self.counts),
            supplement: 0,
            time: u64::from(self.counts),
        }))
    }
}
