//! A performance monitor, as a device.

ghost use Rattle.std.specs.Prelude.{◌≡◌};
ghost use Rattle.ras_pulse.specs.Lists.{pulse, pulses};

use ras_device::{Act, ErrorDevice};
use reri_fields::{Report, Severity};

/// The event that a counter's overflow raises (SBI 3.0: the local PMU overflow event).
const OVERFLOW: u32 = 0x0001_0000;

/// A performance monitor: its pulses are errors for a bank that no board has, and after each period of them its
/// overflow is raised. This project's own.
#[derive(Clone, Copy, Debug, PartialEq, Eq)]
pub struct PmuDevice {
    hart: u8,
    period: u16,
    before: u16,
    overflows: u16,
}

/// A pulse, which is a stray error on each board.
fn pulse() -> Act
    ensures { result ≡ pulse }
{
    Act::Error(Report {
        bank: 255,
        rec: 255,
        severity: Severity::Ce,
        priority: 0,
        code: 0,
        address: 0,
        info: 0,
        supplement: 0,
        time: 0,
    })
}

impl PmuDevice {
    /// A device of `n` groups, each of `period` pulses and then one raise of the overflow event on the hart. A pulse is
    /// a corrected error for record 255 of bank 255, with code 0.
    pub fn new(hart: u8, period: u16, n: u16) -> PmuDevice
        ensures { (⟦<PmuDevice as ErrorDevice>⟧.left result).acts ≡ pulses hart period n }
    {
        PmuDevice {
            hart,
            period,
            before: period,
            overflows: n,
        }
    }
}

impl ErrorDevice for PmuDevice {
    ghost use Rattle.ras_pulse.specs.Left.{pulses_left};

    ghost left = { λ d. pulses_left d.hart d.period d.before d.overflows };

    fn next(&mut self) -> Option<Act> {
        if self.overflows == 0 {
            return None;
        }
        if self.before > 0 {
            self.before -= 1;
            return Some(pulse());
        }
        self.before = self.period;
        self.overflows -= 1;
        Some(Act::Raise {
            id: OVERFLOW,
            hart: self.hart,
        })
    }
}
