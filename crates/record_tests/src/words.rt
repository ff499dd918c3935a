//! Control and status words by name.
ghost use Rattle.std.specs.Prelude.{◌<◌};

use reri_fields::{Control, Status};

/// Enabled. Corrected and deferred errors are signalled at low priority, critical ones at high.
pub const PLAIN: u64 = 0x95;

/// The same, with corrected errors counted.
pub const COUNTING: u64 = 0x97;

/// The same as `PLAIN`, but not enabled.
pub const DISABLED: u64 = 0x94;

/// The same as `PLAIN`, but corrected errors are not signalled.
pub const QUIET: u64 = 0x91;

/// The status of a valid record that shows an error of this priority and code.
pub fn shows(priority: u8, code: u8) -> Status
    requires { priority < 4 }
{
    Status(0)
        .with_valid(true)
        .with_priority(priority)
        .with_code(code)
}

#[test]
fn controls_are_what_their_names_say(rt: HostRuntime) {
    let plain = Control(0)
        .with_enable(true)
        .with_ce_signal(1)
        .with_ued_signal(1)
        .with_uec_signal(2);
    assert_eq!(rt; plain.0, PLAIN);
    assert_eq!(rt; plain.with_counting(true).0, COUNTING);
    assert_eq!(rt; plain.with_enable(false).0, DISABLED);
    assert_eq!(rt; plain.with_ce_signal(0).0, QUIET);
}
