//! Fields of control and status words.

use reri_fields::{Control, Severity, Status};

// Each setter at both ends of its range: on a word of zeros and on a word of ones.
#[test]
fn control_setters(rt: HostRuntime) {
    let rows = [
        (Control(0).with_enable(true), 0x1),
        (Control(u64::MAX).with_enable(false), 0xffff_ffff_ffff_fffe),
        (Control(0).with_counting(true), 0x2),
        (
            Control(u64::MAX).with_counting(false),
            0xffff_ffff_ffff_fffd,
        ),
        (Control(0).with_ce_signal(3), 0xc),
        (Control(u64::MAX).with_ce_signal(0), 0xffff_ffff_ffff_fff3),
        (Control(0).with_ued_signal(3), 0x30),
        (Control(u64::MAX).with_ued_signal(0), 0xffff_ffff_ffff_ffcf),
        (Control(0).with_uec_signal(3), 0xc0),
        (Control(u64::MAX).with_uec_signal(0), 0xffff_ffff_ffff_ff3f),
    ];
    for (got, wanted) in rows {
        assert_eq!(rt; got.0, wanted);
    }
}

#[test]
fn status_setters(rt: HostRuntime) {
    let rows = [
        (Status(0).with_valid(true), 0x1),
        (Status(u64::MAX).with_valid(false), 0xffff_ffff_ffff_fffe),
        (Status(0).with_ce(true), 0x2),
        (Status(u64::MAX).with_ce(false), 0xffff_ffff_ffff_fffd),
        (Status(0).with_ued(true), 0x4),
        (Status(u64::MAX).with_ued(false), 0xffff_ffff_ffff_fffb),
        (Status(0).with_uec(true), 0x8),
        (Status(u64::MAX).with_uec(false), 0xffff_ffff_ffff_fff7),
        (Status(0).with_priority(3), 0x30),
        (Status(u64::MAX).with_priority(0), 0xffff_ffff_ffff_ffcf),
        (Status(0).with_multiple(true), 0x40),
        (Status(u64::MAX).with_multiple(false), 0xffff_ffff_ffff_ffbf),
        (Status(0).with_in_progress(true), 0x80),
        (
            Status(u64::MAX).with_in_progress(false),
            0xffff_ffff_ffff_ff7f,
        ),
        (Status(0).with_overflow(true), 0x100),
        (Status(u64::MAX).with_overflow(false), 0xffff_ffff_ffff_feff),
        (Status(0).with_code(255), 0xff_0000),
        (Status(u64::MAX).with_code(0), 0xffff_ffff_ff00_ffff),
        (Status(0).with_count(65535), 0xffff_0000_0000),
        (Status(u64::MAX).with_count(0), 0xffff_0000_ffff_ffff),
    ];
    for (got, wanted) in rows {
        assert_eq!(rt; got.0, wanted);
    }
}

#[test]
fn words_are_read(rt: HostRuntime) {
    let control = Control(0x95);
    assert!(rt; control.enable() && !control.counting() && control.is_clean());
    assert_eq!(rt; control.level(Severity::Ce), 1);
    assert_eq!(rt; control.level(Severity::Ued), 1);
    assert_eq!(rt; control.level(Severity::Uec), 2);
    let status = Status(0x1_0007_0103);
    assert!(rt; status.valid() && status.overflow() && status.is_clean());
    assert_eq!(rt; status.code(), 7);
    assert_eq!(rt; status.count(), 1);
    assert_eq!(rt; status.greatest(), Some(Severity::Ce));
    assert_eq!(rt; Status(0x1).greatest(), None);
    assert!(rt; !Status(0x200).is_clean());
}
