//! Error status blocks, and the slot of one.

use ghes_block::{Block, MOST_BYTES, Slot, decode, decode_all, encode, encode_all, is_copy};
use reri_fields::RecordCopy;

// A corrected error of priority 1 and code 3 at 0x1000 with info 5 and time 9.
const COPY: RecordCopy = RecordCopy {
    control: 0x95,
    status: 0x3_0093,
    address: 0x1000,
    info: 5,
    supplement: 0,
    time: 9,
};

const BLOCK: Block = [
    0x12, 0, 0, 0, 0, 0, 0, 0, 0, 0, 0, 0, 0x78, 0, 0, 0, 2, 0, 0, 0, 0x52, 0x45, 0x52, 0x49, 0x2d,
    0x52, 0x45, 0x43, 0x4f, 0x52, 0x44, 0x2d, 0x30, 0x30, 0x30, 0x31, 2, 0, 0, 0, 0, 3, 0, 0, 0x30,
    0, 0, 0, 0, 0, 0, 0, 0, 0, 0, 0, 0, 0, 0, 0, 0, 0, 0, 0, 0, 0, 0, 0, 0, 0, 0, 0, 0, 0, 0, 0, 0,
    0, 0, 0, 0, 0, 0, 0, 0, 0, 0, 0, 0, 0, 0, 0, 0x95, 0, 0, 0, 0, 0, 0, 0, 0x93, 0, 3, 0, 0, 0, 0,
    0, 0, 0x10, 0, 0, 0, 0, 0, 0, 5, 0, 0, 0, 0, 0, 0, 0, 0, 0, 0, 0, 0, 0, 0, 0, 9, 0, 0, 0, 0, 0,
    0, 0,
];

// That one, an uncorrected error that came twice, a deferred one, and a record with errors of each severity.
const FOUR: [RecordCopy; 4] = [
    COPY,
    RecordCopy {
        control: 0x97,
        status: 0x2_0049,
        address: 0x2000,
        info: 1,
        supplement: 2,
        time: 3,
    },
    RecordCopy {
        control: 0x95,
        status: 0x1_0005,
        address: 0x3000,
        info: 0,
        supplement: 0,
        time: 4,
    },
    RecordCopy {
        control: 0x95,
        status: 0x2_000f,
        address: 0x4000,
        info: 6,
        supplement: 7,
        time: 8,
    },
];

const BLOCK_OF_FOUR: [u8; 500] = [
    0x47, 0, 0, 0, 0, 0, 0, 0, 0, 0, 0, 0, 0xe0, 1, 0, 0, 1, 0, 0, 0, 0x52, 0x45, 0x52, 0x49, 0x2d,
    0x52, 0x45, 0x43, 0x4f, 0x52, 0x44, 0x2d, 0x30, 0x30, 0x30, 0x31, 2, 0, 0, 0, 0, 3, 0, 0, 0x30,
    0, 0, 0, 0, 0, 0, 0, 0, 0, 0, 0, 0, 0, 0, 0, 0, 0, 0, 0, 0, 0, 0, 0, 0, 0, 0, 0, 0, 0, 0, 0, 0,
    0, 0, 0, 0, 0, 0, 0, 0, 0, 0, 0, 0, 0, 0, 0, 0x95, 0, 0, 0, 0, 0, 0, 0, 0x93, 0, 3, 0, 0, 0, 0,
    0, 0, 0x10, 0, 0, 0, 0, 0, 0, 5, 0, 0, 0, 0, 0, 0, 0, 0, 0, 0, 0, 0, 0, 0, 0, 9, 0, 0, 0, 0, 0,
    0, 0, 0x52, 0x45, 0x52, 0x49, 0x2d, 0x52, 0x45, 0x43, 0x4f, 0x52, 0x44, 0x2d, 0x30, 0x30, 0x30,
    0x31, 1, 0, 0, 0, 0, 3, 0, 0, 0x30, 0, 0, 0, 0, 0, 0, 0, 0, 0, 0, 0, 0, 0, 0, 0, 0, 0, 0, 0, 0,
    0, 0, 0, 0, 0, 0, 0, 0, 0, 0, 0, 0, 0, 0, 0, 0, 0, 0, 0, 0, 0, 0, 0, 0, 0, 0, 0, 0x97, 0, 0, 0,
    0, 0, 0, 0, 0x49, 0, 2, 0, 0, 0, 0, 0, 0, 0x20, 0, 0, 0, 0, 0, 0, 1, 0, 0, 0, 0, 0, 0, 0, 2, 0,
    0, 0, 0, 0, 0, 0, 3, 0, 0, 0, 0, 0, 0, 0, 0x52, 0x45, 0x52, 0x49, 0x2d, 0x52, 0x45, 0x43, 0x4f,
    0x52, 0x44, 0x2d, 0x30, 0x30, 0x30, 0x31, 0, 0, 0, 0, 0, 3, 0, 0, 0x30, 0, 0, 0, 0, 0, 0, 0, 0,
    0, 0, 0, 0, 0, 0, 0, 0, 0, 0, 0, 0, 0, 0, 0, 0, 0, 0, 0, 0, 0, 0, 0, 0, 0, 0, 0, 0, 0, 0, 0, 0,
    0, 0, 0, 0, 0, 0, 0, 0x95, 0, 0, 0, 0, 0, 0, 0, 5, 0, 1, 0, 0, 0, 0, 0, 0, 0x30, 0, 0, 0, 0, 0,
    0, 0, 0, 0, 0, 0, 0, 0, 0, 0, 0, 0, 0, 0, 0, 0, 0, 4, 0, 0, 0, 0, 0, 0, 0, 0x52, 0x45, 0x52,
    0x49, 0x2d, 0x52, 0x45, 0x43, 0x4f, 0x52, 0x44, 0x2d, 0x30, 0x30, 0x30, 0x31, 1, 0, 0, 0, 0, 3,
    0, 0, 0x30, 0, 0, 0, 0, 0, 0, 0, 0, 0, 0, 0, 0, 0, 0, 0, 0, 0, 0, 0, 0, 0, 0, 0, 0, 0, 0, 0, 0,
    0, 0, 0, 0, 0, 0, 0, 0, 0, 0, 0, 0, 0, 0, 0, 0, 0, 0, 0, 0x95, 0, 0, 0, 0, 0, 0, 0, 0xf, 0, 2,
    0, 0, 0, 0, 0, 0, 0x40, 0, 0, 0, 0, 0, 0, 6, 0, 0, 0, 0, 0, 0, 0, 7, 0, 0, 0, 0, 0, 0, 0, 8, 0,
    0, 0, 0, 0, 0, 0,
];

#[test]
fn known_block(rt: HostRuntime) {
    assert!(rt; is_copy(&COPY));
    assert_eq!(rt; encode(&COPY).as_slice(), BLOCK.as_slice());
    assert_eq!(rt; decode(BLOCK.as_slice()), Some(COPY));
}

// Each severity, with and without several errors of it: Block Status and Error Severity.
#[test]
fn each_severity(rt: HostRuntime) {
    let rows = [
        (0x3, 0x12, 2),
        (0x43, 0x1a, 2),
        (0x5, 0x11, 0),
        (0x45, 0x15, 0),
        (0x9, 0x11, 1),
        (0x49, 0x15, 1),
    ];
    for (status, block_status, severity) in rows {
        let copy = RecordCopy { status, ..COPY };
        assert!(rt; is_copy(&copy));
        let block = encode(&copy);
        assert_eq!(rt; block[0], block_status);
        assert_eq!(rt; block[16], severity);
        assert_eq!(rt; block[36], severity);
        assert_eq!(rt; decode(&block), Some(copy));
    }
}

#[test]
fn no_block_can_hold(rt: HostRuntime) {
    let rows = [0x2, 0x1, 0x203, 0x100_0003, 0x1_0000_0000_0003];
    for status in rows {
        assert!(rt; !is_copy(&RecordCopy { status, ..COPY }));
    }
    assert!(rt;
        !is_copy(&RecordCopy {
            control: 0x195,
            ..COPY
        })
    );
}

// Every byte before the registers is given by them, those that are 0 too.
#[test]
fn changed_bytes_are_no_block(rt: HostRuntime) {
    for place in 0..92 {
        let mut block = BLOCK;
        block[place] ^= 1;
        assert_eq!(rt; decode(&block), None);
    }
}

fn front(block: &Block) -> &[u8] {
    &block[..139]
}

#[test]
fn other_lengths_are_no_block(rt: HostRuntime) {
    assert_eq!(rt; decode(front(&BLOCK)), None);
    let mut longer = [0; 141];
    longer[..140].copy_from_slice(&BLOCK);
    assert_eq!(rt; decode(&longer), None);
    assert_eq!(rt; decode(&[]), None);
}

// Copies of two records: Block Status, Data Length and Error Severity.
#[test]
fn two_copies(rt: HostRuntime) {
    let rows = [
        (0x3, 0x3, 0x2a, 2),
        (0x3, 0x5, 0x23, 0),
        (0x5, 0x9, 0x25, 1),
        (0x43, 0x9, 0x2b, 1),
        (0x1_0083, 0x2_0089, 0x23, 1),
    ];
    for (first, second, block_status, severity) in rows {
        let copies = [
            RecordCopy {
                status: first,
                ..COPY
            },
            RecordCopy {
                status: second,
                ..COPY
            },
        ];
        let mut out = [0xee; 500];
        assert_eq!(rt; encode_all(&copies, &mut out), 260);
        assert_eq!(rt; out[0], block_status);
        assert_eq!(rt; out[12], 240);
        assert_eq!(rt; out[16], severity);
        assert_eq!(rt; out[260], 0xee);
        let read = decode_all(&out[..260]);
        assert!(rt; read.is_some_and(|read| read.as_slice() == copies.as_slice()));
        assert_eq!(rt; decode(&out[..260]), None);
    }
}

#[test]
fn four_copies(rt: HostRuntime) {
    let mut out = [0; 500];
    assert_eq!(rt; encode_all(&FOUR, &mut out), MOST_BYTES);
    assert_eq!(rt; out.as_slice(), BLOCK_OF_FOUR.as_slice());
    let read = decode_all(&BLOCK_OF_FOUR);
    assert!(rt; read.is_some_and(|read| read.as_slice() == FOUR.as_slice()));
}

// Every byte but the registers is given by them, and a block ends with an entry.
#[test]
fn changed_bytes_are_no_block_of_four(rt: HostRuntime) {
    for place in [0, 12, 16, 20, 36, 48, 140, 156, 160, 168, 260, 380, 451] {
        let mut block = BLOCK_OF_FOUR;
        block[place] ^= 1;
        assert!(rt; decode_all(&block).is_none());
    }
    for length in [0, 20, 139, 140, 259, 260, 380, 499] {
        assert!(rt; decode_all(&BLOCK_OF_FOUR[..length]).is_none());
    }
}

#[test]
fn slot_holds_up_to_four_copies(rt: HostRuntime) {
    let mut slot = Slot::new();
    assert!(rt; slot.is_free());
    assert!(rt; slot.bytes().is_empty());
    assert!(rt; !slot.acknowledge());
    slot.append(&COPY);
    assert!(rt; !slot.is_free());
    assert_eq!(rt; slot.bytes(), BLOCK.as_slice());
    slot.append(&FOUR[1]);
    slot.append(&FOUR[2]);
    slot.append(&FOUR[3]);
    assert_eq!(rt; slot.copies(), FOUR.as_slice());
    assert_eq!(rt; slot.bytes(), BLOCK_OF_FOUR.as_slice());
    assert!(rt; slot.acknowledge());
    assert!(rt; slot.is_free());
    assert!(rt; slot.copies().is_empty());
    slot.append(&COPY);
    assert_eq!(rt; slot.bytes(), BLOCK.as_slice());
}
