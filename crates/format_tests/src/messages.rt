//! Messages of the wire format, packed numbers, and varints that are written.
use orc_proto::{Field, FieldValue, Fields, Packed, WireFault, varint_len, write_varint};

/// Bytes that are no message: how many whole fields they have in front, and the first fault.
struct Hostile {
    bytes: &'static [u8],
    whole: u64,
    fault: WireFault,
}

const HOSTILE: [Hostile; 20] = [
    // A key alone, and a key that is cut.
    Hostile {
        bytes: &[0x08],
        whole: 0,
        fault: WireFault::Truncated(0),
    },
    Hostile {
        bytes: &[0x08, 0x01, 0x80],
        whole: 1,
        fault: WireFault::Truncated(2),
    },
    // Values of each wire type that are cut.
    Hostile {
        bytes: &[0x08, 0x01, 0x10, 0x80],
        whole: 1,
        fault: WireFault::Truncated(2),
    },
    Hostile {
        bytes: &[0x09, 1, 2, 3, 4, 5, 6, 7],
        whole: 0,
        fault: WireFault::Truncated(0),
    },
    Hostile {
        bytes: &[0x12],
        whole: 0,
        fault: WireFault::Truncated(0),
    },
    Hostile {
        bytes: &[0x12, 0x00, 0x12, 0x03, 0x41, 0x42],
        whole: 1,
        fault: WireFault::Truncated(2),
    },
    Hostile {
        bytes: &[0x0D, 1, 2, 3],
        whole: 0,
        fault: WireFault::Truncated(0),
    },
    // A length of 2^64 - 1.
    Hostile {
        bytes: &[
            0x12, 0xFF, 0xFF, 0xFF, 0xFF, 0xFF, 0xFF, 0xFF, 0xFF, 0xFF, 0x01,
        ],
        whole: 0,
        fault: WireFault::Truncated(0),
    },
    // Nine top bits and the end, ten and the end, and eleven bytes.
    Hostile {
        bytes: &[0x80, 0x80, 0x80, 0x80, 0x80, 0x80, 0x80, 0x80, 0x80],
        whole: 0,
        fault: WireFault::Truncated(0),
    },
    Hostile {
        bytes: &[0x80, 0x80, 0x80, 0x80, 0x80, 0x80, 0x80, 0x80, 0x80, 0x80],
        whole: 0,
        fault: WireFault::LongVarint(0),
    },
    Hostile {
        bytes: &[
            0x08, 0x01, 0x10, 0x80, 0x80, 0x80, 0x80, 0x80, 0x80, 0x80, 0x80, 0x80, 0x80, 0x01,
        ],
        whole: 1,
        fault: WireFault::LongVarint(2),
    },
    Hostile {
        bytes: &[
            0x12, 0x80, 0x80, 0x80, 0x80, 0x80, 0x80, 0x80, 0x80, 0x80, 0x80, 0x00,
        ],
        whole: 0,
        fault: WireFault::LongVarint(0),
    },
    // Field numbers 0 and 2^29; the number is judged before the wire type.
    Hostile {
        bytes: &[0x08, 0x01, 0x00, 0x01],
        whole: 1,
        fault: WireFault::BadKey(2),
    },
    Hostile {
        bytes: &[0x80, 0x80, 0x80, 0x80, 0x10, 0x00],
        whole: 0,
        fault: WireFault::BadKey(0),
    },
    Hostile {
        bytes: &[0x03],
        whole: 0,
        fault: WireFault::BadKey(0),
    },
    // Groups, whole ones too, and wire types that mean nothing.
    Hostile {
        bytes: &[0x0B, 0x0C],
        whole: 0,
        fault: WireFault::BadWireType(0),
    },
    Hostile {
        bytes: &[0x08, 0x01, 0x0C],
        whole: 1,
        fault: WireFault::BadWireType(2),
    },
    Hostile {
        bytes: &[0x0E, 0x00],
        whole: 0,
        fault: WireFault::BadWireType(0),
    },
    Hostile {
        bytes: &[0x0F, 0x00],
        whole: 0,
        fault: WireFault::BadWireType(0),
    },
    Hostile {
        bytes: &[0x0D, 1, 2, 3, 4, 0x09, 1, 2, 3, 4, 5, 6, 7, 8, 0x0B],
        whole: 2,
        fault: WireFault::BadWireType(14),
    },
];

/// Whether a message has so many whole fields, then its fault, and then no more.
fn breaks(row: &Hostile) -> bool {
    let mut fields = Fields::new(row.bytes);
    for _ in 0..row.whole {
        if !matches!(fields.next(), Some(Ok(_))) {
            return false;
        }
    }
    fields.next() == Some(Err(row.fault)) && fields.next().is_none()
}

#[test]
fn hostile_messages_break_at_their_first_fault(rt: HostRuntime) {
    for row in &HOSTILE {
        assert!(rt; breaks(row));
    }
}

/// Whether a message has exactly these fields.
fn reads(bytes: &[u8], expected: &[Field<'_>]) -> bool {
    let mut fields = Fields::new(bytes);
    for field in expected {
        if fields.next() != Some(Ok(*field)) {
            return false;
        }
    }
    fields.next().is_none()
}

fn varint(number: u32, value: u64) -> Field<'static> {
    Field {
        number,
        value: FieldValue::Varint(value),
    }
}

fn bytes(number: u32, value: &[u8]) -> Field<'_> {
    Field {
        number,
        value: FieldValue::Bytes(value),
    }
}

/// The footer of a file with one stripe and one column of longs.
const FOOTER: [u8; 28] = [
    0x1A, 0x0A, 0x08, 0x03, 0x10, 0x00, 0x18, 0x03, 0x20, 0x10, 0x28, 0x64, 0x22, 0x08, 0x08, 0x0C,
    0x12, 0x01, 0x01, 0x1A, 0x01, 0x78, 0x22, 0x02, 0x08, 0x04, 0x30, 0x64,
];

const STRIPE: [u8; 10] = [0x08, 0x03, 0x10, 0x00, 0x18, 0x03, 0x20, 0x10, 0x28, 0x64];

const ROOT: [u8; 8] = [0x08, 0x0C, 0x12, 0x01, 0x01, 0x1A, 0x01, 0x78];

const POSTSCRIPT: [u8; 17] = [
    0x08, 0x1C, 0x10, 0x00, 0x22, 0x02, 0x00, 0x0C, 0x28, 0x00, 0x82, 0xF4, 0x03, 0x03, 0x4F, 0x52,
    0x43,
];

fn footer_is_read() -> bool {
    let fields = [
        bytes(3, &STRIPE),
        bytes(4, &ROOT),
        bytes(4, &[0x08, 0x04]),
        varint(6, 100),
    ];
    reads(&FOOTER, &fields)
}

fn stripe_is_read() -> bool {
    let fields = [
        varint(1, 3),
        varint(2, 0),
        varint(3, 3),
        varint(4, 16),
        varint(5, 100),
    ];
    reads(&STRIPE, &fields)
}

fn postscript_is_read() -> bool {
    let fields = [
        varint(1, 28),
        varint(2, 0),
        bytes(4, &[0x00, 0x0C]),
        varint(5, 0),
        bytes(8000, b"ORC"),
    ];
    reads(&POSTSCRIPT, &fields)
}

#[test]
fn the_tail_of_a_file_is_read_field_by_field(rt: HostRuntime) {
    assert!(rt; footer_is_read());
    assert!(rt; stripe_is_read());
    assert!(rt; postscript_is_read());
}

/// Behind the eight and the four bytes a key of ten bytes, whose low 64 bits count, then the greatest number.
const EACH_TYPE: [u8; 32] = [
    0x09, 1, 2, 3, 4, 5, 6, 7, 8, 0x15, 9, 8, 7, 6, 0x88, 0x80, 0x80, 0x80, 0x80, 0x80, 0x80, 0x80,
    0x80, 0x02, 0x05, 0xF8, 0xFF, 0xFF, 0xFF, 0x0F, 0x96, 0x01,
];

fn each_type_is_read() -> bool {
    let eight = Field {
        number: 1,
        value: FieldValue::Eight([1, 2, 3, 4, 5, 6, 7, 8]),
    };
    let four = Field {
        number: 2,
        value: FieldValue::Four([9, 8, 7, 6]),
    };
    reads(
        &EACH_TYPE,
        &[eight, four, varint(1, 5), varint(536_870_911, 150)],
    )
}

#[test]
fn each_wire_type_and_the_greatest_number_are_read(rt: HostRuntime) {
    assert!(rt; each_type_is_read());
}

/// Whether packed numbers are these, then the fault, and then no more.
fn packed_gives(bytes: &[u8], numbers: &[u64], fault: WireFault) -> bool {
    let mut packed = Packed::new(bytes);
    for number in numbers {
        if packed.next() != Some(Ok(*number)) {
            return false;
        }
    }
    packed.next() == Some(Err(fault)) && packed.next().is_none()
}

const CUT: [u8; 7] = [0x03, 0x8E, 0x02, 0x9E, 0xA7, 0x05, 0x80];

const LONG: [u8; 11] = [
    0x00, 0xFF, 0xFF, 0xFF, 0xFF, 0xFF, 0xFF, 0xFF, 0xFF, 0xFF, 0xFF,
];

#[test]
fn packed_numbers_are_read_up_to_their_first_fault(rt: HostRuntime) {
    assert!(rt; packed_gives(&CUT, &[3, 270, 86_942], WireFault::Truncated(6)));
    assert!(rt; packed_gives(&LONG, &[0], WireFault::LongVarint(1)));
}

/// Whether a number is written in these bytes, which are as many as its length says, and no others change.
fn writes(value: u64, expected: &[u8]) -> bool {
    let mut into = [7; 12];
    if varint_len(value) > into.len() {
        return false;
    }
    let len = write_varint(value, &mut into);
    let (written, rest) = into.split_at(len);
    written == expected && varint_len(value) == len && rest.iter().all(|byte| *byte == 7)
}

const GREATEST: [u8; 10] = [255, 255, 255, 255, 255, 255, 255, 255, 255, 1];

#[test]
fn varints_are_written_in_the_fewest_bytes(rt: HostRuntime) {
    assert!(rt; writes(0, &[0]));
    assert!(rt; writes(127, &[127]));
    assert!(rt; writes(150, &[0x96, 0x01]));
    assert!(rt; writes(u64::MAX, &GREATEST));
}
