//! Stripe footers, and each condition that refuses one.
use crate::reading::store_of;
use orc_proto::WireFault;
use orc_tail::{StreamRange, Stripe, TailFault, read_stripe_footer, stream_of};
use outside::{Failed, FileRef, RealWorld, StoreReader};
use std::alloc::Global;
use test_stores::WORKED_FILE;

/// The worked file.
const WHOLE: FileRef = FileRef { number: 0, len: 68 };

const STRIPE: Stripe = Stripe {
    at: 3,
    index_len: 0,
    body_len: 3,
    footer_len: 16,
    rows: 100,
};

const STREAM: StreamRange = StreamRange {
    kind: 1,
    column: 1,
    at: 3,
    len: 3,
};

/// Whether the whole file's stripe has its one stream, none of another kind or column, and two encodings, and its footer
/// is one read.
fn footer_is_read(alloc: Global) -> Option<bool> {
    let mut store = store_of(alloc, &WORKED_FILE);
    let mut reader = StoreReader::<RealWorld, _>::new(&mut store);
    let footer = read_stripe_footer(alloc, &mut reader, WHOLE, &STRIPE).ok()?;
    let streams = stream_of(&footer, 1, 1) == Some(STREAM);
    let no_others = stream_of(&footer, 0, 1).is_none() && stream_of(&footer, 1, 0).is_none();
    let encodings = footer.encodings.as_slice().len() == 2;
    Some(streams && no_others && encodings && store.reads.as_slice() == [(6, 16)].as_slice())
}

#[test]
fn a_stripe_footer_is_read(rt: HostRuntime) {
    assert!(rt; footer_is_read(rt.alloc()) == Some(true));
}

/// Footers of four bytes, and why each is refused. The last is cut.
const REFUSED: [(&[u8], TailFault); 4] = [
    (
        b"\x12\x02\x08\x80",
        TailFault::Wire(WireFault::Truncated(0)),
    ),
    (b"\x0A\x02\x18\x03", TailFault::StreamOutOfStripe),
    (b"\x0A\x02\x18\x01", TailFault::RootPresent),
    (b"\x0A\x00\x12", TailFault::Read(Failed)),
];

/// Why the footer of a stripe of two bytes is refused.
fn footer_fault(alloc: Global, footer: &[u8]) -> Option<TailFault> {
    let stripe = Stripe {
        at: 0,
        index_len: 0,
        body_len: 2,
        footer_len: 4,
        rows: 1,
    };
    let mut bytes = Vec::new(alloc);
    bytes.extend_from_slice(b"ab").ok()?;
    bytes.extend_from_slice(footer).ok()?;
    let mut store = store_of(alloc, bytes.as_slice());
    let mut reader = StoreReader::<RealWorld, _>::new(&mut store);
    read_stripe_footer(alloc, &mut reader, FileRef { number: 0, len: 6 }, &stripe).err()
}

#[test]
fn each_condition_refuses_a_stripe_footer(rt: HostRuntime) {
    for (footer, fault) in &REFUSED {
        assert!(rt; footer_fault(rt.alloc(), footer) == Some(*fault));
    }
}
