//! A feed over slices, and what is taken from it.
use outside::{Feed, RunFault, SliceFeed, take_byte, take_exactly, take_varint, take_varints};
use std::alloc::Global;

/// Two streams: bytes, and varints.
const BYTES: [u8; 3] = [1, 2, 3];

const VARINTS: [u8; 8] = [0x00, 0x7F, 0xAC, 0x02, 0x80, 0x80, 0x01, 0x2A];

fn two_streams(alloc: Global) -> Option<SliceFeed<'static>> {
    let mut streams = Vec::new(alloc);
    streams.push(BYTES.as_slice()).ok()?;
    streams.push(VARINTS.as_slice()).ok()?;
    Some(SliceFeed::new(streams))
}

/// The varints of these bytes, at most two, or their first fault.
fn two_varints(alloc: Global, bytes: &[u8]) -> Option<Result<[u64; 2], RunFault>> {
    let mut streams = Vec::new(alloc);
    streams.push(bytes).ok()?;
    let mut out = [0u64; 2];
    Some(take_varints(&mut SliceFeed::new(streams), 0, &mut out).map(|()| out))
}

/// Whether streams are told apart, and each gives its bytes in order, to its end.
fn takes_in_order(alloc: Global) -> Option<bool> {
    let mut feed = two_streams(alloc)?;
    let mut two = [0u8; 2];
    let first = take_byte(&mut feed, 0) == Ok(1) && take_varint(&mut feed, 1) == Ok(0);
    let next = take_exactly(&mut feed, 0, &mut two) == Ok(()) && two == [2, 3];
    let past = take_byte(&mut feed, 0) == Err(RunFault::StreamEnds);
    let absent = feed.take(2, &mut two) == Ok(0);
    let mut left = [0u64; 4];
    let rest = take_varints(&mut feed, 1, &mut left) == Ok(()) && left == [127, 300, 16384, 42];
    Some(first && next && past && absent && rest)
}

/// Whether more bytes than there are is the end of the stream.
fn ends_early(alloc: Global) -> Option<bool> {
    let mut four = [0u8; 4];
    Some(take_exactly(&mut two_streams(alloc)?, 0, &mut four) == Err(RunFault::StreamEnds))
}

const TEN: [u8; 11] = [
    0xFF, 0xFF, 0xFF, 0xFF, 0xFF, 0xFF, 0xFF, 0xFF, 0xFF, 0x01, 0x05,
];

const LONG: [u8; 12] = [
    0x07, 0x80, 0x80, 0x80, 0x80, 0x80, 0x80, 0x80, 0x80, 0x80, 0x80, 0x00,
];

/// Whether ten bytes are a varint, and ten that go on are a long one.
fn ten_bytes_are_the_most(alloc: Global) -> bool {
    two_varints(alloc, &TEN) == Some(Ok([u64::MAX, 5]))
        && two_varints(alloc, &LONG) == Some(Err(RunFault::LongVarint))
        && two_varints(alloc, &TEN[..10]) == Some(Err(RunFault::StreamEnds))
}

#[test]
fn streams_give_their_bytes_in_order(rt: HostRuntime) {
    assert!(rt; takes_in_order(rt.alloc()) == Some(true));
    assert!(rt; ends_early(rt.alloc()) == Some(true));
}

#[test]
fn a_varint_has_at_most_ten_bytes(rt: HostRuntime) {
    assert!(rt; ten_bytes_are_the_most(rt.alloc()));
}
