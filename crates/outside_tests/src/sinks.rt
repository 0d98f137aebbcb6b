//! Sinks in memory keep what they have room for, and fail at their writes.
use outside::{Failed, MemorySink, Sink, SureSink};
use std::alloc::Global;

/// What two writes of two bytes answer.
fn two_writes<K: Sink>(sink: &mut K) -> [Result<(), Failed>; 2] {
    let first = sink.write(&[5, 6]);
    [first, sink.write(&[7, 8])]
}

/// Whether a sure sink with that room takes both writes, and tells these bytes afterwards.
fn sure_keeps(alloc: Global, room: u32, kept: Option<&[u8]>) -> Option<bool> {
    let mut sink = SureSink::new(alloc, room).ok()?;
    Some(two_writes(&mut sink) == [Ok(()), Ok(())] && sink.written() == kept)
}

/// Whether the first write fails, and the sink tells the second.
fn failing_keeps(alloc: Global) -> Option<bool> {
    let failing = [1].to_vec(alloc).ok()?;
    let mut sink = MemorySink::new(alloc, failing, 3).ok()?;
    let answered = two_writes(&mut sink) == [Err(Failed), Ok(())];
    Some(answered && sink.written() == Some([7, 8].as_slice()))
}

#[test]
fn a_sure_sink_tells_what_it_has_room_for(rt: HostRuntime) {
    assert!(rt; sure_keeps(rt.alloc(), 4, Some(&[5, 6, 7, 8])) == Some(true));
    assert!(rt; sure_keeps(rt.alloc(), 3, None) == Some(true));
}

#[test]
fn a_sink_in_memory_fails_at_its_writes(rt: HostRuntime) {
    assert!(rt; failing_keeps(rt.alloc()) == Some(true));
}
