//! Sources give their bytes, and fail at their reads.
use outside::{Bytes, Failed, MemorySource, Source, StdinSource, SureSource};
use std::alloc::Global;
use std::io;

/// What three reads of two bytes answer.
fn three_reads<P: Source>(source: &mut P) -> [Result<usize, Failed>; 3] {
    let mut into = [0u8; 2];
    let first = source.read(&mut into);
    let second = source.read(&mut into);
    [first, second, source.read(&mut into)]
}

/// What three reads answer of a source of three bytes.
const ALL_READ: [Result<usize, Failed>; 3] = [Ok(2), Ok(1), Ok(0)];

fn three_bytes(alloc: Global) -> Option<Bytes> {
    Some(Bytes::new([5, 6, 7].to_vec(alloc).ok()?))
}

/// A device that fails at each read.
#[derive(Drop)]
struct Broken;

impl io::Read for Broken {
    fn read(&mut self, _buf: &mut [u8]) -> io::Result<usize> {
        Err(io::Error::from(io::ErrorKind::UnexpectedEof))
    }
}

fn sure_reads(alloc: Global) -> Option<bool> {
    let mut sure = SureSource::new(three_bytes(alloc)?);
    Some(three_reads(&mut sure) == ALL_READ)
}

fn failing_reads(alloc: Global) -> Option<bool> {
    let failing = [2].to_vec(alloc).ok()?;
    let mut source = MemorySource::new(three_bytes(alloc)?, failing);
    Some(three_reads(&mut source) == [Ok(2), Err(Failed), Ok(1)])
}

fn input_reads() -> bool {
    let mut input = StdinSource::new([5u8, 6, 7].as_slice());
    three_reads(&mut input) == ALL_READ
}

fn broken_reads() -> bool {
    let mut broken = StdinSource::new(Broken);
    three_reads(&mut broken) == [Err(Failed); 3]
}

#[test]
fn a_sure_source_gives_its_bytes(rt: HostRuntime) {
    assert!(rt; sure_reads(rt.alloc()) == Some(true));
}

#[test]
fn a_source_in_memory_fails_at_its_reads(rt: HostRuntime) {
    assert!(rt; failing_reads(rt.alloc()) == Some(true));
}

#[test]
fn input_gives_its_bytes_or_fails(rt: HostRuntime) {
    assert!(rt; input_reads());
    assert!(rt; broken_reads());
}
