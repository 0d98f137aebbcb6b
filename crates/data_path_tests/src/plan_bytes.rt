//! How a plan's bytes are read, and how many.
use crate::one_file::{FIRST, prints};
use data_path::{PlanBytesError, read_all};
use outside::{Bytes, Failed, MemorySource};
use std::alloc::Global;

/// Whether a read of the source gives these bytes.
fn gives(alloc: Global, source: &mut MemorySource, most: usize, bytes: &[u8]) -> bool {
    match read_all(alloc, source, most) {
        Ok(read) => read.as_slice() == bytes,
        Err(_) => false,
    }
}

fn fails(alloc: Global, source: &mut MemorySource) -> bool {
    matches!(
        read_all(alloc, source, 3),
        Err(PlanBytesError::Fault(Failed))
    )
}

/// Whether reads of a source of five bytes, of which the third fails, give them in turn.
fn reads_in_turn(alloc: Global, mut source: MemorySource) -> bool {
    let front = gives(alloc, &mut source, 3, &[1, 2, 3]) && gives(alloc, &mut source, 1, &[4]);
    front && fails(alloc, &mut source) && gives(alloc, &mut source, 3, &[5])
}

fn source_of_five(alloc: Global) -> Option<MemorySource> {
    let bytes = Bytes::new([1, 2, 3, 4, 5].to_vec(alloc).ok()?);
    Some(MemorySource::new(bytes, [3].to_vec(alloc).ok()?))
}

fn a_plan_is_read(alloc: Global) -> bool {
    match source_of_five(alloc) {
        Some(source) => reads_in_turn(alloc, source),
        None => false,
    }
}

#[test]
fn a_plan_is_read_to_its_end_or_to_the_limit(rt: HostRuntime) {
    assert!(rt; a_plan_is_read(rt.alloc()));
}

/// Whether a plan of that many comment bytes ends with that exit status, and writes that text.
fn comment_prints(alloc: Global, len: usize, code: u8, text: &str) -> Option<bool> {
    let mut plan = Vec::new(alloc);
    plan.resize(len, b'#').ok()?;
    Some(prints(alloc, &FIRST, plan.as_slice(), code, text))
}

#[test]
fn a_plan_has_a_limit(rt: HostRuntime) {
    let alloc = rt.alloc();
    assert!(rt; comment_prints(alloc, 1_048_576, 0, "") == Some(true));
    assert!(rt; comment_prints(alloc, 1_048_577, 3, "plan too long\n") == Some(true));
}
