//! The top call over any objects, and the memory forms that tests give it.
use data_path::{Status, llapd};
use outside::{Bytes, MemorySink, MemorySource, MemoryStore, OpenGate, Sink, Source, Store, World};
use std::alloc::Global;

/// What the call over these objects answers.
pub fn run<W: World, P: Source, S: Store<W> + Send + Drop, K: Sink>(
    alloc: Global,
    words: &[&str],
    plan: &mut P,
    store: &mut S,
    sink: &mut K,
) -> Status {
    let more = Vec::new(alloc);
    llapd::<W, _, _, _, _>(alloc, words, plan, store, more, sink, &OpenGate)
}

/// The bytes of a text.
pub fn bytes_of(alloc: Global, text: &str) -> Option<Bytes> {
    match text.as_bytes().to_vec(alloc) {
        Ok(bytes) => Some(Bytes::new(bytes)),
        Err(_) => None,
    }
}

/// A source of a plan, of which the read of that number fails (0: none).
pub fn source_of(alloc: Global, plan: &str, failing: u64) -> Option<MemorySource> {
    let bytes = bytes_of(alloc, plan)?;
    match [failing].to_vec(alloc) {
        Ok(fails) => Some(MemorySource::new(bytes, fails)),
        Err(_) => None,
    }
}

/// A sink, of which the write of that number fails (0: none).
pub fn sink_of(alloc: Global, failing: u64) -> Option<MemorySink> {
    match [failing].to_vec(alloc) {
        Ok(fails) => MemorySink::new(alloc, fails, 2000).ok(),
        Err(_) => None,
    }
}

/// The exit status of the call over that source and that store, where it writes just that text.
fn status_of<W: World + Send>(
    alloc: Global,
    source: &mut MemorySource,
    store: &mut MemoryStore<W>,
    text: &str,
) -> Option<u8> {
    match sink_of(alloc, 0) {
        Some(mut sink) => {
            let code = run(alloc, &[], source, store, &mut sink).code();
            if sink.written() == Some(text.as_bytes()) {
                Some(code)
            } else {
                None
            }
        }
        None => None,
    }
}

/// The exit status of the call over that store and memory forms of the plan's source and the sink, where it writes just that text.
pub fn told_status<W: World + Send>(
    alloc: Global,
    plan: &str,
    store: &mut MemoryStore<W>,
    text: &str,
) -> Option<u8> {
    match source_of(alloc, plan, 0) {
        Some(mut source) => status_of(alloc, &mut source, store, text),
        None => None,
    }
}
