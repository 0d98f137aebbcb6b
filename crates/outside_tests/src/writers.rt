//! A sink over a writer writes all its bytes, or answers a fault.
use outside::{Failed, Sink, StdoutSink};
use std::alloc::Global;
use std::io::{self, ErrorKind, Write};

/// A writer that takes one byte at a time, of so many, and then fails. A signal interrupts its second write.
#[derive(Drop)]
struct OneByOne {
    taken: Vec<u8>,
    most: usize,
    interrupted: bool,
}

impl Write for OneByOne {
    fn write(&mut self, buf: &[u8]) -> io::Result<usize> {
        if self.taken.len() == 1 && !self.interrupted {
            self.interrupted = true;
            return Err(io::Error::from(ErrorKind::Interrupted));
        }
        match buf {
            [first, ..] if self.taken.len() < self.most => match self.taken.push(*first) {
                Ok(()) => Ok(1),
                Err(_) => Err(io::Error::from(ErrorKind::OutOfMemory)),
            },
            [] => Ok(0),
            _ => Err(io::Error::from(ErrorKind::StorageFull)),
        }
    }

    fn flush(&mut self) -> io::Result<()> {
        Ok(())
    }
}

/// A device that takes no byte.
#[derive(Drop)]
struct Full;

impl Write for Full {
    fn write(&mut self, _buf: &[u8]) -> io::Result<usize> {
        Ok(0)
    }

    fn flush(&mut self) -> io::Result<()> {
        Ok(())
    }
}

/// A device whose flush fails.
#[derive(Drop)]
struct Unflushed;

impl Write for Unflushed {
    fn write(&mut self, buf: &[u8]) -> io::Result<usize> {
        Ok(buf.len())
    }

    fn flush(&mut self) -> io::Result<()> {
        Err(io::Error::from(ErrorKind::Other))
    }
}

/// What two writes of two bytes answer.
fn two_writes<K: Sink>(sink: &mut K) -> [Result<(), Failed>; 2] {
    let first = sink.write(&[5, 6]);
    [first, sink.write(&[7, 8])]
}

/// Whether two writes to a writer of so many bytes answer so, and leave these bytes in it.
fn writes(alloc: Global, most: usize, answers: [Result<(), Failed>; 2], taken: &[u8]) -> bool {
    let mut writer = OneByOne {
        taken: Vec::new(alloc),
        most,
        interrupted: false,
    };
    let answered = two_writes(&mut StdoutSink::new(&mut writer));
    answered == answers && writer.taken.as_slice() == taken
}

#[test]
fn short_writes_go_on_to_the_last_byte(rt: HostRuntime) {
    assert!(rt; writes(rt.alloc(), 4, [Ok(()), Ok(())], &[5, 6, 7, 8]));
}

#[test]
fn a_write_that_fails_in_the_middle_is_a_fault(rt: HostRuntime) {
    assert!(rt; writes(rt.alloc(), 3, [Ok(()), Err(Failed)], &[5, 6, 7]));
    assert!(rt; writes(rt.alloc(), 0, [Err(Failed); 2], &[]));
}

#[test]
fn a_writer_that_takes_nothing_or_is_not_flushed_is_a_fault(rt: HostRuntime) {
    assert!(rt; two_writes(&mut StdoutSink::new(Full)) == [Err(Failed); 2]);
    assert!(rt; two_writes(&mut StdoutSink::new(Unflushed)) == [Err(Failed); 2]);
}

#[test]
fn standard_output_takes_all(rt: HostRuntime) {
    assert!(rt; two_writes(&mut StdoutSink::new(io::writer(&rt))) == [Ok(()), Ok(())]);
}
