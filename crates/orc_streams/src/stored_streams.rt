//! Streams that lie in memory, whole.
ghost use Rattle.std.specs.Prelude.{◌≡◌, ◌≢◌, ◌<◌, ◌≤◌, ◌⊎◌, ℕ, [], length, take, drop, Some, OnOk};
ghost use Rattle.orc_streams.specs.StoredStreams.{left_of, rest_of};

use outside::{Failed, Feed, NoMemory};
use std::alloc::Global;

/// A stream, and how many of its bytes were taken.
#[derive(Drop)]
pub struct StoredStream {
    bytes: Vec<u8>,
    taken: usize,
}

impl StoredStream {
    /// What is left, lent.
    fn left(&self) -> &[u8]
        ensures { result.now ≡ left_of self.now }
    {
        let from = self.taken.min(self.bytes.len());
        &self.bytes[from..]
    }

    /// Passes over bytes of what is left, at most `count`.
    fn skip(&mut self, count: usize) -> usize
        ensures room { result ≤ count }
        ensures len { result ≤ length (left_of self.old) }
        ensures left { left_of self.new ≡ drop result (left_of self.old) }
        ensures ends { (length (left_of self.old) ≤ result) ⊎ (count ≤ result) }
    {
        let from = self.taken.min(self.bytes.len());
        let len = (self.bytes.len() - from).min(count);
        self.taken = from + len;
        len
    }

    /// Takes bytes of what is left to the front of `into`, as many as fit.
    fn take(&mut self, into: &mut [u8]) -> usize
        ensures room { result ≤ length into.old }
        ensures len { result ≤ length (left_of self.old) }
        ensures bytes { take result into.new ≡ take result (left_of self.old) }
        ensures left { left_of self.new ≡ drop result (left_of self.old) }
        ensures ends { (length (left_of self.old) ≤ result) ⊎ (length into.old ≤ result) }
    {
        let from = self.taken.min(self.bytes.len());
        let rest = &self.bytes[from..];
        let len = rest.len().min(into.len());
        into[..len].copy_from_slice(&rest[..len]);
        self.taken = from + len;
        len
    }
}

/// Streams in memory, by their numbers. One that was never put has no bytes.
#[derive(Drop)]
pub struct StoredStreams {
    streams: Vec<StoredStream>,
}

impl StoredStreams {
    /// Streams without bytes.
    pub fn new(alloc: Global) -> StoredStreams
        ensures { (stream : ℕ) → rest_of result stream ≡ Some [] }
    {
        StoredStreams {
            streams: Vec::new(alloc),
        }
    }

    /// Room for the stream of that number.
    pub fn reserve(&mut self, alloc: Global, stream: u32) -> Result<(), NoMemory>
        ensures kept { (other : ℕ) → rest_of self.new other ≡ rest_of self.old other }
        ensures room { OnOk result (stream < length self.new.streams.items) }
    {
        while self.streams.len() <= stream as usize {
            let none = StoredStream {
                bytes: Vec::new(alloc),
                taken: 0,
            };
            let Ok(()) = self.streams.push(none) else {
                return Err(NoMemory);
            };
        }
        Ok(())
    }

    /// Puts a stream's bytes in place of those that it had.
    pub fn put(&mut self, stream: u32, bytes: Vec<u8>)
        requires room { stream < length self.old.streams.items }
        ensures here { rest_of self.new stream ≡ Some bytes.items }
        ensures others { (other : ℕ) → other ≢ stream → rest_of self.new other ≡ rest_of self.old other }
    {
        self.streams[stream as usize] = StoredStream { bytes, taken: 0 };
    }

    /// Lets go of all streams.
    pub fn clear(&mut self)
        ensures { (stream : ℕ) → rest_of self.new stream ≡ Some [] }
    {
        self.streams.clear();
    }
}

impl Feed for StoredStreams {
    ghost use Rattle.orc_streams.specs.StoredStreams.{rest_of, Fed, Fed-nothing, Fed-joined, Fed-then, Fed-sum};

    ghost rest = { rest_of };

    ghost fed = { Fed };

    ghost fault_count = { λ _. 0 };

    fn take(&mut self, stream: u32, into: &mut [u8]) -> Result<usize, Failed> {
        let stream = stream as usize;
        if stream >= self.streams.len() {
            return Ok(0);
        }
        Ok(self.streams[stream].take(into))
    }

    fn lent(&self, stream: u32) -> &[u8] {
        let stream = stream as usize;
        if stream >= self.streams.len() {
            return &[];
        }
        self.streams[stream].left()
    }

    fn skip(&mut self, stream: u32, count: usize) -> Result<usize, Failed> {
        let stream = stream as usize;
        if stream >= self.streams.len() {
            return Ok(0);
        }
        Ok(self.streams[stream].skip(count))
    }

    ghost fed_nothing = { Fed-nothing };

    ghost fed_joined = { Fed-joined };

    ghost fed_then = { Fed-then };

    ghost fed_sum = { Fed-sum };

    ghost fed_lost = { λ first last takes stream led. led stream };
}
