//! A feed over bytes in memory.
ghost use Rattle.std.specs.Prelude.{◌≡◌, ℕ, [], Some, slice_index_or};

use crate::{Failed, Feed};

/// The rests of streams that lie in memory: stream i is the i-th slice, and a number past the last names a
/// stream without bytes. It never fails, and tells all.
#[derive(Drop)]
pub struct SliceFeed<'a> {
    rests: Vec<&'a [u8]>,
}

impl<'a> SliceFeed<'a> {
    ghost use Rattle.outside.specs.SliceFeed.{bytes_of, rest_of};

    /// A feed over these slices.
    pub fn new(streams: Vec<&'a [u8]>) -> SliceFeed<'a>
        ensures { (stream : ℕ) → rest_of result stream ≡ Some (slice_index_or (bytes_of streams.entry.items) stream []) }
    {
        SliceFeed { rests: streams }
    }
}

impl<'a> Feed for SliceFeed<'a> {
    ghost use Rattle.std.specs.Prelude.{◌≡◌};
    ghost use Rattle.outside.specs.Feed.{Lost, taken_of};
    ghost use Rattle.outside.specs.SliceFeed.{rest_of, Fed, Fed-nothing, Fed-joined, Fed-then, Fed-sum};

    ghost rest = { rest_of };

    ghost fed = { Fed };

    ghost fault_count = { λ _. 0 };

    fn take(&mut self, stream: u32, into: &mut [u8]) -> Result<usize, Failed> {
        let stream = stream as usize;
        if stream >= self.rests.len() {
            return Ok(0);
        }
        let rest = self.rests[stream];
        let len = rest.len().min(into.len());
        into[..len].copy_from_slice(&rest[..len]);
        self.rests[stream] = &rest[len..];
        Ok(len)
    }

    fn lent(&self, stream: u32) -> &[u8] {
        let stream = stream as usize;
        if stream >= self.rests.len() {
            return &[];
        }
        self.rests[stream]
    }

    fn skip(&mut self, stream: u32, count: usize) -> Result<usize, Failed> {
        let stream = stream as usize;
        if stream >= self.rests.len() {
            return Ok(0);
        }
        let left = self.rests[stream];
        let skipped = left.len().min(count);
        self.rests[stream] = &left[skipped..];
        Ok(skipped)
    }

    ghost fed_nothing = { Fed-nothing };

    ghost fed_joined = { Fed-joined };

    ghost fed_then = { Fed-then };

    ghost fed_sum = { Fed-sum };

    ghost fed_lost = { λ first last takes stream led. led stream };
}
