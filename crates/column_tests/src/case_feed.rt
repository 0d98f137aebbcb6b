//! A feed over a column's streams, which tells nothing, fails at one of its takes, and keeps the order of their streams.

use outside::{Failed, Feed};

/// The streams by their numbers are PRESENT, DATA, LENGTH and DICTIONARY_DATA.
#[derive(Drop)]
pub struct CaseFeed<'a> {
    /// What is left of each stream.
    pub rests: Vec<&'a [u8]>,
    /// How many takes there were.
    pub takes: u64,
    /// The take that fails, counted from 1, or 0.
    pub fails_at: u64,
    /// A digit for each take of another stream than the take before: 1, 2, 3 or 4, the stream's number and 1.
    pub trail: u64,
    /// How many takes have failed.
    pub faults: u64,
}

impl<'a> Feed for CaseFeed<'a> {
    ghost use Rattle.std.specs.Prelude.{None};

    ghost rest = { λ _ _. None };

    ghost fed = { λ _ _ _. Unit {0} };

    ghost fault_count = { λ feed. feed.faults };

    fn take(&mut self, stream: u32, into: &mut [u8]) -> Result<usize, Failed> {
        self.takes = self.takes.saturating_add(1);
        self.trail = after(self.trail, u64::from(stream).saturating_add(1));
        if self.takes == self.fails_at {
            self.faults = self.faults.saturating_add(1);
            return Err(Failed);
        }
        let stream = stream as usize;
        if stream >= self.rests.len() {
            return Ok(0);
        }
        let rest = self.rests[stream];
        let len = rest.len().min(into.len());
        into[..len].copy_from_slice(&rest[..len]);
        self.rests[stream] = &rest[len..];
        Ok(len)
    }

    ghost fed_nothing = { λ _. tt };

    ghost fed_joined = { λ _ _ _ _ _ _ _. tt };

    ghost fed_then = { λ _ _ _ _ _ _ _. tt };

    ghost fed_sum = { λ _ _ _ _ _ _ _ _. tt };

    ghost fed_lost = { λ _ _ _ _ _. tt };
}

impl<'a> CaseFeed<'a> {
    /// Ends a part of the trail by a 9.
    pub fn end_part(&mut self) {
        self.trail = self.trail.saturating_mul(10).saturating_add(9);
    }

    /// How many bytes are left of each stream, a digit for each.
    pub fn left(&self) -> u64 {
        let mut left = 0u64;
        for rest in &self.rests {
            left = left.saturating_mul(10).saturating_add(rest.len() as u64);
        }
        left
    }
}

/// A trail with a digit more, unless it ends in that digit.
fn after(trail: u64, digit: u64) -> u64 {
    if trail % 10 == digit {
        return trail;
    }
    trail.saturating_mul(10).saturating_add(digit)
}
