//! The policy: an entry for each header that has one, and the tournament over their ranks.

ghost use Rattle.std.specs.Prelude.{◌≡◌, ◌+◌, ◌<◌, ◌≤◌, length, replicate, slice_index_or, Some, None, IfOk};
ghost use Rattle.lrfu_policy.specs.Policy.{Ranking, with_entry, with_touches};
ghost use Rattle.lrfu_policy.specs.Victim.{Among, IsLeast};

use crate::entry::Entry;
use crate::rank::Rank;
use crate::sync::synced_entry;
use crate::tree::{least_above, least_among, put};
use outside::NoMemory;
use std::alloc::Global;
use std::marker::Model;

/// Which header's buffer to evict next.
///
/// Contracts see it as the half-life and the list of entries by header, none where a header has no entry.
#[derive(Drop)]
pub struct Policy {
    half_life: u64,
    entries: Vec<Option<Entry>>,
    winners: Vec<Option<Rank>>,
}

impl Model for Policy {
    ghost use Rattle.lrfu_policy.specs.Policy.{Ranking};
    ghost use Rattle.lrfu_policy.specs.Tournament.{IsTournament};

    ghost Value = { Ranking };

    ghost view = { λ p. record { half_life = p.half_life; entries = p.entries.items } };

    ghost invariant = { λ p. IsTournament p.entries.items p.winners.items };
}

impl Policy {
    /// A policy for so many headers, without an entry. It takes all memory that the policy ever needs, and `NoMemory`
    /// comes where that is refused.
    ///
    /// After `half_life` ticks a touch counts for half; with 0 it always counts for the whole.
    pub fn new(alloc: Global, headers: u32, half_life: u64) -> Result<Policy, NoMemory>
        ensures { IfOk result (λ p. p ≡ (record { half_life = half_life; entries = replicate headers None })) }
    {
        let Ok(entries) = vec![in alloc; None; headers as usize] else {
            return Err(NoMemory);
        };
        let Ok(winners) = vec![in alloc; None; headers as usize] else {
            return Err(NoMemory);
        };
        Ok(Policy {
            half_life,
            entries,
            winners,
        })
    }

    /// Notes touches of a header's buffer, of which the last one was at tick `last`.
    ///
    /// The header's entry is then made from the old one where that is of the same key, and else anew. The other entries
    /// stay.
    pub fn sync(&mut self, header: u32, key: u64, touches: u64, last: u64)
        requires { header < length self.old.entries }
        ensures { self.new ≡ with_touches header key touches last self.old }
    {
        let entry = synced_entry(
            self.half_life,
            self.entries[header as usize],
            key,
            touches,
            last,
        );
        put(&mut self.entries, &mut self.winners, header, Some(entry));
    }

    /// The least rank above the given one, or the least of all. `None` exactly where there is none.
    ///
    /// Called again with its last answer, it gives all entries in their order, least first.
    pub fn next_victim(&self, after: Option<Rank>) -> Option<Rank>
        ensures { IsLeast (Among 0 (length self.now.entries)) self.now.entries after result }
    {
        if self.entries.is_empty() {
            None
        } else {
            least_above(&self.entries, &self.winners, 1, after)
        }
    }

    /// The same among `count` headers from `first` on, each of which is looked at: for the few ways of a set.
    pub fn next_among(&self, first: u32, count: u32, after: Option<Rank>) -> Option<Rank>
        requires { first + count ≤ length self.now.entries }
        ensures { IsLeast (Among first count) self.now.entries after result }
    {
        least_among(&self.entries, first, count, after)
    }

    /// Drops a header's entry, if it has one. The other entries stay.
    pub fn forget(&mut self, header: u32)
        requires { header < length self.old.entries }
        ensures { self.new ≡ with_entry header None self.old }
    {
        put(&mut self.entries, &mut self.winners, header, None);
    }
}
