//! How ranges were got through the cache, counted.
ghost use Rattle.std.specs.Prelude.{◌≡◌};
ghost use Rattle.ledgers.specs.CacheTotals.{counted, noted, sums};

/// How a range was got.
#[derive(Clone, Copy, Drop)]
pub enum How2 {
    /// It was in the cache.
    Hit,
    /// It was read, and is in the cache now.
    Filled,
    /// It was read, and isn't in the cache.
    Bypass,
}

/// How often ranges were got in each way, and how many buffers were evicted and moved for them.
///
/// A count that has reached the greatest number stays there.
#[derive(Clone, Copy, Drop)]
pub struct CacheTotals {
    /// Ranges that were in the cache.
    pub hit: u64,
    /// Ranges that were read into the cache.
    pub filled: u64,
    /// Ranges that were read past the cache.
    pub bypass: u64,
    /// Buffers that were evicted.
    pub evicted: u64,
    /// Buffers that were moved.
    pub moved: u64,
}

impl CacheTotals {
    /// Nothing yet.
    pub const ZERO: CacheTotals = CacheTotals {
        hit: 0,
        filled: 0,
        bypass: 0,
        evicted: 0,
        moved: 0,
    };

    /// Adds another's counts.
    pub fn add(&mut self, other: &CacheTotals)
        ensures { self.new ≡ sums self.old other.now }
    {
        self.hit = self.hit.saturating_add(other.hit);
        self.filled = self.filled.saturating_add(other.filled);
        self.bypass = self.bypass.saturating_add(other.bypass);
        self.evicted = self.evicted.saturating_add(other.evicted);
        self.moved = self.moved.saturating_add(other.moved);
    }

    /// What one range counts.
    fn counted(how: How2, evicted: u32, moved: u32) -> CacheTotals
        ensures { result ≡ counted how evicted moved }
    {
        let mut one = CacheTotals {
            evicted: u64::from(evicted),
            moved: u64::from(moved),
            ..CacheTotals::ZERO
        };
        match how {
            How2::Hit => one.hit = 1,
            How2::Filled => one.filled = 1,
            How2::Bypass => one.bypass = 1,
        }
        one
    }

    /// Counts one range more, with the buffers that were evicted and moved for it.
    pub fn note(&mut self, how: &How2, evicted: u32, moved: u32)
        ensures { self.new ≡ noted how.now evicted moved self.old }
    {
        self.add(&CacheTotals::counted(*how, evicted, moved));
    }
}
