//! What the words of a command line ask for, and why they are refused.

/// What the words of a command line ask for.
#[derive(Clone, Copy)]
pub struct Options {
    /// The smallest block of the cache, in bytes: a power of two, 64 to 65,536.
    pub min_block: u32,
    /// How many arenas the cache has, each of 64 smallest blocks: 1 to 64.
    pub arenas: u32,
    /// How many sets of eight ways the cache has: 1 to 4,096.
    pub sets: u32,
    /// How many executor threads run the fragments: 0 to 16; with none the caller runs them.
    pub executors: u32,
    /// How many threads read and decode for them: 0 to 8; with none the caller runs the fragments.
    pub io: u32,
    /// How many attempts may wait for an executor: 1 to 1,000.
    pub room: u32,
    /// After how many ticks of the cache's clock a use counts half: 0 to 1,000,000; with 0 it never does.
    pub half_life: u64,
    /// The number of the generated file, whose own plan is then run: 0 to 1,000,000, or none.
    pub generated: Option<u32>,
    /// How many rows the generated file has: 0 to 10,000,000.
    pub rows: u32,
}

/// Why words gave no options.
#[derive(Clone, Copy)]
pub enum WordsFault {
    /// They are no command line.
    Usage,
    /// Memory was refused.
    NoMemory,
}
