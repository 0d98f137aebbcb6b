/// The sizes of a pool, which no step changes.
#[derive(Clone, Copy, Debug, PartialEq, Eq)]
pub struct Geometry {
    /// The bytes of a minimum block: a power of two from 64 to 65,536.
    pub min_block: u32,
    /// The arenas, of 64 minimum blocks each: from 1 to 64.
    pub arenas: u32,
    /// The sets, of eight headers each: from 1 to 4,096.
    pub sets: u32,
}

/// What the table of a pool is told when it is made.
#[derive(Clone, Copy, Debug, PartialEq, Eq)]
pub struct Setup {
    pub geometry: Geometry,
    /// How many numbers there are to share out among seats: from 1 to 64.
    pub seats: u32,
}

/// A word of a pool that isn't a cell. Arenas and headers are counted from 0.
#[derive(Clone, Copy, Debug, PartialEq, Eq)]
pub enum WordName {
    /// The bits of an arena. A set bit is a minimum block that is out.
    Arena(u32),
    /// The state of a header: mode, count, and where its block is.
    State(u32),
    /// The key of a header's buffer.
    KeyOf(u32),
    /// How often a header was touched.
    Touches(u32),
    /// The tick of a header's last touch.
    Last(u32),
    /// The count of ticks.
    Clock,
}
