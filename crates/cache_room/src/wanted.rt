use buffer_pool::Key;

/// A range that is to be placed: its key, the order of the least block that holds it, the first of the eight ways of its set, and the
/// states that were seen of them.
#[derive(Drop)]
pub struct Wanted {
    pub key: Key,
    pub order: u32,
    pub first: u32,
    pub states: [u64; 8],
}
