use outside::World;
use pool_rule::Words;

/// A pool of buffers in a world, which any number of threads share.
#[derive(Drop)]
pub struct Pool<W: World> {
    pub(crate) words: Words<W>,
}
