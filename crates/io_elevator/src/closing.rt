//! All streams are closed.
ghost use Rattle.std.specs.Prelude.{◌≡◌, map};
ghost use Rattle.io_elevator.specs.Sound.{shut};

use crate::SoundStream;
use outside::World;

/// Closes streams: nothing is left of any.
fn close_all<W: World>(streams: &mut [SoundStream<W>])
    ensures { streams.new ≡ map shut streams.old }
{
    if let Some((first, rest)) = streams.split_first_mut() {
        first.close();
        close_all(rest);
    }
}

/// The same of streams in a list.
pub(crate) fn close_streams<W: World>(streams: &mut Vec<SoundStream<W>>)
    ensures { streams.new.items ≡ map shut streams.old.items }
{
    close_all(streams);
}
