//! The stream PRESENT: which rows of a column aren't null.
ghost use Rattle.std.specs.Prelude.{◌≡◌, ◌<◌, true, length, replicate, None, OnOk};
ghost use Rattle.outside.specs.Reading.{placed};
ghost use Rattle.row_flags.specs.Decoders.{new_present};
ghost use Rattle.row_flags.specs.Present.{PresentFills};
ghost use Rattle.row_flags.specs.declared.present.PresentState.TheVariants.{Unread, Empty};

use orc_rle::Bits;
use outside::{Feed, RunFault};
use std::marker::Model;

/// What is known of PRESENT.
#[derive(Clone, Copy)]
pub enum PresentState {
    /// Nothing was read of it.
    Unread,
    /// It has no byte, so nothing is null.
    Empty,
    /// It has a flag for each row.
    Flags,
}

/// The flags of PRESENT, one a row, set where the value isn't null.
///
/// A stream that isn't there, or has no byte, says that nothing is null.
#[derive(Drop)]
pub struct Present {
    stream: Option<u32>,
    state: PresentState,
    bits: Bits,
}

impl Model for Present {
    ghost use Rattle.row_flags.specs.Decoders.{PresentOf, present_in, PresentOn};

    ghost Value = { PresentOf };

    ghost view = { λ p. present_in p.stream p.state p.bits };

    ghost invariant = { λ p. PresentOn p.stream p.state p.bits };
}

impl Present {
    /// The flags of a stream from its start.
    pub fn new(stream: Option<u32>) -> Present
        ensures { result ≡ new_present stream }
    {
        let state = match stream {
            Some(_) => PresentState::Unread,
            None => PresentState::Empty,
        };
        Present {
            stream,
            state,
            bits: Bits::new(stream.unwrap_or(0)),
        }
    }

    /// Gives the flags of the next rows.
    ///
    /// Answers `StreamEnds` exactly where PRESENT has a byte and doesn't spell so many flags, and `Read` only where
    /// the feed failed in this call.
    pub fn fill<F: Feed>(&mut self, feed: &mut F, flags: &mut [bool]) -> Result<(), RunFault>
        ensures stream { self.new.stream ≡ self.old.stream }
        ensures whole { self.old.fault ≡ None → OnOk result (self.new.fault ≡ None) }
        ensures fills { self.old.fault ≡ None →
            PresentFills F.rest F.fed F.fault_count self.old self.new feed.old feed.new (length flags.old) (placed flags.new result) }
    {
        if flags.is_empty() {
            return Ok(());
        }
        match self.state {
            PresentState::Unread => self.fill_first(feed, flags),
            PresentState::Empty => {
                set_all(flags);
                Ok(())
            }
            PresentState::Flags => self.bits.fill(feed, flags),
        }
    }

    /// Whether it has no byte, so that all flags are set.
    pub fn is_empty(&self) -> bool
        ensures empty { result ≡ true → self.now.state ≡ Empty }
        ensures told { self.now.state ≡ Empty → result ≡ true }
    {
        match self.state {
            PresentState::Empty => true,
            _ => false,
        }
    }

    /// Gives the flags of the first rows, and finds out whether there are flags.
    fn fill_first<F: Feed>(&mut self, feed: &mut F, flags: &mut [bool]) -> Result<(), RunFault>
        requires unread { self.old.state ≡ Unread }
        requires asked { 0 < length flags.old }
        ensures stream { self.new.stream ≡ self.old.stream }
        ensures whole { self.old.fault ≡ None → OnOk result (self.new.fault ≡ None) }
        ensures fills { self.old.fault ≡ None →
            PresentFills F.rest F.fed F.fault_count self.old self.new feed.old feed.new (length flags.old) (placed flags.new result) }
    {
        if self.bits.fill_unless_empty(feed, flags)? {
            self.state = PresentState::Flags;
        } else {
            self.state = PresentState::Empty;
            set_all(flags);
        }
        Ok(())
    }
}

/// Sets all flags.
fn set_all(flags: &mut [bool])
    ensures { flags.new ≡ replicate (length flags.old) true }
{
    flags.fill(true);
}
