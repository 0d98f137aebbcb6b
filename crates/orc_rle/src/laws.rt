//! Laws of the formats, as contracts of functions that do nothing.
ghost use Rattle.std.specs.Prelude.{Bool};
ghost use Rattle.outside.specs.Runs.{BeginsNoOther, IsDecided, IsReaderOf};
ghost use Rattle.orc_rle.specs.BitRun.{BitRun, bit_run, BitsAreSpelled, BitsBreak};
ghost use Rattle.orc_rle.specs.ByteRun.{ByteRun, byte_run, OnlyEnds};
ghost use Rattle.orc_rle.specs.IntRun1.{IntRun1, int_run1};

/// The reader of each format gives the one run that is the front of the bytes, where there is one.
pub fn readers_read_runs()
    ensures integers { (signed : Bool) → IsReaderOf (IntRun1 signed) (int_run1 signed) }
    ensures bytes { IsReaderOf ByteRun byte_run }
    ensures bits { IsReaderOf BitRun bit_run }
{}

/// No spelling of a run begins the spelling of another run of its kind.
pub fn runs_begin_no_other()
    ensures integers { (signed : Bool) → BeginsNoOther (IntRun1 signed) }
    ensures bytes { BeginsNoOther ByteRun }
{}

/// A stream spells so many values, or it breaks before them with the fault of the first run that isn't
/// whole, and never both: so `fill` answers Ok exactly where the stream spells the values.
pub fn every_stream_is_decided()
    ensures integers { (signed : Bool) → IsDecided (IntRun1 signed) (int_run1 signed) }
    ensures bytes { IsDecided ByteRun byte_run }
    ensures bits { IsDecided BitRun bit_run }
{}

/// What is read of a stream's front is a run, and a run at a stream's front is what is read of it.
pub fn runs_are_read()
    ensures integers { (signed : Bool) → IsReaderOf (IntRun1 signed) (int_run1 signed) }
    ensures bits { IsReaderOf BitRun bit_run }
{}

/// n bits are the first bits of n / 8 bytes, rounded up: they use the runs of these bytes, no others, and
/// have their fault.
pub fn bits_are_bits_of_bytes()
    ensures spelled { BitsAreSpelled }
    ensures breaks { BitsBreak }
{}

/// A stream of bytes or of bits breaks only where it ends: `fill` of these has no other fault of its own.
pub fn bytes_and_bits_only_end()
    ensures bytes { OnlyEnds ByteRun byte_run }
    ensures bits { OnlyEnds BitRun bit_run }
{}
