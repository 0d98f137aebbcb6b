//! Laws of the format, as contracts of functions that do nothing.
ghost use Rattle.std.specs.Prelude.{Bool};
ghost use Rattle.outside.specs.Runs.{BeginsNoOther, IsDecided, IsReaderOf};
ghost use Rattle.orc_rle2.specs.IntRun2.{IntRun2, int_run2};

/// The reader gives the one run that is the front of the bytes, where there is one.
pub fn readers_read_runs()
    ensures { (signed : Bool) → IsReaderOf (IntRun2 signed) (int_run2 signed) }
{}

/// No spelling of a run begins the spelling of another run.
pub fn runs_begin_no_other()
    ensures { (signed : Bool) → BeginsNoOther (IntRun2 signed) }
{}

/// A stream spells so many values, or it breaks before them with the fault of the first run that isn't
/// whole, and never both: so `fill` answers Ok exactly where the stream spells the values.
pub fn every_stream_is_decided()
    ensures { (signed : Bool) → IsDecided (IntRun2 signed) (int_run2 signed) }
{}

/// What is read of a stream's front is a run, and a run at a stream's front is what is read of it.
pub fn runs_are_read()
    ensures { (signed : Bool) → IsReaderOf (IntRun2 signed) (int_run2 signed) }
{}
