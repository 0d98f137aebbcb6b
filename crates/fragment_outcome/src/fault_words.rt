//! The words of faults.
ghost use Rattle.std.specs.Prelude.{◌≡◌};
ghost use Rattle.fragment_outcome.specs.Words.{tail_words as words_of_tail, stream_word as word_of, run_words as words_of_run};

use orc_columns::StreamName;
use orc_tail::TailFault;
use outside::RunFault;

/// The words of a fault of a tail or of a stripe's footer. One that is no fault of these, or a failure of its own, has none.
pub(crate) fn tail_words(fault: TailFault) -> &'static str
    ensures { result.now ≡ words_of_tail fault }
{
    match fault {
        TailFault::TooShort => "short",
        TailFault::NotOrc => "not orc",
        TailFault::Wire(_) => "wire",
        TailFault::OutOfFile => "out of file",
        TailFault::BadTypes => "types",
        TailFault::TooLarge => "too large",
        TailFault::RootPresent => "root present",
        TailFault::StreamOutOfStripe => "stream out of stripe",
        TailFault::Compressed(_) | TailFault::Read(_) | TailFault::NoMemory => "",
    }
}

/// The word of a stream that is made of runs.
pub(crate) fn stream_word(stream: StreamName) -> &'static str
    ensures { result.now ≡ word_of stream }
{
    match stream {
        StreamName::Present => "present",
        StreamName::Body => "data",
        StreamName::Length => "length",
    }
}

/// The words of a fault of a run. A failed read is none, and has no words.
pub(crate) fn run_words(fault: RunFault) -> &'static str
    ensures { result.now ≡ words_of_run fault }
{
    match fault {
        RunFault::StreamEnds => "stream ends",
        RunFault::LongVarint => "long varint",
        RunFault::PatchOutOfRun => "patch out of run",
        RunFault::PatchTooWide => "patch too wide",
        RunFault::Read(_) => "",
    }
}
