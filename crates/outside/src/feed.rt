//! Where decoders take their bytes from.
ghost use Rattle.std.specs.Prelude.{◌≡◌, ℕ, ◌+◌, ◌≤◌, List, [], ◌∷◌, ◌++◌, Option, length, take, MatchResult, IfOk, IfSome};
ghost use Rattle.outside.specs.Cause.{HasCause};
ghost use Rattle.outside.specs.Feed.{Taken, Took, Lost, Ends, IsFront, gave, taken_by, taken_of};

use crate::Failed;

/// The rests of numbered streams of bytes.
///
/// Each take is from the front of its stream, and leaves the other streams as they are. What a stream
/// holds may be told or not: a file in memory tells its bytes, a real one can't. A feed may lend what it has at
/// hand, so that it is read in place and then skipped; one that doesn't has `take` alone.
pub trait Feed {
    /// What is left of a stream, where it is told.
    ghost rest: { Self → ℕ → Option (List ℕ) };

    /// That a list of takes led from the first state to the last.
    ghost fed: { Self → List Taken → Self → Type 0 };

    /// How many takes have failed.
    ghost fault_count: { Self → ℕ };

    /// Takes bytes from the front of a stream to the front of `into`, and answers how many.
    ///
    /// Answers 0 for a non-empty `into` exactly at the end of the stream. `Failed` comes only where the count of
    /// faults rose in this call, and then nothing was taken. What stands in `into` behind the bytes that were taken isn't promised.
    fn take(&mut self, stream: u32, into: &mut [u8]) -> Result<usize, Failed>
        ensures room { IfOk result (λ len. len ≤ length into.old) }
        ensures bytes { MatchResult result
            (λ len. Took (rest self.old stream) (rest self.new stream) (take len into.new))
            (λ _. Took (rest self.old stream) (rest self.new stream) []) }
        ensures ends { IfOk result (Ends (rest self.old stream) (length into.old)) }
        ensures entry { fed self.old (taken_by stream result ∷ []) self.new }
        ensures cause { HasCause (fault_count self.old) (fault_count self.new) result };

    /// Lends a front of what is left of a stream: as much as is at hand, which may be nothing. It takes nothing.
    fn lent(&self, stream: u32) -> &[u8]
        ensures { IfSome (rest self.now stream) (IsFront result.now) }
    {
        &[]
    }

    /// Takes bytes from the front of a stream as `take` does, at most `count`, and answers how many; it copies none.
    ///
    /// Of bytes that are lent, a feed skips as many as it is asked for, at once. Answers 0 for a `count` above 0 exactly
    /// at the end of the stream. `Failed` comes only where the count of faults rose in this call, and then nothing was taken.
    fn skip(&mut self, stream: u32, count: usize) -> Result<usize, Failed>
        ensures room { IfOk result (λ len. len ≤ count) }
        ensures ends { IfOk result (Ends (rest self.old stream) count) }
        ensures entry { fed self.old (taken_by stream result ∷ []) self.new }
        ensures cause { HasCause (fault_count self.old) (fault_count self.new) result }
    {
        let mut buffer = [0; 64];
        let room = count.min(64);
        let (into, _) = buffer.split_at_mut(room);
        self.take(stream, into)
    }

    /// Where nothing was done, no take was made.
    ghost fed_nothing: { (feed : Self) → fed feed [] feed };

    /// Takes that follow one another are one list.
    ghost fed_joined: { (first between last : Self) (xs ys : List Taken)
        → fed first xs between → fed between ys last → fed first (xs ++ ys) last };

    /// A take, and then a list of takes.
    ghost fed_then: { (first between last : Self) (x : Taken) (ys : List Taken)
        → fed first (x ∷ []) between → fed between ys last → fed first (x ∷ ys) last };

    /// Two neighbouring takes of one stream may be read as one take of the sum of their bytes.
    ghost fed_sum: { (first last : Self) (before after : List Taken) (stream m n : ℕ)
        → fed first (before ++ gave stream m ∷ gave stream n ∷ after) last → fed first (before ++ gave stream (m + n) ∷ after) last };

    /// Each stream lost the bytes that the list took of it, and no others.
    ghost fed_lost: { (first last : Self) (takes : List Taken) (stream : ℕ)
        → fed first takes last → Lost (taken_of stream takes) (rest first stream) (rest last stream) };
}
