ghost use Rattle.std.specs.Prelude.{◌≡◌, ◌≤◌, ◌<◌, ℕ, List, [], length, None, Some, IfOk, is_ok, if◌then◌else◌};
ghost use Rattle.std.specs.Io.{ReadsAtMost};
ghost use Rattle.outside.specs.Cause.{HasCause};
ghost use Rattle.outside.specs.Failing.{counted};
ghost use Rattle.outside.specs.Told.{TakenFrom};

use crate::{Failed, Source};
use std::io::{self, ErrorKind, Read};
use std::marker::Model;

/// Standard input, or another reader, as a source. It tells nothing of what it reads.
///
/// Contracts see how often a read has failed.
#[derive(Drop)]
pub struct StdinSource<R: Read + Drop> {
    input: R,
    faults: u64,
}

impl<R: Read + Drop> Model for StdinSource<R> {
    ghost use Rattle.std.specs.Prelude.{ℕ};

    ghost Value = { ℕ };

    ghost view = { λ s. s.faults };
}

impl<R: Read + Drop> StdinSource<R> {
    /// A source of what that reader gives.
    pub fn new(input: R) -> StdinSource<R>
        ensures { result ≡ 0 }
    {
        StdinSource { input, faults: 0 }
    }
}

impl<R: Read + Drop> Source for StdinSource<R> {
    ghost left = { λ _. None };

    ghost fault_count = { λ s. s };

    fn read(&mut self, into: &mut [u8]) -> Result<usize, Failed>
        ensures fits { IfOk result (λ n. n ≤ length into.new) }
        ensures bytes { IfOk result (λ n. (bytes : List ℕ) → None ≡ Some bytes → TakenFrom bytes n into.new None) }
        ensures end { IfOk result (λ n. n ≡ 0 → 0 < length into.new → (bytes : List ℕ) → None ≡ Some bytes → bytes ≡ []) }
        ensures cause { HasCause self.old self.new result }
        ensures count { self.new ≡ (if is_ok result then self.old else counted self.old) }
    {
        match read_again(&mut self.input, into) {
            Ok(n) => Ok(n),
            Err(_) => {
                self.faults = self.faults.saturating_add(1);
                Err(Failed)
            }
        }
    }
}

/// One read, made again where a signal interrupted it.
fn read_again<R: Read>(input: &mut R, into: &mut [u8]) -> io::Result<usize>
    ensures { ReadsAtMost result into.new }
{
    for _ in 0..u64::MAX {
        match input.read(into) {
            Err(e) if e.kind() == ErrorKind::Interrupted => {}
            read => return read,
        }
    }
    Err(io::Error::from(ErrorKind::Interrupted))
}
