//! Giving bytes on their way to a sink.
ghost use Rattle.std.specs.Prelude.{◌≡◌, ◌≤◌, ◌+◌, [], ◌++◌, Some, length, take, option_map, IfSome, OnOk, OnErr};
ghost use Rattle.outside.specs.Cause.{HasCause};
ghost use Rattle.outside.specs.Told.{Extended};
ghost use Rattle.fragment_outcome.specs.Sent.{held_by, Wrote};

use crate::writer::{ROOM, Writer};
use outside::{Failed, Sink};

impl Writer {
    /// Nothing is held, and nothing has failed.
    pub(crate) fn new() -> Writer
        ensures { held_by result ≡ Some [] }
    {
        Writer {
            buffer: [0; ROOM],
            len: 0,
            failed: false,
        }
    }

    /// Gives bytes on their way.
    pub(crate) fn put<K: Sink>(&mut self, out: &mut K, bytes: &[u8])
        ensures { Wrote (held_by self.old) (K.content out.old) (K.fault_count out.old)
            (held_by self.new) (K.content out.new) (K.fault_count out.new) bytes.now }
    {
        if bytes.len() <= ROOM - self.len {
            self.keep(bytes);
            return;
        }
        self.flush(out);
        self.put_alone(out, bytes);
    }

    /// The same where nothing is held.
    fn put_alone<K: Sink>(&mut self, out: &mut K, bytes: &[u8])
        requires { IfSome (held_by self.old) (λ held. held ≡ []) }
        ensures { Wrote (held_by self.old) (K.content out.old) (K.fault_count out.old)
            (held_by self.new) (K.content out.new) (K.fault_count out.new) bytes.now }
    {
        if bytes.len() <= ROOM - self.len {
            self.keep(bytes);
            return;
        }
        if self.failed {
            return;
        }
        match out.write(bytes) {
            Ok(()) => {}
            Err(_) => self.failed = true,
        }
    }

    /// Holds bytes for which there is room.
    fn keep(&mut self, bytes: &[u8])
        requires { self.old.len + length bytes.now ≤ 4096 }
        ensures { held_by self.new ≡ option_map (λ held. held ++ bytes.now) (held_by self.old) }
    {
        let end = self.len + bytes.len();
        self.buffer[self.len..end].copy_from_slice(bytes);
        self.len = end;
    }

    /// Writes what is held.
    fn flush<K: Sink>(&mut self, out: &mut K)
        ensures wrote { Wrote (held_by self.old) (K.content out.old) (K.fault_count out.old)
            (held_by self.new) (K.content out.new) (K.fault_count out.new) [] }
        ensures empty { IfSome (held_by self.new) (λ held. held ≡ []) }
    {
        if self.failed {
            return;
        }
        match out.write(&self.buffer[..self.len]) {
            Ok(()) => self.len = 0,
            Err(_) => self.failed = true,
        }
    }

    /// Writes what is held, and answers whether a write failed in all the time.
    pub(crate) fn finish<K: Sink>(&mut self, out: &mut K) -> Result<(), Failed>
        ensures wrote { Wrote (held_by self.old) (K.content out.old) (K.fault_count out.old)
            (held_by self.new) (K.content out.new) (K.fault_count out.new) [] }
        ensures ok { OnOk result (held_by self.new ≡ Some []) }
        ensures err { OnErr result (held_by self.new ≡ None) }
    {
        self.flush(out);
        if self.failed { Err(Failed) } else { Ok(()) }
    }
}
