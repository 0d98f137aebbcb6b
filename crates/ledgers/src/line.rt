//! A piece of text that is put together before it is written.
ghost use Rattle.std.specs.Prelude.{◌≡◌, ◌+◌, ◌≤◌, ◌++◌, [], length};
ghost use Rattle.std.specs.Fmt.{decimal};
ghost use Rattle.ledgers.specs.Text.{held};

use itoa::Buffer;

/// How many bytes are held at most.
const ROOM: usize = 1024;

/// Text that is put together.
#[derive(Drop)]
pub(crate) struct Line {
    pub(crate) bytes: [u8; ROOM],
    pub(crate) len: usize,
}

impl Line {
    /// No text.
    pub(crate) fn new() -> Line
        ensures held { held result ≡ [] }
        ensures len { result.len ≡ 0 }
    {
        Line {
            bytes: [0; ROOM],
            len: 0,
        }
    }

    /// Adds text for which there is room.
    pub(crate) fn put(&mut self, text: &[u8])
        requires { self.old.len + length text.now ≤ 1024 }
        ensures held { held self.new ≡ held self.old ++ text.now }
        ensures len { self.new.len ≡ self.old.len + length text.now }
    {
        let end = self.len + text.len();
        self.bytes[self.len..end].copy_from_slice(text);
        self.len = end;
    }

    /// Adds a word and a number of at most 40 digits, for which there is room.
    pub(crate) fn put_count(&mut self, word: &[u8], count: u64)
        requires { self.old.len + length word.now + 40 ≤ 1024 }
        ensures held { held self.new ≡ held self.old ++ word.now ++ decimal count }
        ensures len { self.new.len ≤ self.old.len + length word.now + 40 }
    {
        self.put(word);
        let mut digits = Buffer::new();
        self.put(digits.format(count).as_bytes());
    }
}
