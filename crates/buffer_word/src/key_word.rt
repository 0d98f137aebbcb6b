// The key word: the length less one, the place in the file, the file's number.
ghost use Rattle.std.specs.Prelude.{◌≡◌};
ghost use Rattle.buffer_word.specs.KeyWord.{IsKey, key_word};
ghost use Rattle.buffer_word.specs.declared.key_word.Key.{Key};

const LEN_MASK: u64 = 0xF_FFFF;

const AT_AT: u32 = 20;

const AT_MASK: u64 = 0xFFFF_FFFF;

const FILE_AT: u32 = 52;

/// A range of a file.
#[derive(Clone, Copy, Debug, PartialEq, Eq)]
pub struct Key {
    /// The file's number. Below 4,096.
    pub file: u32,
    /// The range's first byte. Below 2^32.
    pub at: u64,
    /// The range's bytes, from 1 to 1,048,576.
    pub len: u32,
}

/// The word of a key.
///
/// Source: this project's own format.
pub fn pack_key(key: Key) -> u64
    requires { IsKey key }
    ensures { result ≡ key_word key }
{
    u64::from(key.len - 1) + (key.at << AT_AT) + (u64::from(key.file) << FILE_AT)
}

/// The key of a word: each word is some key's.
///
/// Source: this project's own format.
pub fn unpack_key(word: u64) -> Key
    ensures key { IsKey result × (word ≡ key_word result) }
    ensures packed { (k : Key) → IsKey k → word ≡ key_word k → result ≡ k }
{
    Key {
        file: (word >> FILE_AT) as u32,
        at: word >> AT_AT & AT_MASK,
        len: (word & LEN_MASK) as u32 + 1,
    }
}
