//! How a column spells its values.
ghost use Rattle.std.specs.Prelude.{◌≡◌};
ghost use Rattle.orc_columns.specs.Spelling.{spelling_of};

/// The version of the runs of integers that a column uses.
#[derive(Clone, Copy)]
pub enum Version {
    /// Version 1.
    One,
    /// Version 2.
    Two,
}

/// How a column spells those of its values that aren't null.
#[derive(Clone, Copy)]
pub enum Spelling {
    /// Truth values: a bit each in DATA.
    Bits,
    /// Numbers: a signed integer each in DATA.
    Integers(Version),
    /// Texts: the length of each in LENGTH, and their bytes in DATA.
    Texts(Version),
    /// Texts of a dictionary: the number of its entry for each in DATA, the lengths of the entries in LENGTH, and
    /// their bytes in DICTIONARY_DATA.
    Dictionary(Version),
}

/// The kinds that are read, and their encodings.
const BOOLEAN: u64 = 0;

const SHORT: u64 = 2;

const INT: u64 = 3;

const LONG: u64 = 4;

const STRING: u64 = 7;

const DIRECT: u64 = 0;

const DICTIONARY: u64 = 1;

const DIRECT_V2: u64 = 2;

const DICTIONARY_V2: u64 = 3;

/// How a column of this kind with this encoding is spelled, or None where the kind hasn't the encoding, or there is
/// none. Kinds that aren't read have no encoding.
///
/// Source: Apache ORC specification v1, "Column Encodings".
pub fn spelling_of(kind: u64, encoding: Option<u64>) -> Option<Spelling>
    ensures { result ≡ spelling_of kind encoding }
{
    match (kind, encoding?) {
        (BOOLEAN, DIRECT) => Some(Spelling::Bits),
        (SHORT | INT | LONG, DIRECT) => Some(Spelling::Integers(Version::One)),
        (SHORT | INT | LONG, DIRECT_V2) => Some(Spelling::Integers(Version::Two)),
        (STRING, DIRECT) => Some(Spelling::Texts(Version::One)),
        (STRING, DIRECT_V2) => Some(Spelling::Texts(Version::Two)),
        (STRING, DICTIONARY) => Some(Spelling::Dictionary(Version::One)),
        (STRING, DICTIONARY_V2) => Some(Spelling::Dictionary(Version::Two)),
        _ => None,
    }
}
