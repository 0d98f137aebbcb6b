//! The numbers of encodings.
ghost use Rattle.std.specs.Prelude.{◌≡◌};
ghost use Rattle.table_columns.specs.Shapes.{encoding_number};

use orc_columns::{Spelling, Version};

/// The number of the encoding that spells values so.
///
/// Source: Apache ORC specification v1, "Column Encodings".
pub fn encoding_number(spelling: Spelling) -> u64
    ensures { result ≡ encoding_number spelling }
{
    match spelling {
        Spelling::Bits => 0,
        Spelling::Integers(Version::One) | Spelling::Texts(Version::One) => 0,
        Spelling::Integers(Version::Two) | Spelling::Texts(Version::Two) => 2,
        Spelling::Dictionary(Version::One) => 1,
        Spelling::Dictionary(Version::Two) => 3,
    }
}
