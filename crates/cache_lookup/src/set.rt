// The set of a key.
ghost use Rattle.std.specs.Prelude.{◌≡◌, ◌+◌, ◌≤◌};
ghost use Rattle.buffer_word.specs.KeyWord.{IsKey};
ghost use Rattle.pool_rule.specs.Layout.{IsGeometry, headers_of};
ghost use Rattle.cache_lookup.specs.Sets.{first_way};

use buffer_pool::{Geometry, Key};

/// The first of the eight headers that may hold a key, counted from 0: the first way of its set.
///
/// The set is `(at / min_block + 61 * file) mod sets`, and its ways are the eight headers from `8 * set` on.
///
/// Source: this project's own.
pub fn first_header(geometry: Geometry, key: Key) -> u32
    requires sizes { IsGeometry geometry }
    requires key { IsKey key }
    ensures first { result ≡ first_way geometry key }
    ensures inside { result + 8 ≤ headers_of geometry }
{
    let index = key.at / u64::from(geometry.min_block) + 61 * u64::from(key.file);
    let set = index % u64::from(geometry.sets);
    8 * set as u32
}
