// A new buffer of a granted block.
ghost use Rattle.std.specs.Prelude.{◌≡◌, ◌<◌, length};
ghost use Rattle.buffer_word.specs.KeyWord.{IsKey};
ghost use Rattle.pool_model.specs.Content.{IsRange};
ghost use Rattle.pool_rule.specs.Layout.{headers_of};
ghost use Rattle.buffer_pool.specs.Pools.{HoldsKey, IsContentOf, IsGrantOf, IsSameSeat, IsSeatOf, block_of, buffer_key, seat_id};
ghost use Rattle.buffer_pool.specs.Pools.{sizes_of, view};
ghost use Rattle.cache_placement.specs.Steps.{Opens};
ghost use Rattle.cache_placement.specs.Placements.{HoldsPlaced};

use crate::{Placed, Why};
use buffer_pool::{Grant, Key, Lost, Pool, PoolSeat, fill, open_header, publish, ungrant};
use outside::World;

/// Makes a new buffer of a granted block in a header, fills it and publishes it. A header that was lost gives the block back.
pub(crate) fn open_with<W: World>(
    pool: &Pool<W>,
    seat: &mut PoolSeat<W>,
    header: u32,
    key: Key,
    grant: Grant,
    bytes: &[u8],
) -> Placed
    requires seat { IsSeatOf pool.now seat.old }
    requires header { header < headers_of (sizes_of pool.now) }
    requires key { IsKey key }
    requires token { IsGrantOf pool.now seat.old grant }
    requires fits { HoldsKey (sizes_of pool.now) key (block_of grant) }
    requires range { IsRange W.files (buffer_key key) }
    requires len { length bytes.now ≡ key.len }
    requires content { IsContentOf W.files (buffer_key key) bytes.now }
    ensures seat { IsSameSeat pool.now seat.old seat.new }
    ensures token { HoldsPlaced pool.now seat.new key result }
    ensures made { Opens W.files (sizes_of pool.now) (seat_id seat.old) key header (block_of grant) (view seat.old) (view seat.new) result }
{
    match open_header(pool, seat, header, key, grant) {
        Ok(mut new) => {
            fill(pool, seat, &mut new, bytes);
            Placed::Filled(publish(pool, seat, new))
        }
        Err(lost) => {
            let Lost { saw, grant } = lost;
            ungrant(pool, seat, grant);
            Placed::Bypass(Why::Raced { saw })
        }
    }
}
