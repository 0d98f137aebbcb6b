//! Varints at the end of bytes.

ghost use Rattle.std.specs.Prelude.{◌≡◌, ◌++◌, IfOk};
ghost use Rattle.orc_proto.specs.Varint.{shortest};

use orc_proto::laws::varints_are_read;
use orc_proto::write_varint;
use std::alloc::AllocError;

/// The most bytes of a varint.
const MOST_BYTES: usize = 10;

/// The bytes and behind them the shortest varint of `value`. A refused call gives the bytes up.
pub(crate) fn push_varint(bytes: Vec<u8>, value: u64) -> Result<Vec<u8>, AllocError>
    ensures { IfOk result (λ after. after.items ≡ bytes.items ++ shortest value) }
{
    varints_are_read();
    let mut bytes = bytes;
    let mut room = [0; MOST_BYTES];
    let len = write_varint(value, &mut room);
    bytes.extend_from_slice(&room[..len])?;
    Ok(bytes)
}
