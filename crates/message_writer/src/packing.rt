//! Packed numbers.

ghost use Rattle.std.specs.Prelude.{◌≡◌, IfOk};
ghost use Rattle.orc_proto.specs.Message.{PackedNumbers};
ghost use Rattle.message_writer.specs.Written.{packed};

use crate::varints::push_varint;
use orc_proto::laws::varints_are_read;
use std::alloc::{AllocError, Global};

/// The numbers as the shortest varints, joined.
pub(crate) fn pack(alloc: Global, numbers: &[u64]) -> Result<Vec<u8>, AllocError>
    ensures written { IfOk result (λ bytes. bytes.items ≡ packed numbers.now) }
    ensures spelled { IfOk result (λ bytes. PackedNumbers bytes.items numbers.now) }
{
    varints_are_read();
    let mut bytes = Vec::new(alloc);
    for number in numbers {
        bytes = push_varint(bytes, *number)?;
    }
    Ok(bytes)
}
