//! Adding bytes behind others.
ghost use Rattle.std.specs.Prelude.{◌≡◌, ◌++◌, OnOk, OnErr};
ghost use Rattle.outside.specs.Varint.{IsVarint};
ghost use Rattle.rle_writer.specs.Written.{Adds};

use orc_proto::{varint_len, write_varint};
use outside::NoMemory;

/// Adds bytes behind those that are there.
///
/// Answers `NoMemory` where memory was refused, and the bytes are then as before.
pub fn put(out: &mut Vec<u8>, bytes: &[u8]) -> Result<(), NoMemory>
    ensures ok { OnOk result (out.new.items ≡ out.old.items ++ bytes.now) }
    ensures err { OnErr result (out.new.items ≡ out.old.items) }
{
    match out.extend_from_slice(bytes) {
        Ok(()) => Ok(()),
        Err(_) => Err(NoMemory),
    }
}

/// Adds the shortest varint of a number behind the bytes that are there.
///
/// Answers `NoMemory` where memory was refused, and the bytes are then as before.
///
/// Source: Apache ORC specification v1, "Base 128 Varint".
pub fn put_varint(out: &mut Vec<u8>, number: u64) -> Result<(), NoMemory>
    ensures ok { OnOk result (Adds IsVarint out.old.items out.new.items number) }
    ensures err { OnErr result (out.new.items ≡ out.old.items) }
{
    let mut room = [0; 10];
    let len = varint_len(number);
    write_varint(number, &mut room);
    put(out, &room[..len])
}
