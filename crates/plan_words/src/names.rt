//! The rules of names.

ghost use Rattle.std.specs.Prelude.{◌≡◌, true, IfOk};
ghost use Rattle.std.specs.List.{list_all};
ghost use Rattle.plan_words.specs.Names.{is_name_byte, is_name, is_hidden, is_file_name};

use outside::{Name, NoMemory};
use std::alloc::Global;

/// Whether these bytes name a fragment or a column: 1 to 64 letters, digits, `_`, `-` and `.`.
pub fn is_name(bytes: &[u8]) -> bool
    ensures { result ≡ is_name bytes.now }
{
    !bytes.is_empty() && bytes.len() <= 64 && are_of_names(bytes)
}

/// Whether these bytes name a file: they are such a name, and don't begin with `.`.
pub fn is_file_name(bytes: &[u8]) -> bool
    ensures { result ≡ is_file_name bytes.now }
{
    is_name(bytes) && !begins_with_dot(bytes)
}

/// Whether it is a byte of names.
fn is_of_names(byte: u8) -> bool
    ensures { result ≡ is_name_byte byte }
{
    byte.is_ascii_alphanumeric() || byte == b'_' || byte == b'-' || byte == b'.'
}

/// Whether all bytes are bytes of names.
fn are_of_names(bytes: &[u8]) -> bool
    ensures { result ≡ list_all is_name_byte bytes.now }
{
    bytes.iter().all(|byte| is_of_names(*byte))
}

/// Whether the first byte is `.`.
fn begins_with_dot(bytes: &[u8]) -> bool
    ensures { result ≡ is_hidden bytes.now }
{
    match bytes.split_first() {
        Some((&byte, _)) => byte == b'.',
        None => false,
    }
}

/// The name of these bytes, copied. Refuses only for want of memory.
pub fn name_of(alloc: Global, bytes: &[u8]) -> Result<Name, NoMemory>
    requires { is_name bytes.now ≡ true }
    ensures { IfOk result (λ name. name ≡ bytes.now) }
{
    let mut copy = Vec::new(alloc);
    if copy.extend_from_slice(bytes).is_err() {
        return Err(NoMemory);
    }
    Ok(Name::new(String::from_utf8(copy).unwrap()))
}
