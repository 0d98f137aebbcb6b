use crate::content::content_cell;
use crate::{BufferKey, Sequence};

/// What a pool is set up for, which no step changes.
#[derive(Drop)]
pub struct Setting {
    /// The greatest order of a block: 6 where an arena has 64 minimum blocks.
    pub greatest_order: u32,
    /// The bytes of a minimum block.
    pub min_block: u32,
    /// The name and the bytes of each file, by its number, where files are told.
    pub files: Option<Sequence<(Sequence<u8>, Sequence<u8>)>>,
}

impl Setting {
    ghost use Rattle.std.specs.Prelude.{◌≡◌, ◌↔◌, IsTrue};
    ghost use Rattle.std.specs.Option.{option_copied};
    ghost use Rattle.pool_model.specs.Content.{told_bytes, IsRange, IsCell};

    /// The bytes of a file, where files are told and there is one of that number.
    pub fn told(&self, number: u32) -> Option<&[u8]>
        ensures { option_copied result ≡ told_bytes self.now.files number }
    {
        match &self.files {
            Some(files) => match files.as_slice().get(number as usize) {
                Some((_, bytes)) => Some(bytes.as_slice()),
                None => None,
            },
            None => None,
        }
    }

    /// Whether, where files are told, the key is a range of one.
    pub fn has_range(&self, key: BufferKey) -> bool
        ensures { IsTrue result ↔ IsRange self.now.files key }
    {
        match self.told(key.file) {
            Some(bytes) => {
                let file_len = bytes.len() as u64;
                key.at <= file_len && u64::from(key.len) <= file_len - key.at
            }
            None => self.files.is_none(),
        }
    }

    /// Whether, where files are told, the value is the key's cell of that number.
    pub fn has_cell(&self, key: BufferKey, number: u32, value: u64) -> bool
        ensures { IsTrue result ↔ IsCell self.now.files key number value }
    {
        match self.told(key.file) {
            Some(bytes) => value == content_cell(bytes, key, number),
            None => true,
        }
    }
}
