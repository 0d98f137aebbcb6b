//! A generated file that was made.
ghost use Rattle.std.specs.Prelude.{◌≡◌, ◌<◌, ◌≤◌, ◌+◌, ◌^◌, IfOk, IfSome, length, slice_range, Some, option_copied};
ghost use Rattle.generated_file.specs.File.{IsGenerated};
ghost use Rattle.generated_plan.specs.Text.{file_name};
ghost use Rattle.generated_store.specs.Made.{MadeOf};

use crate::bytes_sink::BytesSink;
use generated_file::generate;
use generated_plan::file_name;
use orc_writer::MakeFault;
use outside::{Bytes, Failed, Name, NoMemory};
use std::alloc::Global;
use std::marker::Model;
use std::sync::Arc;

/// What the handles share.
#[derive(Drop)]
struct MadeFile {
    number: u32,
    rows: u32,
    name: Name,
    bytes: Bytes,
}

/// A generated file: a handle on its shared bytes.
///
/// Contracts see its number, how many rows it has, and its bytes, which are a generated file of these.
#[derive(Drop)]
pub struct Made {
    file: Arc<MadeFile, Global>,
}

impl Model for Made {
    ghost use Rattle.std.specs.Prelude.{◌≡◌};
    ghost use Rattle.std.specs.Arc.{arc_value};
    ghost use Rattle.generated_file.specs.File.{IsGenerated};
    ghost use Rattle.generated_plan.specs.Text.{file_name};
    ghost use Rattle.generated_store.specs.Made.{MadeOf};

    ghost Value = { MadeOf };

    ghost view = { λ m. record {
      number = (arc_value m.file).number;
      rows = (arc_value m.file).rows;
      bytes = (arc_value m.file).bytes;
    } };

    ghost invariant = { λ m. ((arc_value m.file).name ≡ file_name (arc_value m.file).number (arc_value m.file).rows)
        × IsGenerated (arc_value m.file).number (arc_value m.file).rows (arc_value m.file).bytes };
}

impl Made {
    /// Makes the generated file of that number and so many rows.
    ///
    /// Answers `NoMemory` where memory was refused.
    pub fn new(alloc: Global, number: u32, rows: u32) -> Result<Made, NoMemory>
        ensures number { IfOk result (λ made. made.number ≡ number) }
        ensures rows { IfOk result (λ made. made.rows ≡ rows) }
        ensures file { IfOk result (λ made. IsGenerated number rows made.bytes) }
    {
        let name = file_name(alloc, number, rows)?;
        let bytes = file_bytes(alloc, number, rows)?;
        let file = MadeFile {
            number,
            rows,
            name,
            bytes,
        };
        match Arc::new(alloc, file) {
            Ok(file) => Ok(Made { file }),
            Err(_) => Err(NoMemory),
        }
    }

    /// Another handle on the same bytes. Refuses only for want of memory.
    pub fn again(&self) -> Result<Made, NoMemory>
        ensures { IfOk result (λ made. made ≡ self.now) }
    {
        match self.file.clone() {
            Ok(file) => Ok(Made { file }),
            Err(_) => Err(NoMemory),
        }
    }

    /// The file's name, lent: `gen-N-M.orc` by its number and its rows.
    pub fn name(&self) -> &str
        ensures { result.now ≡ file_name self.now.number self.now.rows }
    {
        self.file.name.as_str()
    }

    /// The file's bytes, lent.
    pub fn bytes(&self) -> &[u8]
        ensures bytes { result.now ≡ self.now.bytes }
        ensures file { IsGenerated self.now.number self.now.rows self.now.bytes }
    {
        self.file.bytes.as_slice()
    }
}

/// The bytes of a generated file.
fn file_bytes(alloc: Global, number: u32, rows: u32) -> Result<Bytes, NoMemory>
    ensures { IfOk result (λ file. IsGenerated number rows file) }
{
    let mut sink = BytesSink::new(alloc);
    match generate(alloc, number, rows, &mut sink) {
        Ok(()) => Ok(sink.into_bytes()),
        Err(MakeFault::Write(Failed) | MakeFault::NoMemory) => Err(NoMemory),
    }
}
