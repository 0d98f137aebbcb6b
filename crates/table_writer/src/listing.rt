//! The streams of a stripe, as its footer lists them.
ghost use Rattle.std.specs.Prelude.{◌≡◌, ◌++◌, ◌∷◌, [], map, IfOk, OnOk};
ghost use Rattle.stripe_writer.specs.Parts.{listed};
ghost use Rattle.footer_writer.specs.Views.{part_view};
ghost use Rattle.table_writer.specs.Stands.{AddsPart};

use footer_writer::StreamPart;
use outside::NoMemory;
use std::alloc::Global;
use stripe_writer::StreamBytes;

/// The streams as they are listed: of each its kind, its column and how many bytes it has.
///
/// Answers `NoMemory` where memory was refused.
pub fn list_streams(alloc: Global, parts: &[StreamBytes]) -> Result<Vec<StreamPart>, NoMemory>
    ensures { IfOk result (λ streams. map part_view streams.items ≡ listed parts.now) }
{
    let mut streams = Vec::new(alloc);
    for i in 0..parts.len() {
        list_stream(&mut streams, &parts[i])?;
    }
    Ok(streams)
}

/// Adds a stream to the list.
fn list_stream(streams: &mut Vec<StreamPart>, part: &StreamBytes) -> Result<(), NoMemory>
    ensures { OnOk result (AddsPart streams.old.items streams.new.items part.now) }
{
    let stream = StreamPart {
        kind: part.kind,
        column: part.column,
        len: part.bytes.len() as u64,
    };
    match streams.push(stream) {
        Ok(()) => Ok(()),
        Err(_) => Err(NoMemory),
    }
}
