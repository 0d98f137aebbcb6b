//! A plan over a written file of web requests, with columns that nobody reads between those that are read.
ghost use Rattle.std.specs.Prelude.{◌≡◌, ◌≤◌, ◌++◌, ◌∷◌, [], ℕ, IfSome};
ghost use Rattle.orc_columns.specs.declared.spelling.Spelling.TheVariants.{Dictionary};
ghost use Rattle.orc_columns.specs.declared.spelling.Version.TheVariants.{Two};
ghost use Rattle.column_writer.specs.Buffered.{MayStand};
ghost use Rattle.table_columns.specs.Tables.{AreChildren};
ghost use Rattle.orc_writer.specs.Writing.{IsFresh, shapes};
ghost use Rattle.generator_tests.specs.Web.{IsWeb, spec_of, web_columns};

use crate::runs::prints;
use crate::under::Under;
use generated_store::Generated;
use orc_values::Value;
use orc_writer::{ColumnSpec, OpaqueStream, Spelling, Writer};
use outside::{Bytes, MemorySink, MemorySource};
use std::alloc::Global;

/// Bytes, copied.
fn bytes(alloc: Global, text: &str) -> Option<Bytes>
    ensures { IfSome result (λ bytes. bytes ≡ text.now) }
{
    match text.as_bytes().to_vec(alloc) {
        Ok(items) => Some(Bytes::new(items)),
        Err(_) => None,
    }
}

/// Adds a column that is written.
fn add(
    alloc: Global,
    columns: Vec<ColumnSpec>,
    name: &str,
    kind: u64,
    spelling: Spelling,
) -> Option<Vec<ColumnSpec>>
    ensures { IfSome result (λ after. after.items ≡ columns.items ++ spec_of name.now kind spelling ∷ []) }
{
    let name = bytes(alloc, name)?;
    let mut columns = columns;
    match columns.push(ColumnSpec {
        name,
        kind,
        spelling,
    }) {
        Ok(()) => Some(columns),
        Err(_) => None,
    }
}

/// The columns that are written: a dictionary's texts, numbers and truth values.
fn columns(alloc: Global) -> Option<Vec<ColumnSpec>>
    ensures { IfSome result (λ columns. columns.items ≡ web_columns) }
{
    let columns = add(alloc, Vec::new(alloc), "url", 7, Spelling::DictionaryV2)?;
    let columns = add(alloc, columns, "ms", 3, Spelling::DirectV2)?;
    add(alloc, columns, "hit", 0, Spelling::Direct)
}

/// A writer of these columns alone.
fn writer_of(alloc: Global) -> Option<Writer>
    ensures { IfSome result (λ w. IsWeb (shapes w) × IsFresh w) }
{
    let columns = columns(alloc)?;
    match Writer::new(alloc, columns, 10_000) {
        Ok(writer) => Some(writer),
        Err(_) => None,
    }
}

/// One stream of a column itself.
fn streams(alloc: Global) -> Option<Vec<OpaqueStream>>
    ensures { IfSome result (λ streams. (children : ℕ) → AreChildren children streams.items) }
{
    let stream = OpaqueStream {
        kind: 1,
        child: 0,
        bytes: bytes(alloc, "a stream that nobody reads")?,
    };
    let mut streams = Vec::new(alloc);
    match streams.push(stream) {
        Ok(()) => Some(streams),
        Err(_) => None,
    }
}

/// Adds a column that nobody reads, in front of the written column of that place.
fn with_opaque(
    alloc: Global,
    writer: Writer,
    before: u32,
    name: &str,
    kind: u64,
    children: Vec<u64>,
) -> Option<Writer>
    requires web { IsWeb (shapes writer) }
    requires fresh { IsFresh writer }
    requires place { before ≤ 3 }
    ensures web { IfSome result (λ w. IsWeb (shapes w)) }
    ensures fresh { IfSome result IsFresh }
{
    let mut writer = writer;
    let name = bytes(alloc, name)?;
    let streams = streams(alloc)?;
    match writer.push_opaque(before, name, kind, children, streams) {
        Ok(()) => Some(writer),
        Err(_) => None,
    }
}

/// The writer of all columns: `ts` TIMESTAMP, `url`, `ms`, `score` DOUBLE, `tags` LIST of STRING, `hit`.
fn begun(alloc: Global) -> Option<Writer>
    ensures { IfSome result (λ w. IsWeb (shapes w)) }
{
    let writer = writer_of(alloc)?;
    let writer = with_opaque(alloc, writer, 0, "ts", 9, Vec::new(alloc))?;
    let writer = with_opaque(alloc, writer, 2, "score", 6, Vec::new(alloc))?;
    with_opaque(alloc, writer, 2, "tags", 10, [7].to_vec(alloc).ok()?)
}

/// A request's page: three in turn, and none in the third row of four.
fn url_at(alloc: Global, index: u32) -> Option<Value>
    ensures { IfSome result (MayStand (Dictionary Two)) }
{
    let text = match index % 4 {
        0 => "/a",
        1 => "/b",
        2 => return Some(Value::Null),
        _ => "/c",
    };
    Some(Value::Text(bytes(alloc, text)?))
}

/// Adds the row of that index.
fn with_row(alloc: Global, writer: Writer, index: u32) -> Option<Writer>
    requires { IsWeb (shapes writer) }
    ensures { IfSome result (λ w. IsWeb (shapes w)) }
{
    let mut writer = writer;
    let url = url_at(alloc, index)?;
    let row = [
        url,
        Value::Int(i64::from(index % 100)),
        Value::Bool(index % 2 == 0),
    ];
    match writer.push_row(&row) {
        Ok(()) => Some(writer),
        Err(_) => None,
    }
}

/// The writer with 20,000 requests, in two stripes.
fn filled(alloc: Global) -> Option<Writer> {
    let mut writer = begun(alloc)?;
    for index in 0..20_000 {
        writer = with_row(alloc, writer, index)?;
    }
    Some(writer)
}

/// The file of these requests.
fn web_file(alloc: Global) -> Option<MemorySink> {
    let writer = filled(alloc)?;
    let mut sink = MemorySink::new(alloc, Vec::new(alloc), 1_000_000).ok()?;
    writer.finish(&mut sink).ok()?;
    Some(sink)
}

const PLAN: &str =
    "g group url from web.orc where hit = true and ms >= 50\nk sum score from web.orc\n";

const PRINTED: &str = "g group 2\nnull\t2600\n\"/a\"\t2400\nk failed wrong kind score\n";

/// Whether the plan over the file of these bytes is printed so.
fn is_printed(alloc: Global, file: &[u8]) -> Option<bool> {
    let mut store = Generated::new(Under::new("web.orc", file), None);
    let mut source = MemorySource::new(bytes(alloc, PLAN)?, Vec::new(alloc));
    let words = ["--executors", "0"];
    prints(alloc, &words, &mut source, &mut store, 1, PRINTED)
}

fn web_is_printed(alloc: Global) -> Option<bool> {
    let file = web_file(alloc)?;
    is_printed(alloc, file.written()?)
}

#[test]
fn columns_that_nobody_reads_stand_between_the_others(rt: HostRuntime) {
    assert!(rt; web_is_printed(rt.alloc()) == Some(true));
}
