//! A row of a generated file.
ghost use Rattle.std.specs.Prelude.{◌≡◌, ◌<◌, ◌++◌, codes, pos, slice_index_or, [], IfOk};
ghost use Rattle.std.specs.Fmt.{decimal};
ghost use Rattle.generated_rows.specs.Rows.{cities, id_in, even_in, city_in, note_in, qty_in, row_in};

use orc_values::Value;
use outside::{Bytes, NoMemory};
use std::alloc::Global;

/// The names that stand in turn in the column `city`.
const CITIES: [&str; 5] = ["Aarhus", "Bergen", "Cork", "Dijon", "Espoo"];

/// The row of that index, counted from 0, in the generated file of that number: its values of the columns `id`, `even`, `city`, `note`
/// and `qty`, in this order.
///
/// Answers `NoMemory` where memory was refused.
pub fn row_at(alloc: Global, number: u32, index: u32) -> Result<[Value; 5], NoMemory>
    ensures { IfOk result (λ row. row ≡ row_in number index) }
{
    let city = city_at(alloc, number, index)?;
    let note = note_at(alloc, index)?;
    Ok([
        Value::Int(i64::from(index) + i64::from(number)),
        Value::Bool(index % 2 == 0),
        city,
        note,
        qty_at(number, index),
    ])
}

/// The name of a city.
fn city_at(alloc: Global, number: u32, index: u32) -> Result<Value, NoMemory>
    ensures { IfOk result (λ value. value ≡ city_in number index) }
{
    let place = (u64::from(index) + u64::from(number)) % 5;
    match CITIES[place as usize].as_bytes().to_vec(alloc) {
        Ok(text) => Ok(Value::Text(Bytes::new(text))),
        Err(_) => Err(NoMemory),
    }
}

/// `n` and the last digits of the index.
fn note_at(alloc: Global, index: u32) -> Result<Value, NoMemory>
    ensures { IfOk result (λ value. value ≡ note_in index) }
{
    match format!(in alloc; "n{}", index % 1000) {
        Ok(text) => Ok(Value::Text(Bytes::new(text.into_bytes()))),
        Err(_) => Err(NoMemory),
    }
}

/// A number from -3 to 3, or null.
fn qty_at(number: u32, index: u32) -> Value
    ensures { result ≡ qty_in number index }
{
    if index % 10 == 9 {
        return Value::Null;
    }
    let place = (i64::from(index) + i64::from(number)) % 7;
    Value::Int(place - 3)
}
