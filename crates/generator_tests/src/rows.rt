//! Rows of generated files, and the plan over one.
use generated_plan::{file_name, generated_plan};
use generated_rows::row_at;
use orc_values::{Value, ValueRef};
use std::alloc::Global;

/// The file's number, a row's index, and its values: id, even, city, note and qty.
const ROWS: [(u32, u32, [ValueRef<'static>; 5]); 8] = [
    (
        0,
        0,
        [
            ValueRef::Int(0),
            ValueRef::Bool(true),
            ValueRef::Text(b"Aarhus"),
            ValueRef::Text(b"n0"),
            ValueRef::Int(-3),
        ],
    ),
    (
        7,
        0,
        [
            ValueRef::Int(7),
            ValueRef::Bool(true),
            ValueRef::Text(b"Cork"),
            ValueRef::Text(b"n0"),
            ValueRef::Int(-3),
        ],
    ),
    (
        7,
        1,
        [
            ValueRef::Int(8),
            ValueRef::Bool(false),
            ValueRef::Text(b"Dijon"),
            ValueRef::Text(b"n1"),
            ValueRef::Int(-2),
        ],
    ),
    (
        7,
        2,
        [
            ValueRef::Int(9),
            ValueRef::Bool(true),
            ValueRef::Text(b"Espoo"),
            ValueRef::Text(b"n2"),
            ValueRef::Int(-1),
        ],
    ),
    (
        7,
        3,
        [
            ValueRef::Int(10),
            ValueRef::Bool(false),
            ValueRef::Text(b"Aarhus"),
            ValueRef::Text(b"n3"),
            ValueRef::Int(0),
        ],
    ),
    (
        7,
        9,
        [
            ValueRef::Int(16),
            ValueRef::Bool(false),
            ValueRef::Text(b"Bergen"),
            ValueRef::Text(b"n9"),
            ValueRef::Null,
        ],
    ),
    (
        7,
        1234,
        [
            ValueRef::Int(1241),
            ValueRef::Bool(true),
            ValueRef::Text(b"Bergen"),
            ValueRef::Text(b"n234"),
            ValueRef::Int(-1),
        ],
    ),
    (
        1_000_000,
        9_999_999,
        [
            ValueRef::Int(10_999_999),
            ValueRef::Bool(false),
            ValueRef::Text(b"Espoo"),
            ValueRef::Text(b"n999"),
            ValueRef::Null,
        ],
    ),
];

/// Whether the values of a row are these.
fn are_same(row: &[Value], values: &[ValueRef<'static>]) -> bool {
    for (value, expected) in row.iter().zip(values.iter()) {
        if !value.as_ref().is_same(*expected) {
            return false;
        }
    }
    true
}

/// Whether a row has these values.
fn is_row(alloc: Global, number: u32, index: u32, values: &[ValueRef<'static>; 5]) -> Option<bool> {
    let row = row_at(alloc, number, index).ok()?;
    Some(are_same(&row, values))
}

fn all_are_rows(alloc: Global) -> bool {
    for (number, index, values) in &ROWS {
        if is_row(alloc, *number, *index, values) != Some(true) {
            return false;
        }
    }
    true
}

/// The plan over the file of 100,000 rows of number 7.
const PLAN: &str = "\
n count from gen-7-100000.orc
s sum id from gen-7-100000.orc
q sum qty from gen-7-100000.orc
m merge s,q
g group city from gen-7-100000.orc
f count from gen-7-100000.orc where even = true and id < 1007
r rows id,note from gen-7-100000.orc where id < 10
";

fn plan_is_written(alloc: Global) -> Option<bool> {
    let name = file_name(alloc, 7, 100_000).ok()?;
    let plan = generated_plan(alloc, 7, 100_000).ok()?;
    Some(name.as_str() == "gen-7-100000.orc" && plan.as_slice() == PLAN.as_bytes())
}

#[test]
fn rows_are_a_function_of_number_and_index(rt: HostRuntime) {
    assert!(rt; all_are_rows(rt.alloc()));
}

#[test]
fn the_plan_names_the_file(rt: HostRuntime) {
    assert!(rt; plan_is_written(rt.alloc()) == Some(true));
}
