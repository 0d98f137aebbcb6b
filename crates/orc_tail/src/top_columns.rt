//! The columns of a file's rows, by its types.

ghost use Rattle.std.specs.Prelude.{◌≡◌, ◌≤◌, ◌<◌, ◌^◌, ℕ, length, map, IfOk, slice_index};
ghost use Rattle.std.specs.List.{list_all};
ghost use Rattle.orc_tail.specs.Reading.{Gives};
ghost use Rattle.orc_tail.specs.Tail.{is_root as root_test, is_child, child as child_of, children as children_of, top_columns as columns_of};
ghost use Rattle.orc_tail.specs.Views.{type_view};

use crate::columns::{TopColumn, TopColumns};
use crate::fault::TailFault;
use crate::types::ColumnType;
use outside::Bytes;
use std::alloc::{AllocError, Global};

/// The kind's number of a STRUCT.
const STRUCT: u64 = 12;

/// Whether type 0 is a STRUCT whose children are types, of which there are `count`, with a name each.
fn is_root(count: usize, root: &ColumnType) -> bool
    ensures { result ≡ root_test count (type_view root.now) }
{
    root.kind == STRUCT
        && root.subtypes.len() == root.names.len()
        && are_types(count as u64, &root.subtypes)
}

/// Whether each number is that of a type below the root, of `count` types.
fn are_types(count: u64, numbers: &[u64]) -> bool
    ensures { result ≡ list_all (is_child count) numbers.now }
{
    numbers.iter().all(|number| *number != 0 && *number < count)
}

/// The children of type 0, in order, each with its type's number and kind and its name.
///
/// Refuses by BadTypes where there is no type, or type 0 isn't a STRUCT of types with names.
#[tactic(auto, unfolding(crate::specs::Tail::top_columns))]
pub(crate) fn top_columns(alloc: Global, types: &[ColumnType]) -> Result<TopColumns, TailFault>
    requires { length types.now ≤ 2 ^ 32 }
    ensures { Gives (λ columns. columns) result (columns_of (map type_view types.now)) }
{
    let Some(root) = types.first() else {
        return Err(TailFault::BadTypes);
    };
    if !is_root(types.len(), root) {
        return Err(TailFault::BadTypes);
    }
    let columns = children(alloc, types, &root.subtypes, &root.names)?;
    Ok(TopColumns::new(columns))
}

/// The types of these numbers, each with its name.
fn children(
    alloc: Global,
    types: &[ColumnType],
    numbers: &[u64],
    names: &[&[u8]],
) -> Result<Vec<TopColumn>, AllocError>
    requires few { length types.now ≤ 2 ^ 32 }
    requires types { (k : ℕ) → k < length numbers.now → slice_index numbers.now k < length types.now }
    requires named { length numbers.now ≡ length names.now }
    ensures { IfOk result (λ columns. columns.items
        ≡ children_of (map type_view types.now) numbers.now (map (λ name. name.now) names.now)) }
{
    let mut columns = Vec::new(alloc);
    for i in 0..numbers.len() {
        let name = Vec::from_slice(alloc, names[i])?;
        columns.push(child(types, numbers[i], Bytes::new(name)))?;
    }
    Ok(columns)
}

/// The type of this number, with its name.
fn child(types: &[ColumnType], number: u64, name: Bytes) -> TopColumn
    requires few { length types.now ≤ 2 ^ 32 }
    requires is_type { number < length types.now }
    ensures { result ≡ child_of (map type_view types.now) number name }
{
    TopColumn {
        number: number as u32,
        kind: types[number as usize].kind,
        name,
    }
}
