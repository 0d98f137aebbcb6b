//! The typed lists behind a column.

use crate::case::push_rows;
use orc_values::{
    ChosenTexts, Column, ColumnValues, Dictionary, Texts, ValueRef, count_present, lay_ends,
};
use row_texts::is_any_past;
use std::alloc::Global;

/// Whether these are the rows of a column, as words.
fn has_rows(alloc: Global, present: &[bool], values: ColumnValues, wanted: &str) -> Option<bool> {
    if count_present(present) != values.len() {
        return None;
    }
    let column = Column::new(present.to_vec(alloc).ok()?, values);
    let mut words = String::new(alloc);
    push_rows(alloc, &mut words, &column)?;
    Some(words.as_str() == wanted)
}

const PRESENT: [bool; 4] = [true, false, true, false];

fn bools_woven(alloc: Global) -> Option<bool> {
    let values = [false, true].to_vec(alloc).ok()?;
    has_rows(
        alloc,
        &PRESENT,
        ColumnValues::Bools(values),
        "false null true null ",
    )
}

fn numbers_woven(alloc: Global) -> Option<bool> {
    let values = [-5i64, 7].to_vec(alloc).ok()?;
    has_rows(
        alloc,
        &PRESENT,
        ColumnValues::Ints(values),
        "-5 null 7 null ",
    )
}

fn texts_cut(alloc: Global) -> Option<bool> {
    let present = [true, true, false, true];
    let mut ends = [0usize; 3].to_vec(alloc).ok()?;
    lay_ends(&[2, 2, 2], &mut ends);
    let texts = Texts::new(b"/a/b/c".to_vec(alloc).ok()?, ends);
    has_rows(
        alloc,
        &present,
        ColumnValues::Texts(texts),
        "'/a' '/b' null '/c' ",
    )
}

#[test]
fn dense_values_come_to_their_rows(rt: HostRuntime) {
    assert!(rt; bools_woven(rt.alloc()) == Some(true));
    assert!(rt; numbers_woven(rt.alloc()) == Some(true));
    assert!(rt; texts_cut(rt.alloc()) == Some(true));
}

fn numbers_lent(alloc: Global) -> Option<bool> {
    let values = [-5i64, 7].to_vec(alloc).ok()?;
    if count_present(&PRESENT) != values.len() {
        return None;
    }
    let column = Column::new(PRESENT.to_vec(alloc).ok()?, ColumnValues::Ints(values));
    match column.values() {
        ColumnValues::Ints(numbers) => {
            Some(column.count() == 2 && numbers.as_slice() == [-5i64, 7].as_slice())
        }
        _ => None,
    }
}

#[test]
fn dense_values_are_lent(rt: HostRuntime) {
    assert!(rt; numbers_lent(rt.alloc()) == Some(true));
}

const VALUES: [ValueRef<'static>; 4] = [
    ValueRef::Null,
    ValueRef::Bool(true),
    ValueRef::Int(-7),
    ValueRef::Text(b"/a"),
];

fn are_lent_again(alloc: Global) -> Option<bool> {
    for value in &VALUES {
        if value.to_value(alloc).ok()?.as_ref() != *value {
            return Some(false);
        }
    }
    Some(true)
}

#[test]
fn values_are_owned_and_lent_again(rt: HostRuntime) {
    assert!(rt; are_lent_again(rt.alloc()) == Some(true));
}

fn texts_of(alloc: Global) -> Option<Texts> {
    let mut texts = Texts::empty(alloc);
    texts.push(b"gone").ok()?;
    texts.clear();
    for text in ["/a", "", "/bc"] {
        texts.push(text.as_bytes()).ok()?;
    }
    Some(texts)
}

fn texts_added(alloc: Global) -> Option<bool> {
    let texts = texts_of(alloc)?;
    if texts.len() != 3 {
        return None;
    }
    let lent = texts.get(0) == b"/a".as_slice()
        && texts.get(1).is_empty()
        && texts.get(2) == b"/bc".as_slice();
    let (bytes, ends) = texts.into_parts();
    Some(
        lent && bytes.as_slice() == b"/a/bc".as_slice()
            && ends.as_slice() == [2usize, 2, 5].as_slice(),
    )
}

#[test]
fn texts_are_added_and_let_go(rt: HostRuntime) {
    assert!(rt; texts_added(rt.alloc()) == Some(true));
}

/// Entries of a dictionary by these numbers, if each is below the number of entries, which is three.
fn chosen_of(alloc: Global, numbers: &[i64]) -> Option<ChosenTexts> {
    let dictionary = Dictionary::new(alloc, texts_of(alloc)?).ok()?;
    let numbers = numbers.to_vec(alloc).ok()?;
    if is_any_past(&numbers, dictionary.len()) {
        return None;
    }
    Some(ChosenTexts::new(dictionary.share().ok()?, numbers))
}

/// Whether these are the last entry, the first and the last again, and stand as numbers.
fn are_chosen(texts: &ChosenTexts) -> bool {
    let (entries, numbers) = texts.parts();
    entries.len() == 3
        && numbers == [2i64, 0, 2].as_slice()
        && texts.len() == 3
        && texts.get(1) == b"/a".as_slice()
        && texts.get(2) == b"/bc".as_slice()
}

fn texts_chosen(alloc: Global) -> Option<bool> {
    let texts = chosen_of(alloc, &[2, 0, 2])?;
    let copy = texts.copy(alloc).ok()?;
    Some(are_chosen(&texts) && are_chosen(&copy))
}

#[test]
fn texts_are_chosen_by_number(rt: HostRuntime) {
    assert!(rt; texts_chosen(rt.alloc()) == Some(true));
    assert!(rt; chosen_of(rt.alloc(), &[2, 0, 3]).is_none());
    assert!(rt; chosen_of(rt.alloc(), &[0, -1]).is_none());
}
