//! The worked file with each byte replaced, and cut to each length.
use crate::one_file::{FIRST, sums_to};
use std::alloc::Global;

/// The text that each letter of a table below stands for: what follows the letter.
const TEXTS: &str = "\
ss sum -400
ds sum 628250
bs sum -6400
zs sum 0
es sum null
Ss failed broken tail short
Ns failed broken tail not orc
Ws failed broken tail wire
Os failed broken tail out of file
Ts failed broken tail types
Cs failed compressed 127
cs failed no column x
ks failed wrong kind x
ws failed broken stripe 0 footer wire
os failed broken stripe 0 footer stream out of stripe
Es failed broken stripe 0 column 1 encoding
Ds failed broken stripe 0 column 1 data stream ends
";

fn text_of(letter: char) -> &'static str {
    for row in TEXTS.split_inclusive('\n') {
        if let Some(text) = row.strip_prefix(letter) {
            return text;
        }
    }
    ""
}

/// What is wanted of a file of which the byte at that place is 7F, and 0, and of one that is cut to that length.
const WITH_7F: &str = "ssssdbwwwDwDwowwwswwwEWWWOWOWOWOWDWWWTWWTWWcWWWkWsNONCNNssNsNNNNNNNS";

const WITH_0: &str = "sssDszwDwewDwDwswswswsWEWwWsWwWEWeWWWTWWTWWcWkWkWsNTNsNNssNsNNNNNNNN";

const CUT: &str = "SSSSSNSSNNNSNSNSNNNNNNNSNNNNNNNSNSSNNNNNNNNNSNNNNNSNNNNNNNNNNSSNNSSS";

/// Whether the file with that byte at each place in turn writes what is wanted.
fn damaged_answers(alloc: Global, byte: u8, table: &str) -> bool {
    for (place, letter) in table.chars().enumerate() {
        let mut damaged = FIRST;
        if let Some(hit) = damaged.get_mut(place) {
            *hit = byte;
        }
        if !sums_to(alloc, &damaged, text_of(letter)) {
            return false;
        }
    }
    table.len() == FIRST.len()
}

/// Whether the file that is cut to each length in turn writes what is wanted.
fn cut_answers(alloc: Global) -> bool {
    for (len, letter) in CUT.chars().enumerate() {
        let cut = FIRST.get(..len).unwrap_or(&FIRST);
        if !sums_to(alloc, cut, text_of(letter)) {
            return false;
        }
    }
    CUT.len() == FIRST.len()
}

#[test]
fn a_damaged_file_is_what_it_means(rt: HostRuntime) {
    let alloc = rt.alloc();
    assert!(rt; damaged_answers(alloc, 0x7F, WITH_7F) && damaged_answers(alloc, 0, WITH_0));
}

#[test]
fn a_file_that_is_cut_is_what_it_means(rt: HostRuntime) {
    assert!(rt; cut_answers(rt.alloc()));
}
