//! Words, and the options that they give.
use command_line::{Options, WordsFault, options};
use std::alloc::Global;

/// Words and their options: smallest block, arenas, sets, executors, io, room, rows, half-life and gen.
const TAKEN: &str = "\
--executors 0 : 4096 16 64 0 2 16 1000 1000 -
 : 4096 16 64 2 2 16 1000 1000 -
--executors 16 --io 8 : 4096 16 64 16 8 16 1000 1000 -
--executors=4 --gen=7 --rows=100000 : 4096 16 64 4 2 16 100000 1000 7
--rows 3 --gen 2 --half-life 1 --room 4 --io 5 --executors 6 --sets 7 --arenas 8 --min-block 512 : 512 8 7 6 5 4 3 1 2
--min-block 64 --arenas 1 --sets 1 --room 1 --half-life 0 --gen 0 --rows 0 : 64 1 1 2 2 1 0 0 0
--min-block 65536 --arenas 64 --sets 4096 --room 1000 : 65536 64 4096 2 2 1000 1000 1000 -
--half-life 1000000 --gen 1000000 --rows 10000000 : 4096 16 64 2 2 16 10000000 1000000 1000000
--rows 5 : 4096 16 64 2 2 16 5 1000 -
--io +5 : 4096 16 64 2 5 16 1000 1000 -
--io 007 : 4096 16 64 2 7 16 1000 1000 -
--io=-0 : 4096 16 64 2 0 16 1000 1000 -
--io 000000000000000000000000000000000000000003 : 4096 16 64 2 3 16 1000 1000 -
--io 1 -- : 4096 16 64 2 1 16 1000 1000 -";

/// Words that are no command line, one list a line.
const REFUSED: &str = "\
--executors x
--executors
--executors 17
--executors -1
--executors=-1
--executors=
--executors= 1
--executors 1.0
--executors 0x1
--executors 1 2
--executors 1 --executors 1
--executors 1 --executors=2
--executors=1=2
--exec 1
-executors 1
executors 1
-e 1
-- 1
-
1
--io 9
--io -0
--io ++1
--io=-+1
--io 18446744073709551616
--min-block 63
--min-block 100
--min-block 65537
--min-block 131072
--min-block 0
--arenas 0
--arenas 65
--sets 0
--sets 4097
--room 0
--room 1001
--half-life 1000001
--gen 1000001
--gen
--rows 10000001
--rows 1 --gen x
--nothing 1
--help
-h
--version
-V
--executors 1 --help";

/// Whether these are the options of a row.
fn is_row(given: &Options, row: &str) -> Option<bool> {
    let mut words = row.split_whitespace();
    for number in [
        given.min_block,
        given.arenas,
        given.sets,
        given.executors,
        given.io,
        given.room,
        given.rows,
    ] {
        if words.next()?.parse::<u32>().ok()? != number {
            return Some(false);
        }
    }
    let half_life = words.next()?.parse::<u64>().ok()?;
    Some(half_life == given.half_life && words.next()?.parse::<u32>().ok() == given.generated)
}

/// The words of a line, read as options.
fn read(alloc: Global, line: &str) -> Result<Options, WordsFault> {
    let Ok(words) = line.split_whitespace().collect::<Vec<&str>>(alloc) else {
        return Err(WordsFault::NoMemory);
    };
    options(alloc, words.as_slice())
}

fn is_taken(alloc: Global, line: &str) -> Option<bool> {
    let (words, row) = line.split_once(" : ")?;
    is_row(&read(alloc, words).ok()?, row)
}

fn all_are_taken(alloc: Global) -> bool {
    for line in TAKEN.lines() {
        if is_taken(alloc, line) != Some(true) {
            return false;
        }
    }
    true
}

fn is_refused(alloc: Global, line: &str) -> bool {
    match read(alloc, line) {
        Err(WordsFault::Usage) => true,
        Err(WordsFault::NoMemory) => false,
        Ok(_) => false,
    }
}

fn all_are_refused(alloc: Global) -> bool {
    for line in REFUSED.lines() {
        if !is_refused(alloc, line) {
            return false;
        }
    }
    true
}

#[test]
fn words_give_options_or_are_no_command_line(rt: HostRuntime) {
    assert!(rt; all_are_taken(rt.alloc()));
    assert!(rt; all_are_refused(rt.alloc()));
}
