//! What the program says of itself.
use command_line::{help_page, page_asked_for, usage_line, version_line};
use std::str::from_utf8;

/// Each option with its range and default, and each exit status, as the help page has them.
const LINES: [(&str, &str); 18] = [
    ("  --min-block N ", "a power of two, 64 to 65536 (4096)"),
    ("  --arenas N ", "1 to 64 (16)"),
    ("  --sets N ", "1 to 4096 (64)"),
    ("  --executors N ", "0 to 16 (2)"),
    ("  --io N ", "0 to 8 (2)"),
    ("  --room N ", "1 to 1000 (16)"),
    ("  --half-life N ", "0 to 1000000 (1000)"),
    ("  --gen N ", "0 to 1000000 (none)"),
    ("  --rows M ", "0 to 10000000 (1000)"),
    ("  0 ", "done"),
    ("  1 ", "some fragment failed"),
    ("  2 ", "no command line"),
    ("  3 ", "the plan has a fault"),
    ("  4 ", "a write failed"),
    ("  5 ", "a read of the plan failed"),
    ("  6 ", "the folder can't be listed"),
    ("  7 ", "no memory"),
    ("  8 ", "more than 4095 files"),
];

/// Whether some line of a page begins with `front` and has `back`.
fn has_line(page: &str, front: &str, back: &str) -> bool {
    for line in page.lines() {
        if line.starts_with(front) && line.contains(back) {
            return true;
        }
    }
    false
}

fn has_lines(page: &str) -> bool {
    for (front, back) in &LINES {
        if !has_line(page, front, back) {
            return false;
        }
    }
    true
}

fn pages_are_whole() -> bool {
    let Ok(page) = from_utf8(help_page()) else {
        return false;
    };
    has_lines(page)
        && version_line() == b"llapd 0.1.0\n".as_slice()
        && usage_line().starts_with(b"usage: llapd [--min-block N] ")
        && usage_line().ends_with(b" [--rows N]\n")
}

fn pages_are_asked_for() -> bool {
    page_asked_for(&["--help"]) == Some(help_page())
        && page_asked_for(&["--version"]) == Some(version_line())
        && page_asked_for(&["--help", "--version"]).is_none()
        && page_asked_for(&["--io"]).is_none()
        && page_asked_for(&[]).is_none()
}

#[test]
fn pages_have_each_option_and_each_status(rt: HostRuntime) {
    assert!(rt; pages_are_whole() && pages_are_asked_for());
}
