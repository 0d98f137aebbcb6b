//! The top call's plans, words, and faults of source and sink, over the worked file.
use crate::one_file::{Call, FIRST, answers};
use std::alloc::Global;

const USAGE: &str =
    "usage: llapd [--min-block N] [--arenas N] [--sets N] [--executors N] [--io N] [--room N] [--half-life N] [--gen N] [--rows N]\n";

/// The call with these words and that plan, of which that read of the plan and that write fail (0: none).
fn call<'a>(words: &'a [&'a str], plan: &'a str, fails: [u64; 2]) -> Call<'a> {
    Call {
        words,
        plan,
        failing_read: fails[0],
        failing_write: fails[1],
        file: &FIRST,
    }
}

/// Plans, and the exit status and the text of each. The longest name has 64 bytes.
const PLANS: [(&str, u8, &str); 24] = [
    ("s sum x from t.orc", 0, "s sum -400\n"),
    ("s sum x from t.orc\n", 0, "s sum -400\n"),
    ("s sum x from t.orc\n\n", 0, "s sum -400\n"),
    ("s sum x from t.orc\r\n", 0, "s sum -400\n"),
    ("s\tsum  x from t.orc ", 0, "s sum -400\n"),
    ("A_z-9. sum .x from t", 1, "A_z-9. failed no file\n"),
    (
        "n234567890123456789012345678901234567890123456789012345678901234 sum y from t.orc",
        1,
        "n234567890123456789012345678901234567890123456789012345678901234 failed no column y\n",
    ),
    (
        "n2345678901234567890123456789012345678901234567890123456789012345 sum x from t.orc",
        3,
        "plan line 1: bad name\n",
    ),
    ("s sum x from t.orc now", 3, "plan line 1: bad word\n"),
    ("s sum x t.orc", 3, "plan line 1: bad word\n"),
    ("s sum x from .orc", 3, "plan line 1: bad name\n"),
    ("s sum x from", 3, "plan line 1: bad word\n"),
    ("s sum x from u.orc", 1, "s failed no file\n"),
    ("s sum y from t.orc", 1, "s failed no column y\n"),
    ("s count from t.orc", 0, "s count 100\n"),
    ("", 0, ""),
    (
        "a count from t.orc\nm merge a,z\nz count from t.orc",
        3,
        "plan line 2: unknown fragment\n",
    ),
    (
        "# a\n\na count from t.orc\ns sum x from t.orc\nm merge a,s",
        3,
        "plan line 5: shape differs\n",
    ),
    (
        "s count from t.orc where x = +1",
        3,
        "plan line 1: bad literal\n",
    ),
    (
        "a count from t.orc\ns sum x from t.orc where x > 0\nm merge a,a after s",
        0,
        "a count 100\ns sum null\nm count 200\n",
    ),
    (
        "g group x from t.orc\ny sum y from t.orc\nz sum x from t.orc\nm merge z,y,z\ng2 merge g,g",
        1,
        "g group 1\n-4\t100\ny failed no column y\nz sum -400\nm failed source y\ng2 group 1\n-4\t200\n",
    ),
    (
        "s count from t.orc where x = true",
        1,
        "s failed wrong kind x\n",
    ),
    (
        "s count from t.orc where x = 'a' and y = 1",
        1,
        "s failed no column y\n",
    ),
    ("a merge a", 3, "plan line 1: unknown fragment\n"),
];

fn plans_answer(alloc: Global) -> bool {
    for (plan, code, text) in &PLANS {
        if !answers(alloc, &call(&[], plan, [0, 0]), *code, text) {
            return false;
        }
    }
    true
}

#[test]
fn each_plan_has_its_answer(rt: HostRuntime) {
    assert!(rt; plans_answer(rt.alloc()));
}

const SUM: &str = "s sum x from t.orc";

/// Words, and whether they are a command line of a stored plan.
const WORDS: [(&[&str], bool); 10] = [
    (&[], true),
    (&["--executors", "0"], true),
    (&["--executors=2", "--io", "3", "--rows", "7"], true),
    (&["--executors", "x"], false),
    (&["--executors"], false),
    (&["--executors", "0", "0"], false),
    (&["--min-block", "100"], false),
    (&["--gen", "1000001"], false),
    (&["--help"], false),
    (&["s"], false),
];

fn words_are_judged(alloc: Global) -> bool {
    for (words, good) in &WORDS {
        let (code, text) = if *good {
            (0, "s sum -400\n")
        } else {
            (2, USAGE)
        };
        if !answers(alloc, &call(words, SUM, [0, 0]), code, text) {
            return false;
        }
    }
    true
}

fn faults_are_told(alloc: Global) -> bool {
    let unread = call(&[], SUM, [1, 0]);
    let unwritten = call(&[], SUM, [0, 1]);
    answers(alloc, &unread, 5, "") && answers(alloc, &unwritten, 4, "")
}

#[test]
fn words_are_judged_first(rt: HostRuntime) {
    assert!(rt; words_are_judged(rt.alloc()));
}

#[test]
fn a_failed_read_or_write_is_its_fault(rt: HostRuntime) {
    assert!(rt; faults_are_told(rt.alloc()));
}
