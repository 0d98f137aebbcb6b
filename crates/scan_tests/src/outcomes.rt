//! Scans of whole files, and what is printed of them.
use crate::files::{
    BOTH_BREAK, CLAIMS, CLAIMS_MORE, COLUMN_AND_FOOTER, COMPRESSED, FOOTERS_BREAK, GREATEST,
    SECOND_BREAKS, SUM_AND_BREAK, TWO_NAMES,
};
use crate::one_scan::scanned;
use std::alloc::Global;
use test_stores::{FIVE_KINDS, LONG_STRIPES, OneFile};

/// Plans over the file of five kinds, each behind `$`, and below each what is printed.
const FOLDS: &str = "
$r rows t,b from t.orc
r rows 8
\"a\"\ttrue
null\tnull
\"\"\tfalse
\"b\\\"c\"\ttrue
\"zz\"\tnull
\"a\"\tfalse
\"q\"\ttrue
\"a\"\tfalse
$r rows d,l,d from t.orc where b = true
r rows 3
\"x\"\t100\t\"x\"
\"x\"\t7\t\"x\"
\"x\"\t2\t\"x\"
$r rows i from t.orc where t > 'b' and d is not null
r rows 2
null
40
$n count from t.orc
n count 8
$n count from t.orc where b != true
n count 3
$n count from t.orc where s >= 3 and s < 7
n count 4
$n count from t.orc where l is null
n count 1
$n count from t.orc where d is null
n count 2
$s sum i from t.orc where i <= 20
s sum 30
$s sum l from t.orc where t != 'a'
s sum -4999999982
$s sum s from t.orc where i is null and b = true
s sum 3
$s sum i from t.orc where l = 5
s sum null
$g group b from t.orc
g group 3
null\t2
false\t3
true\t3
$g group s from t.orc where d = 'y'
g group 3
-2\t1
5\t1
7\t1
$g group d from t.orc where s is not null
g group 3
null\t1
\"x\"\t3
\"y\"\t3
";

/// Plans over the same file whose columns can't be read: a missing one comes before one of a wrong kind, both by first naming.
const MISFITS: &str = "
$r rows zz from u.orc
r failed no file
$r rows t,zz from t.orc where t = 1
r failed no column zz
$r rows yy,zz from t.orc
r failed no column yy
$n count from t.orc where i = 'a' and b = 1
n failed wrong kind i
$n count from t.orc where s is null and b = 1
n failed wrong kind b
$s sum t from t.orc
s failed wrong kind t
$n count from t.orc where f is null
n failed wrong kind f
";

/// Files, and plans over each of them.
const OTHERS: [(&str, &str); 11] = [
    (
        TWO_NAMES,
        "
$r rows y,x from t.orc where x > 4
r rows 2
5\t5
6\t6
",
    ),
    (
        LONG_STRIPES,
        "
$r rows n,d from t.orc where n >= 1022 and n < 1026
r rows 8
1022\tnull
1023\tnull
1024\tnull
1025\tnull
1025\t\"b\"
1024\t\"b\"
1023\t\"b\"
1022\t\"b\"
$s sum n from t.orc
s sum 1728700
$s sum n from t.orc where d = 'b'
s sum 979200
$n count from t.orc where n < 1024
n count 2048
$g group d from t.orc
g group 3
null\t500
\"a\"\t500
\"b\"\t1600
$n count from t.orc
n count 2600
",
    ),
    (
        GREATEST,
        "
$s sum x from t.orc
s sum 9223372036854775807
$s sum x from t.orc where x > 0
s failed overflow
",
    ),
    (
        CLAIMS,
        "
$n count from t.orc
n count 9223372036854775807
",
    ),
    (
        CLAIMS_MORE,
        "
$n count from t.orc
n failed overflow
$s sum x from t.orc
s failed broken stripe 0 column 1 encoding
",
    ),
    (
        SECOND_BREAKS,
        "
$s sum a from t.orc
s sum 6
$r rows c,a from t.orc
r failed broken stripe 1 column 2 data stream ends
",
    ),
    (
        BOTH_BREAK,
        "
$r rows c,a from t.orc
r failed broken stripe 1 column 1 data stream ends
",
    ),
    (
        COLUMN_AND_FOOTER,
        "
$r rows c from t.orc
r failed broken stripe 0 column 2 data stream ends
$r rows a from t.orc
r failed broken stripe 1 footer stream out of stripe
",
    ),
    (
        FOOTERS_BREAK,
        "
$g group a from t.orc
g failed broken stripe 0 footer stream out of stripe
$n count from t.orc
n count 4
",
    ),
    (
        SUM_AND_BREAK,
        "
$s sum c from t.orc
s failed overflow
$s sum a from t.orc
s failed broken stripe 1 column 1 data stream ends
",
    ),
    (
        COMPRESSED,
        "
$r rows zz from t.orc
r failed compressed 1
",
    ),
];

/// Whether that is printed of the scan of a file of these bytes by that plan.
fn prints(alloc: Global, file: &[u8], plan: &str, text: &str) -> bool {
    let mut store = OneFile::new(alloc, file, usize::MAX);
    match scanned(alloc, &mut store, plan) {
        Some(sink) => sink.written() == Some(text.as_bytes()),
        None => false,
    }
}

/// Whether each of the plans over a file of these bytes prints the text below it.
fn file_prints(alloc: Global, file: &[u8], plans: &str) -> bool {
    for case in plans.split('$').skip(1) {
        let Some((plan, text)) = case.split_once('\n') else {
            return false;
        };
        if !prints(alloc, file, plan, text) {
            return false;
        }
    }
    true
}

/// The same of a file of these digits.
fn all_print(alloc: Global, digits: &str, plans: &str) -> bool {
    match hex::decode(alloc, digits) {
        Ok(file) => file_prints(alloc, file.as_slice(), plans),
        Err(_) => false,
    }
}

fn others_print(alloc: Global) -> bool {
    for (digits, plans) in &OTHERS {
        if !all_print(alloc, digits, plans) {
            return false;
        }
    }
    true
}

#[test]
fn each_scan_prints_its_outcome(rt: HostRuntime) {
    assert!(rt; all_print(rt.alloc(), FIVE_KINDS, FOLDS));
    assert!(rt; all_print(rt.alloc(), FIVE_KINDS, MISFITS));
    assert!(rt; others_print(rt.alloc()));
}
