//! Whole files.

/// A part of a file: how often it comes, and what it has: digits, and then so many times other digits, two hexadecimal ones a byte.
pub type Part = (usize, &'static str, usize, &'static str);

/// A file of one LONG column `x` in one stripe of 100 rows, each of them -4.
pub const WORKED: &[Part] = &[(
    1,
    "4F5243610007\
0A060801100118031202080012020800\
1A0A08031000180320102864\
2208080C1201011A017822020804\
3064\
081C10002202000C280082F403034F524311",
    0,
    "",
)];

/// The columns of five kinds.
pub const FIVE_KINDS: &[Part] = &[(1, test_stores::FIVE_KINDS, 0, "")];

/// The two stripes of more than 1,024 rows.
pub const LONG_STRIPES: &[Part] = &[(1, test_stores::LONG_STRIPES, 0, "")];

/// A stripe of 1,500 rows of LONG columns `a` and `c` and a STRING `t` without a dictionary, `xy` in each row. Their streams have 2,250,
/// 1,386, 3,000 (of the texts) and 36 bytes (of their lengths).
pub const MANY_CUTS: &[Part] = &[
    (1, "4F5243", 0, ""),
    // `a`: three runs of 128 rows, and then numbers of two bytes, 128 behind one another and at the end 92.
    (3, "7D0002", 0, ""),
    (8, "80", 128, "D00F"),
    (1, "A4", 92, "D00F"),
    // `c`: a run of 128 rows, and then numbers of one byte.
    (1, "7D0002", 0, ""),
    (10, "80", 128, "04"),
    (1, "A4", 92, "06"),
    // `t`: the texts, and then runs of lengths.
    (1_500, "7879", 0, ""),
    (11, "7F0002", 0, ""),
    (1, "430002", 0, ""),
    // The stripe's footer, the file's and the postscript.
    (
        1,
        "0A070801100118CA110A070801100218EA0A0A070801100318B8170A0608021003182412020800120208001202080012020800\
1A0C08031000189034203328DC0B2210080C12030102031A01611A01631A0174220208042202080422020807\
082C1000280082F403034F52430D",
        0,
        "",
    ),
];
