//! Whole plans over one file.
use crate::one_file::prints;
use std::alloc::Global;

/// No stripe of a LONG column.
const NO_STRIPE: &str = "\
    4F52432208080C1201011A0178220208043000081010002202000C280082F403034F524311";

/// Five nulls of a STRING column, without another stream than PRESENT.
const NULLS: &str = "\
    4F5243FF000A0608001001180212020800120208021A0A080310001802201028052208080C1201011A017822020807300508\
    1C10002202000C280082F403034F524311";

/// Two stripes of three texts each, `a`, `b` and `a`, by a dictionary.
const LETTERS: &str = "\
    4F52434202104001C061620A060801100118030A060802100118030A06080310011802120208001204080310024202104001\
    C061620A060801100118030A060802100118030A06080310011802120208001204080310021A0A080310001808202228031A\
    0A082D10001808202228032208080C1201011A0178220208073006082810002202000C280082F403034F524311";

/// The same, where the last index of the second stripe is 2.
const BAD_INDEX: &str = "\
    4F52434202104001C061620A060801100118030A060802100118030A06080310011802120208001204080310024202184001\
    C061620A060801100118030A060802100118030A06080310011802120208001204080310021A0A080310001808202228031A\
    0A082D10001808202228032208080C1201011A0178220208073006082810002202000C280082F403034F524311";

/// The greatest LONG, 1 and -1.
const GREATEST: &str = "\
    4F5243FDFEFFFFFFFFFFFFFFFF0102010A0608011001180D12020800120208001A0A08031000180D201028032208080C1201\
    011A0178220208043003081C10002202000C280082F403034F524311";

/// 1, null, -2, 300 and null, of an INT column.
const NUMBERS: &str = "\
    4F5243FFB0FD0203D8040A060800100118020A0608011001180512020800120208001A0A080310001807201828052208080C\
    1201011A0178220208033005081C10002202000C280082F403034F524311";

/// Twelve requests in two stripes: `hit` BOOLEAN, `code` SHORT, `ms` INT, `bytes` LONG and `url` STRING, with nulls. Texts stand by
/// a dictionary in the first stripe, and directly in the second.
const WEB: &str = "\
    4F5243FFEEFFB4520664190CA190643E8640F918BE011098020E880E42FFDA780400000028000000E0000000000010000000\
    0028000200000000FFFA42052E10440331502F2F2771272F612F6E6F6E650A060800100118020A060801100118020A060801\
    1002180B0A0608011003180B0A060800100418020A0608011004181B0A060800100518020A060801100518040A0608021005\
    18040A0608031005180C1202080012020800120208021202080012020802120408031004FFE8FFD0FFE8FCDA049003900390\
    03FFD84E0306B0B6F0FB00801801188080800146041218102F2F612F2F746162092278222F0A060800100118020A06080110\
    0118020A060800100218020A060801100218090A060800100318020A060801100318060A0608011004180A0A060802100518\
    050A0608011005180D1202080012020800120208001202080212020800120208021A0A08031000184D206A28071A0B08BA01\
    10001833206028052224080C120501020304051A036869741A04636F64651A026D731A0562797465731A0375726C22020800\
    22020802220208032202080422020807300C085510002202000C280082F403034F524311";

/// Files, a plan of each, and the exit status and the text of it.
const PLANS: [(&str, &str, u8, &str); 9] = [
    (
        NO_STRIPE,
        "n count from t.orc\ns sum x from t.orc\ng group x from t.orc\n",
        0,
        "n count 0\ns sum null\ng group 0\n",
    ),
    (
        NULLS,
        "r rows x from t.orc",
        0,
        "r rows 5\nnull\nnull\nnull\nnull\nnull\n",
    ),
    (
        LETTERS,
        "r rows x,x from t.orc where x != 'a'\ng group x from t.orc",
        0,
        "r rows 2\n\"b\"\t\"b\"\n\"b\"\t\"b\"\ng group 2\n\"a\"\t4\n\"b\"\t2\n",
    ),
    (
        BAD_INDEX,
        "r rows x from t.orc",
        1,
        "r failed broken stripe 1 column 1 index\n",
    ),
    (
        BAD_INDEX,
        "n count from t.orc\nr rows x from t.orc\nm merge n,n\n",
        1,
        "n count 6\nr failed broken stripe 1 column 1 index\nm count 12\n",
    ),
    (
        NUMBERS,
        "a rows x from t.orc where x < 0\nb rows x from t.orc where x > 0\nm merge b,a\nn merge a,m,a",
        0,
        "a rows 1\n-2\nb rows 2\n1\n300\nm rows 3\n1\n300\n-2\nn rows 5\n-2\n1\n300\n-2\n-2\n",
    ),
    (
        GREATEST,
        "s sum x from t.orc\na sum x from t.orc where x > 0\nb sum x from t.orc where x = -1\nm merge a,b",
        1,
        "s sum 9223372036854775807\na failed overflow\nb sum -1\nm failed source a\n",
    ),
    (
        GREATEST,
        "a sum x from t.orc where x > 1\nb sum x from t.orc where x = 1\nc sum x from t.orc where x = -1\n\
        m merge a,b,c\no merge a,b",
        1,
        "a sum 9223372036854775807\nb sum 1\nc sum -1\nm sum 9223372036854775807\no failed overflow\n",
    ),
    (WEB, WEB_PLAN, 1, WEB_TEXT),
];

/// A plan of all four folds, of a filter on each of the five kinds, and of merges.
const WEB_PLAN: &str = "\
# requests of a web server
all count from t.orc
pages group url from t.orc where hit = true
slow rows url,ms from t.orc where ms >= 90 and code = 200
small sum bytes from t.orc where bytes < 1000000
big sum bytes from t.orc where bytes >= 1000000
sent merge small,big
home sum bytes from t.orc where url = '/' after sent
unsaid count from t.orc where hit is null
x sum x from t.orc
lost count from none.orc
both merge unsaid,lost
";

const WEB_TEXT: &str = "\
all count 12
pages group 4
\"/\"\t4
\"/'q'\"\t1
\"/a\"\t1
\"/none\"\t1
slow rows 3
\"/a\"\t95
\"/a\"\t140
\"/\"\t120
small sum 13835
big sum 4303355904
sent sum 4303369739
home sum 1058815
unsaid count 2
x failed no column x
lost failed no file
both failed source lost
";

fn holds(alloc: Global, digits: &str, plan: &str, code: u8, text: &str) -> bool {
    match hex::decode(alloc, digits) {
        Ok(file) => prints(alloc, file.as_slice(), plan.as_bytes(), code, text),
        Err(_) => false,
    }
}

fn all_hold(alloc: Global) -> bool {
    for (digits, plan, code, text) in &PLANS {
        if !holds(alloc, digits, plan, *code, text) {
            return false;
        }
    }
    true
}

#[test]
fn each_plan_prints_its_results(rt: HostRuntime) {
    assert!(rt; all_hold(rt.alloc()));
}
