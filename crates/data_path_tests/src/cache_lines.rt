//! The line of the cache behind the results of plans over one file, in a cache of the sizes that words without options give.
use crate::one_file::prints_whole;
use std::alloc::Global;

/// Files, two hexadecimal digits a byte, a plan of each, and what is printed: the worked files, each of whose ranges is read once; a file
/// without stripes, whose end and footer the next scans find; a compressed one, and three that are none, of which the last is empty; and
/// texts by a dictionary in two stripes, which two scans read.
const ROWS: [(&str, &str, &str); 15] = [
    (
        "\
    4F52436100070A0608011001180312020800120208001A0A080310001803201028642208080C1201011A0178220208043064\
    081C10002202000C280082F403034F524311",
        "s sum x from t.orc",
        "s sum -400\ncache hit 0 filled 4 bypass 0 evicted 0 moved 0\n",
    ),
    (
        "\
    4F524361FF640A0608011001180312020800120208001A0A080310001803201028642208080C1201011A0178220208043064\
    081C10002202000C280082F403034F524311",
        "s sum x from t.orc",
        "s sum 50\ncache hit 0 filled 4 bypass 0 evicted 0 moved 0\n",
    ),
    (
        "\
    4F52430A27100A0608011001180312020800120208021A0A080310001803201028052208080C1201011A0178220208043005\
    081C10002202000C280082F403034F524311",
        "s sum x from t.orc",
        "s sum 25000\ncache hit 0 filled 4 bypass 0 evicted 0 moved 0\n",
    ),
    (
        "\
    4F52435E035CA1AB1EDEADBEEF0A0608011001180A12020800120208021A0A08031000180A201028042208080C1201011A01\
    78220208043004081C10002202000C280082F403034F524311",
        "s sum x from t.orc",
        "s sum -42897\ncache hit 0 filled 4 bypass 0 evicted 0 moved 0\n",
    ),
    (
        "\
    4F52438E132B2107D01E00147028323C46505A646E78828C96A0AAB4BEFCE80A0608011001181C12020800120208021A0A08\
    031000181C201028142208080C1201011A0178220208043014081C10002202000C280082F403034F524311",
        "s sum x from t.orc",
        "s sum 1039890\ncache hit 0 filled 4 bypass 0 evicted 0 moved 0\n",
    ),
    (
        "\
    4F5243C6090202224242460A0608011001180812020800120208021A0A0803100018082010280A2208080C1201011A017822\
    020804300A081C10002202000C280082F403034F524311",
        "s sum x from t.orc",
        "s sum 119\ncache hit 0 filled 4 bypass 0 evicted 0 moved 0\n",
    ),
    (
        "\
    4F5243FDFEFFFFFFFFFFFFFFFF0102010A0608011001180D12020800120208001A0A08031000180D201028032208080C1201\
    011A0178220208043003081C10002202000C280082F403034F524311",
        "s sum x from t.orc",
        "s sum 9223372036854775807\ncache hit 0 filled 4 bypass 0 evicted 0 moved 0\n",
    ),
    (
        "\
    4F5243FEFEFFFFFFFFFFFFFFFF01020A0608011001180C12020800120208001A0A08031000180C201028022208080C120101\
    1A0178220208043002081C10002202000C280082F403034F524311",
        "s sum x from t.orc",
        "s failed overflow\ncache hit 0 filled 4 bypass 0 evicted 0 moved 0\n",
    ),
    (
        "4F52432208080C1201011A0178220208043000081010002202000C280082F403034F524311",
        "n count from t.orc\ns sum x from t.orc\ng group x from t.orc",
        "n count 0\ns sum null\ng group 0\ncache hit 4 filled 2 bypass 0 evicted 0 moved 0\n",
    ),
    (
        "\
    4F5243FF000A0608001001180212020800120208021A0A080310001802201028052208080C1201011A017822020807300508\
    1C10002202000C280082F403034F524311",
        "r rows x from t.orc",
        "r rows 5\nnull\nnull\nnull\nnull\nnull\ncache hit 0 filled 4 bypass 0 evicted 0 moved 0\n",
    ),
    (
        "\
    4F52436100070A0608011001180312020800120208001A0A080310001803201028642208080C1201011A0178220208043064\
    081C10012202000C280082F403034F524311",
        "s sum x from t.orc",
        "s failed compressed 1\ncache hit 0 filled 1 bypass 0 evicted 0 moved 0\n",
    ),
    (
        "\
    4F52436100070A0608011001180312020800120208001A0A080310001803201028642208080C1201011A0178220208043064\
    081C10002202000C280082F403034F5243",
        "s sum x from t.orc",
        "s failed broken tail short\ncache hit 0 filled 1 bypass 0 evicted 0 moved 0\n",
    ),
    (
        "0000",
        "s sum x from t.orc",
        "s failed broken tail not orc\ncache hit 0 filled 1 bypass 0 evicted 0 moved 0\n",
    ),
    (
        "",
        "s sum x from t.orc",
        "s failed broken tail short\ncache hit 0 filled 0 bypass 0 evicted 0 moved 0\n",
    ),
    (
        "\
    4F52434202104001C061620A060801100118030A060802100118030A06080310011802120208001204080310024202104001\
    C061620A060801100118030A060802100118030A06080310011802120208001204080310021A0A080310001808202228031A\
    0A082D10001808202228032208080C1201011A0178220208073006082810002202000C280082F403034F524311",
        "r rows x,x from t.orc where x != 'a'\ng group x from t.orc",
        "r rows 2\n\"b\"\t\"b\"\n\"b\"\t\"b\"\ng group 2\n\"a\"\t4\n\"b\"\t2\ncache hit 0 filled 20 bypass 0 evicted 12 moved 0\n",
    ),
];

fn holds(alloc: Global, digits: &str, plan: &str, text: &str) -> bool {
    match hex::decode(alloc, digits) {
        Ok(file) => prints_whole(alloc, &[], file.as_slice(), plan.as_bytes(), text),
        Err(_) => false,
    }
}

fn all_hold(alloc: Global) -> bool {
    for (digits, plan, text) in &ROWS {
        if !holds(alloc, digits, plan, text) {
            return false;
        }
    }
    true
}

#[test]
fn the_caches_line_counts_hits_and_fills(rt: HostRuntime) {
    assert!(rt; all_hold(rt.alloc()));
}
