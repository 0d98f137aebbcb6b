// What syncs leave in one header's entry, by the definition, worked out by hand.
use lrfu_policy::{Policy, Rank};
use std::alloc::Global;

/// Key, touches and last tick of a sync, and then s, e and last of the entry.
type Sync = (u64, u64, u64, u64, u64, u64);

/// With a half-life of 2. The second key starts anew; an older tick doesn't count; 2^63 is the most; after a hundred
/// half-lives nothing is left.
const HALVED: [Sync; 7] = [
    (7, 3, 5, 12_884_901_888, 2, 5),
    (7, 1, 9, 7_516_192_768, 4, 9),
    (8, 1, 9, 4_294_967_296, 4, 9),
    (8, 0, 3, 4_294_967_296, 4, 9),
    (8, 1_099_511_627_776, 9, 9_223_372_036_854_775_808, 4, 9),
    (8, 0, 137, 0, 68, 137),
    (8, 2, 337, 8_589_934_592, 168, 337),
];

/// Without a half-life nothing is halved.
const KEPT: [Sync; 3] = [
    (7, 3, 5, 12_884_901_888, 0, 5),
    (7, 1, 9, 17_179_869_184, 0, 9),
    (8, 0, 2, 0, 0, 2),
];

fn leaves_rows(alloc: Global, half_life: u64, rows: &[Sync]) -> bool {
    let Ok(mut policy) = Policy::new(alloc, 1, half_life) else {
        return false;
    };
    for (key, touches, last, s, e, newest) in rows.iter().copied() {
        policy.sync(0, key, touches, last);
        let wanted = Rank {
            s,
            e,
            last: newest,
            header: 0,
        };
        if policy.next_victim(None) != Some(wanted) {
            return false;
        }
    }
    policy.forget(0);
    policy.next_victim(None).is_none()
}

#[test]
fn touches_are_added_and_halved(rt: HostRuntime) {
    assert!(rt; leaves_rows(rt.alloc(), 2, &HALVED) && leaves_rows(rt.alloc(), 0, &KEPT));
}
