// The order of victims, by the definition, worked out by hand.
ghost use Rattle.std.specs.Prelude.{◌≡◌, ◌+◌, ◌≤◌, length};

use lrfu_policy::{Policy, Rank};
use std::alloc::Global;

/// Header, touches and last tick of a sync.
type Sync = (u32, u64, u64);

/// With a half-life of 4, in weights of 2^32: header 7 has 1, header 2 has 5, and the others have 4 each. Of these header 5
/// was touched last at tick 1, header 1 at tick 5, and headers 0 and 3 at tick 10.
const TIES: [Sync; 6] = [
    (3, 1, 10),
    (5, 4, 1),
    (1, 2, 5),
    (0, 1, 10),
    (7, 1, 3),
    (2, 5, 2),
];

/// With a half-life of 1: powers that no machine word holds, and a header without touches.
const FAR: [Sync; 3] = [
    (0, 4_294_967_295, 0),
    (1, 1, 18_446_744_073_709_551_615),
    (2, 0, 18_446_744_073_709_551_615),
];

fn sync_all(policy: &mut Policy, rows: &[Sync])
    requires { length policy.old.entries ≡ 8 }
    ensures { length policy.new.entries ≡ 8 }
{
    for (header, touches, last) in rows.iter().copied() {
        if header < 8 {
            policy.sync(header, 7, touches, last);
        }
    }
}

/// Whether the victims are these headers in this order, and no others.
fn goes(policy: &Policy, wanted: &[u32]) -> bool {
    let mut after: Option<Rank> = None;
    for header in wanted.iter().copied() {
        after = policy.next_victim(after);
        if !is_of(after, header) {
            return false;
        }
    }
    policy.next_victim(after).is_none()
}

fn is_of(rank: Option<Rank>, header: u32) -> bool {
    match rank {
        Some(rank) => rank.header == header,
        None => false,
    }
}

/// Whether the least of a range is that header, and the next one after it that other one.
fn goes_among(policy: &Policy, first: u32, count: u32, least: u32, next: u32) -> bool
    requires { first + count ≤ length policy.now.entries }
{
    let rank = policy.next_among(first, count, None);
    is_of(rank, least) && is_of(policy.next_among(first, count, rank), next)
}

fn is_sent<T: Send>(_value: &T) -> bool {
    true
}

fn ties_go_by_last_and_header(alloc: Global) -> bool {
    let Ok(mut policy) = Policy::new(alloc, 8, 4) else {
        return false;
    };
    sync_all(&mut policy, &TIES);
    let ordered = goes(&policy, &[7, 5, 1, 0, 3, 2]);
    let ranges = goes_among(&policy, 0, 4, 1, 0) && goes_among(&policy, 2, 4, 5, 3);
    let nothing = policy.next_among(4, 1, None).is_none()
        && policy.next_among(8, 0, None).is_none();
    policy.forget(5);
    policy.forget(2);
    policy.forget(6);
    is_sent(&policy) && ordered && ranges && nothing && goes(&policy, &[7, 1, 0, 3])
}

fn far_powers_compare(alloc: Global) -> bool {
    let Ok(mut policy) = Policy::new(alloc, 8, 1) else {
        return false;
    };
    let empty = goes(&policy, &[]);
    sync_all(&mut policy, &FAR);
    empty && goes(&policy, &[2, 0, 1])
}

#[test]
fn victims_go_in_order(rt: HostRuntime) {
    assert!(rt; ties_go_by_last_and_header(rt.alloc()));
    assert!(rt; far_powers_compare(rt.alloc()));
}
