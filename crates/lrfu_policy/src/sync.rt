//! The entry that a sync leaves.

ghost use Rattle.std.specs.Prelude.{◌≡◌, ◌/◌, ◌^◌};
ghost use Rattle.lrfu_policy.specs.Policy.{half_lives, synced, touched, with_key};

use crate::entry::Entry;

/// How many half-lives end before a tick.
fn half_lives(half_life: u64, tick: u64) -> u64
    ensures { result ≡ half_lives half_life tick }
{
    if half_life == 0 { 0 } else { tick / half_life }
}

/// What is left after so many halvings.
fn halved(s: u64, times: u64) -> u64
    ensures { result ≡ s / 2 ^ times }
{
    if times < 64 { s >> times } else { 0 }
}

/// With touches added, up to the most that an entry keeps.
fn touched(left: u64, touches: u64) -> u64
    ensures { result ≡ touched left touches }
{
    let total = u128::from(left) + u128::from(touches) * 4294967296;
    if total < 9223372036854775808 {
        total as u64
    } else {
        9223372036854775808
    }
}

/// The entry, where it is of this key.
fn of_key(old: Option<Entry>, key: u64) -> Option<Entry>
    ensures { result ≡ with_key key old }
{
    match old {
        Some(entry) => { if entry.key == key { Some(entry) } else { None } }
        None => None,
    }
}

/// The entry of a key after a sync. An old entry of another key doesn't count.
pub(crate) fn synced_entry(
    half_life: u64,
    old: Option<Entry>,
    key: u64,
    touches: u64,
    last: u64,
) -> Entry
    ensures { result ≡ synced half_life key touches last (with_key key old) }
{
    match of_key(old, key) {
        None => Entry {
            key,
            s: touched(0, touches),
            e: half_lives(half_life, last),
            last,
        },
        Some(entry) => {
            let last = last.max(entry.last);
            let e = half_lives(half_life, last);
            let left = halved(entry.s, e.saturating_sub(entry.e));
            Entry {
                key,
                s: touched(left, touches),
                e,
                last,
            }
        }
    }
}
