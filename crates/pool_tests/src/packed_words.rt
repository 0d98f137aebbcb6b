// The packed words of headers.
use buffer_word::{
    Key, Mode, State, pack, pack_key, release_step, settle_step, unpack, unpack_key,
};

const PINNED: State = State {
    count: 2,
    mode: Mode::Live,
    order: 4,
    place: 16,
};

const RELEASED: State = State {
    count: 0,
    mode: Mode::Released,
    order: 0,
    place: 0,
};

fn state_is_packed() -> bool {
    pack(PINNED) == 0x1040_0020
        && unpack(0x1040_0020) == Some(PINNED)
        && unpack(8) == Some(RELEASED)
}

fn key_is_packed() -> bool {
    let key = Key {
        file: 1,
        at: 3,
        len: 3,
    };
    pack_key(key) == 0x0010_0000_0030_0002 && unpack_key(0x0010_0000_0030_0002) == key
}

/// Two flags and more, and a bit above the place.
fn all_are_refused() -> bool {
    for word in [3, 9, 15, 1 << 44, 1 << 63] {
        if unpack(word).is_some() {
            return false;
        }
    }
    true
}

/// A buffer of order 4 at place 16 with two counts is released, and one is settled at place 48.
fn steps_lead_on() -> bool {
    0x1040_0024u64.wrapping_add(release_step(4, 16)) == 0x28
        && 0x1040_0022u64.wrapping_add(settle_step(16, 48)) == 0x3040_0020
}

#[test]
fn packs_the_fields_side_by_side(rt: HostRuntime) {
    assert!(rt; state_is_packed());
    assert!(rt; key_is_packed());
}

#[test]
fn refuses_two_flags_and_unused_bits(rt: HostRuntime) {
    assert!(rt; all_are_refused());
}

#[test]
fn steps_lead_from_word_to_word(rt: HostRuntime) {
    assert!(rt; steps_lead_on());
}
