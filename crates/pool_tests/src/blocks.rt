// The blocks of an arena. The answers of the tables were computed outside, by a program that lists all blocks of a
// word and picks by the definition.
use buddy_arena::{find, mask, order_for, window};

/// A word, an order, and the offset of the block that is found.
const FOUND: [(u64, u32, Option<u32>); 20] = [
    (0x0000_0000_0000_FF0F, 2, Some(4)),
    (0x0000_0000_0000_FF0F, 3, Some(16)),
    (0x0000_0000_0000_FF0F, 5, Some(32)),
    (0x0000_0000_0000_FF0F, 6, None),
    (0x0000_0000_0000_0000, 6, Some(0)),
    (0xFFFF_FFFF_FFFF_FFFF, 0, None),
    (0x7FFF_FFFF_FFFF_FFFF, 0, Some(63)),
    (0x7FFF_FFFF_FFFF_FFFF, 1, None),
    (0xF0F3_00FF_0F01_F7CE, 0, Some(0)),
    (0xF0F3_00FF_0F01_F7CE, 1, Some(4)),
    (0xF0F3_00FF_0F01_F7CE, 2, Some(20)),
    (0xF0F3_00FF_0F01_F7CE, 3, Some(40)),
    (0xF0F3_00FF_0F01_F7CE, 4, None),
    (0x00FF_00FF_0000_8001, 0, Some(1)),
    (0x00FF_00FF_0000_8001, 2, Some(4)),
    (0x00FF_00FF_0000_8001, 3, Some(40)),
    (0x00FF_00FF_0000_8001, 4, Some(16)),
    (0x8000_0000_0000_0000, 0, Some(62)),
    (0x8000_0000_0000_0000, 5, Some(0)),
    (0, 7, None),
];

/// A word, its movable bits, an order, and the offset of the window.
const WINDOWS: [(u64, u64, u32, Option<u32>); 17] = [
    (0x0000_FFFF_0000_FFFF, 0x0000_FFFF_0000_FFFF, 5, Some(0)),
    (0x0000_FFFF_0000_FFFF, 0x0000_FFFF_0000_0000, 5, Some(32)),
    (0xF0F3_00FF_0F01_F7CE, 0xF000_00FF_0F01_0000, 0, Some(0)),
    (0xF0F3_00FF_0F01_F7CE, 0xF000_00FF_0F01_0000, 2, Some(20)),
    (0xF0F3_00FF_0F01_F7CE, 0xF000_00FF_0F01_0000, 3, Some(40)),
    (0xF0F3_00FF_0F01_F7CE, 0xF000_00FF_0F01_0000, 4, Some(16)),
    (0xF0F3_00FF_0F01_F7CE, 0xF000_00FF_0F01_0000, 5, None),
    (0xFFFF_FFFF_FFFF_FFFF, 0x0000_FF00_00F0_0100, 0, Some(8)),
    (0xFFFF_FFFF_FFFF_FFFF, 0x0000_FF00_00F0_0100, 1, Some(20)),
    (0xFFFF_FFFF_FFFF_FFFF, 0x0000_FF00_00F0_0100, 3, Some(40)),
    (0xFFFF_FFFF_FFFF_FFFF, 0x0000_FF00_00F0_0100, 4, None),
    (0x0102_0408_1020_4080, 0xFFFF_FFFF_FFFF_FFFF, 2, Some(0)),
    (0x0102_0408_1020_4080, 0xFFFF_FFFF_FFFF_FFFF, 6, Some(0)),
    (0x8000_0000_0000_0001, 0x8000_0000_0000_0000, 4, Some(16)),
    (0x8000_0000_0000_0001, 0x8000_0000_0000_0000, 5, Some(32)),
    (0x0000_0000_0000_0010, 0x0000_0000_0000_001F, 2, Some(0)),
    (0, 0, 7, None),
];

/// A length, the bytes of a minimum block, and the order of the least block that holds it.
const ORDERS: [(u32, u32, u32); 5] = [
    (1, 64, 0),
    (64, 64, 0),
    (65, 64, 1),
    (4096, 64, 6),
    (0x8000_0001, 1, 32),
];

fn all_are_found() -> bool {
    for (word, order, offset) in FOUND {
        if find(word, order) != offset {
            return false;
        }
    }
    true
}

fn all_windows_are_cheapest() -> bool {
    for (word, movable, order, offset) in WINDOWS {
        if window(word, movable, order) != offset {
            return false;
        }
    }
    true
}

fn all_orders_are_least() -> bool {
    for (len, min_block, order) in ORDERS {
        if order_for(len, min_block) != order {
            return false;
        }
    }
    true
}

#[test]
fn finds_the_best_free_block(rt: HostRuntime) {
    assert!(rt; all_are_found());
}

#[test]
fn picks_the_cheapest_window(rt: HostRuntime) {
    assert!(rt; all_windows_are_cheapest());
}

#[test]
fn blocks_have_bits_and_orders(rt: HostRuntime) {
    assert!(rt; mask(16, 4) == 0xFFFF_0000 && mask(0, 6) == u64::MAX);
    assert!(rt; all_orders_are_least());
}
