// The sizes of a pool.
use buffer_pool::{Geometry, OpenFault, Pool};
use outside::RealWorld;
use std::alloc::Global;

/// The bytes of a minimum block, the arenas, the sets and the seats, and whether they are refused.
const SIZES: [(u32, u32, u32, u32, bool); 12] = [
    (64, 1, 1, 64, false),
    (100, 1, 1, 64, true),
    (32, 1, 1, 64, true),
    (131_072, 1, 1, 64, true),
    (64, 65, 1, 64, true),
    (64, 0, 1, 64, true),
    (64, 1, 0, 64, true),
    (64, 1, 4_097, 64, true),
    (64, 1, 1, 65, true),
    (64, 1, 1, 0, true),
    (64, 1, 1, 1, false),
    (64, 64, 1, 1, false),
];

fn all_are_judged(alloc: Global) -> bool {
    for (min_block, arenas, sets, seats, refused) in SIZES {
        let geometry = Geometry {
            min_block,
            arenas,
            sets,
        };
        let made = Pool::<RealWorld>::create(alloc, geometry, seats);
        if matches!(&made, Err(OpenFault::BadGeometry)) != refused {
            return false;
        }
    }
    true
}

#[test]
fn sizes_out_of_range_are_refused(rt: HostRuntime) {
    assert!(rt; all_are_judged(rt.alloc()));
}
