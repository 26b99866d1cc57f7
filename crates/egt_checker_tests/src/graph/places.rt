//! The scan for the entries of a round.
use crate::asserts::agree;
use egt_graph::frontier;
use std::test::*;

#[test]
fn places_ascend(rt: HostRuntime) {
    let entries = [4, 5, 2, 3, 4];
    agree(&rt, frontier(&entries, 1).as_slice(), [0, 1, 4].as_slice());
    agree(&rt, frontier(&entries, 0).as_slice(), [2, 3].as_slice());
    agree(&rt, frontier(&[], 0).len(), 0);
    let found = frontier(&[64003, 1, 0], 32_000);
    agree(&rt, found.as_slice(), [0].as_slice());
}

#[test]
fn last_lanes_of_a_block(rt: HostRuntime) {
    // The last place of a whole load, the first after it, and the last of a part of one.
    let mut entries = [1; 37];
    entries[15] = 6;
    entries[16] = 7;
    entries[36] = 6;
    let found = frontier(&entries, 2);
    agree(&rt, found.as_slice(), [15, 16, 36].as_slice());
    agree(&rt, frontier(&[9; 4096], 3).len(), 4096);
}
