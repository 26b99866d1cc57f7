//! How often the builder looks at a block or a row.

use super::built;
use crate::asserts::{require, require_at};
use egt_check::first_missing;
use egt_plain::shelf::named;
use egt_sweep::{Looks, ROUNDS, filled_values};
use std::alloc::Global;
use std::test::*;

/// Pairs of squares of two kings that do not touch, but for turns and mirrors of the board: as many as tables of
/// classes without pawns are known to have.
const PAIRS: usize = 462;

/// The looks that fill a class, whose children are these classes.
fn looks_at(alloc: Global, below: &[&str], name: &str) -> Result<Looks, Fail> {
    let library = built(alloc, below)?;
    let class = named(name)?;
    if let Some(_child) = first_missing(class, &library) {
        return Err(Fail::from("a child is missing"));
    }
    let Some((_table, looks)) = filled_values(alloc, class, &library, ROUNDS)? else {
        return Err(Fail::from("the class is not filled"));
    };
    Ok(looks)
}

// A plain loop over all pairs of kings begins the blocks, and each that has a position once. A model of the builder in
// another language looks 33 times at one of this class, in which the longest mate takes 65 plies: were all looked at in
// each round, a block would have more looks than plies.
#[test]
fn blocks_are_looked_at_where_something_changed(rt: HostRuntime) -> Result<(), Fail> {
    let looks = looks_at(rt.alloc(), &["KK", "KNK", "KBK"], "KBNK")?;
    assert_eq!(rt; looks.items, 2 * PAIRS);
    require(&rt, looks.taken >= looks.items);
    require_at(&rt, looks.taken <= 40 * looks.items, looks.taken);
    Ok(())
}

// One king stands on ten squares, which turns and mirrors leave of the board, the other on any. A round for each of the
// 32 plies of the longest mate with a rook would do, beside the first and the last.
#[test]
fn rows_are_looked_at_in_few_rounds(rt: HostRuntime) -> Result<(), Fail> {
    let looks = looks_at(rt.alloc(), &["KK"], "KRK")?;
    assert_eq!(rt; looks.items, 2 * 10 * 64);
    require_at(&rt, looks.taken <= 34 * looks.items, looks.taken);
    Ok(())
}
