//! Sizes of classes, indexes of positions that were worked out by hand, and how many indexes a class has.
use crate::asserts::{require, require_at};
use crate::rules::men::{position_of, same};
use egt_class::{Class, of};
use egt_index::{index, position, size};

/// The number of the class and the index.
fn found(words: &str) -> Option<(u8, u32)> {
    let position = position_of(words)?;
    let (class, _) = of(&position);
    Some((class.number(), index(class, &position)))
}

/// How many codes of the class are indexes; each of them is the index of the position that it spells.
fn count(number: u8) -> Option<u32> {
    let class = Class::new(number)?;
    let mut indexes: u32 = 0;
    for code in 0..size(class) {
        if let Some(spelled) = position(class, code) {
            let (own, _) = of(&spelled);
            if own != class || index(own, &spelled) != code {
                return None;
            }
            indexes = indexes.checked_add(1)?;
        }
    }
    Some(indexes)
}

/// The squares of the white king, of the black king and of each other man, the sides to move and, where both sides have
/// a pawn, a target or none.
fn wanted(number: u8) -> u32 {
    match number {
        0 => 10 * 64 * 2,
        1..=4 => 10 * 64 * 64 * 2,
        5 => 32 * 64 * 48 * 2,
        6..=25 => 10 * 64 * 64 * 64 * 2,
        26..=33 => 32 * 64 * 64 * 48 * 2,
        34 => 32 * 64 * 48 * 48 * 2,
        _ => 32 * 64 * 48 * 48 * 2 * 2,
    }
}

#[test]
fn sizes(rt: HostRuntime) {
    for number in 0..36 {
        let right = Class::new(number).map(size) == Some(wanted(number));
        require_at(&rt, right, number);
    }
}

/// Positions with the number of their class and their index.
const INDEXES: [(&str, (u8, u32)); 7] = [
    // The image has the king on c2, the queen on h4 and the black king on a1: ((5 * 64 + 0) * 64 + 31) * 2 + 0.
    ("Kb6 Qd1 ka8 w", (1, 41_022)),
    ("Kb6 Qd1 ka8 b", (1, 41_023)),
    // Colours exchanged.
    ("kb3 qd8 Ka1 b", (1, 41_022)),
    // ((26 * 64 + 48) * 48 + 41) * 2 + 0.
    ("Kf7 Pg7 kh7 w", (5, 164_434)),
    // The pawn on e4 has just passed e3.
    ("Kh1 Pe4 kd5 pd4 b e3", (35, 335_507)),
    // (((1 * 64 + 63) * 64 + 12) * 64 + 26) * 2 + 1.
    ("Kb1 Rc4 Re2 kh8 b", (10, 1_041_973)),
    // The black king is on c2 in the image.
    ("Ka1 kb3 w", (0, 20)),
];

#[test]
fn indexes_worked_out_by_hand(rt: HostRuntime) {
    for &(words, wanted) in &INDEXES {
        require_at(&rt, found(words) == Some(wanted), words);
    }
}

#[test]
fn a_target_that_no_pawn_takes_changes_nothing(rt: HostRuntime) {
    let without = found("Kh1 Pe4 kd5 pa7 b");
    let right = without.is_some() && found("Kh1 Pe4 kd5 pa7 b e3") == without;
    require(&rt, right);
}

/// Whether the code of the class spells a position.
fn spells(number: u8, code: u32) -> Option<bool> {
    Some(position(Class::new(number)?, code).is_some())
}

/// Whether the code of the class spells the position of these words.
fn is_spelled(number: u8, code: u32, words: &str) -> Option<bool> {
    let spelled = position(Class::new(number)?, code)?;
    Some(same(&spelled, &position_of(words)?))
}

#[test]
fn void_codes_spell_nothing(rt: HostRuntime) {
    // The kings on a1 and b3: c2 is less than b3. Both kings on a1. No code. The rooks in the other order.
    for &(number, code) in &[(0, 34), (0, 0), (0, 1280), (10, 1_043_737)] {
        require_at(&rt, spells(number, code) == Some(false), (number, code));
    }
    let right = is_spelled(10, 1_041_973, "Kb1 Rc4 Re2 kh8 b") == Some(true);
    require(&rt, right);
}

// 3612 ordered pairs of squares that do not touch, of which 42 are kept by the mirror in each long diagonal: the eight
// symmetries leave (3612 + 2 * 42) / 8.
#[test]
fn two_kings_have_462_indexes(rt: HostRuntime) {
    require(&rt, count(0) == Some(462));
}

// Positions of three men, counted by hand. Of the symmetries without pawns the identity and the mirrors in the two long
// diagonals keep some, and a mirror does where all men stand on its diagonal: so all of a side to move, and twice those
// on one diagonal, are together eight times as many as there are indexes.
//
// Black to move: the kings do not touch, in 3612 ways, of which 42 are on a diagonal, and the third man has 62 squares,
// 6 of them there: 3612 * 62 = 223944, and (223944 + 2 * 42 * 6) / 8 = 28056, of a queen as of a rook.
//
// White to move: less those where the third man attacks the black king. At a distance d on a line he does so unless the
// white king stands between: with n squares beside the black king, 64 - n - d are left for the white one, and n is 3 on
// 4 squares, 5 on 24 and 8 on 36. A queen has 21 squares at the edge, and 23, 25 and 27 on the 20, 12 and 4 squares
// further in, a rook 14. The distances on the lines of a rook add up to 16 * 168 = 2688, and on diagonals to
// 2 * (168 + 2 * (112 + 70 + 40 + 20 + 8 + 2)) = 1344.
// Queen: 21 * (4 * 61 + 24 * 59) + 56 * (20 * 23 + 12 * 25 + 4 * 27) - 2688 - 1344 = 79436 fall away. On a diagonal she
// attacks unless the white king is between and not beside the black one: 56 - 21 = 35 triples, either way round.
// (223944 - 79436 + 2 * 2 * 35) / 8 = 18081.
// Rook: 14 * (4 * 61 + 24 * 59 + 36 * 56) - 2688 = 48776 fall away, none of them on a diagonal:
// (223944 - 48776 + 2 * 42 * 6) / 8 = 21959.
//
// With a pawn the mirror of files keeps no position, and half of all are indexes. Black to move: the pawn has 48
// squares, less those of the kings; a king there leaves the other 58 squares from 12 of them and 55 from 36: 3612 * 48
// - 2 * (12 * 58 + 36 * 55) = 168024. White to move: less those where the pawn attacks the black king, from one square
// on the outer files and from two on the others; the white king then has 58 or 55 squares, and with the black king on
// the eighth rank 60 or 58: 10 * 58 + 30 * 2 * 55 + 2 * 60 + 6 * 2 * 58 = 4696.
#[test]
fn classes_of_three_men_have_as_many_indexes_as_orbits(rt: HostRuntime) {
    for &(number, black, white) in &[
        (1, 28_056, 18_081),
        (2, 28_056, 21_959),
        (5, 168_024 / 2, (168_024 - 4_696) / 2),
    ] {
        require_at(&rt, count(number) == Some(black + white), number);
    }
}
