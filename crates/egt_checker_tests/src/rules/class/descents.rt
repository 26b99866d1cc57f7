//! Moves from each class into each of its children: captures, promotions and both.
use crate::asserts::{require, require_at};
use crate::rules::men::{move_of, position_of};
use egt_class::{Class, by_name, children, of};
use egt_moves::play;

// Each row has a class, a child of it and a move from the one to the other, and the men before the move, White's in
// capitals, with the side to move. The rows stand in order of the classes' numbers and then of the children's.

/// One man beside the kings.
const LONE_MEN: [(&str, &str); 9] = [
    ("KQK KK c4b4", "Ka6 Qb4 kc4 b"),
    ("KRK KK e8f8", "Kh3 Rf8 ke8 b"),
    ("KBK KK g6f7", "Kc1 Bf7 kg6 b"),
    ("KNK KK h6h7", "Kf3 Nh7 kh6 b"),
    ("KPK KK f6e5", "Kd8 Pe5 kf6 b"),
    ("KPK KQK f7f8q", "Ka3 Pf7 ke7 w"),
    ("KPK KRK a7a8r", "Ke3 Pa7 kf8 w"),
    ("KPK KBK a7a8b", "Kb6 Pa7 kg7 w"),
    ("KPK KNK g7g8n", "Kd3 Pg7 kg1 w"),
];

/// Two pieces of one side.
const MEN_OF_ONE_SIDE: [(&str, &str); 16] = [
    ("KQQK KQK d2c2", "Kd6 Qc2 Qe1 kd2 b"),
    ("KQRK KQK f8g8", "Kb4 Qf1 Rg8 kf8 b"),
    ("KQRK KRK d3e2", "Kd8 Qe2 Ra4 kd3 b"),
    ("KQBK KQK h5g6", "Kc2 Qd7 Bg6 kh5 b"),
    ("KQBK KBK f4g3", "Ka4 Qg3 Bd7 kf4 b"),
    ("KQNK KQK g7g8", "Ka8 Qf6 Ng8 kg7 b"),
    ("KQNK KNK b6a7", "Kf2 Qa7 Na3 kb6 b"),
    ("KRRK KRK e2e3", "Kf6 Rb1 Re3 ke2 b"),
    ("KRBK KRK d8c7", "Kf8 Rf6 Bc7 kd8 b"),
    ("KRBK KBK h4g4", "Kf6 Rg4 Bg6 kh4 b"),
    ("KRNK KRK e6d7", "Kh1 Rh8 Nd7 ke6 b"),
    ("KRNK KNK d1c1", "Kb7 Rc1 Na6 kd1 b"),
    ("KBBK KBK d7e8", "Kh5 Bb7 Be8 kd7 b"),
    ("KBNK KBK d2d1", "Ke5 Bb2 Nd1 kd2 b"),
    ("KBNK KNK c6d5", "Kf7 Bd5 Nc2 kc6 b"),
    ("KNNK KNK c6b6", "Ka4 Nb6 Nf2 kc6 b"),
];

/// A piece of each side.
const MEN_OF_BOTH_SIDES: [(&str, &str); 16] = [
    ("KQKQ KQK b2b3", "Kb2 Qh1 kg8 qb3 w"),
    ("KQKR KQK c8d7", "Kc8 Qc2 kh4 rd7 w"),
    ("KQKR KRK e5e8", "Kb3 Qe8 kg6 re5 b"),
    ("KQKB KQK a7e7", "Kb2 Qa7 ke1 be7 w"),
    ("KQKB KBK f2g2", "Ke5 Qg2 kf2 bd7 b"),
    ("KQKN KQK a2a1", "Ke6 Qa2 kh8 na1 w"),
    ("KQKN KNK b5c3", "Kf8 Qc3 kh2 nb5 b"),
    ("KRKR KRK h4g3", "Kh4 Rb5 ka8 rg3 w"),
    ("KRKB KRK c8h8", "Kb1 Rc8 kf1 bh8 w"),
    ("KRKB KBK h8a1", "Kg5 Ra1 kb6 bh8 b"),
    ("KRKN KRK d2c2", "Kd2 Rd3 kf6 nc2 w"),
    ("KRKN KNK f6g7", "Kb5 Rg7 kf6 ng8 b"),
    ("KBKB KBK d2e2", "Kd2 Bg2 kd6 be2 w"),
    ("KBKN KBK f1f2", "Kf1 Be2 ke7 nf2 w"),
    ("KBKN KNK f2d1", "Kf7 Bd1 kf5 nf2 b"),
    ("KNKN KNK f3f2", "Ka7 Nf2 kf3 nh4 b"),
];

/// A piece and a pawn of one side.
const PIECE_AND_PAWN: [(&str, &str); 24] = [
    ("KQPK KQK c7b7", "Kg5 Qa4 Pb7 kc7 b"),
    ("KQPK KPK b6a6", "Kc2 Qa6 Pe2 kb6 b"),
    ("KQPK KQQK h7h8q", "Kf4 Qe1 Ph7 kc8 w"),
    ("KQPK KQRK d7d8r", "Ke7 Qb1 Pd7 ka6 w"),
    ("KQPK KQBK h7h8b", "Kh3 Qf1 Ph7 kg7 w"),
    ("KQPK KQNK g7g8n", "Kc2 Qh7 Pg7 ka1 w"),
    ("KRPK KRK h5h6", "Kb2 Rd5 Ph6 kh5 b"),
    ("KRPK KPK h6g7", "Kg2 Rg7 Pa4 kh6 b"),
    ("KRPK KQRK f7f8q", "Ka4 Rf2 Pf7 ke3 w"),
    ("KRPK KRRK h7h8r", "Kc1 Rf6 Ph7 kg2 w"),
    ("KRPK KRBK e7e8b", "Kc2 Rf2 Pe7 kg6 w"),
    ("KRPK KRNK f7f8n", "Kb3 Rh8 Pf7 ke1 w"),
    ("KBPK KBK a5b6", "Ke8 Bh6 Pb6 ka5 b"),
    ("KBPK KPK f6f7", "Ke1 Bf7 Pf3 kf6 b"),
    ("KBPK KQBK a7a8q", "Kh7 Be6 Pa7 kh4 w"),
    ("KBPK KRBK e7e8r", "Kc5 Be1 Pe7 kb7 w"),
    ("KBPK KBBK h7h8b", "Kh6 Bh3 Ph7 kf3 w"),
    ("KBPK KBNK c7c8n", "Kc6 Be3 Pc7 ka2 w"),
    ("KNPK KNK h3h4", "Kd3 Nb5 Ph4 kh3 b"),
    ("KNPK KPK h4h5", "Kd8 Nh5 Pb6 kh4 b"),
    ("KNPK KQNK h7h8q", "Kb2 Nb6 Ph7 ke5 w"),
    ("KNPK KRNK f7f8r", "Kb3 Nd6 Pf7 kg4 w"),
    ("KNPK KBNK h7h8b", "Kf1 Nd6 Ph7 kb8 w"),
    ("KNPK KNNK h7h8n", "Kd5 Nh5 Ph7 ke2 w"),
];

/// A queen or a rook against a pawn.
const QUEEN_OR_ROOK_AND_PAWN: [(&str, &str); 18] = [
    ("KQKP KQK a4d4", "Kg5 Qa4 kc5 pd4 w"),
    ("KQKP KRK b2c1r", "Kd4 Qc1 kd7 pb2 b"),
    ("KQKP KBK g2f1b", "Kg4 Qf1 ka3 pg2 b"),
    ("KQKP KNK d2e1n", "Ka2 Qe1 kf3 pd2 b"),
    ("KQKP KPK f2g1", "Kh4 Qg1 kf2 pb5 b"),
    ("KQKP KQKQ a2a1q", "Kb2 Qb3 kg5 pa2 b"),
    ("KQKP KQKR b2b1r", "Kb5 Qd6 kf1 pb2 b"),
    ("KQKP KQKB g2g1b", "Ka6 Qe3 ka4 pg2 b"),
    ("KQKP KQKN b2b1n", "Ke8 Qd2 kh7 pb2 b"),
    ("KRKP KQK g2f1q", "Ka4 Rf1 kc4 pg2 b"),
    ("KRKP KRK c5b5", "Kc5 Rg1 kd8 pb5 w"),
    ("KRKP KBK e2f1b", "Kg3 Rf1 ka7 pe2 b"),
    ("KRKP KNK g2f1n", "Kh5 Rf1 kg3 pg2 b"),
    ("KRKP KPK e4f5", "Kf7 Rf5 ke4 pc7 b"),
    ("KRKP KQKR d2d1q", "Ke8 Rc5 ke2 pd2 b"),
    ("KRKP KRKR f2f1r", "Kb7 Rf4 kd6 pf2 b"),
    ("KRKP KRKB h2h1b", "Ke4 Rh8 ka7 ph2 b"),
    ("KRKP KRKN b2b1n", "Kb6 Rc8 kd5 pb2 b"),
];

/// A bishop or a knight against a pawn.
const BISHOP_OR_KNIGHT_AND_PAWN: [(&str, &str); 18] = [
    ("KBKP KQK c2d1q", "Kc4 Bd1 ka6 pc2 b"),
    ("KBKP KRK c2d1r", "Kg4 Bd1 kb8 pc2 b"),
    ("KBKP KBK f7g6", "Ke2 Bf7 kh4 pg6 w"),
    ("KBKP KNK g2h1n", "Kg4 Bh1 kh2 pg2 b"),
    ("KBKP KPK g3g4", "Kg6 Bg4 kg3 pd4 b"),
    ("KBKP KQKB e2e1q", "Ke5 Bg3 ka8 pe2 b"),
    ("KBKP KRKB c2c1r", "Kd3 Bc7 kb2 pc2 b"),
    ("KBKP KBKB a2a1b", "Ka3 Be2 kc3 pa2 b"),
    ("KBKP KBKN e2e1n", "Kg1 Bf5 ke3 pe2 b"),
    ("KNKP KQK d2c1q", "Ka4 Nc1 kf4 pd2 b"),
    ("KNKP KRK b2a1r", "Kf2 Na1 kc3 pb2 b"),
    ("KNKP KBK b2c1b", "Kc3 Nc1 kg6 pb2 b"),
    ("KNKP KNK e5g4", "Kd5 Ne5 kf5 pg4 w"),
    ("KNKP KPK e4d5", "Kb4 Nd5 ke4 pe2 b"),
    ("KNKP KQKN e2e1q", "Ke4 Nd2 kd1 pe2 b"),
    ("KNKP KRKN g2g1r", "Kf7 Nc2 ke4 pg2 b"),
    ("KNKP KBKN h2h1b", "Ka8 Nb7 kg4 ph2 b"),
    ("KNKP KNKN d2d1n", "Kh5 Ne4 kf4 pd2 b"),
];

/// Two pawns.
const TWO_PAWNS: [(&str, &str); 10] = [
    ("KPPK KPK d3e3", "Ka6 Pe3 Pe7 kd3 b"),
    ("KPPK KQPK g7g8q", "Ke7 Pg7 Pd4 ka4 w"),
    ("KPPK KRPK f7f8r", "Kh8 Pf5 Pf7 kd4 w"),
    ("KPPK KBPK c7c8b", "Kh5 Pg6 Pc7 kh2 w"),
    ("KPPK KNPK h7h8n", "Kb1 Pg3 Ph7 ka8 w"),
    ("KPKP KPK b7c6", "Kc4 Pc6 kb7 pe4 b"),
    ("KPKP KQKP b2b1q", "Kh8 Ph4 kh6 pb2 b"),
    ("KPKP KRKP g2g1r", "Kg4 Ph2 kd2 pg2 b"),
    ("KPKP KBKP g2g1b", "Kd3 Ph6 kg4 pg2 b"),
    ("KPKP KNKP g7g8n", "Kh3 Pg7 kb6 pa4 w"),
];

/// The row's class and the child, where the position is of the class, without a flip, and the move leads to the child.
fn led(row: (&str, &str)) -> Option<(Class, Class)> {
    let mut words = row.0.split(' ');
    let class = by_name(words.next()?)?;
    let child = by_name(words.next()?)?;
    let before = position_of(row.1)?;
    let after = play(&before, move_of(words.next()?.as_bytes())?)?;
    if of(&before) == (class, false) && of(&after).0 == child {
        Some((class, child))
    } else {
        None
    }
}

/// Whether the child is one of the class's.
fn is_child(class: Class, child: Class) -> bool {
    children(class).as_slice().contains(&child)
}

/// The classes where both sides have the same men.
const EQUAL_SIDES: [&str; 6] = ["KK", "KQKQ", "KRKR", "KBKB", "KNKN", "KPKP"];

/// Whether colours are told, in the class's own and exchanged.
fn tells_colours(row: (&str, &str)) -> Option<bool> {
    let name = row.0.split(' ').next()?;
    let class = by_name(name)?;
    let before = position_of(row.1)?;
    let equal = EQUAL_SIDES.contains(&name);
    Some(of(&before) == (class, false) && of(&before.flip_colours()) == (class, !equal))
}

/// All rows.
const ROWS: [&[(&str, &str)]; 7] = [
    &LONE_MEN,
    &MEN_OF_ONE_SIDE,
    &MEN_OF_BOTH_SIDES,
    &PIECE_AND_PAWN,
    &QUEEN_OR_ROOK_AND_PAWN,
    &BISHOP_OR_KNIGHT_AND_PAWN,
    &TWO_PAWNS,
];

/// The numbers of the row's class and child, where it leads from the one to the other and stands behind a row with the
/// numbers given.
fn led_behind(last: (u8, u8), row: (&str, &str)) -> Option<(u8, u8)> {
    let (class, child) = led(row)?;
    let numbers = (class.number(), child.number());
    if is_child(class, child) && last < numbers {
        Some(numbers)
    } else {
        None
    }
}

/// How many rows there are, where each leads from a class to a child of it, and no two from one class to one child.
fn descents() -> Option<usize> {
    let mut last = (0, 0);
    let mut found: usize = 0;
    for &rows in &ROWS {
        for row in rows {
            last = led_behind(last, *row)?;
            found = found.checked_add(1)?;
        }
    }
    Some(found)
}

/// How many children all classes have.
fn all_children() -> Option<usize> {
    let mut found: usize = 0;
    for number in 0..36 {
        found = found.checked_add(children(Class::new(number)?).len())?;
    }
    Some(found)
}

#[test]
fn a_move_leads_into_each_child(rt: HostRuntime) {
    require(&rt, descents() == Some(111));
    require(&rt, all_children() == Some(111));
}

#[test]
fn colours_are_told(rt: HostRuntime) {
    for &rows in &ROWS {
        for row in rows {
            require_at(&rt, tells_colours(*row) == Some(true), row.0);
        }
    }
    let kings = position_of("Kd4 kg7 b");
    let right = matches!(&kings, Some(kings) if of(kings) == (Class::default(), false));
    require(&rt, right);
}
