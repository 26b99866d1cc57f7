//! Squares, positions, attacks and images, as read off a board.
use crate::asserts::{require, require_at};
use crate::rules::men::{fault_of, man, position_of, same};
use egt_board::{Kind, PosFault, Position, Side, Square, Symmetry, attacked};
use egt_class::of;
use egt_index::has_pawns;
use egt_index::laws::a_class_without_pawns_has_none;

#[test]
fn squares_have_numbers(rt: HostRuntime) {
    require(&rt, Square::new(64).is_none());
    let e4 = Square::at(28);
    require(&rt, e4.number() == 28 && e4.file() == 4 && e4.rank() == 3);
}

/// Whether the position has these men in order of their squares, and the queen alone on d1 and e1.
fn shows_its_men() -> Option<bool> {
    let position = position_of("ka8 Qd1 Kb6 w")?;
    let queen = man(Side::White, Kind::Q);
    let men = [
        (queen, Square::at(3)),
        (man(Side::White, Kind::K), Square::at(41)),
        (man(Side::Black, Kind::K), Square::at(56)),
    ];
    Some(
        position.side() == Side::White
            && position.target().is_none()
            && position.at(Square::at(3)) == Some(queen)
            && position.at(Square::at(4)).is_none()
            && position.men().as_slice() == men.as_slice(),
    )
}

#[test]
fn positions_show_their_men(rt: HostRuntime) {
    require(&rt, shows_its_men() == Some(true));
}

/// Whether White, with king b6 and queen d1 against king a8, attacks the square.
fn is_attacked(number: u8) -> Option<bool> {
    let position = position_of("ka8 Qd1 Kb6 w")?;
    Some(attacked(&position, Square::new(number)?, Side::White))
}

#[test]
fn men_attack_along_their_lines(rt: HostRuntime) {
    // d8 by the queen along the file, b7 by the king, h1 along the rank; not g2, nor the black king's square.
    for &(number, wanted) in &[(59, true), (49, true), (7, true), (14, false), (56, false)] {
        require_at(&rt, is_attacked(number) == Some(wanted), number);
    }
}

#[test]
fn setups_are_refused_with_the_first_fault(rt: HostRuntime) {
    for &(words, number) in &[
        ("Ka1 ka8 Rb8 Rb8 w", 7),
        ("Ka1 Rb8 w", 8),
        ("Ka1 ka8 pe1 w", 9),
        ("Ka1 ka8 w e6", 10),
        ("Ka1 ka8 Rb8 w", 11),
        ("Ka1 ka8 Rb8 b", 0),
    ] {
        require_at(&rt, fault_of(words) == Some(number), words);
    }
}

/// The position under the symmetry, where no man is a pawn.
fn image_of(position: &Position, symmetry: Symmetry) -> Option<Position> {
    a_class_without_pawns_has_none();
    let _side = position.side();
    let (class, _flipped) = of(position);
    if has_pawns(class) {
        return None;
    }
    Some(position.image(symmetry))
}

/// Whether the symmetry of that number takes the one position to the other.
fn is_image(words: &str, number: u8, image: &str) -> Option<bool> {
    let symmetry = Symmetry::new(number)?;
    let found = image_of(&position_of(words)?, symmetry)?;
    Some(symmetry.number() == number && same(&found, &position_of(image)?))
}

/// Whether the mirror of the files brings a position with pawns to the image.
fn is_mirrored(words: &str, image: &str) -> Option<bool> {
    let found = position_of(words)?.image(Symmetry::new(1)?);
    Some(same(&found, &position_of(image)?))
}

/// Whether an exchange of colours takes the one position to the other.
fn is_flipped(words: &str, flipped: &str) -> Option<bool> {
    let found = position_of(words)?.flip_colours();
    Some(same(&found, &position_of(flipped)?))
}

#[test]
fn positions_have_images(rt: HostRuntime) {
    require(&rt, Symmetry::new(8).is_none());
    // Files, then ranks, then the diagonal: d1 goes to e1, e8, h5.
    let right = is_image("Kb6 Qd1 ka8 w", 7, "Kc7 Qh5 ka8 w") == Some(true);
    require(&rt, right);
    // Colours: d1 goes to d8, and Black is to move.
    let right = is_flipped("Kb6 Qd1 ka8 w", "kb3 qd8 Ka1 b") == Some(true);
    require(&rt, right);
}

#[test]
fn positions_with_pawns_have_images(rt: HostRuntime) {
    // Files: the pawn on e5 goes to d5, the target d6 to e6.
    let words = "Ke1 Pe5 ke8 pd5 w d6";
    let right = is_mirrored(words, "Kd1 Pd5 kd8 pe5 w e6") == Some(true);
    require(&rt, right);
    // Colours: the pawn on e5 goes to e4 and is Black's, the target d6 to d3.
    require(&rt, is_flipped(words, "ke8 pe4 Ke1 Pd4 b d3") == Some(true));
}

/// Whether the settled form of the one position is the other.
fn is_settled(words: &str, settled: &str) -> Option<bool> {
    Some(same(&position_of(words)?.settle(), &position_of(settled)?))
}

#[test]
fn targets_are_squares_just_passed(rt: HostRuntime) {
    // Over d6 the pawn on d5 advanced; nothing advanced over f6.
    let near = "Ke1 Pe5 ke8 pd5 w d6";
    require(&rt, fault_of(near) == Some(0));
    require(&rt, fault_of("Ke1 Pe5 ke8 pd5 w f6") == Some(10));
    // The pawn on e5 stands beside d5, the one on h5 does not.
    require(&rt, is_settled(near, near) == Some(true));
    let right = is_settled("Ke1 Ph5 ke8 pd5 w d6", "Ke1 Ph5 ke8 pd5 w") == Some(true);
    require(&rt, right);
}

#[test]
fn faults_have_numbers_and_names(rt: HostRuntime) {
    for &(fault, number, name) in &[
        (PosFault::MenCount, 7, "MenCount"),
        (PosFault::KingCount, 8, "KingCount"),
        (PosFault::PawnRank, 9, "PawnRank"),
        (PosFault::EpMismatch, 10, "EpMismatch"),
        (PosFault::WaitingInCheck, 11, "WaitingInCheck"),
    ] {
        require_at(&rt, fault.number() == number && fault.name() == name, name);
    }
}
