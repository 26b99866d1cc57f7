//! The judgement of a whole table of a class with two men beside the kings, block by block.
ghost use Rattle.std.specs.Prelude.{◌≡◌, ◌≢◌, ◌+◌, ◌*◌, ◌<◌, ◌≤◌, ℕ, false, true, Some, None, IfSome, get_or};
ghost use Rattle.egt_check.specs.Prelude.{other_side, AreChildren, AreTablesOf, men_swapped, HasChildren, column_score};
ghost use Rattle.egt_check.specs.Prelude.{turned_man, IsLoneMan, IsOfficer, TableValue, with_kings, IsOwnTable, Tables};
ghost use Rattle.egt_check.specs.Prelude.{Setup, IsOf};
ghost use Rattle.egt_check.specs.Prelude.{Side, promotion_in, HasPromotion, IsJudgedPair, IsPromotionOf, FourMenTables};
ghost use Rattle.egt_check.specs.Prelude.{AreNonKings, AreFourMenTables, promotions_in, ArePromotionsOf, HasPromotions};
ghost use Rattle.egt_check.specs.Prelude.{AreMenOf, ShelfMen, HasColumn, column_of, table_in, tables_in, AreJudged};
ghost use Rattle.egt_check.specs.Prelude.{AreKept, four_in, AreNamed, AreRuns, beside, table_at, HasBytes, Values};

use crate::block_judging::block_is_right;
use crate::bytes::tells_bytes;
use crate::library::Library;
use crate::lone_runs::{is_king, runs_by_rows};
use crate::move_scores::{Children, FourMenTables, Moves, beside_own};
use crate::pair_order::nth_pair;
use crate::pairs::{MOST_PAIRS, Pairs, judged_pairs_hold_all_codes, pairs_of};
use crate::part::{Part, column_of};
use crate::pawn_scores::{Promotion, Promotions};
use crate::runs::Runs;
use egt_blocks::blocks::nothing;
use egt_blocks::kept_blocks::{BlockKey, NEAR_PLACES, no_keys};
use egt_blocks::men::{are_equal, men_swapped};
use egt_blocks::own_men::{is_pawn, turned_man};
use egt_board::{Kind, Man, Side, Square};
use egt_class::Class;
use egt_class::membership::of_men;
use egt_index::{ShelfMen, lone_man, shelf_men};
use egt_lanes::Block;
use egt_table::Table;

/// The men with the kings on these squares.
pub fn with_kings(men: &ShelfMen, white: Square, black: Square) -> ShelfMen
    ensures { result ≡ with_kings men.now white black }
{
    ShelfMen {
        white,
        black,
        first: men.first,
        on: men.on,
        last: men.last,
    }
}

/// Whether all entries of the part keep the rules, of the shelves from this one on, one for each digit of the first
/// man, with that side to move, and of those `half` further on, which have the same men and a target; 0 in a class
/// without targets.
fn pair_is_right(
    moves: &Moves,
    first: u32,
    half: u32,
    keys: &mut [Option<BlockKey>],
    blocks: &mut [Block],
    scores: &mut Block,
    zeroing: &mut Block,
) -> bool
    requires men { AreFourMenTables (column_of moves.now.part) moves.now.four.now moves.now.men.now }
    requires room { first + half + 64 < 4294967296 }
    requires kept { AreKept moves.now.four.now.own.class (column_score moves.now.four.now.own) moves.now.men.now
        (other_side moves.now.side) keys.old blocks.old }
    ensures kept { result ≡ true → AreKept moves.now.four.now.own.class
        (column_score moves.now.four.now.own) moves.now.men.now (other_side moves.now.side) keys.new blocks.new }
    ensures judged { result ≡ true → (tables : Tables) →
        AreTablesOf (tables_in moves.now.part tables) (four_in moves.now.part moves.now.four.now) moves.now.men.now →
        AreJudged moves.now.part tables moves.now.four.now.own moves.now.men.now first moves.now.side ×
        AreJudged moves.now.part tables moves.now.four.now.own moves.now.men.now (first + half) moves.now.side }
{
    let Some(here) = shelf_men(moves.four.own.class(), first) else {
        return false;
    };
    let there = with_kings(moves.men, here.white, here.black);
    let moves_there = Moves {
        men: &there,
        ..*moves
    };
    block_is_right(&moves_there, first, half, keys, blocks, scores, zeroing)
}

/// The pairs of kings' squares of which all entries of the part with that side to move were found to keep the rules.
fn right_pairs(
    four: &FourMenTables,
    men: &ShelfMen,
    part: Part,
    pairs: &Pairs,
    side: Side,
) -> [bool; MOST_PAIRS]
    requires men { AreFourMenTables (column_of part) four.now men.now }
    requires few { pairs.now.kings ≤ 32 }
    requires room { 64 * pairs.now.kings * pairs.now.step + pairs.now.half + 64 < 4294967296 }
    ensures { (tables : Tables) → AreTablesOf (tables_in part tables) (four_in part four.now) men.now → (pair : ℕ) →
        get_or result pair false ≡ true → IsJudgedPair part tables four.now.own men.now pairs.now side pair }
{
    let mut right = [false; MOST_PAIRS];
    let moves = Moves {
        four,
        men,
        side,
        part,
    };
    let mut keys = no_keys();
    let mut blocks = [nothing(); NEAR_PLACES];
    let mut scores = nothing();
    let mut zeroing = nothing();
    for n in 0..64 * pairs.kings {
        let pair = nth_pair(side, n, pairs.kings);
        let first = pair * pairs.step;
        if !pair_is_right(
            &moves,
            first,
            pairs.half,
            &mut keys,
            &mut blocks,
            &mut scores,
            &mut zeroing,
        ) {
            // What is kept after a pair that is not right is not known to hold.
            keys = no_keys();
            continue;
        }
        right[pair as usize] = true;
    }
    right
}

/// The codes of the class by pairs of kings' squares, and which of these were found right. `None` where its shelves do
/// not go by them.
pub(crate) fn right_runs(four: &FourMenTables, men: &ShelfMen, part: Part) -> Option<Runs>
    requires men { AreFourMenTables (column_of part) four.now men.now }
    ensures { (tables : Tables) → AreTablesOf (tables_in part tables) (four_in part four.now) men.now →
        IfSome result (AreRuns part tables four.now.own) }
{
    judged_pairs_hold_all_codes();
    let pairs = pairs_of(four.own.class(), men)?;
    Some(Runs {
        len: pairs.codes,
        count: 64 * pairs.kings,
        white: right_pairs(four, men, part, &pairs, Side::White),
        black: right_pairs(four, men, part, &pairs, Side::Black),
        tells: true,
    })
}

/// Whether this is the table of the class in which the man is left alone beside the kings, in colours exchanged where
/// `flips`.
fn is_left(class: Class, child: &Table, flips: bool, man: Man) -> bool
    ensures apart { result ≡ true → child.now.class ≢ class }
    ensures lone { result ≡ true → IsLoneMan child.now.class (turned_man flips man) }
{
    match lone_man(child.class()) {
        Some(lone) => { lone == turned_man(man, flips) && child.class().number() != class.number() }
        None => false,
    }
}

/// Whether the class names these two men beside its kings, as it has them: the second before the first where the
/// answer is `Some(true)`. `None` where it has others.
fn named_before(class: Class, one: Man, last: Man) -> Option<bool>
    ensures { IfSome result (λ before. (men : ShelfMen) × AreMenOf class men × AreNamed before men one last) }
{
    let men = shelf_men(class, 0)?;
    if men.first == one && men.last == last {
        return Some(false);
    }
    if men.first == last && men.last == one {
        return Some(true);
    }
    None
}

/// The tables of the classes that a promotion of the last man to this kind leads to. `None` where one of them is
/// missing or does not tell its entries of the part by bytes.
#[tactic(auto, using(crate::proofs::VoidScores::part_voids))]
fn promotion<'t>(
    library: &'t Library,
    class: Class,
    men: &ShelfMen,
    kind: Kind,
    part: Part,
) -> Option<Promotion<'t>>
    requires officer { IsOfficer kind }
    ensures kind { IfSome result (λ promotion. promotion.kind ≡ kind) }
    ensures of { IfSome result (λ promotion. IsPromotionOf (column_of part) promotion men.now) }
    ensures has { IfSome result (λ promotion. (t : TableValue) → t.class ≡ class →
        HasPromotion (tables_in part (beside (table_at library.now) t)) (promotion_in part promotion) men.now) }
{
    let officer = Man {
        side: men.last.side,
        kind,
    };
    let (both_class, both_flips) = of_men(Some(men.first), Some(officer));
    let both = library.telling(both_class, part)?;
    let before = named_before(
        both_class,
        turned_man(men.first, both_flips),
        turned_man(officer, both_flips),
    )?;
    if both_class.number() == class.number() {
        return None;
    }
    let (alone_class, alone_flips) = of_men(Some(officer), None);
    let alone = library.telling(alone_class, part)?;
    if !is_left(class, alone, alone_flips, officer) {
        return None;
    }
    Some(Promotion {
        kind,
        both,
        both_flips,
        before,
        alone,
        alone_flips,
    })
}

/// The tables of the classes after each promotion of the last man, a pawn. `None` of a piece, and where a table is
/// missing or does not tell.
fn promotions<'t>(
    library: &'t Library,
    class: Class,
    men: &ShelfMen,
    part: Part,
) -> Option<Promotions<'t>>
    ensures of { IfSome result (λ kinds. ArePromotionsOf (column_of part) kinds men.now) }
    ensures has { IfSome result (λ kinds. (t : TableValue) → t.class ≡ class →
        HasPromotions (tables_in part (beside (table_at library.now) t)) (promotions_in part kinds) men.now) }
{
    if !is_pawn(men.last) {
        return None;
    }
    let queen = promotion(library, class, men, Kind::Q, part)?;
    let rook = promotion(library, class, men, Kind::R, part)?;
    let bishop = promotion(library, class, men, Kind::B, part)?;
    let knight = promotion(library, class, men, Kind::N, part)?;
    Some(Promotions {
        queen,
        rook,
        bishop,
        knight,
    })
}

/// The tables of the classes after each promotion of the first man; those of the last where the two are equal.
fn first_promotions<'t>(
    library: &'t Library,
    class: Class,
    men: &ShelfMen,
    part: Part,
    last: &Option<Promotions<'t>>,
) -> Option<Promotions<'t>>
    requires of { IfSome last.now (λ kinds. ArePromotionsOf (column_of part) kinds men.now) }
    requires has { IfSome last.now (λ kinds. (t : TableValue) → t.class ≡ class →
        HasPromotions (tables_in part (beside (table_at library.now) t)) (promotions_in part kinds) men.now) }
    ensures of { IfSome result (λ kinds. ArePromotionsOf (column_of part) kinds (men_swapped men.now)) }
    ensures has { IfSome result (λ kinds. (t : TableValue) → t.class ≡ class →
        HasPromotions (tables_in part (beside (table_at library.now) t)) (promotions_in part kinds)
        (men_swapped men.now)) }
    ensures same { men.now.first ≡ men.now.last → result ≡ last.now }
{
    if are_equal(men) {
        *last
    } else {
        promotions(library, class, &men_swapped(men), part)
    }
}

/// Whether all positions of these men are of the class, in its own colours.
fn is_own_class(class: Class, men: &ShelfMen) -> bool
    ensures { result ≡ true →
        (p : Setup) → AreNonKings p (Some men.now.first) (Some men.now.last) → IsOf class false p }
{
    let (own, flips) = of_men(Some(men.first), Some(men.last));
    own.number() == class.number() && !flips
}

/// The tables of the classes that these men's moves lead to when they leave their own, whose bytes tell their entries
/// of the part. `None` where one of them is missing or does not, and where the class has other men.
#[tactic(auto, using(crate::proofs::VoidScores::part_voids))]
pub fn children_of<'t>(
    library: &'t Library,
    class: Class,
    men: &ShelfMen,
    part: Part,
) -> Option<Children<'t>>
    ensures of { IfSome result (λ children. AreChildren (column_of part) children men.now) }
    ensures four { IfSome result (λ children. (four : FourMenTables) → four.children ≡ children →
        IsOwnTable part class men.now four.own →
        AreFourMenTables (column_of part) four men.now ×
        AreTablesOf (tables_in part (beside (table_at library.now) four.own)) (four_in part four) men.now) }
{
    if is_king(men.first) || is_king(men.last) || !is_own_class(class, men) {
        return None;
    }
    let (first_class, first_flips) = of_men(Some(men.first), None);
    let (last_class, last_flips) = of_men(Some(men.last), None);
    let first = library.telling(first_class, part)?;
    let last = library.telling(last_class, part)?;
    if !is_left(class, first, first_flips, men.first)
        || !is_left(class, last, last_flips, men.last)
    {
        return None;
    }
    let last_pawn = promotions(library, class, men, part);
    Some(Children {
        first,
        first_flips,
        last,
        last_flips,
        first_pawn: first_promotions(library, class, men, part, &last_pawn),
        last_pawn,
    })
}

/// The table of a class with these men, whose bytes tell its entries of the part, and those of its children. `None`
/// where one of them is missing or does not tell, and where the class has other men.
pub(crate) fn four_men<'t>(
    table: &'t Table,
    library: &'t Library,
    men: &ShelfMen,
    part: Part,
) -> Option<FourMenTables<'t, 't>>
    requires there { HasColumn (column_of part) table.now }
    requires bytes { HasBytes (table_in part table.now) }
    requires men { AreMenOf table.now.class men.now }
    ensures own { IfSome result (λ four. four.own ≡ table.now) }
    ensures of { IfSome result (λ four. AreFourMenTables (column_of part) four men.now) }
    ensures tables { IfSome result (λ four. AreTablesOf (tables_in part (beside (table_at library.now) table.now))
        (four_in part four) men.now) }
{
    let children = children_of(library, table.class(), men, part)?;
    Some(beside_own(table, &children))
}

/// The codes of a class, and of which the entries of the mate column and of the zeroing column keep the rules: by
/// blocks where two men stand beside the kings, by rows where one does. `None` of the kings alone, and where a table
/// does not tell it by bytes.
pub(crate) fn runs_by_blocks(table: &Table, library: &Library) -> Option<Runs>
    requires { HasChildren (table_at library.now) table.now.class }
    ensures { IfSome result (AreRuns Values (beside (table_at library.now) table.now) table.now) }
{
    let Some(men) = shelf_men(table.class(), 0) else {
        return runs_by_rows(table, library, Part::Values);
    };
    if !tells_bytes(table) {
        return None;
    }
    let four = four_men(table, library, &men, Part::Values)?;
    right_runs(&four, &men, Part::Values)
}
