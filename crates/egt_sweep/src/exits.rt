//! Worth of the moves that leave a game.
ghost use Rattle.std.specs.Prelude.{◌≡◌, ◌+◌, ◌++◌, ◌≤◌, ◌<◌, ℕ, Bool, Some, IsSome, IfSome};
ghost use Rattle.egt_sweep.specs.Prelude.{option_to_list, array_vec_len, AreMenOf, Setup, IsAdmissible, IsOf, IsIndex};
ghost use Rattle.egt_sweep.specs.Prelude.{Value, IsLegal, played, Mate, Shows, near_tables, read, table_at, entry_at};
ghost use Rattle.egt_sweep.specs.Prelude.{HasChildren, metric_of, known, Knows, IsIndexed, plies_left, exit_of};
ghost use Rattle.egt_sweep.specs.Prelude.{shown_below, exit_by, exits_from};

use crate::edges::goes_on;
use crate::laws::laws;
use crate::objective::Objective;
use arrayvec::ArrayVec;
use egt_board::Position;
use egt_check::successors::place_after;
use egt_check::{Library, Metric};
use egt_class::Class;
use egt_graph::Exit;
use egt_moves::{Men, Move, legal_moves, zeroing};
use egt_table::Column;

/// The plies of an exit: in the game of zeroing moves none are left.
fn plies_left(metric: Metric, plies: u16) -> u16
    ensures { result ≡ plies_left metric plies }
{
    match metric {
        Metric::Mate => plies,
        Metric::Zeroing => 0,
    }
}

/// The value that a mate entry shows, as an exit.
fn exit_shown(metric: Metric, entry: u16) -> Exit
    requires { (v : Value) × Shows entry v }
    ensures { result ≡ exit_of metric (read entry) }
{
    if entry == 1 {
        Exit::Draw
    } else if entry % 2 == 0 {
        Exit::Win(plies_left(metric, (entry - 2) / 2))
    } else {
        Exit::Loss(plies_left(metric, (entry - 3) / 2))
    }
}

/// The mate entry at the index of a position in the table of its class.
fn table_entry(library: &Library, class: Class, index: u32) -> u16
    requires there { IsSome (table_at library.now class) }
    requires indexed { IsIndexed class index }
    ensures shows { (v : Value) × Shows result v }
    ensures is { IfSome (table_at library.now class) (λ t. result ≡ entry_at t Mate index) }
{
    laws();
    let table = library.get(class).unwrap();
    table.entry(Column::Mate, index)
}

/// The entry of the column of the nearest mates there, read as a mate entry: as a loss in so many plies, or as a draw.
fn near_entry(library: &Library, class: Class, index: u32) -> u16
    requires there { IsSome (near_tables (table_at library.now) class) }
    requires indexed { IsIndexed class index }
    ensures shows { (v : Value) × Shows result v }
    ensures is { IfSome (near_tables (table_at library.now) class) (λ t. result ≡ entry_at t Mate index) }
{
    laws();
    let table = library.get(class).unwrap();
    2 * table.entry(Column::Reach, index) - 1
}

/// The mate entry at the index of a position in a class, whose own ranks are read where they are known.
fn mate_entry(
    objective: &Objective<'_>,
    own: Class,
    library: &Library,
    class: Class,
    index: u32,
) -> u16
    requires knows { Knows (table_at library.now) own objective.now }
    requires there { IsSome (known (table_at library.now) own objective.now class) }
    requires indexed { IsIndexed class index }
    ensures shows { (v : Value) × Shows result v }
    ensures is { IfSome (known (table_at library.now) own objective.now class) (λ t. result ≡ entry_at t Mate index) }
{
    laws();
    match objective {
        Objective::Mate => table_entry(library, class, index),
        Objective::Zeroing(ranks) => {
            if class == own {
                let _number = class.number();
                ranks.entries()[index as usize]
            } else {
                table_entry(library, class, index)
            }
        }
        Objective::Reach => near_entry(library, class, index),
    }
}

/// The exit of a move that leads to the position at the index in the class, which has its table.
fn exit_at(
    objective: &Objective<'_>,
    own: Class,
    library: &Library,
    class: Class,
    index: u32,
) -> Exit
    requires knows { Knows (table_at library.now) own objective.now }
    requires there { IsSome (known (table_at library.now) own objective.now class) }
    requires indexed { IsIndexed class index }
    ensures { (q : Setup) (flipped : Bool) → IsAdmissible q → IsOf class flipped q → IsIndex class q index →
        result ≡ exit_of (metric_of objective.now) (shown_below (known (table_at library.now) own objective.now) 36 q) }
{
    laws();
    let _number = class.number();
    let entry = mate_entry(objective, own, library, class, index);
    exit_shown(objective.metric(), entry)
}

/// Adds the exit of the move, if it leaves the game.
fn add_exit(
    objective: &Objective<'_>,
    class: Class,
    library: &Library,
    position: &Position,
    men: &Men,
    chess_move: &Move,
    list: &mut ArrayVec<Exit, 64>,
)
    requires knows { Knows (table_at library.now) class objective.now }
    requires children { HasChildren (table_at library.now) class }
    requires of { (flipped : Bool) × IsOf class flipped position.now }
    requires men { AreMenOf position.now men.now }
    requires legal { IsLegal position.now chess_move.now }
    requires room { array_vec_len list.old < 64 }
    ensures items { list.new.items ≡ list.old.items ++ option_to_list
        (exit_by (known (table_at library.now) class objective.now)
        (metric_of objective.now) class position.now chess_move.now (played position.now chess_move.now)) }
    ensures few { array_vec_len list.new ≤ array_vec_len list.old + 1 }
{
    laws();
    let _side = position.side();
    let _number = class.number();
    // A move that does not zero goes on in each game.
    if !zeroing(position, *chess_move) {
        return;
    }
    let place = place_after(position, men, chess_move);
    let after = place.class;
    let index = place.index;
    let metric = objective.metric();
    if goes_on(metric, class, position, chess_move, after) {
        return;
    }
    let exit = exit_at(objective, class, library, after, index);
    list.push(exit);
}

/// The exits of the moves that leave the game from the position, in the order of moves.
pub(crate) fn exits_of(
    objective: &Objective<'_>,
    class: Class,
    library: &Library,
    position: &Position,
) -> ArrayVec<Exit, 64>
    requires knows { Knows (table_at library.now) class objective.now }
    requires children { HasChildren (table_at library.now) class }
    requires of { (flipped : Bool) × IsOf class flipped position.now }
    ensures { result.items ≡ exits_from (known (table_at library.now) class objective.now)
        (metric_of objective.now) class (Some position.now) }
{
    let men = Men::of(position);
    let moves = legal_moves(position);
    let mut list = ArrayVec::new();
    for chess_move in moves.as_slice() {
        add_exit(
            objective, class, library, position, &men, chess_move, &mut list,
        );
    }
    list
}
