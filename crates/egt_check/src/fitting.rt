//! Scores that may be put: each is that of an entry, and both tell one result.
ghost use Rattle.std.specs.Prelude.{◌≡◌, ◌≢◌, ◌<◌, ℕ, slice_index, true};
ghost use Rattle.egt_check.specs.Prelude.{Has, zeroing_score, AreTold, IsNearScore, IsValueScore, IsMaskOf};

use crate::lane_sets::without_score;
use crate::part::Part;
use egt_board::SquareSet;
use egt_lanes::Row;
use egt_lanes::row::differ;
use egt_lanes::score::zeroed;
use egt_lanes::sets::lanes_of;

/// The squares with the score of an entry of the mate column or the zeroing column below 254.
#[inline(always)]
fn value_lanes(row: Row) -> SquareSet
    ensures { (s : ℕ) → s < 64 → Has result s → IsValueScore (slice_index row s) }
{
    lanes_of(without_score(without_score(without_score(row, 126), 127), 129))
}

/// The squares with the score of an entry of the column of the nearest mates below 128.
#[inline(always)]
fn near_lanes(row: Row) -> SquareSet
    ensures { (s : ℕ) → s < 64 → Has result s → IsNearScore (slice_index row s) }
{
    lanes_of(without_score(zeroed(row), 0)).intersection(lanes_of(without_score(row, 129)))
}

/// Whether the scores may be put in the place of these at the squares; the second are of the zeroing column alone.
#[inline(always)]
pub(crate) fn are_told(
    part: Part,
    own: Row,
    lanes: SquareSet,
    mask: Row,
    scores: Row,
    clocks: Row,
) -> bool
    requires { IsMaskOf lanes mask }
    ensures { result ≡ true → (s : ℕ) → s < 64 → Has lanes s →
        (slice_index own s ≢ 0) × AreTold part (slice_index scores s) (slice_index clocks s) }
{
    let indexes = lanes_of(own);
    match part {
        Part::Values => {
            let told = value_lanes(scores).intersection(value_lanes(clocks));
            lanes.difference(indexes.intersection(told)).is_empty()
                && !differ(zeroed(scores), zeroed(clocks), mask)
        }
        Part::Reach => lanes
            .difference(indexes.intersection(near_lanes(scores)))
            .is_empty(),
    }
}
