//! In which order the pairs of kings' squares are judged: a king's steps lead to pairs whose entries were read shortly
//! before.
ghost use Rattle.std.specs.Prelude.{◌≡◌, ◌*◌, ◌<◌};
ghost use Rattle.egt_check.specs.Prelude.{nth_pair};

use egt_board::Side;

/// The number of the pair that is the n-th with that side to move. The squares of Black's king are the lower digits of
/// pairs; with White to move those of White's king follow one another.
pub fn nth_pair(side: Side, n: u32, kings: u32) -> u32
    requires below { n < 64 * kings }
    requires room { 64 * kings < 4294967296 }
    ensures is { result ≡ nth_pair side kings n }
    ensures within { result < 64 * kings }
{
    match side {
        Side::White => 64 * (n % kings) + n / kings,
        Side::Black => n,
    }
}
