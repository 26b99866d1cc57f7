//! Laws of positions and their images. These functions do nothing: a caller calls one to know what it
//! ensures.
ghost use Rattle.std.specs.Prelude.{◌≡◌, ◌<◌, ◌↔◌, ◌⊎◌, ℕ, Bool};
ghost use Rattle.egt_board.specs.Prelude.{Setup, IsAdmissible, IsSettled, SettlesTo, AreImages, Reflects, SameMen};
ghost use Rattle.egt_board.specs.Prelude.{ExchangedMen, IsTurn, ComesByMirrors, settled_form, KeepsPlay, IsTurnedBy};
ghost use Rattle.egt_board.specs.Prelude.{IsSetBy, turned_by};

/// To be an image of one another is an equivalence of positions.
pub fn images_form_classes()
    ensures same { (p : Setup) → AreImages p p }
    ensures back { (p q : Setup) → IsAdmissible p → AreImages p q → AreImages q p }
    ensures on { (p q r : Setup) → AreImages p q → AreImages q r → AreImages p r }
{}

/// An image of a position comes from it by mirrors that the men allow, from position to position.
pub fn images_come_by_mirrors()
    ensures { (p q : Setup) → IsAdmissible p → AreImages p q → (n : ℕ) × Reflects n p q }
{}

/// An image of a position is a position, settled where that is, with the same men, or the same with colours exchanged.
pub fn images_keep_men()
    ensures admissible { (p q : Setup) → IsAdmissible p → AreImages p q → IsAdmissible q }
    ensures settled { (p q : Setup) → IsAdmissible p → AreImages p q → IsSettled p ↔ IsSettled q }
    ensures men { (p q : Setup) → IsAdmissible p → AreImages p q → SameMen p q ⊎ ExchangedMen p q }
{}

/// The images of a position are what its turns make of it, of which there are sixteen at most: one of the eight
/// symmetries, one that the men allow, with colours exchanged or not.
pub fn images_are_turns()
    ensures by_number { (p q : Setup) → IsAdmissible p →
        AreImages p q ↔ ((n : ℕ) × (flipped : Bool) × (n < 8) × KeepsPlay n p.men × IsTurnedBy n flipped p q) }
    ensures told { (p q : Setup) → IsAdmissible p → AreImages p q ↔ IsTurn p q }
{}

/// Each turn makes one setup of a position, with each man, the side and the target where the turn takes them.
pub fn turns_make_one()
    ensures made { (n : ℕ) (flipped : Bool) (p q : Setup) → IsAdmissible p →
        IsTurnedBy n flipped p q ↔ (q ≡ turned_by n flipped p) }
    ensures one { (n : ℕ) (flipped : Bool) (p q r : Setup) → IsTurnedBy n flipped p q → IsTurnedBy n flipped p r →
        q ≡ r }
    ensures set { (n : ℕ) (flipped : Bool) (p q : Setup) → IsAdmissible p →
        IsTurnedBy n flipped p q ↔ IsSetBy n flipped p q }
{}

/// A turn takes up to four mirrors, each from position to position.
pub fn turns_come_by_mirrors()
    ensures mirrored { (n : ℕ) (flipped : Bool) (p q : Setup) → IsAdmissible p → KeepsPlay n p.men →
        IsTurnedBy n flipped p q → ComesByMirrors n flipped p q }
    ensures turned { (n : ℕ) (flipped : Bool) (p q : Setup) → IsAdmissible p →
        ComesByMirrors n flipped p q → IsTurnedBy n flipped p q }
{}

/// A position settles to one position, with the same men.
pub fn positions_settle_once()
    ensures made { (p q : Setup) → SettlesTo p q ↔ (q ≡ settled_form p) }
    ensures admissible { (p q : Setup) → IsAdmissible p → SettlesTo p q → IsAdmissible q }
    ensures settled { (p q : Setup) → SettlesTo p q → IsSettled q }
    ensures men { (p q : Setup) → SettlesTo p q → q.men ≡ p.men }
{}

/// An image of what settles to a position settles to the image of that, by the same turn.
pub fn images_settle_alike()
    ensures turns { (n : ℕ) (flipped : Bool) (p p' q q' : Setup) → IsAdmissible p → KeepsPlay n p.men →
        IsTurnedBy n flipped p p' → SettlesTo p q → SettlesTo p' q' → IsTurnedBy n flipped q q' }
    ensures images { (p p' q q' : Setup) → IsAdmissible p → AreImages p p' → SettlesTo p q → SettlesTo p' q' →
        AreImages q q' }
{}
