//! Laws of places. The functions do nothing: their contracts are the laws.
ghost use Rattle.std.specs.Prelude.{◌≡◌, ℕ, ◌<◌, ◌++◌, List, true};
ghost use Rattle.row_parts.specs.Places.{has_place, AreOnce};
ghost use Rattle.row_parts.specs.Partition.{Divides};

/// Two lists that name each of so many places exactly once divide a row of so many values.
pub fn places_divide_a_row()
    ensures { (first second : List ℕ) (width : ℕ) →
        AreOnce (first ++ second) →
        ((place : ℕ) → has_place (first ++ second) place ≡ true → place < width) →
        ((place : ℕ) → place < width → has_place (first ++ second) place ≡ true) →
        Divides first second width }
{}
