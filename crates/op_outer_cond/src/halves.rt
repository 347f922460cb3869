//! One half of an entry or the other.
ghost use Rattle.std.specs.Prelude.{◌≡◌};
ghost use Rattle.pair_rows.specs.Halves.{pick_of};
ghost use Rattle.op_outer_cond.specs.inner.Admitted.{other_of};

use pair_rows::Half;

/// The half that is meant.
pub(crate) fn half_in(half: Half, entry: &(u64, u64, u64)) -> u64
    ensures { result ≡ pick_of half entry.now }
{
    match half {
        Half::First => entry.1,
        Half::Second => entry.2,
    }
}

/// The other one.
pub(crate) fn other_in(half: Half, entry: &(u64, u64, u64)) -> u64
    ensures { result ≡ other_of half entry.now }
{
    match half {
        Half::First => entry.2,
        Half::Second => entry.1,
    }
}
