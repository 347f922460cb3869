//! Laws of kept keys. The function does nothing: its contract is the laws.
ghost use Rattle.kept_keys.specs.Laws.{CommittedAreRight, PreparedAreReady, SameAreRight};

/// Kept keys stay right.
pub fn kept_keys_stay_right()
    ensures same { SameAreRight }
    ensures ready { PreparedAreReady }
    ensures committed { CommittedAreRight }
{}
