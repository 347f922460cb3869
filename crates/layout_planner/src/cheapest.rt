//! The version of least cost.
ghost use Rattle.std.specs.Prelude.{◌≡◌, [], slice_get, MatchOption};
ghost use Rattle.std.specs.Option.{option_and_then};
ghost use Rattle.layout_planner.specs.Best.{IsBest, best as best_lem, numbers_of};

use crate::VersionCost;

fn first_least(costs: &[VersionCost]) -> Option<usize>
    ensures { MatchOption result (costs.now ≡ []) (λ at. IsBest (numbers_of costs.now) at) }
{
    let mut least = costs.first()?.cost;
    let mut at = 0;
    for (place, other) in costs.iter().enumerate() {
        if other.cost < least {
            at = place;
            least = other.cost;
        }
    }
    Some(at)
}

/// The place of the first of least cost, and None exactly where there is none at all. It takes no
/// memory.
pub fn best(costs: &[VersionCost]) -> Option<usize>
    ensures first { MatchOption result (costs.now ≡ []) (λ at. IsBest (numbers_of costs.now) at) }
    ensures version { option_and_then (slice_get costs.now) result ≡ best_lem costs.now }
{
    first_least(costs)
}
