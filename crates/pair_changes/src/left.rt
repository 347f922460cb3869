//! The entries that are left of a memory, of which the first is read already.
ghost use Rattle.std.specs.Prelude.{◌≡◌, ◌+◌, [], None, IfSome, IfNone};
ghost use Rattle.id_memory.specs.Pairs.{RiseFrom, pair_of};
ghost use Rattle.pair_changes.specs.Changed.{with_pair};
ghost use Rattle.pair_changes.specs.inner.Left.{all_left, IsRead};

use id_memory::{PairIter, PairMemory};

/// The first entry, where one is left, and those behind it.
#[derive(Drop)]
pub(crate) struct Left<'a> {
    first: Option<(u64, u64, u64)>,
    others: PairIter<'a>,
}

/// All entries of a memory.
pub(crate) fn all_of(memory: &PairMemory) -> Left<'_>
    ensures all { all_left result ≡ memory.now.entries }
    ensures rise { RiseFrom 0 (all_left result) }
    ensures read { IsRead result }
{
    let mut others = memory.iter();
    let first = others.next();
    Left { first, others }
}

/// Takes the pair of an identifier out, where it is the first one that is left.
pub(crate) fn take_at(left: &mut Left<'_>, id: u64) -> Option<(u64, u64)>
    requires rise { RiseFrom id (all_left left.old) }
    requires read { IsRead left.old }
    ensures pair { all_left left.old ≡ with_pair id result (all_left left.new) }
    ensures rise { RiseFrom (id + 1) (all_left left.new) }
    ensures read { IsRead left.new }
{
    match left.first {
        Some((p, s, t)) if p == id => {
            left.first = left.others.next();
            Some((s, t))
        }
        _ => None,
    }
}

/// The least identifier that is left of either.
pub(crate) fn least_id(one: &Left<'_>, other: &Left<'_>) -> Option<u64>
    requires one_rises { RiseFrom 0 (all_left one.now) }
    requires other_rises { RiseFrom 0 (all_left other.now) }
    requires one_read { IsRead one.now }
    requires other_read { IsRead other.now }
    ensures one { IfSome result (λ id. RiseFrom id (all_left one.now)) }
    ensures other { IfSome result (λ id. RiseFrom id (all_left other.now)) }
    ensures there { IfSome result (λ id. pair_of (all_left one.now) id ≡ None
        → pair_of (all_left other.now) id ≡ None → ⊥) }
    ensures none { IfNone result ((all_left one.now ≡ []) × (all_left other.now ≡ [])) }
{
    match (one.first, other.first) {
        (Some(one), Some(other)) => Some(one.0.min(other.0)),
        (Some(one), None) => Some(one.0),
        (None, Some(other)) => Some(other.0),
        (None, None) => None,
    }
}
