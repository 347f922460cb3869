//! What pages hold, and what is looked up in them.
ghost use Rattle.std.specs.Prelude.{◌≡◌, IfOk};
ghost use Rattle.ordered_pages.specs.Orders.{Order, IsTotal};

use par_base::Memory;
use std::alloc::Global;
use std::cmp::Ordering;

/// A thing that has a key. The keys are in a total order, and none but itself equals a key.
///
/// `order` says which key it has and how two keys stand to each other, and `total` is the proof
/// that this is an order. No value of the type `Key` is ever made: contracts alone speak of keys.
pub trait Entry: Drop {
    type Key;

    ghost order: { Order Self Self.Key };

    /// How the key stands to that of the other one.
    fn compare(&self, other: &Self) -> Ordering
        ensures { result ≡ order.cmp (order.key self.now) (order.key other.now) };

    ghost total: { IsTotal order };
}

/// An entry that can be copied.
pub trait CopyEntry: Entry {
    fn copy(&self, alloc: Global) -> Result<Self, Memory>
        ensures { IfOk result (λ made. made ≡ self.now) };
}

/// What is looked up: a key, or whatever tells one.
pub trait Probe<E: Entry> {
    ghost key: { Self → E.Key };

    /// How the key stands to that of the entry.
    fn compare(&self, entry: &E) -> Ordering
        ensures { result ≡ E.order.cmp (key self.now) (E.order.key entry.now) };
}

/// Looks the key of an entry up.
#[derive(Drop)]
pub(crate) struct KeyOf<'a, E> {
    pub(crate) entry: &'a E,
}

impl<'a, E: Entry> Probe<E> for KeyOf<'a, E> {
    ghost key = { λ probe. E.order.key probe.entry.now };

    fn compare(&self, entry: &E) -> Ordering {
        self.entry.compare(entry)
    }
}
