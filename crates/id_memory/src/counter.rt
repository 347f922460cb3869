//! The counter from which identifiers are drawn.
ghost use Rattle.std.specs.Prelude.{◌≡◌, ◌+◌, ◌<◌, ◌≤◌, ◌^◌, IfOk, IfErr, OnOk, OnErr};

use par_base::IdsSpent;
use std::marker::Model;

/// The next identifier, and the greatest that may be drawn.
///
/// The next one is from 1 to 2^63, and the limit is at most 2^63 - 1.
#[derive(Drop)]
pub struct IdCounter {
    next: u64,
    limit: u64,
}

impl Model for IdCounter {
    ghost use Rattle.std.specs.Prelude.{◌≤◌, ◌<◌, ◌^◌};
    ghost use Rattle.id_memory.specs.States.{CounterState};

    ghost Value = { CounterState };

    ghost view = { λ counter. record { next = counter.next; limit = counter.limit } };

    ghost invariant = { λ counter. (1 ≤ counter.next) × (counter.next ≤ 2 ^ 63)
        × (counter.limit < 2 ^ 63) };
}

impl IdCounter {
    /// A counter that begins at an identifier.
    pub fn new(next: u64, limit: u64) -> IdCounter
        requires from_one { 1 ≤ next }
        requires at_most { next ≤ 2 ^ 63 }
        requires limited { limit < 2 ^ 63 }
        ensures { result ≡ record { next = next; limit = limit } }
    {
        IdCounter { next, limit }
    }

    /// The identifier that is drawn next.
    pub fn next(&self) -> u64
        ensures value { result ≡ self.now.next }
        ensures from_one { 1 ≤ result }
        ensures at_most { result ≤ 2 ^ 63 }
    {
        self.next
    }

    /// The greatest identifier that may be drawn.
    pub fn limit(&self) -> u64
        ensures value { result ≡ self.now.limit }
        ensures at_most { result < 2 ^ 63 }
    {
        self.limit
    }

    /// An equal counter.
    pub fn copy(&self) -> IdCounter
        ensures { result ≡ self.now }
    {
        IdCounter {
            next: self.next,
            limit: self.limit,
        }
    }

    /// Draws the next identifier. It takes no memory.
    pub fn draw(&mut self) -> Result<u64, IdsSpent>
        ensures ok { IfOk result (λ id. (id ≡ self.old.next) × (id ≤ self.old.limit)) }
        ensures raised { OnOk result (self.new ≡ record self.old { next = self.old.next + 1 }) }
        ensures refused { OnErr result (self.old.limit < self.old.next) }
        ensures spent { IfErr result (λ spent. spent ≡ record
            { needed = self.old.next; limit = self.old.limit }) }
        ensures err { OnErr result (self.new ≡ self.old) }
    {
        let id = self.next;
        if self.limit < id {
            return Err(IdsSpent {
                needed: id,
                limit: self.limit,
            });
        }
        self.next = id + 1;
        Ok(id)
    }
}
