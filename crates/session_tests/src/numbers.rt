//! Two numbers, which writes put one at a time.
ghost use Rattle.std.specs.Prelude.{◌≡◌, cond};
ghost use Rattle.session_tx.specs.Calls.{IsIdle};
ghost use Rattle.session_tests.specs.Numbers.{changed_in, history_in, is_replaced as is_replaced_in, is_side, number_at as number_on, put as put_on};

use crate::Side;
use expr_lang::Steps;
use par_base::{Fault, List, Refusal};
use session_tx::Executor;
use std::alloc::Global;
use std::sync::ledger::Ledger;

// The greatest number that may be written.
const MOST: u64 = 9;

/// Two numbers, with the last history number at which each has changed.
#[derive(Drop)]
pub struct Numbers {
    numbers: (u64, u64),
    changed: (u64, u64),
    history: u64,
    // What runs that aren't settled replaced, the newest first.
    replaced: List<(Side, u64)>,
}

impl Numbers {
    /// Two numbers that have not changed, at a history number. It takes no memory.
    pub fn new(alloc: Global, left: u64, right: u64, history: u64) -> Numbers
        ensures { IsIdle (⟦<Numbers as Executor>⟧.stands result) }
    {
        Numbers {
            numbers: (left, right),
            changed: (0, 0),
            history,
            replaced: List::new(alloc),
        }
    }

    /// Both numbers.
    pub fn both(&self) -> (u64, u64) {
        self.numbers
    }
}

fn is_same(first: Side, second: Side) -> bool
    ensures { result ≡ is_side first second }
{
    match (first, second) {
        (Side::Left, Side::Left) | (Side::Right, Side::Right) => true,
        _ => false,
    }
}

// The number on a side.
fn number_at(numbers: (u64, u64), side: Side) -> u64
    ensures { result ≡ number_on side numbers }
{
    match side {
        Side::Left => numbers.0,
        Side::Right => numbers.1,
    }
}

// Another number on a side.
fn put(numbers: (u64, u64), side: Side, number: u64) -> (u64, u64)
    ensures { result ≡ put_on side number numbers }
{
    match side {
        Side::Left => (number, numbers.1),
        Side::Right => (numbers.0, number),
    }
}

// Whether some number on the side was replaced.
fn is_replaced(replaced: &[(Side, u64)], side: Side) -> bool
    ensures { result ≡ is_replaced_in replaced.now side }
{
    for entry in replaced {
        if is_same(entry.0, side) {
            return true;
        }
    }
    false
}

// The history number once these are settled.
fn history_after(replaced: &[(Side, u64)], history: u64) -> u64
    ensures { result ≡ history_in replaced.now history }
{
    if replaced.is_empty() {
        return history;
    }
    history.saturating_add(1)
}

// The last history numbers of both sides, once these are settled.
fn changed_after(replaced: &[(Side, u64)], changed: (u64, u64), history: u64) -> (u64, u64)
    ensures { result ≡ changed_in replaced.now changed history }
{
    let left = newer(is_replaced(replaced, Side::Left), history, changed.0);
    let right = newer(is_replaced(replaced, Side::Right), history, changed.1);
    (left, right)
}

fn newer(is_changed: bool, new: u64, old: u64) -> u64
    ensures { result ≡ cond is_changed new old }
{
    if is_changed { new } else { old }
}

impl Executor for Numbers {
    ghost use Rattle.std.specs.Prelude.{ℕ};
    ghost use Rattle.session_tests.specs.Numbers.{means as means_of, standing_of};

    type Write = (Side, u64);

    type Mark = Side;

    type Done = u64;

    ghost State = { ℕ × ℕ };

    ghost means = { means_of };

    ghost stands = { λ it s. s ≡ standing_of it.numbers it.changed it.history it.replaced };

    fn history(&self) -> u64 {
        self.history
    }

    fn last_change(&self, mark: &Side) -> u64 {
        number_at(self.changed, *mark)
    }

    fn run<L: Ledger>(
        &mut self,
        alloc: Global,
        write: &(Side, u64),
        steps: &mut Steps<L>,
    ) -> Result<u64, Fault<Refusal>> {
        let _ = alloc;
        let (side, number) = *write;
        if number > MOST {
            return Err(Fault::Refused(Refusal::WrongCount {
                given: number,
                wanted: MOST,
            }));
        }
        steps.tick();
        let old = number_at(self.numbers, side);
        self.replaced.insert(0, (side, old))?;
        self.numbers = put(self.numbers, side, number);
        Ok(old)
    }

    fn take_back(&mut self) {
        let (side, old) = self.replaced.remove(0);
        self.numbers = put(self.numbers, side, old);
    }

    fn settle(&mut self) {
        let replaced = self.replaced.as_slice();
        let history = history_after(replaced, self.history);
        let changed = changed_after(replaced, self.changed, history);
        self.history = history;
        self.changed = changed;
        self.replaced.truncate(0);
    }
}
