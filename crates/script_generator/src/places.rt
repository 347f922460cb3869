//! Where a statement stands in the script.
ghost use Rattle.std.specs.Prelude.{◌≡◌, ◌<◌, ◌≤◌, ◌^◌, length, slice_get};
ghost use Rattle.std.specs.List.{filter};
ghost use Rattle.script_generator.specs.Generated.{below, is_fourth, generated_script, generated_statement};
ghost use Rattle.script_generator.specs.inner.Places.{behind_tasks, statement_at};

/// A place in the script.
#[derive(Clone, Copy)]
pub enum Place {
    /// The first statement.
    First,
    /// The row of a number in `task`.
    Task(u64),
    /// One of the statements behind these rows.
    Evolution(u64),
    /// The row of a number in `todo`.
    Todo(u64),
    /// One of the statements behind these rows, or past the last of them.
    Ending(u64),
}

// How many statements stand between the rows of `task` and those of `todo`, and behind these.
const EVOLUTION: u64 = 3;

const ENDING: u64 = 4;

// How many numbers below this one 4 divides.
fn fourths_below(n: u64) -> u64
    requires { n < 2 ^ 32 }
    ensures value { result ≡ length (filter is_fourth (below n)) }
    ensures within { result ≤ n }
{
    (n + 3) / 4
}

// The place of the statement `at` behind the rows of `task`.
#[tactic(auto, using(crate::proofs::PlaceLemmas::evolution_place))]
fn behind_tasks(tasks: u64, at: u64) -> Place
    requires { tasks < 2 ^ 32 }
    ensures { statement_at result ≡ slice_get (behind_tasks tasks) at }
{
    if at < EVOLUTION {
        return Place::Evolution(at);
    }
    let at = at - EVOLUTION;
    let todos = fourths_below(tasks);
    if at < todos {
        Place::Todo(4 * at)
    } else {
        Place::Ending(at - todos)
    }
}

/// The place of the statement `k` of the script of `n` numbers.
#[tactic(auto, using(crate::proofs::PlaceLemmas::first_place, crate::proofs::PlaceLemmas::task_place, crate::proofs::PlaceLemmas::behind_place))]
pub fn place_of(n: u32, k: u64) -> Place
    ensures { statement_at result ≡ generated_statement n k }
{
    if k == 0 {
        return Place::First;
    }
    let at = k - 1;
    let tasks = u64::from(n);
    if at < tasks {
        Place::Task(at)
    } else {
        behind_tasks(tasks, at - tasks)
    }
}

/// How many statements the script of `n` numbers has.
pub fn generated_count(n: u32) -> u64
    ensures { result ≡ length (generated_script n) }
{
    let tasks = u64::from(n);
    let todos = fourths_below(tasks);
    1 + tasks + EVOLUTION + todos + ENDING
}
