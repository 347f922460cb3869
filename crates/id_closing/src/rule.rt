//! What identifiers bring with them.
ghost use Rattle.std.specs.Prelude.{ℕ, List, IfOk};
ghost use Rattle.id_closing.specs.Closing.{IsAmongMore};

use par_base::{List, Memory};
use std::alloc::Global;

/// A rule by which an identifier brings others with it.
///
/// `brings` says what is to be among identifiers that are closed, and `more` is the proof that it is
/// among more of them, where it is among some.
pub trait Rule {
    ghost brings: { Self → ℕ → List ℕ → Type 0 };

    /// All that the identifier brings. `by` is the one that brought it, where one did: a rule may
    /// answer that one in place of another, and any other rule does without.
    fn brought(&self, alloc: Global, id: u64, by: Option<u64>) -> Result<List<u64>, Memory>
        ensures { IfOk result (λ ids. brings self.now id ids) };

    ghost more: { (rule : Self) → IsAmongMore (brings rule) };
}
