//! By which rules an identifier of a footprint brings others with it.
ghost use Rattle.std.specs.Prelude.{◌≡◌, IfOk};
ghost use Rattle.row_store.specs.Rows.{row_of};
ghost use Rattle.fk_closing.specs.Looking.{goal_in};
ghost use Rattle.fk_closing.specs.Brought.{IsBrought, IsWitnessBy};
ghost use Rattle.fk_closing.specs.inner.BroughtLaws.{brought_more};

use crate::FkKeys;
use crate::looking::witness_of;
use id_closing::{Rule, add_some};
use id_sets::IdSet;
use par_base::{List, Memory};
use std::alloc::Global;
use std::marker::Model;

/// What an identifier brings with it: the row to which its row of S refers, and a row that refers
/// to it.
#[derive(Drop)]
pub(crate) struct Rules<'a> {
    pub(crate) keys: &'a FkKeys<'a>,
    /// What is changed in the first table of the near side.
    pub(crate) changed: &'a IdSet,
    /// Whether a row is sought that refers to the identifier.
    pub(crate) has_witness: bool,
}

impl<'a> Model for Rules<'a> {
    ghost use Rattle.fk_closing.specs.Brought.{Rule};

    ghost Value = { Rule };

    ghost view = { λ it. record {
      keys = it.keys.now.keys;
      changed = it.changed.now;
      witness = it.has_witness;
    } };
}

impl<'a> Rules<'a> {
    /// The row to which the row of S refers.
    fn goal(&self, id: u64) -> Option<u64>
        ensures { result ≡ goal_in 0 (row_of self.now.keys id) }
    {
        self.keys.goal(id)
    }

    /// A row that refers to the identifier and isn't changed.
    fn witness(&self, id: u64) -> Option<u64>
        ensures { IsWitnessBy self.now self.now.witness id result }
    {
        if self.has_witness {
            witness_of(self.keys, self.changed, id)
        } else {
            None
        }
    }
}

impl<'a> Rule for Rules<'a> {
    ghost brings = { λ it. IsBrought it };

    /// It takes two look-ups, and one more for each changed row that refers to the identifier: such
    /// a row refers to one alone, so all of them are passed over once.
    fn brought(&self, alloc: Global, id: u64, by: Option<u64>) -> Result<List<u64>, Memory> {
        let mut ids = List::new(alloc);
        add_some(&mut ids, self.goal(id))?;
        add_some(&mut ids, self.witness(id))?;
        Ok(ids)
    }

    ghost more = { λ it. brought_more it };
}
