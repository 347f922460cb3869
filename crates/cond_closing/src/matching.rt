//! Rows of either table that match rows of the other: what finds them.
ghost use Rattle.std.specs.Prelude.{OnOk};
ghost use Rattle.row_store.specs.Rows.{Rows};
ghost use Rattle.pair_rows.specs.Shown.{Joining};
ghost use Rattle.id_closing.specs.Found.{AreAmong};
ghost use Rattle.cond_closing.specs.Matching.{FindsMatches, FindsMatchesAt};

use expr_lang::Steps;
use pair_rows::Half;
use par_base::{List, Memory, Row};
use std::alloc::Global;
use std::sync::ledger::Ledger;

/// What finds all rows of one table that match a row of the other. It may find further ones.
///
/// `joins` is the operator's places and condition, `fits` is what is supposed of them, and `knows` says
/// of which tables S and T the rows are.
pub trait Matching {
    ghost joins: { Self → Joining };

    ghost fits: { Self → Type 0 };

    ghost knows: { Self → Rows → Rows → Type 0 };

    /// Adds the rows of the other table that match this row of the half's table.
    fn add_matches<L: Ledger>(
        &self,
        alloc: Global,
        half: Half,
        row: &Row,
        ids: &mut List<u64>,
        steps: &mut Steps<L>,
    ) -> Result<(), Memory>
        requires { fits self.now }
        ensures matches { OnOk result (FindsMatches (joins self.now) (knows self.now) half ids.new
            row.now) }
        ensures stay { OnOk result (AreAmong ids.old ids.new) };

    /// Adds those that match the row that an identifier has in the half's table.
    fn add_matches_at<L: Ledger>(
        &self,
        alloc: Global,
        half: Half,
        id: u64,
        ids: &mut List<u64>,
        steps: &mut Steps<L>,
    ) -> Result<(), Memory>
        requires { fits self.now }
        ensures matches { OnOk result (FindsMatchesAt (joins self.now) (knows self.now) half ids.new
            id) }
        ensures stay { OnOk result (AreAmong ids.old ids.new) };
}
