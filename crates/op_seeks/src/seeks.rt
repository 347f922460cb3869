//! The trait of operators that look for identifiers, and what any operator does.
ghost use Rattle.std.specs.Prelude.{◌≡◌, Bool, Option, IfOk};
ghost use Rattle.equal_columns.specs.Columns.{equal_in};
ghost use Rattle.expr_lang.specs.Terms.{expr_term};
ghost use Rattle.fk_closing.specs.Found.{AreAmong};
ghost use Rattle.op_seeks.specs.Places.{condition_place, place_of};
ghost use Rattle.op_seeks.specs.Seeking.{ApartOver, FootprintOf, SeekLaws};
ghost use Rattle.op_seeks.specs.declared.known.Known.TheVariants.{Entries, Keys};
ghost use Rattle.op_seeks.specs.declared.place.SeekPlace.{SeekPlace as SeekPlaceView};
ghost use Rattle.op_seeks.specs.inner.BuiltSeeks.{built_seeks};

use crate::by_known::{apart_by_keys, foot_by_keys, ids_by_entries};
use crate::outer_columns::OuterColumns;
use crate::sought::{Sought, sought_in};
use crate::{CondKeys, CondPlace, Crossed, FkPlace, SeekPlace};
use equal_columns::{Columned, equal_columns};
use expr_lang::{Expr, Steps};
use fk_closing::FkKeys;
use op_any::AnyOp;
use op_law::Operator;
use par_base::{List, Memory};
use std::alloc::Global;
use std::sync::ledger::Ledger;
use table_keys::KeyColumns;

/// An operator that looks for the identifiers that a write through it has to see, by what is known of
/// its S and T.
pub trait Seeks: Operator {
    ghost seeks: { Self → Option SeekPlaceView };

    /// What it seeks by, if it seeks: where its foreign key stands, or columns that its condition makes
    /// equal, or all columns where there are none. It takes no memory.
    fn place(&self) -> Option<SeekPlace>
        ensures { result ≡ seeks self.now };

    /// By foreign keys: a footprint of changes of its near side, which holds what is wanted. It takes
    /// up to three look-ups for each identifier that is found, and for each that changes name.
    fn footprint(
        &self,
        alloc: Global,
        keys: &FkKeys<'_>,
        crossed: Crossed<'_>,
        wanted: &[u64],
    ) -> Result<List<u64>, Memory>
        ensures foot { IfOk result (FootprintOf (Self.meaning self.now) (seeks self.now)
            crossed.entry.backward (Keys keys.now) crossed.entry.near.now.tables) }
        ensures holds { IfOk result (AreAmong wanted.now) };

    /// By foreign keys: identifiers that keep changes to themselves, which hold what is wanted. It
    /// costs what `footprint` does.
    fn apart(
        &self,
        alloc: Global,
        keys: &FkKeys<'_>,
        crossed: Crossed<'_>,
        wanted: &[u64],
    ) -> Result<List<u64>, Memory>
        ensures apart { IfOk result (ApartOver (Self.meaning self.now) (seeks self.now)
            crossed.entry.backward (Keys keys.now) crossed.entry.near.now.tables
            crossed.entry.changes.now.tables) }
        ensures holds { IfOk result (AreAmong wanted.now) };

    /// By a memory: a footprint of changes of its near side that keeps them to itself, which holds
    /// what is wanted. It takes what the crates that find it for a condition say.
    fn footprint_apart<L: Ledger>(
        &self,
        alloc: Global,
        it: &CondKeys<'_>,
        crossed: Crossed<'_>,
        wanted: &[u64],
        steps: &mut Steps<L>,
    ) -> Result<List<u64>, Memory>
        ensures foot { IfOk result (FootprintOf (Self.meaning self.now) (seeks self.now)
            crossed.entry.backward (Entries it.now) crossed.entry.near.now.tables) }
        ensures apart { IfOk result (ApartOver (Self.meaning self.now) (seeks self.now)
            crossed.entry.backward (Entries it.now) crossed.entry.near.now.tables
            crossed.entry.changes.now.tables) }
        ensures holds { IfOk result (AreAmong wanted.now) };

    ghost seeking: { (operator : Self) → SeekLaws (Self.meaning operator) (seeks operator) };
}

/// The columns that a condition makes equal, or all columns.
fn columns_of<C: Columned>(join: &C, condition: &Expr, on_target: bool) -> Option<SeekPlace>
    ensures { result ≡ condition_place on_target
        (equal_in (C.joins join.now) (expr_term condition.now)) }
{
    match equal_columns(join, condition) {
        Some((x, y)) => Some(SeekPlace::Condition(CondPlace {
            on_target,
            first: KeyColumns::One(x),
            second: KeyColumns::One(y),
        })),
        None => Some(SeekPlace::Condition(CondPlace {
            on_target,
            first: KeyColumns::All,
            second: KeyColumns::All,
        })),
    }
}

impl Seeks for AnyOp {
    ghost seeks = { λ it. place_of it.operator };

    fn place(&self) -> Option<SeekPlace> {
        match sought_in(self.operator()) {
            Sought::Decompose(it) => Some(SeekPlace::ForeignKey(FkPlace {
                on_target: true,
                place: it.place,
            })),
            Sought::Outer(it) => Some(SeekPlace::ForeignKey(FkPlace {
                on_target: false,
                place: it.place,
            })),
            Sought::Join(it) => Some(SeekPlace::ForeignKey(FkPlace {
                on_target: false,
                place: it.place,
            })),
            Sought::JoinOn(it) => columns_of(it, &it.condition, false),
            Sought::DecomposeOn(it) => columns_of(it, &it.condition, true),
            Sought::OuterOn(it) => columns_of(&OuterColumns { it }, &it.condition, false),
            Sought::Nothing => None,
        }
    }

    fn footprint(
        &self,
        alloc: Global,
        keys: &FkKeys<'_>,
        crossed: Crossed<'_>,
        wanted: &[u64],
    ) -> Result<List<u64>, Memory> {
        foot_by_keys(alloc, self.operator(), keys, crossed, wanted)
    }

    fn apart(
        &self,
        alloc: Global,
        keys: &FkKeys<'_>,
        crossed: Crossed<'_>,
        wanted: &[u64],
    ) -> Result<List<u64>, Memory> {
        apart_by_keys(alloc, self.operator(), keys, crossed, wanted)
    }

    fn footprint_apart<L: Ledger>(
        &self,
        alloc: Global,
        it: &CondKeys<'_>,
        crossed: Crossed<'_>,
        wanted: &[u64],
        steps: &mut Steps<L>,
    ) -> Result<List<u64>, Memory> {
        ids_by_entries(alloc, self.operator(), it, crossed, wanted, steps)
    }

    ghost seeking = { λ it. built_seeks it.operator };
}
