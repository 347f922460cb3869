//! The columns of OUTER JOIN ON a condition, which are S's and then T's.
ghost use Rattle.std.specs.Prelude.{◌≡◌, length, IfOk};
ghost use Rattle.equal_columns.specs.Columns.{column_at};
ghost use Rattle.op_cond_join.specs.Joinings.{joining as joining_on};
ghost use Rattle.op_outer_cond.specs.Outerings.{joining, places_from};

use equal_columns::Columned;
use op_cond_join::JoinOn;
use op_outer_cond::OuterOn;
use par_base::{List, Memory};
use std::alloc::Global;

/// The operator, as its columns stand in joined rows.
#[derive(Clone, Copy)]
pub(crate) struct OuterColumns<'a> {
    pub(crate) it: &'a OuterOn,
}

/// The column of S at a place.
fn column_of_first(it: &OuterOn, place: usize) -> Option<usize>
    ensures { let j = joining it.now in result ≡ column_at j.first j.second place }
{
    if place < it.first {
        return Some(place);
    }
    None
}

/// The column of T at a place.
fn column_of_second(it: &OuterOn, place: usize) -> Option<usize>
    ensures { let j = joining it.now in result ≡ column_at j.second j.first place }
{
    if place < it.first {
        return None;
    }
    let column = place - it.first;
    if column < it.second {
        return Some(column);
    }
    None
}

impl<'a> Columned for OuterColumns<'a> {
    ghost joins = { λ columns. joining columns.it.now };

    fn first_at(&self, place: usize) -> Option<usize> {
        column_of_first(self.it, place)
    }

    fn second_at(&self, place: usize) -> Option<usize> {
        column_of_second(self.it, place)
    }
}

/// So many places behind others.
fn places_behind(alloc: Global, before: &[usize], count: usize) -> Result<List<usize>, Memory>
    ensures { IfOk result (λ made. made ≡ places_from (length before.now) count) }
{
    let mut made = List::new(alloc);
    for _at in 0..count {
        let place = before.len() + made.as_slice().len();
        made.push(place)?;
    }
    Ok(made)
}

/// The join on the same condition, whose columns stand there.
pub(crate) fn join_of(alloc: Global, it: &OuterOn) -> Result<JoinOn, Memory>
    ensures { IfOk result (λ made. joining_on made ≡ joining it.now) }
{
    let first = places_behind(alloc, &[], it.first)?;
    let second = places_behind(alloc, first.as_slice(), it.second)?;
    let condition = it.condition.copy(alloc)?;
    Ok(JoinOn {
        first,
        second,
        condition,
    })
}
