//! The values for which identifiers are drawn, by first use, each once, and the drawn rows.
ghost use Rattle.std.specs.Prelude.{◌≡◌, ◌≤◌, ℕ, List, [], Bool, length, IfOk};
ghost use Rattle.par_base.specs.declared.value.Value.{Value};
ghost use Rattle.foreign_keys.specs.DrawnIds.{add_once, has as has_value, place as place_of, drawn};
ghost use Rattle.foreign_keys.specs.Calls.{IsNumbered};

use crate::RowParts;
use id_memory::IdCounter;
use key_index::KeyIndex;
use par_base::{Fault, IdsSpent, List, Memory, Row};
use row_store::Table;
use std::alloc::Global;
use std::marker::Model;

/// Values by first use, each once, with the place of each. Contracts see the list.
#[derive(Drop)]
pub struct Drawn {
    values: List<Row>,
    places: KeyIndex,
}

impl Model for Drawn {
    ghost use Rattle.foreign_keys.specs.DrawnIds.{Values, ArePlaced};

    ghost Value = { Values };

    ghost view = { λ drawn. drawn.values };

    ghost invariant = { λ drawn. ArePlaced drawn.values drawn.places.rows };
}

impl Drawn {
    /// No values. It takes no memory.
    pub fn new(alloc: Global) -> Drawn
        ensures { result ≡ [] }
    {
        Drawn {
            values: List::new(alloc),
            places: KeyIndex::new(alloc),
        }
    }

    /// The values in order.
    pub fn values(&self) -> &[Row]
        ensures { result.now ≡ self.now }
    {
        self.values.as_slice()
    }

    /// Whether the value is there. It takes comparisons of rows in the logarithm of the values.
    pub fn has(&self, value: &Row) -> bool
        ensures { result ≡ has_value self.now value.now }
    {
        match self.places.least_with(value.as_slice()) {
            Some(_) => true,
            None => false,
        }
    }

    /// How many values stand before this one. It takes comparisons of rows in the logarithm of the
    /// values.
    pub fn place(&self, value: &Row) -> u64
        ensures value { result ≡ place_of self.now value.now }
        ensures within { result ≤ length self.now }
    {
        match self.places.least_with(value.as_slice()) {
            Some(place) => place,
            None => self.values.len() as u64,
        }
    }

    /// Adds a value that isn't there. It takes comparisons of rows in the logarithm of the values.
    pub fn with(self, value: Row) -> Result<Drawn, Memory>
        ensures { IfOk result (λ drawn. drawn ≡ add_once value self) }
    {
        if self.has(&value) {
            return Ok(self);
        }
        let mut places = self.places;
        let mut values = self.values;
        places.push(values.len() as u64, &value)?;
        values.push(value)?;
        Ok(Drawn { values, places })
    }
}

/// Which rows need an identifier that is drawn.
pub trait Draws {
    ghost needs: { Self → ℕ → List Value → Bool };

    /// Whether the row needs one.
    fn draws(&self, alloc: Global, id: u64, row: &Row) -> Result<bool, Memory>
        ensures { IfOk result (λ draws. draws ≡ needs self.now id row.now) };
}

/// The T parts of the rows that need an identifier. It takes one pass.
pub fn draw_values<P: RowParts, D: Draws>(
    alloc: Global,
    parts: &P,
    each: &D,
    near: &Table,
) -> Result<Drawn, Memory>
    ensures { let all = drawn (P.parts parts.now) (D.needs each.now) [] near.now.rows in
        IfOk result (λ values. values ≡ all) }
{
    let mut values = Drawn::new(alloc);
    for row in near.iter() {
        if each.draws(alloc, row.0, &row.1)? {
            values = values.with(parts.second(alloc, &row.1)?)?;
        }
    }
    Ok(values)
}

/// The values as rows, under identifiers that are drawn for them in order.
pub fn number(alloc: Global, values: &[Row], ids: &mut IdCounter) -> Result<Table, Fault<IdsSpent>>
    ensures { IsNumbered values.now ids.old ids.new result }
{
    let mut left = ids.copy();
    let mut table = Table::new(alloc);
    for value in values {
        match left.draw() {
            Ok(id) => table.push(id, value.copy(alloc)?)?,
            Err(spent) => return Err(Fault::Refused(spent)),
        }
    }
    *ids = left;
    Ok(table)
}
