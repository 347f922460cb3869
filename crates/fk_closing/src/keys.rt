//! The keys of S and T, by which identifiers are found.
ghost use Rattle.std.specs.Prelude.{◌≡◌};
ghost use Rattle.row_store.specs.Rows.{RiseFrom, row_of};
ghost use Rattle.op_law.specs.Tables.{RowsWide};
ghost use Rattle.foreign_keys.specs.References.{referred};
ghost use Rattle.key_index.specs.Found.{IsLeastFrom};
ghost use Rattle.table_keys.specs.States.{behind};
ghost use Rattle.fk_closing.specs.Keys.{alone_among, key_parts, keys_among, shared_among};
ghost use Rattle.fk_closing.specs.Looking.{goal_in, IsNextRef};

use foreign_keys::goal_at;
use par_base::Value;
use std::marker::Model;
use table_keys::TableKeys;

/// Among which rows of T one is sought.
#[derive(Clone, Copy)]
pub enum Among {
    /// All of them.
    All,
    /// Those that aren't alone: S has their identifier, or refers to it.
    Shared,
}

/// The foreign keys of S, in one column, and the rows of T, both by identifier and by value.
#[derive(Drop)]
pub struct FkKeys<'a> {
    keys: &'a TableKeys,
    rows: &'a TableKeys,
}

impl<'a> Model for FkKeys<'a> {
    ghost use Rattle.op_law.specs.Tables.{RowsWide};
    ghost use Rattle.fk_closing.specs.Keys.{KeyRows};

    ghost Value = { KeyRows };

    ghost view = { λ it. record { keys = it.keys.now.rows; rows = it.rows.now.rows } };

    ghost invariant = { λ it. RowsWide 1 it.keys.now.rows };
}

impl<'a> FkKeys<'a> {
    /// Both together. It takes no memory.
    pub fn new(keys: &'a TableKeys, rows: &'a TableKeys) -> FkKeys<'a>
        requires { RowsWide 1 keys.now.rows }
        ensures keys { result.keys ≡ keys.now.rows }
        ensures rows { result.rows ≡ rows.now.rows }
    {
        FkKeys { keys, rows }
    }

    /// The identifier to which a row of S refers.
    pub(crate) fn goal(&self, id: u64) -> Option<u64>
        ensures { result ≡ goal_in 0 (row_of self.now.keys id) }
    {
        match self.keys.get(id) {
            Some(key) => goal_at(key, 0),
            None => None,
        }
    }

    /// The least row of S that refers to an identifier, or the least one behind another.
    pub(crate) fn next_ref(&self, id: u64, after: Option<u64>) -> Option<u64>
        ensures { IsNextRef 0 self.now.keys id (behind after) result }
    {
        let key = [Value::Reference(id)];
        self.keys.least_with(&key, after)
    }

    /// Whether a row of S refers to the identifier.
    fn is_referred(&self, id: u64) -> bool
        ensures { result ≡ referred key_parts self.now.keys id }
    {
        // That they rise.
        let _ = self.keys.get(id);
        self.next_ref(id, None).is_some()
    }

    /// Whether the row of T is alone.
    fn is_alone(&self, id: u64) -> bool
        ensures { result ≡ alone_among self.now id }
    {
        self.rows.get(id).is_some() && (!self.keys.get(id).is_some() && !self.is_referred(id))
    }

    /// The least row of T with the key that isn't alone. It passes over rows with the key that are.
    fn least_shared(&self, key: &[Value]) -> Option<u64>
        ensures { IsLeastFrom (shared_among self.now) key.now 0 result }
    {
        let mut after = None;
        while let Some(id) = self.rows.least_with(key, after) {
            if !self.is_alone(id) {
                return Some(id);
            }
            after = Some(id);
        }
        None
    }

    /// The least row of T with the key, among those that are meant.
    pub(crate) fn least_row(&self, key: &[Value], among: Among) -> Option<u64>
        ensures { IsLeastFrom (keys_among among self.now) key.now 0 result }
    {
        match among {
            Among::All => self.rows.least_with(key, None),
            Among::Shared => self.least_shared(key),
        }
    }
}
