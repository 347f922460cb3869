//! What a transaction read.
ghost use Rattle.std.specs.Prelude.{◌≡◌, map, Some, None, IfOk};
ghost use Rattle.std.specs.Option.{option_map_or};

use par_base::{List, Memory, Name};
use statements::TableName;
use std::alloc::Global;

/// A table that was read: the name of the version through which it was read, the table's name there,
/// and its number.
#[derive(Drop)]
pub struct TableRead {
    pub version: Name,
    pub name: Name,
    pub table: u32,
}

/// The table under a number, as it is read by this name: none where the name tells no version. It takes
/// memory for both names.
pub fn read_at(alloc: Global, name: &TableName, table: u32) -> Result<Option<TableRead>, Memory>
    ensures { IfOk result (λ read. read ≡ option_map_or
        (λ version. Some (record { version = version; name = name.now.table; table = table }))
        name.now.version None) }
{
    match &name.version {
        Some(version) => Ok(Some(TableRead {
            version: version.copy(alloc)?,
            name: name.table.copy(alloc)?,
            table,
        })),
        None => Ok(None),
    }
}

/// The tables that were read, in order. It takes memory for their numbers.
pub fn read_tables(alloc: Global, reads: &[(TableRead, u64)]) -> Result<List<u32>, Memory>
    ensures { IfOk result (λ tables. tables ≡ map (λ read. read.0.table) reads.now) }
{
    let mut tables = List::new(alloc);
    for read in reads {
        tables.push(read.0.table)?;
    }
    Ok(tables)
}
