//! The laws of what is written and read. The functions do nothing: their contracts are the laws.
ghost use Rattle.dump_values.specs.Laws.{AuxesReadBack, DumpsReadBack, MemoriesReadBack, NumbersReadBack, OperatorsReadBack, PairsReadBack, RowsReadBack, StoredReadBack, TablesReadBack, ValuesReadBack, VersionsReadBack};

/// What is written of a value, a row, a table, a memory or a list of numbers is read back.
pub fn values_are_read_back()
    ensures values { ValuesReadBack }
    ensures rows { RowsReadBack }
    ensures tables { TablesReadBack }
    ensures pairs { PairsReadBack }
    ensures numbers { NumbersReadBack }
{}

/// What is written of an entry is read back.
pub fn lines_are_read_back()
    ensures stored { StoredReadBack }
    ensures auxes { AuxesReadBack }
    ensures memories { MemoriesReadBack }
    ensures versions { VersionsReadBack }
    ensures operators { OperatorsReadBack }
{}

/// What is written of a whole dump is read back.
pub fn dumps_are_read_back()
    ensures { DumpsReadBack }
{}
