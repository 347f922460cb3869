//! Laws of single operators. The functions do nothing: their contracts are the laws.
ghost use Rattle.op_key_join.specs.KeptRows.{DeletedRowsGo, NullPartMakesNoRow, NullRowStays, OtherColumnsKept, OtherColumnsNull, RowOfNeitherStays, RowOfTargetsGoes, RowsAloneStay};

/// What becomes of the other columns while the listed ones are written.
pub fn other_columns_are_kept()
    ensures kept { OtherColumnsKept }
    ensures null { OtherColumnsNull }
{}

/// What becomes of null parts, and of rows that are in neither target.
pub fn null_parts_are_kept()
    ensures no_row { NullPartMakesNoRow }
    ensures stays { NullRowStays }
    ensures neither { RowOfNeitherStays }
    ensures goes { RowOfTargetsGoes }
{}

/// What becomes of the sources' rows while the joined table is written.
pub fn rows_alone_are_kept()
    ensures alone { RowsAloneStay }
    ensures deleted { DeletedRowsGo }
{}
