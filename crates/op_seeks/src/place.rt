//! Where an operator has its foreign key, or the columns by which its condition leads to rows.
use table_keys::KeyColumns;

/// Whether S and T stand on the target side, and the place of the foreign key among the columns of S.
#[derive(Clone, Copy)]
pub struct FkPlace {
    pub on_target: bool,
    pub place: usize,
}

/// Whether S and T stand on the target side, and in which columns of S and of T rows that may match
/// are sought: in one of each that are equal wherever the condition holds, or in all columns where
/// there are no such two, which is to look at all rows.
#[derive(Clone, Copy)]
pub struct CondPlace {
    pub on_target: bool,
    pub first: KeyColumns,
    pub second: KeyColumns,
}

/// What an operator seeks by.
#[derive(Clone, Copy)]
pub enum SeekPlace {
    ForeignKey(FkPlace),
    Condition(CondPlace),
}
