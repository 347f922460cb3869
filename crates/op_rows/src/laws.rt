//! Laws of operators that treat each identifier by itself. The functions do nothing: their
//! contracts are the laws.
ghost use Rattle.op_law.specs.Laws.{Laws};
ghost use Rattle.op_law.specs.Local.{IsLocal};
ghost use Rattle.op_rows.specs.AtEach.{GivesAtEach};
ghost use Rattle.op_rows.specs.RowMeaning.{rowwise};

use crate::RowOperator;

/// The laws at one identifier give the laws of tables, and what the operator on tables has at each
/// identifier is what the row operator gives there.
pub fn rowwise_keeps_the_laws<R: RowOperator>()
    ensures laws { (operator : R) → Laws (rowwise (R.row_meaning operator)) }
    ensures each { (operator : R) → GivesAtEach (R.row_meaning operator) }
{}

/// What is restricted to some identifiers gives what is restricted to them.
pub fn rowwise_is_local<R: RowOperator>()
    ensures { (operator : R) → IsLocal (rowwise (R.row_meaning operator)) }
{}
