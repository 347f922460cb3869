//! Any of the operators.
use op_column::{AddColumn, AddTracked, CreateTable, DropTable, Rename};
use op_cond_join::JoinOn;
use op_fk_decompose::DecomposeFk;
use op_fk_join::JoinFk;
use op_key_join::{DecomposePk, DecomposeSingle, JoinPk};
use op_law::Flip;
use op_outer_cond::OuterOn;
use op_rows::{FlipRow, Rowwise};
use op_split_merge::Split;

/// What was built from an operator's text: one case for each kind of operator.
#[derive(Drop)]
pub enum BuiltOp {
    CreateTable(Rowwise<CreateTable>),
    DropTable(Rowwise<DropTable>),
    /// Of a table or of a column.
    Rename(Rowwise<Rename>),
    AddColumn(Rowwise<AddColumn>),
    AddTracked(Rowwise<AddTracked>),
    /// The flip of adding the dropped column at its place, with its default as the expression.
    DropColumn(Rowwise<FlipRow<AddColumn>>),
    Split(Rowwise<Split>),
    /// The flip of splitting the target into the sources.
    Merge(Rowwise<FlipRow<Split>>),
    DecomposeSingle(Rowwise<DecomposeSingle>),
    DecomposePk(Rowwise<DecomposePk>),
    /// The flip of decomposing the target into the sources.
    OuterJoinPk(Rowwise<FlipRow<DecomposePk>>),
    JoinPk(Rowwise<JoinPk>),
    DecomposeFk(DecomposeFk),
    /// The flip of decomposing the target into the sources.
    OuterJoinFk(Flip<DecomposeFk>),
    JoinFk(JoinFk),
    JoinOn(JoinOn),
    /// The flip of joining the targets into the source.
    DecomposeOn(Flip<JoinOn>),
    OuterJoinOn(OuterOn),
}
