//! Building operators from their texts.
ghost use Rattle.std.specs.Prelude.{◌≡◌};
ghost use Rattle.statements.specs.Views.{op_view};
ghost use Rattle.par_base.specs.Checked.{Gives};
ghost use Rattle.op_kinds.specs.Views.{built_view};
ghost use Rattle.op_any.specs.Edges.{edge_view};
ghost use Rattle.op_any.specs.Build.{IsOf, built, with_text as text_beside};

use crate::plan::plan;
use op_any::AnyOp;
use op_kinds::BuiltOp;
use par_base::{Fault, Refusal};
use statements::{OpText, copy_text};
use std::alloc::Global;
use std::mem;
use version_graph::{Edge, Heading};

// The edge of what was built of this text.
fn with_text(edge: Edge<BuiltOp>, text: OpText) -> Edge<AnyOp>
    requires { IsOf (op_view text) (built_view edge.operator) }
    ensures { result ≡ text_beside (op_view text) (edge_view edge) }
{
    Edge {
        operator: AnyOp::new(text, edge.operator),
        sources: edge.sources,
        targets: edge.targets,
    }
}

/// The edge of an operator on the working set of these tables, while `next` is the next identifier,
/// or the first of its checks that refuses it. It takes time in the number of pairs of names, and
/// in the length of the expressions.
pub fn build_op(
    alloc: Global,
    text: &OpText,
    set: &[Heading],
    next: u64,
) -> Result<Edge<AnyOp>, Fault<Refusal>>
    ensures { Gives (λ edge. edge) result (built set.now next (op_view text.now)) }
{
    let edge = plan(alloc, text, set, next)?;
    match copy_text(alloc, text) {
        Ok(text) => Ok(with_text(edge, text)),
        Err(memory) => {
            mem::drop(edge);
            Err(Fault::Memory(memory))
        }
    }
}
