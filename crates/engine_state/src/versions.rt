//! The version that a statement names.
ghost use Rattle.version_graph.specs.Edges.{set_named};
ghost use Rattle.par_base.specs.Checked.{Gives};
ghost use Rattle.engine_state.specs.SharedChecks.{known_version};

use op_any::AnyOp;
use par_base::{Fault, Name, Refusal};
use std::alloc::Global;
use version_graph::Graph;

/// The working set of a version, or the refusal. It takes one comparison for each version.
pub fn known_set(alloc: Global, graph: &Graph<AnyOp>, name: &Name) -> Result<u32, Fault<Refusal>>
    ensures { Gives (λ set. set) result
        (known_version name.now (set_named graph.now.versions name.now)) }
{
    match graph.set_of(name) {
        Some(set) => Ok(set),
        None => Err(Fault::Refused(Refusal::UnknownVersion {
            version: name.copy(alloc)?,
        })),
    }
}
