//! The versions of a dump, named again in their order.
ghost use Rattle.std.specs.Prelude.{IfOk};
ghost use Rattle.dump_graph.specs.inner.Naming.{FindsName, NamesLine, NamesLines};

use crate::refused::DumpRefused;
use dump_values::VersionLine;
use op_any::AnyOp;
use par_base::{Fault, Memory, Name, read_name};
use std::alloc::Global;
use version_graph::Graph;

/// The name that the text is as it stands, in lower case.
#[tactic(auto, using(crate::proofs::NamingLemmas::none_is_name, crate::proofs::NamingLemmas::other_is_no_name, crate::proofs::NamingLemmas::is_found))]
fn name_of(alloc: Global, text: &str) -> Result<Option<Name>, Memory>
    ensures { IfOk result (λ name. FindsName text.now name) }
{
    match read_name(alloc, text.as_bytes())? {
        Some(name) => {
            if name.as_str() == text {
                Ok(Some(name))
            } else {
                Ok(None)
            }
        }
        None => Ok(None),
    }
}

/// Names the working set of a line.
fn name_line(
    alloc: Global,
    graph: &mut Graph<AnyOp>,
    line: &VersionLine,
) -> Result<(), Fault<DumpRefused>>
    ensures { NamesLine graph.old line.now result graph.new }
{
    let Some(name) = name_of(alloc, line.name.as_str())? else {
        return Err(Fault::Refused(DumpRefused));
    };
    match graph.place_version(name, line.set) {
        Ok(()) => Ok(()),
        Err(Fault::Refused(_)) => Err(Fault::Refused(DumpRefused)),
        Err(Fault::Memory(memory)) => Err(Fault::Memory(memory)),
    }
}

/// Names the working sets of lines, in their order. It takes time in the number of live operators
/// for each of them.
#[tactic(auto, using(crate::proofs::NamingLemmas::named_so_far, crate::proofs::NamingLemmas::left_behind, crate::proofs::NamingLemmas::none_left))]
pub fn name_lines(
    alloc: Global,
    graph: &mut Graph<AnyOp>,
    lines: &[VersionLine],
) -> Result<(), Fault<DumpRefused>>
    ensures { NamesLines graph.old lines.now result graph.new }
{
    for line in lines {
        name_line(alloc, graph, line)?;
    }
    Ok(())
}
