//! Laws of the definitions.
ghost use Rattle.version_graph.specs.Laws.{DoomsUnneeded, DropLeavesNeeded, TreeHangsTogether, WalkAscends, WalkCoversTree, WalkInOrder, WalkLeavesSet};

/// No step of a walk changes a table of a step before it, nor its own near side, and no edge is
/// walked twice; a walk leaves the tables of the written working set alone, and its forward part
/// ascends.
pub fn walks_are_in_order<O>()
    ensures order { WalkInOrder O }
    ensures ascends { WalkAscends O }
    ensures set { WalkLeavesSet O }
{}

/// A drop takes exactly the operators with no other version at or below them.
pub fn drops_take_unneeded<O>()
    ensures doomed { DoomsUnneeded O }
    ensures left { DropLeavesNeeded O }
{}

/// A walk goes over each edge of the tree from which it goes, and over no edge of another tree; and
/// a tree is what hangs together by ways up.
pub fn walks_cover_trees<O>()
    ensures covers { WalkCoversTree O }
    ensures together { TreeHangsTogether O }
{}
