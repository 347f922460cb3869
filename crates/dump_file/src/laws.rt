//! The laws of dumps. The functions do nothing: their contracts are the laws.
ghost use Rattle.dump_file.specs.Laws.{DumpStands, DumpsAreOfOneDatabase, DumpsAreOfOneGraph, DumpsTellTheState, OthersForget};

use dump_graph::told_graphs_are_one;
use dump_values::dumps_are_read_back;

/// In a valid database an operator that isn't on a condition has no memory, if it is built from its
/// text.
pub fn others_remember_nothing()
    ensures { OthersForget }
{}

/// A valid database whose operators are built from their texts stands for its own dump.
pub fn databases_stand_for_their_dumps()
    ensures { DumpStands }
{
    dumps_are_read_back();
}

/// What the dump of a database tells is its state under its layout, and so each state has one dump
/// under a layout.
pub fn dumps_tell_the_state()
    ensures { DumpsTellTheState }
{}

/// Two databases that stand for one dump have one graph and one layout, and are one database of the
/// model where the same greatest identifier may be drawn.
pub fn dumps_are_of_one_database()
    ensures graph { DumpsAreOfOneGraph }
    ensures whole { DumpsAreOfOneDatabase }
{
    told_graphs_are_one();
}
