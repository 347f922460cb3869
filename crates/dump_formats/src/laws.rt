//! The law of dumps. The function does nothing: its contract is the law.
ghost use Rattle.dump_formats.specs.Laws.{DumpsAreOfOneRun};

use dump_file::dumps_are_of_one_database;

/// What stands for one dump is one database of the model with one layout, one goal and the same
/// counts, where the same greatest identifier may be drawn.
pub fn dumps_are_of_one_run()
    ensures { DumpsAreOfOneRun }
{
    dumps_are_of_one_database();
}
