//! Laws of changes. The functions do nothing: their contracts are the laws.
ghost use Rattle.row_changes.specs.Laws.{ChangedIsChanged, PartsDiffer, SidePartsDiffer};

/// The table after changes is the one that they make.
pub fn changed_is_changed()
    ensures { ChangedIsChanged }
{}

/// Where all that differs is among some identifiers, the difference is that of what stands there.
pub fn parts_differ()
    ensures table { PartsDiffer }
    ensures side { SidePartsDiffer }
{}
