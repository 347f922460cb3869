//! Changes of a far side and of a memory.
use pair_changes::PairChange;
use par_base::List;
use row_changes::SideChanges;

/// The changes of the far side and of the memory, each by ascending identifier.
#[derive(Drop)]
pub struct FarChanges {
    pub side: SideChanges,
    pub memory: List<PairChange>,
}
