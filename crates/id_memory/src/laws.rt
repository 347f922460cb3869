//! Laws of memories. The functions do nothing: their contracts are the laws.
ghost use Rattle.id_memory.specs.Laws.{OneMemoryHasThem, OtherWay};

/// A memory is what it has at each identifier.
pub fn pairs_are_the_memory()
    ensures { OneMemoryHasThem }
{}

/// A pair has an identifier exactly where the identifier has the pair.
pub fn id_of_is_the_other_way()
    ensures { OtherWay }
{}
