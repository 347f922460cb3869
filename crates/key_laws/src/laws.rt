//! Laws of the operators on a foreign key and on a condition. The functions do nothing: their
//! contracts are the laws.
ghost use Rattle.key_laws.specs.Decomposed.{AloneRefersToItself, AloneStaysAlone, EqualPartsShare, KnownValueDrawsNothing, KnownValueIsFound, NullPartRefersToNone, RowGoesWithItsLastReference, SamePartKeepsKey, UnchangedKeepsReference};
ghost use Rattle.key_laws.specs.JoinedByKey.{DeletedRowGoes, EqualPartsReferAlike, LeastRowIsFound, OldValuesDrawNothing, OtherRowsStay, SamePartKeepsReference};
ghost use Rattle.key_laws.specs.PairsGiven.{EqualPartsShareARow, RowGoesWithItsLastPair, RowInAPairIsAsItWas, RowInNoPairStays, UnchangedRowKeepsPair};
ghost use Rattle.key_laws.specs.PairsShown.{DeletedPairStaysAway, MatchIsShown, PutPairStays, UnchangedRowsKeepTheirPair, UnmatchedPairGoes};
ghost use Rattle.key_laws.specs.SidesShown.{AloneRowIsShown, JoinedRowIsShown, PairIsShown, ReferringRowIsShown};

/// What the joined table has of two others, while they belong together.
pub fn sides_show_each_other()
    ensures referring { ReferringRowIsShown }
    ensures alone { AloneRowIsShown }
    ensures joined { JoinedRowIsShown }
    ensures paired { PairIsShown }
{}

/// DECOMPOSE on a foreign key: what rows keep when the table that is decomposed is written.
pub fn decompose_keeps_references()
    ensures kept { UnchangedKeepsReference }
    ensures same_part { SamePartKeepsKey }
    ensures itself { AloneRefersToItself }
    ensures alone { AloneStaysAlone }
{}

/// DECOMPOSE on a foreign key: which rows are shared, found, drawn and lost then.
pub fn decompose_shares_rows()
    ensures shared { EqualPartsShare }
    ensures null { NullPartRefersToNone }
    ensures found { KnownValueIsFound }
    ensures draws_nothing { KnownValueDrawsNothing }
    ensures goes { RowGoesWithItsLastReference }
{}

/// JOIN on a foreign key: what a write of the joined table makes of both sources.
pub fn join_finds_rows()
    ensures kept { SamePartKeepsReference }
    ensures shared { EqualPartsReferAlike }
    ensures found { LeastRowIsFound }
    ensures draws_nothing { OldValuesDrawNothing }
    ensures stay { OtherRowsStay }
    ensures goes { DeletedRowGoes }
{}

/// JOIN on a condition: which pairs are shown after a write of both sources.
pub fn sources_keep_pairs()
    ensures kept { UnchangedRowsKeepTheirPair }
    ensures deleted { DeletedPairStaysAway }
    ensures shown { MatchIsShown }
    ensures goes { UnmatchedPairGoes }
    ensures put { PutPairStays }
{}

/// JOIN on a condition: which pairs of rows the rows of the joined table get after a write of it.
pub fn joined_rows_keep_pairs()
    ensures kept { UnchangedRowKeepsPair }
    ensures stay { RowInNoPairStays }
    ensures taken { RowInAPairIsAsItWas }
    ensures goes { RowGoesWithItsLastPair }
    ensures shared { EqualPartsShareARow }
{}
