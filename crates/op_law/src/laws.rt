//! Laws of all operators. The functions do nothing: their contracts are the laws.
ghost use Rattle.std.specs.Prelude.{ℕ, ◌≤◌};
ghost use Rattle.id_memory.specs.Pairs.{Pairs};
ghost use Rattle.op_law.specs.Tables.{Tables};
ghost use Rattle.op_law.specs.Sound.{TablesSound, PairsSound};
ghost use Rattle.op_law.specs.Identifiers.{NoneStandsTwice, AllWithRows};
ghost use Rattle.op_law.specs.SoundTerms.{SoundTermsGiveSoundValues, SoundTermsStaySound};
ghost use Rattle.op_law.specs.Meaning.{flip};
ghost use Rattle.op_law.specs.ChainLaws.{ChainLaws};

use crate::Operator;

/// What may stand while an identifier is the next one may stand while a greater one is.
pub fn sound_stays_sound()
    ensures tables { (n k : ℕ) (tables : Tables) → n ≤ k → TablesSound n tables
        → TablesSound k tables }
    ensures memory { (n k : ℕ) (pairs : Pairs) → n ≤ k → PairsSound n pairs → PairsSound k pairs }
{}

/// The list of identifiers by which steps are bounded has each identifier that has a row, once.
pub fn each_identifier_is_listed_once()
    ensures once { NoneStandsTwice }
    ensures all { AllWithRows }
{}

/// Expressions whose literals may stand have values that may stand, and stay so themselves.
pub fn sound_terms_have_sound_values()
    ensures values { SoundTermsGiveSoundValues }
    ensures terms { SoundTermsStaySound }
{}

/// The laws of one operator after another, forward and backward.
pub fn chains_keep_the_laws<A: Operator, B: Operator>()
    ensures forward { (first : A) (second : B) → ChainLaws (A.meaning first) (B.meaning second) }
    ensures backward { (first : A) (second : B) → ChainLaws (flip (B.meaning second))
        (flip (A.meaning first)) }
{}
