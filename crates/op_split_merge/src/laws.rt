//! Laws of SPLIT and MERGE. The functions do nothing: their contracts are the laws.
ghost use Rattle.std.specs.Prelude.{ℕ, Some, None};
ghost use Rattle.expr_lang.specs.Terms.{Term};
ghost use Rattle.op_split_merge.specs.Shown.{split_ways, merge_ways, OneTargetShows};
ghost use Rattle.op_split_merge.specs.Shown.{AgainstStays, DeletedGoes, FirstComesIn, LostFirstStays, LostSecondStays, NewInBoth, NewInFirst, NewInNeither, NewInSecond, SecondComesIn, SeparatedStay};
ghost use Rattle.op_split_merge.specs.Shown.{NewRowsMerged, OneTwinWritten, TwinsMerged};

/// What a write of the source's row shows in the two targets.
pub fn shown_rows()
    ensures new_in_both { (width : ℕ) (first second : Term ℕ) → NewInBoth
        (split_ways width first (Some second)) first second }
    ensures new_in_first { (width : ℕ) (first second : Term ℕ) → NewInFirst
        (split_ways width first (Some second)) first second }
    ensures new_in_second { (width : ℕ) (first second : Term ℕ) → NewInSecond
        (split_ways width first (Some second)) first second }
    ensures new_in_neither { (width : ℕ) (first second : Term ℕ) → NewInNeither
        (split_ways width first (Some second)) first second }
    ensures lost_first { (width : ℕ) (first second : Term ℕ) → LostFirstStays
        (split_ways width first (Some second)) first second }
    ensures lost_second { (width : ℕ) (first second : Term ℕ) → LostSecondStays
        (split_ways width first (Some second)) first second }
    ensures separated { (width : ℕ) (first second : Term ℕ) → SeparatedStay
        (split_ways width first (Some second)) first second }
    ensures first_comes { (width : ℕ) (first second : Term ℕ) → FirstComesIn
        (split_ways width first (Some second)) first second }
    ensures second_comes { (width : ℕ) (first second : Term ℕ) → SecondComesIn
        (split_ways width first (Some second)) first second }
    ensures deleted { (width : ℕ) (first second : Term ℕ) → DeletedGoes
        (split_ways width first (Some second)) first second }
    ensures against { (width : ℕ) (first second : Term ℕ) → AgainstStays
        (split_ways width first (Some second)) first second }
{}

/// What a write of the source's row shows in a target without another beside it.
pub fn shown_rows_of_one_target()
    ensures { (width : ℕ) (condition : Term ℕ) → OneTargetShows (split_ways width condition None)
        condition }
{}

/// What a write of the sources' rows shows in the target of MERGE, and one of its row in them.
pub fn merged_rows()
    ensures new { (width : ℕ) (first second : Term ℕ) → NewRowsMerged
        (merge_ways width first (Some second)) }
    ensures twins { (width : ℕ) (first second : Term ℕ) → TwinsMerged
        (merge_ways width first (Some second)) }
    ensures back { (width : ℕ) (first second : Term ℕ) → OneTwinWritten
        (merge_ways width first (Some second)) first }
{}
