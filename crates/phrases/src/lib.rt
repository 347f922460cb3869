//! Phrases and the readers that read them, for tokens and values of any type.
//!
//! A phrase says which tokens spell which value. `specs/Phrases.antt` has the words of a grammar, `specs/Reading.antt` the words of
//! reading tokens from the left, and `specs/Reads.antt` says what it means that a reader reads a phrase: what it takes is spelled
//! so, what is spelled so it takes, and where it stops no phrase goes on. The functions below say the laws by which readers are
//! put together as their phrases are; the lemmas in `proofs/` say the same of phrases that no test decides.
//!
//! Lemmas that crates above may use stand in proofs/: `ReadersLaws`, `LastsLaws`, `ChainsLaws`,
//! `FrontsLaws`, `StepsLaws`, `ListsLaws`, `LookaheadLaws`, `PrefixesLaws`, `SignsLaws`,
//! `GroupsLaws`, `BoundedLaws` and `CarriesLaws`.
#![tactic(auto)]

ghost use Rattle.phrases.specs.Laws.{ThenReads, OneReads, EitherReads, ManyReads, ThenLast, ReadsFronts};

/// Two readers in a row read two phrases in a row.
pub fn then_reads<T, A, B>()
    ensures { ThenReads T A B }
{}

/// One token of a kind is read by looking at it.
pub fn one_reads<T, A>()
    ensures { OneReads T A }
{}

/// One of two phrases is read by the next token.
pub fn either_reads<T, A>()
    ensures { EitherReads T A }
{}

/// Any number of phrases is read as long as a token comes that begins one.
pub fn many_reads<T, A>()
    ensures { ManyReads T A }
{}

/// A phrase that closes itself, and then one whose end hangs on what follows.
pub fn then_last<T, A, B>()
    ensures { ThenLast T A B }
{}

/// What a reader of statements answers is the one front of the tokens, or their first fault.
pub fn reads_fronts<T, A>()
    ensures { ReadsFronts T A }
{}
