//! The words by which statements, operators and keys are told apart, and the readers of them.
ghost use Rattle.std.specs.Prelude.{◌≡◌};
ghost use Rattle.phrases.specs.Reading.{one_at, starts, is};
ghost use Rattle.bidel_parser.specs.Words.{choice_of, words_of};
ghost use Rattle.bidel_parser.specs.Operators.{operator_words, lone_words, shared_words, kinds, key_words};
ghost use Rattle.bidel_parser.specs.Statements.{statement_words};
ghost use Rattle.bidel_expr.specs.ReadAnswers.{ahead, IsNext, ReadsAs};

use crate::first_words::{KeyWord, Kind, OperatorWord, StatementWord};
use bidel_expr::{Cursor, ReadError, next_keyword};

// The first words of statements.
const STATEMENT_WORDS: [(&str, StatementWord); 18] = [
    ("create", StatementWord::Create),
    ("drop", StatementWord::Drop),
    ("insert", StatementWord::Insert),
    ("import", StatementWord::Import),
    ("update", StatementWord::Update),
    ("delete", StatementWord::Delete),
    ("select", StatementWord::Select),
    ("materialize", StatementWord::Materialize),
    ("step", StatementWord::Step),
    ("show", StatementWord::Show),
    ("use", StatementWord::Use),
    ("session", StatementWord::Session),
    ("advise", StatementWord::Advise),
    ("watch", StatementWord::Watch),
    ("unwatch", StatementWord::Unwatch),
    ("begin", StatementWord::Begin),
    ("commit", StatementWord::Commit),
    ("rollback", StatementWord::Rollback),
];

// The first words of operators.
const OPERATOR_WORDS: [(&str, OperatorWord); 9] = [
    ("create", OperatorWord::Create),
    ("drop", OperatorWord::Drop),
    ("rename", OperatorWord::Rename),
    ("add", OperatorWord::Add),
    ("decompose", OperatorWord::Decompose),
    ("outer", OperatorWord::Outer),
    ("join", OperatorWord::Join),
    ("split", OperatorWord::Split),
    ("merge", OperatorWord::Merge),
];

// Those that begin operators alone.
const LONE_WORDS: [(&str, OperatorWord); 7] = [
    ("rename", OperatorWord::Rename),
    ("add", OperatorWord::Add),
    ("decompose", OperatorWord::Decompose),
    ("outer", OperatorWord::Outer),
    ("join", OperatorWord::Join),
    ("split", OperatorWord::Split),
    ("merge", OperatorWord::Merge),
];

// Those that begin statements too.
const SHARED_WORDS: [(&str, OperatorWord); 2] = [
    ("create", OperatorWord::Create),
    ("drop", OperatorWord::Drop),
];

// What an operator drops or renames.
const KINDS: [(&str, Kind); 2] = [("table", Kind::Table), ("column", Kind::Column)];

// The first words of keys that are no conditions.
const KEY_WORDS: [(&str, KeyWord); 4] = [
    ("pk", KeyWord::Pk),
    ("primary", KeyWord::Primary),
    ("fk", KeyWord::Fk),
    ("foreign", KeyWord::Foreign),
];

// What the next word stands for among these, and what comes after it, where it is one of them.
fn next_choice<'a, K: Copy>(cursor: Cursor<'a>, choices: &[(&str, K)]) -> Option<(K, Cursor<'a>)>
    ensures { IsNext (choice_of (words_of choices.now)) cursor.entry result }
{
    match choices {
        [(word, meaning), others @ ..] => match next_keyword(cursor, word) {
            Some(rest) => Some((*meaning, rest)),
            None => next_choice(cursor, others),
        },
        _ => None,
    }
}

// Whether one of these words comes next.
fn is_choice_next<K: Copy>(cursor: Cursor<'_>, choices: &[(&str, K)]) -> bool
    ensures { result ≡ starts (is (choice_of (words_of choices.now))) (ahead cursor.entry) }
{
    next_choice(cursor, choices).is_some()
}

// One of these words.
fn take_choice<'a, K: Copy>(
    cursor: Cursor<'a>,
    choices: &[(&str, K)],
) -> Result<(K, Cursor<'a>), ReadError>
    ensures { ReadsAs (λ x. x) (one_at (choice_of (words_of choices.now))) cursor.entry result }
{
    match next_choice(cursor, choices) {
        Some(read) => Ok(read),
        None => Err(ReadError::Left(cursor.tokens.len())),
    }
}

/// The first word of a statement.
pub fn take_statement_word(cursor: Cursor<'_>) -> Result<(StatementWord, Cursor<'_>), ReadError>
    ensures { ReadsAs (λ x. x) (one_at (choice_of statement_words)) cursor.entry result }
{
    take_choice(cursor, STATEMENT_WORDS.as_slice())
}

/// The first word of an operator.
pub fn take_operator_word(cursor: Cursor<'_>) -> Result<(OperatorWord, Cursor<'_>), ReadError>
    ensures { ReadsAs (λ x. x) (one_at (choice_of operator_words)) cursor.entry result }
{
    take_choice(cursor, OPERATOR_WORDS.as_slice())
}

/// Whether a word comes next that begins operators alone.
pub fn is_lone_word_next(cursor: Cursor<'_>) -> bool
    ensures { result ≡ starts (is (choice_of lone_words)) (ahead cursor.entry) }
{
    is_choice_next(cursor, LONE_WORDS.as_slice())
}

/// A word that begins operators and statements, where one comes next.
pub fn next_shared_word(cursor: Cursor<'_>) -> Option<(OperatorWord, Cursor<'_>)>
    ensures { IsNext (choice_of shared_words) cursor.entry result }
{
    next_choice(cursor, SHARED_WORDS.as_slice())
}

/// Whether such a word comes next.
pub fn is_shared_word_next(cursor: Cursor<'_>) -> bool
    ensures { result ≡ starts (is (choice_of shared_words)) (ahead cursor.entry) }
{
    is_choice_next(cursor, SHARED_WORDS.as_slice())
}

/// TABLE or COLUMN.
pub fn take_kind(cursor: Cursor<'_>) -> Result<(Kind, Cursor<'_>), ReadError>
    ensures { ReadsAs (λ x. x) (one_at (choice_of kinds)) cursor.entry result }
{
    take_choice(cursor, KINDS.as_slice())
}

/// Whether TABLE or COLUMN comes next.
pub fn is_kind_next(cursor: Cursor<'_>) -> bool
    ensures { result ≡ starts (is (choice_of kinds)) (ahead cursor.entry) }
{
    is_choice_next(cursor, KINDS.as_slice())
}

/// The first word of a key that is no condition, where one comes next.
pub fn next_key_word(cursor: Cursor<'_>) -> Option<(KeyWord, Cursor<'_>)>
    ensures { IsNext (choice_of key_words) cursor.entry result }
{
    next_choice(cursor, KEY_WORDS.as_slice())
}
