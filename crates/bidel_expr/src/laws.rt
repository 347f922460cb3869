//! Laws of what tokens say, each the contract of a function that does nothing.

ghost use Rattle.bidel_expr.specs.Laws.{DigitsHaveValue, ExpressionsAreRead, LexemesStay, LiteralsAreRead, NamesAreRead, NumbersHaveValue, ReferencesHaveValue, RestIsTokens, TextsHaveValue, TuplesAreRead};

/// What tokens say stays as bytes come.
pub fn lexemes_stay()
    ensures { LexemesStay }
{}

/// The tokens from a place on are tokens, and say what they said.
pub fn rest_is_tokens()
    ensures { RestIsTokens }
{}

/// The value of decimal digits is what they write.
pub fn digits_have_value()
    ensures { DigitsHaveValue }
{}

/// A text token is the literal text of its value.
pub fn texts_have_value()
    ensures { TextsHaveValue }
{}

/// A number token has the value of its digits.
pub fn numbers_have_value()
    ensures { NumbersHaveValue }
{}

/// A reference token has the value of its digits.
pub fn references_have_value()
    ensures { ReferencesHaveValue }
{}

/// What names in parentheses are.
pub fn names_are_read()
    ensures { NamesAreRead }
{}

/// What a literal is.
pub fn literals_are_read()
    ensures { LiteralsAreRead }
{}

/// What literals in parentheses are.
pub fn tuples_are_read()
    ensures { TuplesAreRead }
{}

/// What an expression is.
pub fn expressions_are_read()
    ensures { ExpressionsAreRead }
{}
