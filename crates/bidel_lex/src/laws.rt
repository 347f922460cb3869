//! Laws of the lexer, each the contract of a function that does nothing.

ghost use Rattle.bidel_lex.specs.Laws.{Again, EndExactly, EndsBehind, FaultsAreFirst, Listed, MoreExactly, Spelled, Stable, TokenExactly, Within};

/// Tokens and faults lie within the bytes, from the place on.
pub fn answers_lie_within()
    ensures { Within }
{}

/// What is found in bytes that may go on, `More` aside, is found however they go on.
pub fn answers_are_stable()
    ensures { Stable }
{}

/// What is found only as more bytes come ends behind those before: a token ends at their end or later, and a fault
/// isn't one of them.
pub fn answers_end_behind()
    ensures { EndsBehind }
{}

/// `More` comes exactly where bytes may follow and could change the answer.
pub fn more_comes_exactly()
    ensures { MoreExactly }
{}

/// A token is found again from its own start.
pub fn tokens_come_again()
    ensures { Again }
{}

/// A token is found exactly where there is one: bytes that spell it, after white space and comments, and before
/// what doesn't make it longer.
pub fn tokens_come_exactly()
    ensures { TokenExactly }
{}

/// `End` comes exactly at the end of the input, where nothing but white space and comments is left.
pub fn end_comes_exactly()
    ensures { EndExactly }
{}

/// A fault stands at the first byte that shows it: the bytes before it could go on to another answer.
pub fn faults_come_first()
    ensures { FaultsAreFirst }
{}

/// A token is written as its kind says.
pub fn tokens_are_spelled()
    ensures { Spelled }
{}

/// Tokens found one after the other are tokens of the bytes.
pub fn found_tokens_are_tokens()
    ensures { Listed }
{}
