//! Laws of statements, scripts and operators, each the contract of a function that does nothing.

ghost use Rattle.bidel_parser.specs.Laws.{EmptyScript, FaultFollows, FaultStays, FrontLeads, FrontPrecedes, FrontStays, NoScript, OneFront, OneOperator};
ghost use Rattle.bidel_parser.specs.Texts.{TextsAreSaid, TextsAreWithin};

/// Two statements at the front whose end is fixed are one.
pub fn front_is_one()
    ensures { OneFront }
{}

/// Tokens that together spell an operator spell no other.
pub fn operator_is_one()
    ensures { OneOperator }
{}

/// A statement whose end is fixed, whatever comes, is the front of what comes of the tokens.
pub fn front_stays()
    ensures { FrontStays }
{}

/// A script with a front is that statement, and a script of what follows.
pub fn front_leads_script()
    ensures { FrontLeads }
{}

/// A front and a script of what follows are a script.
pub fn front_precedes_script()
    ensures { FrontPrecedes }
{}

/// Tokens without a front are a script only where there are none.
pub fn no_front_is_no_script()
    ensures { NoScript }
{}

/// No tokens are the script of no statements, and of no others.
pub fn no_tokens_are_no_statements()
    ensures { EmptyScript }
{}

/// A fault at a token stays as tokens come.
pub fn fault_stays()
    ensures { FaultStays }
{}

/// The first fault behind a front is the first fault of all.
pub fn fault_follows_front()
    ensures { FaultFollows }
{}

/// Each text of a statement is the value of one of its tokens and no longer than it; so where each
/// of these has at most so many bytes, so has each text.
pub fn texts_are_no_longer()
    ensures said { TextsAreSaid }
    ensures within { TextsAreWithin }
{}
