//! The call of the parser for statements.
ghost use Rattle.std.specs.Prelude.{◌≡◌, length};
ghost use Rattle.bidel_lex.specs.Tokens.{AreTokens};
ghost use Rattle.bidel_parser.specs.Parsing.{Parses, start_of};

use crate::parsed::{Parsed, Syntax};
use crate::statement_readers::take_statement;
use bidel_expr::{Cursor, ReadError};
use bidel_lex::Token;
use par_base::Fault;
use std::alloc::Global;

/// Where the first of these tokens starts, and the end of the bytes where there is none.
pub fn start(bytes: &[u8], tokens: &[Token]) -> usize
    ensures { result ≡ start_of (length bytes.now) tokens.now }
{
    match tokens {
        [token, ..] => token.start,
        [] => bytes.len(),
    }
}

/// The statement at the front of the tokens of some bytes; `ended` says that no tokens come after them.
pub fn parse_statement(
    alloc: Global,
    bytes: &[u8],
    tokens: &[Token],
    ended: bool,
) -> Result<Parsed, Fault<Syntax>>
    requires { AreTokens bytes.now tokens.now }
    ensures { Parses bytes.now tokens.now ended result }
{
    if ended && tokens.is_empty() {
        return Ok(Parsed::Nothing);
    }
    match take_statement(alloc, Cursor { bytes, tokens }, ended) {
        Ok((statement, rest)) => Ok(Parsed::Whole {
            statement,
            used: tokens.len() - rest.tokens.len(),
        }),
        Err(ReadError::Memory(memory)) => Err(Fault::Memory(memory)),
        Err(ReadError::Left(left)) => {
            if left == 0 && !ended {
                Ok(Parsed::More)
            } else {
                Err(Fault::Refused(Syntax {
                    at: start(bytes, &tokens[tokens.len() - left..]),
                }))
            }
        }
    }
}
