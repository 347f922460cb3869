//! The call of the parser for operators.
ghost use Rattle.std.specs.Prelude.{◌≡◌, ◌≤◌, ◌-◌, drop, length};
ghost use Rattle.bidel_lex.specs.Tokens.{AreTokens};
ghost use Rattle.bidel_parser.specs.Parsing.{ParsesOperator, start_of};

use crate::operators::take_operator;
use crate::parse::start;
use crate::parsed::Syntax;
use bidel_expr::{Cursor, ReadError};
use bidel_lex::Token;
use par_base::Fault;
use statements::OpText;
use std::alloc::Global;
use std::mem;

// The fault at the first of the last tokens, so many, and at the end of the bytes where there is none.
fn fault(bytes: &[u8], tokens: &[Token], left: usize) -> Syntax
    requires { left ≤ length tokens.now }
    ensures { result.at ≡ start_of (length bytes.now) (drop (length tokens.now - left) tokens.now) }
{
    Syntax {
        at: start(bytes, &tokens[tokens.len() - left..]),
    }
}

/// The operator that all of the tokens of some bytes together spell.
pub fn parse_operator(
    alloc: Global,
    bytes: &[u8],
    tokens: &[Token],
) -> Result<OpText, Fault<Syntax>>
    requires { AreTokens bytes.now tokens.now }
    ensures { ParsesOperator bytes.now tokens.now result }
{
    match take_operator(alloc, Cursor { bytes, tokens }) {
        Ok((operator, rest)) => {
            if rest.tokens.is_empty() {
                Ok(operator)
            } else {
                mem::drop(operator);
                Err(Fault::Refused(fault(bytes, tokens, rest.tokens.len())))
            }
        }
        Err(ReadError::Memory(memory)) => Err(Fault::Memory(memory)),
        Err(ReadError::Left(left)) => Err(Fault::Refused(fault(bytes, tokens, left))),
    }
}
