//! An operator read from its canonical text: read leniently, printed again, and compared.
ghost use Rattle.std.specs.Prelude.{◌≡◌, ◌↔◌, ◌≤◌, length, option_map, true, IfOk, IsTrue};
ghost use Rattle.bidel_lex.specs.Next.{next_of};
ghost use Rattle.bidel_lex.specs.Tokens.{AreTokens, HasTokens};
ghost use Rattle.bidel_expr.specs.Lexemes.{lexemes};
ghost use Rattle.bidel_text.specs.OperatorText.{operator_text};
ghost use Rattle.statements.specs.Views.{op_view};
ghost use Rattle.bidel_lex.specs.declared.tokens.Lexed.TheVariants.{End};
ghost use Rattle.dump_graph.specs.inner.Texts.{FindsOperator, FindsTokens, KeepsText, ReadsText};

use bidel_lex::{Lexed, Token, next_token};
use bidel_parser::{operator_is_one, parse_operator};
use bidel_text::{operators_are_said, print_operator};
use par_base::{Fault, Memory};
use statements::OpText;
use std::alloc::Global;
use std::mem;

/// The tokens of some bytes, and where none is found behind them.
#[derive(Drop)]
struct Found {
    tokens: Vec<Token>,
    end: usize,
}

fn find_tokens(alloc: Global, bytes: &[u8]) -> Result<Found, Memory>
    ensures within { IfOk result (λ found. found.end ≤ length bytes.now) }
    ensures found { IfOk result (λ found. HasTokens true bytes.now 0 found.tokens.items
        (next_of bytes.now found.end true)) }
{
    let mut tokens = Vec::new(alloc);
    let mut from = 0;
    while let Lexed::Token(token) = next_token(bytes, from, true) {
        tokens.push(token)?;
        from = token.end;
    }
    Ok(Found { tokens, end: from })
}

/// The tokens of the bytes, where nothing else stands there.
#[tactic(auto, using(crate::proofs::TextLemmas::other_end))]
fn tokens_of(alloc: Global, bytes: &[u8]) -> Result<Option<Vec<Token>>, Memory>
    ensures { IfOk result
        (λ found. FindsTokens bytes.now (option_map (λ tokens. tokens.items) found)) }
{
    let Found { tokens, end } = find_tokens(alloc, bytes)?;
    match next_token(bytes, end, true) {
        Lexed::End => Ok(Some(tokens)),
        _ => Ok(None),
    }
}

/// The operator that all of the tokens spell.
fn operator_of(alloc: Global, bytes: &[u8], tokens: &[Token]) -> Result<Option<OpText>, Memory>
    requires { AreTokens bytes.now tokens.now }
    ensures { IfOk result
        (λ found. FindsOperator (lexemes bytes.now tokens.now) (option_map op_view found)) }
{
    match parse_operator(alloc, bytes, tokens) {
        Ok(operator) => Ok(Some(operator)),
        Err(Fault::Refused(_)) => Ok(None),
        Err(Fault::Memory(memory)) => Err(memory),
    }
}

/// Whether this is the canonical text of the operator.
fn is_text_of(alloc: Global, operator: &OpText, text: &str) -> Result<bool, Memory>
    ensures { IfOk result
        (λ same. IsTrue same ↔ (operator_text (op_view operator.now) ≡ text.now)) }
{
    let printed = print_operator(alloc, operator)?;
    Ok(printed.as_str() == text)
}

/// The operator, where this is its canonical text.
fn keep(alloc: Global, operator: OpText, text: &str) -> Result<Option<OpText>, Memory>
    ensures { IfOk result (λ found. KeepsText text.now (op_view operator)
        (option_map op_view found)) }
{
    match is_text_of(alloc, &operator, text) {
        Ok(true) => Ok(Some(operator)),
        Ok(false) => {
            mem::drop(operator);
            Ok(None)
        }
        Err(memory) => {
            mem::drop(operator);
            Err(memory)
        }
    }
}

/// The operator of which this text with these tokens is the canonical one.
#[tactic(auto, using(crate::proofs::TextLemmas::are_tokens, crate::proofs::TextLemmas::no_operator, crate::proofs::TextLemmas::kept_is))]
fn read_tokens(alloc: Global, text: &str, tokens: &[Token]) -> Result<Option<OpText>, Memory>
    requires { HasTokens true text.now 0 tokens.now End }
    ensures { IfOk result (λ found. ReadsText text.now (option_map op_view found)) }
{
    // That no other operator has this text rests on these.
    operators_are_said();
    operator_is_one();
    match operator_of(alloc, text.as_bytes(), tokens)? {
        Some(operator) => keep(alloc, operator, text),
        None => Ok(None),
    }
}

/// The operator of which this is the canonical text. It takes time in the length of the text.
#[tactic(auto, using(crate::proofs::TextLemmas::no_text))]
pub fn read_operator(alloc: Global, text: &str) -> Result<Option<OpText>, Memory>
    ensures { IfOk result (λ found. ReadsText text.now (option_map op_view found)) }
{
    // That a canonical text has tokens rests on it.
    operators_are_said();
    match tokens_of(alloc, text.as_bytes())? {
        Some(tokens) => read_tokens(alloc, text, tokens.as_slice()),
        None => Ok(None),
    }
}
