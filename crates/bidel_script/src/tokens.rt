//! All tokens of some bytes, and what is behind the last one.
ghost use Rattle.std.specs.Prelude.{◌≡◌, IfOk};
ghost use Rattle.bidel_script.specs.Tails.{AreAll, Fits, is_over};

use crate::blanks::pass_blanks;
use bidel_lex::{Lexed, Token, next_token};
use par_base::Memory;
use std::alloc::Global;

/// What is behind the last token of some bytes.
#[derive(Clone, Copy)]
pub struct Tail {
    /// The end, the byte that continues no token, or that more bytes are wanted.
    pub last: Lexed,
    /// Where that begins, white space and comments aside.
    pub begun: usize,
}

/// The tokens of some bytes, and what is behind them.
#[derive(Drop)]
pub struct Tokens {
    pub tokens: Vec<Token>,
    pub tail: Tail,
}

/// Whether no more tokens come.
pub fn is_over(tail: Tail) -> bool
    ensures { result ≡ is_over tail.last }
{
    match tail.last {
        Lexed::More => false,
        _ => true,
    }
}

/// All tokens of the bytes; `ended` says that no bytes come after these. Takes time in their number.
pub fn all_tokens(alloc: Global, bytes: &[u8], ended: bool) -> Result<Tokens, Memory>
    ensures all { IfOk result (λ all. AreAll bytes.now ended all.tokens.items all.tail) }
    ensures fits { IfOk result (λ all. Fits bytes.now all.tail) }
{
    let mut tokens = Vec::new(alloc);
    let mut from = 0;
    loop {
        match next_token(bytes, from, ended) {
            Lexed::Token(token) => {
                tokens.push(token)?;
                from = token.end;
            }
            last => {
                let begun = match last {
                    Lexed::End => bytes.len(),
                    _ => pass_blanks(bytes, from, false).upto,
                };
                return Ok(Tokens {
                    tokens,
                    tail: Tail { last, begun },
                });
            }
        }
    }
}
