//! A script that comes in pieces, and the engine that answers its statements.
ghost use Rattle.std.specs.Prelude.{◌≡◌, ◌≤◌, ◌++◌, ◌&&◌, ℕ, List, [], not, true, false, IfOk, OnOk, OnErr};
ghost use Rattle.statements.specs.Views.{StatementView};
ghost use Rattle.script_stream.specs.Holding.{place_in};
ghost use Rattle.engine_feeds.specs.Standing.{Standing};
ghost use Rattle.engine_feeds.specs.Kept.{kept_in};
ghost use Rattle.engine_feeds.specs.Calls.{standing_of};
ghost use Rattle.script_run.specs.Kept.{Keeps};
ghost use Rattle.script_run.specs.Streams.{AwaitsBytes, Gives, IsStream, Stands, is_open_behind as is_open_behind_lem};
ghost use Rattle.script_run.specs.Calls.{FindsNext};

use crate::answer::answer;
use change_feed::Watcher;
use engine_feeds::Watched;
use expr_lang::Steps;
use par_base::{Memory, Text};
use script_stream::{Input, LIMIT, Next as Found};
use std::alloc::Global;
use std::sync::ledger::Ledger;

/// A script that is fed in pieces, with the engine that carries out and answers each statement as soon as the pieces fix it.
#[derive(Drop)]
pub struct Stream<W: Watcher> {
    /// The engine, and the session in which the next statement is given.
    pub watched: Watched<W>,
    /// The bytes that were fed and not yet used, with their tokens, their place, and how many stand before them.
    pub input: Input,
    /// Whether more bytes were fed than a script may have.
    pub passed: bool,
    /// Whether no bytes follow.
    pub ended: bool,
    /// Whether more may come of the stream.
    pub going: bool,
}

/// Why a script goes no further.
#[derive(Clone, Copy)]
pub enum Stop {
    /// The first fault, in this line and column, both counted from 1.
    Syntax { line: usize, column: usize },
    /// A statement that is too long, or more bytes than a script may have.
    TooLong,
}

/// What comes of the bytes that were fed.
#[derive(Drop)]
pub enum Next {
    /// The lines that answer the next statement, and whether it was refused.
    Reply { text: Text, refused: bool },
    /// All statements that are known to end were answered, and more bytes may follow.
    More,
    /// All statements of a script were answered.
    End,
    /// All statements before this were answered.
    Stop(Stop),
}

// Whether a stream is open behind what came of it.
fn is_open_behind(next: &Result<Next, Memory>) -> bool
    ensures { result ≡ is_open_behind_lem next.now }
{
    match next {
        Ok(Next::Reply { .. } | Next::More) => true,
        Ok(Next::End | Next::Stop(_)) | Err(_) => false,
    }
}

impl<W: Watcher> Stream<W> {
    /// A stream to which nothing was fed, over an engine. It takes no memory.
    pub fn new(alloc: Global, watched: Watched<W>) -> Stream<W>
        ensures stands { Stands (standing_of result.watched) [] [] result }
        ensures awaits { AwaitsBytes result }
        ensures watched { result.watched ≡ watched }
    {
        Stream {
            watched,
            input: Input::new(alloc),
            passed: false,
            ended: false,
            going: true,
        }
    }

    /// Whether more may come of it. It is closed behind the end, a stop and want of memory.
    pub fn is_open(&self) -> bool
        ensures { result ≡ self.now.going }
    {
        self.going
    }

    /// The engine, behind all statements that were answered. It does no work.
    pub fn watched(&self) -> &Watched<W>
        ensures { result.now ≡ self.now.watched }
    {
        &self.watched
    }

    /// Feeds a piece, where all statements that the bytes before fix were answered and `next` wanted more. It takes the time of
    /// cutting the piece into tokens, with the statement before it that isn't known to end.
    pub fn feed(&mut self, alloc: Global, piece: &[u8]) -> Result<(), Memory>
        requires stream { IsStream self.old }
        requires awaits { AwaitsBytes self.old }
        ensures stands { OnOk result ((from : Standing) (fed : List ℕ)
            (answered : List StatementView) → Stands from fed answered self.old
            → Stands from (fed ++ piece.now) answered self.new) }
        ensures err { OnErr result (self.new ≡ self.old) }
        ensures same { self.new ≡ record self.old {
          input = self.new.input;
          passed = self.new.passed;
        } }
        ensures on { place_in self.old.input ≤ place_in self.new.input }
    {
        let count = LIMIT.saturating_sub(self.input.fed()).min(piece.len());
        self.input.feed(alloc, &piece[..count])?;
        self.passed = count < piece.len();
        Ok(())
    }

    /// Says that no bytes follow. It takes no memory.
    pub fn end(&mut self)
        requires { self.old.going ≡ true }
        ensures stands { (from : Standing) (fed : List ℕ) (answered : List StatementView)
            → Stands from fed answered self.old → Stands from fed answered self.new }
        ensures same { self.new ≡ record self.old { ended = true } }
    {
        self.ended = true;
    }

    // Whether no bytes follow those that were fed, and the end counts.
    fn is_over(&self) -> bool
        ensures { result ≡ self.now.ended && not self.now.passed }
    {
        self.ended && !self.passed
    }

    // What the input gives where no bytes follow: it is told so once all statements were given that are known to end without that.
    fn find_last(&mut self, alloc: Global) -> Result<Found, Memory>
        requires stream { IsStream self.old }
        requires ended { self.old.ended ≡ true }
        requires within { self.old.passed ≡ false }
        ensures finds { IfOk result (λ found. (from : Standing) (fed : List ℕ)
            (answered : List StatementView) → Stands from fed answered self.old
            → FindsNext fed answered self.old self.new found) }
        ensures same { self.new ≡ record self.old { input = self.new.input } }
    {
        match self.input.next(alloc)? {
            Found::More => {
                self.input.end(alloc)?;
                self.input.next(alloc)
            }
            found => Ok(found),
        }
    }

    // What the input gives.
    fn find(&mut self, alloc: Global) -> Result<Found, Memory>
        requires { IsStream self.old }
        ensures finds { IfOk result (λ found. (from : Standing) (fed : List ℕ)
            (answered : List StatementView) → Stands from fed answered self.old
            → FindsNext fed answered self.old self.new found) }
        ensures same { self.new ≡ record self.old { input = self.new.input } }
    {
        if self.is_over() {
            self.find_last(alloc)
        } else {
            self.input.next(alloc)
        }
    }

    // What comes of the bytes that were fed.
    fn give<L: Ledger>(&mut self, alloc: Global, steps: &mut Steps<L>) -> Result<Next, Memory>
        requires stream { IsStream self.old }
        requires going { self.old.going ≡ true }
        ensures gives { IfOk result (λ next. (from : Standing) (fed : List ℕ)
            (answered : List StatementView) → Stands from fed answered self.old
            → Gives from fed answered self.old self.new next) }
        ensures keeps { Keeps (kept_in self.old.watched) (kept_in self.new.watched) }
        ensures same { self.new ≡ record self.old {
          watched = self.new.watched;
          input = self.new.input;
        } }
    {
        match self.find(alloc)? {
            Found::Statement(statement) => answer(alloc, &mut self.watched, statement, steps),
            Found::More if self.passed => Ok(Next::Stop(Stop::TooLong)),
            Found::More => Ok(Next::More),
            Found::End => Ok(Next::End),
            Found::Fault { line, column } => Ok(Next::Stop(Stop::Syntax { line, column })),
            Found::Long => Ok(Next::Stop(Stop::TooLong)),
        }
    }

    /// What comes of the bytes that were fed: the reply to the next statement that they fix, which is carried out, or what stands
    /// behind all of these. It takes the time of the engine's event.
    pub fn next<L: Ledger>(&mut self, alloc: Global, steps: &mut Steps<L>) -> Result<Next, Memory>
        requires stream { IsStream self.old }
        requires going { self.old.going ≡ true }
        ensures gives { IfOk result (λ next. (from : Standing) (fed : List ℕ)
            (answered : List StatementView) → Stands from fed answered self.old
            → Gives from fed answered self.old self.new next) }
        ensures open { self.new.going ≡ is_open_behind_lem result }
        ensures keeps { Keeps (kept_in self.old.watched) (kept_in self.new.watched) }
        ensures same { self.new ≡ record self.old {
          watched = self.new.watched;
          input = self.new.input;
          going = self.new.going;
        } }
    {
        let next = self.give(alloc, steps);
        self.going = is_open_behind(&next);
        next
    }
}
