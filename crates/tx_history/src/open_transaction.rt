//! The open transactions.
ghost use Rattle.std.specs.Prelude.{◌≡◌, ◌==◌, not, filter, length, None, OnOk, OnErr};
ghost use Rattle.std.specs.List.{find, position};
ghost use Rattle.std.specs.Option.{option_copied, option_map};
ghost use Rattle.statements.specs.Views.{statement_view};
ghost use Rattle.tx_history.specs.Opens.{noted_in, opens_view, with_changed, without_last};
ghost use Rattle.tx_history.specs.Views.{no_transaction, open_of, with_open, with_write, without_open};

use crate::{KeptWrite, TableRead};
use par_base::Memory;
use session_tx::Transaction;
use std::alloc::Global;
use std::mem;

/// The open transaction of a session.
#[derive(Drop)]
pub struct OpenTransaction {
    pub session: u8,
    pub transaction: Transaction<KeptWrite, TableRead>,
}

/// That of a session. It takes one comparison for each session that has one.
pub fn find_open(opens: &[OpenTransaction], session: u8) -> Option<&OpenTransaction>
    ensures { option_copied result ≡ find (λ own. own.session == session) opens.now }
{
    opens.iter().find(|open| open.session == session)
}

/// Whether the open transaction of a session keeps a write, where the session has one.
pub fn keeps_write(opens: &[OpenTransaction], session: u8) -> Option<bool>
    ensures { result ≡ option_map (λ own. not (length own.transaction.writes == 0))
        (open_of (opens_view opens.now) session) }
{
    match find_open(opens, session) {
        Some(open) => Some(open.transaction.has_write()),
        None => None,
    }
}

/// Opens the transaction of a session that has none.
pub fn start(alloc: Global, opens: &mut Vec<OpenTransaction>, session: u8) -> Result<(), Memory>
    requires { open_of (opens_view opens.old.items) session ≡ None }
    ensures ok { OnOk result (opens_view opens.new.items
        ≡ with_open (opens_view opens.old.items) session no_transaction) }
    ensures err { OnErr result (opens.new.items ≡ opens.old.items) }
{
    opens.push(OpenTransaction {
        session,
        transaction: Transaction::new(alloc),
    })?;
    Ok(())
}

fn place_of_open(opens: &[OpenTransaction], session: u8) -> Option<usize>
    ensures { result ≡ position (λ own. own.session == session) opens.now }
{
    opens.iter().position(|open| open.session == session)
}

/// Notes what was read, at this history number, in the open transaction of a session.
pub fn note(
    opens: &mut Vec<OpenTransaction>,
    session: u8,
    read: Option<TableRead>,
    at: u64,
) -> Result<(), Memory>
    ensures ok { OnOk result (opens_view opens.new.items
        ≡ with_changed (opens_view opens.old.items) session (λ t. noted_in t read at)) }
    ensures err { OnErr result (opens.new.items ≡ opens.old.items) }
{
    let Some(read) = read else {
        return Ok(());
    };
    let Some(place) = place_of_open(opens.as_slice(), session) else {
        mem::drop(read);
        return Ok(());
    };
    opens[place].transaction.note_read(read, at)
}

/// Keeps a write in the open transaction of a session.
pub fn keep(opens: &mut Vec<OpenTransaction>, session: u8, write: KeptWrite) -> Result<(), Memory>
    ensures ok { OnOk result (opens_view opens.new.items
        ≡ with_changed (opens_view opens.old.items) session
        (λ t. with_write t (statement_view write))) }
    ensures err { OnErr result (opens.new.items ≡ opens.old.items) }
{
    let Some(place) = place_of_open(opens.as_slice(), session) else {
        mem::drop(write);
        return Ok(());
    };
    opens[place].transaction.keep(write)
}

/// Lets the write go that was kept last in the open transaction of a session. It takes no memory.
pub fn forget(opens: &mut Vec<OpenTransaction>, session: u8)
    ensures { opens_view opens.new.items
        ≡ with_changed (opens_view opens.old.items) session without_last }
{
    if let Some(place) = place_of_open(opens.as_slice(), session) {
        opens[place].transaction.forget();
    }
}

fn is_others(one: &OpenTransaction, session: u8) -> bool
    ensures { result ≡ not (one.now.session == session) }
{
    one.session != session
}

// Keeps those of other sessions.
fn keep_others(opens: &mut Vec<OpenTransaction>, session: u8)
    ensures { opens.new.items ≡ filter (λ own. not (own.session == session)) opens.old.items }
{
    opens.retain(|one| is_others(one, session));
}

/// Lets the transaction of a session go. It takes no memory.
pub fn end(opens: &mut Vec<OpenTransaction>, session: u8)
    ensures { opens_view opens.new.items ≡ without_open (opens_view opens.old.items) session }
{
    keep_others(opens, session);
}
