//! The engine as an executor of writes, which takes those back that aren't settled.
ghost use Rattle.std.specs.Prelude.{◌≡◌, IfOk, IfErr, Err, Ok};
ghost use Rattle.version_model.specs.Kept.{numbers_in};
ghost use Rattle.engine_transactions.specs.Executing.{has_changes as has_changes_lem, HasSettled, HaveNumbers};
ghost use Rattle.engine_transactions.specs.Meaning.{write_reply as write_reply_lem};

use engine_sessions::{Sessions, Undo, Written, writes_stay_undoable};
use engine_state::{Reply, WriteReply};
use expr_lang::Steps;
use op_any::AnyOp;
use par_base::{Fault, List, Memory, Refusal};
use session_tx::Executor;
use std::alloc::{AllocError, Global};
use std::mem;
use std::sync::ledger::Ledger;
use tx_history::{ChangeNumbers, KeptWrite, TableRead, keep_numbers, last_change, set_numbers};

/// An engine with its sessions, the numbers of changes, and what takes back the writes that aren't
/// settled, the newest last.
#[derive(Drop)]
pub struct Executing {
    pub sessions: Sessions,
    pub numbers: ChangeNumbers,
    pub unsettled: Vec<Undo>,
}

// The reply to a write; no other statement is one.
fn write_reply(reply: Reply) -> Result<WriteReply, Refusal>
    ensures ok { IfOk result (λ made. write_reply_lem reply ≡ Ok made) }
    ensures err { IfErr result (λ refusal. write_reply_lem reply ≡ Err refusal) }
{
    match reply {
        Reply::Inserted { ids } => Ok(WriteReply::Inserted { ids }),
        Reply::Updated { count } => Ok(WriteReply::Updated { count }),
        Reply::Deleted { count } => Ok(WriteReply::Deleted { count }),
        _ => Err(Refusal::NotBuilt),
    }
}

// Whether one of the runs gave a table other rows.
fn has_changes(undos: &[Undo]) -> bool
    ensures { result ≡ has_changes_lem undos.now }
{
    undos.iter().any(|undo| !undo.changed.is_empty())
}

// The numbers once these runs are settled. It takes no memory.
fn settle_numbers(alloc: Global, numbers: &mut ChangeNumbers, undos: &[Undo])
    ensures { HaveNumbers (numbers_in numbers.old.changed) undos.now
        → HasSettled numbers.old undos.now numbers.new }
{
    if !has_changes(undos) {
        return;
    }
    let last = numbers.last.saturating_add(1);
    let mut changed = mem::replace(&mut numbers.changed, List::new(alloc)).into_vec();
    for undo in undos {
        set_numbers(&mut changed, undo.changed.as_slice(), last);
    }
    numbers.changed = List::from_vec(changed);
    numbers.last = last;
}

impl Executor for Executing {
    ghost use Rattle.statements.specs.declared.statement.Statement.{Statement};
    ghost use Rattle.engine_sessions.specs.Standing.{Standing as SessionsStanding};
    ghost use Rattle.engine_transactions.specs.Executing.{Shows};
    ghost use Rattle.engine_transactions.specs.Meaning.{means_kept};

    type Write = KeptWrite;

    type Mark = TableRead;

    type Done = WriteReply;

    ghost State = { SessionsStanding };

    ghost means = { means_kept };

    ghost stands = { λ it s. Shows it s };

    fn history(&self) -> u64 {
        self.numbers.last
    }

    fn last_change(&self, mark: &TableRead) -> u64 {
        last_change(&self.numbers, mark)
    }

    fn run<L: Ledger>(
        &mut self,
        alloc: Global,
        write: &KeptWrite,
        steps: &mut Steps<L>,
    ) -> Result<WriteReply, Fault<Refusal>> {
        // That runs can still be taken back after an error rests on it.
        writes_stay_undoable::<AnyOp>();
        let Written { reply, undo } = self
            .sessions
            .write_undoable(alloc, write.statement(), steps)?;
        if let Err(memory) = keep_numbers(&mut self.numbers.changed, undo.changed.as_slice()) {
            self.sessions.take_back(alloc, undo);
            return Err(Fault::Memory(memory));
        }
        let done = match write_reply(reply) {
            Ok(done) => done,
            Err(refusal) => {
                self.sessions.take_back(alloc, undo);
                return Err(Fault::Refused(refusal));
            }
        };
        match self.unsettled.push(undo) {
            Ok(()) => Ok(done),
            Err(failed) => {
                self.sessions.take_back(alloc, failed.value);
                Err(Fault::Memory(Memory::from(AllocError)))
            }
        }
    }

    fn take_back(&mut self) {
        // That the runs before can still be taken back rests on it.
        writes_stay_undoable::<AnyOp>();
        let alloc = *self.unsettled.allocator();
        if let Some(undo) = self.unsettled.pop() {
            self.sessions.take_back(alloc, undo);
        }
    }

    fn settle(&mut self) {
        let alloc = *self.unsettled.allocator();
        let undos = mem::replace(&mut self.unsettled, Vec::new(alloc));
        settle_numbers(alloc, &mut self.numbers, undos.as_slice());
    }
}
