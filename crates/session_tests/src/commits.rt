//! Commits over two numbers.
ghost use Rattle.std.specs.Prelude.{◌≡◌};
ghost use Rattle.session_tx.specs.Calls.{IsIdle};

use crate::{Numbers, Side};
use expr_lang::Steps;
use par_base::{Fault, List, Memory, Refusal};
use session_tx::{CommitFault, Executor, Transaction, commit_all};
use std::alloc::Global;
use std::marker::Brand;
use std::process::Abort;
use std::sync::ledger::{Blank, Ledger};
use std::test::Fail;

// The writes of a transaction, and its reads with the history numbers at which they were made.
#[derive(Clone, Copy)]
struct Given {
    reads: &'static [(Side, u64)],
    writes: &'static [(Side, u64)],
}

// What a commit is to give: results, or where it is refused.
#[derive(Clone, Copy)]
enum Wanted {
    Results(&'static [u64]),
    Spent,
    StaleAt(usize, u64, u64),
    TooGreat(u64),
}

fn transaction_of(alloc: Global, given: Given) -> Result<Transaction<(Side, u64), Side>, Memory> {
    let mut made = Transaction::new(alloc);
    for read in given.reads {
        made.note_read(read.0, read.1)?;
    }
    for write in given.writes {
        made.keep(*write)?;
    }
    Ok(made)
}

// The answer of a commit, where memory did not run out.
fn answered(
    answer: Result<List<u64>, Fault<CommitFault>>,
) -> Result<Result<List<u64>, CommitFault>, &'static str> {
    match answer {
        Ok(dones) => Ok(Ok(dones)),
        Err(Fault::Refused(fault)) => Ok(Err(fault)),
        Err(Fault::Memory(_)) => Err("memory ran out"),
    }
}

fn is_wanted(answer: &Result<List<u64>, CommitFault>, wanted: Wanted) -> bool {
    match (answer, wanted) {
        (Ok(dones), Wanted::Results(results)) => dones.as_slice() == results,
        (Err(CommitFault::HistorySpent), Wanted::Spent) => true,
        (
            Err(
                CommitFault::Stale {
                    index,
                    read,
                    changed,
                },
            ),
            Wanted::StaleAt(place, at, since),
        ) => *index == place && *read == at && *changed == since,
        (Err(CommitFault::Write(Refusal::WrongCount { given, .. })), Wanted::TooGreat(number)) => {
            *given == number
        }
        _ => false,
    }
}

// Commits over the two numbers, behind which nothing is unsettled again.
fn commit_one<L: Ledger>(
    alloc: Global,
    transaction: &Transaction<(Side, u64), Side>,
    numbers: &mut Numbers,
    steps: &mut Steps<L>,
) -> Result<List<u64>, Fault<CommitFault>>
    requires idle { IsIdle (⟦<Numbers as Executor>⟧.stands numbers.old) }
    ensures idle { IsIdle (⟦<Numbers as Executor>⟧.stands numbers.new) }
{
    commit_all(alloc, transaction, numbers, steps)
}

fn commit_each<L: Ledger>(
    rt: &impl Abort,
    alloc: Global,
    history: u64,
    cases: &[(Given, Wanted, (u64, u64), u64)],
    blank: Blank,
) -> Result<(), Fail>
    requires name { blank.name ≡ L.name }
    requires parts { blank.parts ≡ L.parts }
    requires one { blank.parts ≡ 1 }
{
    let mut numbers = Numbers::new(alloc, 1, 2, history);
    let mut steps = Steps::<L>::new(blank);
    for (given, wanted, both, after) in cases {
        let transaction = transaction_of(alloc, *given).map_err(|_| "memory ran out")?;
        let answer = answered(commit_one(alloc, &transaction, &mut numbers, &mut steps))?;
        assert!(rt; is_wanted(&answer, *wanted));
        assert_eq!(rt; numbers.both(), *both);
        assert_eq!(rt; numbers.history(), *after);
    }
    Ok(())
}

fn expect_each(
    rt: &impl Abort,
    alloc: Global,
    history: u64,
    cases: &[(Given, Wanted, (u64, u64), u64)],
) -> Result<(), Fail> {
    commit_each::<Brand>(rt, alloc, history, cases, Blank::new(1))
}

const BOTH: &[(Side, u64)] = &[(Side::Left, 5), (Side::Right, 6), (Side::Left, 7)];

#[test]
fn a_spent_history_refuses_reads_alone(rt: HostRuntime) -> Result<(), Fail> {
    expect_each(
        &rt,
        rt.alloc(),
        u64::MAX,
        &[
            (
                Given {
                    reads: &[(Side::Left, u64::MAX)],
                    writes: &[],
                },
                Wanted::Spent,
                (1, 2),
                u64::MAX,
            ),
            (
                Given {
                    reads: &[],
                    writes: &[(Side::Left, 5)],
                },
                Wanted::Results(&[1]),
                (5, 2),
                u64::MAX,
            ),
        ],
    )
}

#[test]
fn commits_run_one_after_the_other(rt: HostRuntime) -> Result<(), Fail> {
    expect_each(
        &rt,
        rt.alloc(),
        3,
        &[
            (
                Given {
                    reads: &[(Side::Right, 3)],
                    writes: BOTH,
                },
                Wanted::Results(&[1, 2, 5]),
                (7, 6),
                4,
            ),
            (
                Given {
                    reads: &[(Side::Left, 4), (Side::Right, 3)],
                    writes: &[(Side::Left, 1)],
                },
                Wanted::StaleAt(1, 3, 4),
                (7, 6),
                4,
            ),
            (
                Given {
                    reads: &[(Side::Right, 4)],
                    writes: &[(Side::Left, 1), (Side::Right, 3), (Side::Left, 10)],
                },
                Wanted::TooGreat(10),
                (7, 6),
                4,
            ),
            (
                Given {
                    reads: &[(Side::Left, 4)],
                    writes: &[(Side::Left, 8)],
                },
                Wanted::Results(&[7]),
                (8, 6),
                5,
            ),
            (
                Given {
                    reads: &[(Side::Right, 4)],
                    writes: &[],
                },
                Wanted::Results(&[]),
                (8, 6),
                5,
            ),
        ],
    )
}
