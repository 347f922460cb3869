//! The generated script in place of the source's.
ghost use Rattle.std.specs.Prelude.{◌≡◌, ◌≤◌, ℕ, List, option_map, IfOk, OnOk};
ghost use Rattle.dump_formats.specs.Texts.{AreSpelled};
ghost use Rattle.watch_laws.specs.SessionLawsSessions.{HasCounts};
ghost use Rattle.generated_run.specs.TransactionsKept.{kept_in};
ghost use Rattle.generated_run.specs.TransactionsCalls.{standing_of};
ghost use Rattle.script_generator.specs.Summary.{summary_lines};
ghost use Rattle.generated_run.specs.Kept.{Keeps};
ghost use Rattle.generated_run.specs.Summed.{generated_end, generated_summary};
ghost use Rattle.inverda_run.specs.Calls.{EndStays, EndsGenerated, WritesTo};

use crate::end::End;
use crate::finish::finish;
use generated_run::{Transactions, run_generated};
use outside::{Failed, Files, Sink, write_all};
use par_base::{Memory, Text};
use script_generator::summary_text;
use std::alloc::Global;
use watch_laws::scripts_keep_counts;

// Carries out the script of `n` numbers, and gives the lines of its summary.
fn summarize(alloc: Global, transactions: &mut Transactions, n: u32) -> Result<Text, Memory>
    ensures text { IfOk result (λ text. text
        ≡ summary_lines (generated_summary (standing_of transactions.old) n)) }
    ensures end { OnOk result (standing_of transactions.new
        ≡ generated_end (standing_of transactions.old) n) }
    ensures keeps { Keeps (kept_in transactions.old) (kept_in transactions.new) }
{
    let summary = run_generated(alloc, transactions, n)?;
    summary_text(alloc, &summary)
}

/// Carries out the generated script of `n` numbers from where the engine stands, puts its summary, and
/// dumps the database at the end, where the words name a file for it.
pub fn generate<K: Sink, F: Files>(
    alloc: Global,
    transactions: &mut Transactions,
    n: u32,
    dump: Option<&str>,
    out: &mut K,
    files: &mut F,
) -> End
    requires spelled { AreSpelled (kept_in transactions.old).graph.edges }
    requires counted { HasCounts (standing_of transactions.old).sessions }
    ensures ends { EndsGenerated (standing_of transactions.old) n
        (option_map (λ s. s.now) dump.entry)
        (F.told files.new) (K.held out.old) (K.held out.new) (K.faults out.old)
        (K.faults out.new) (F.faults files.old) (F.faults files.new) result }
    ensures stays { EndStays (K.faults out.old) (K.faults out.new) result }
    ensures others { (file : List ℕ) → WritesTo (option_map (λ s. s.now) dump.entry)
        (F.told files.old) (F.told files.new) (F.faults files.old) (F.faults files.new) result
        file }
    ensures missing { F.missing files.new ≡ F.missing files.old }
    ensures later_write { K.faults out.old ≤ K.faults out.new }
    ensures later_file { F.faults files.old ≤ F.faults files.new }
{
    // That the counts at the end are such as are dumped rests on it.
    scripts_keep_counts();
    let Ok(text) = summarize(alloc, transactions, n) else {
        return End::Memory;
    };
    match write_all(out, text.as_str().as_bytes()) {
        Ok(()) => finish(alloc, transactions.sessions(), dump, out, files),
        Err(Failed) => End::Unwritten,
    }
}
