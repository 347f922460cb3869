//! The call that a program makes.
ghost use Rattle.std.specs.Prelude.{◌≡◌, ◌≢◌, ◌⊎◌, ◌≤◌, ℕ, codes, map, string_bytes};
ghost use Rattle.std.specs.Io.KnownBytes.{Appends};
ghost use Rattle.bidel_script.specs.Script.{Fault as Misspelled, Long, Open};
ghost use Rattle.outside.specs.Causes.{Rose, RoseOnce};
ghost use Rattle.change_feed.specs.Watches.{AllFresh};
ghost use Rattle.generated_run.specs.EngineCoreTexts.{line};
ghost use Rattle.watch_laws.specs.Moves.{MovesUnseen};
ghost use Rattle.generated_run.specs.Statuses.{AnswersScript, FirstReplies, Passed, Stopped, StoppedOfAll, Unread};
ghost use Rattle.inverda_run.specs.Statuses.{Generates, LongDump, LongLoad, Misses, OfStart, Ran, RefusedDump, RunsSource, SayNothing, StaysBut, UnreadLoad, Untouched, UnwrittenDump};
ghost use Rattle.inverda_run.specs.Decided.{Early, Told', ToldGenerated, ToldLonger, ToldNoDump, ToldWhole};
ghost use Rattle.inverda_run.specs.Calls.{EndStays, Ends, ended as ended_lem};
ghost use Rattle.inverda_run.specs.declared.end.End.TheVariants as end;

use crate::begin::{NotBegun, begin};
use crate::end::End;
use crate::finish::finish;
use crate::generate::generate;
use crate::last::put_last;
use crate::laws::two_runs_are_one;
use crate::run_laws::{runs_are_ordinary, runs_are_serial, said_runs_are_one};
use crate::waiting::with_watchers;
use change_feed::Watcher;
use generated_run::{End as ScriptEnd, Stream, run_source};
use outside::{Files, Sink, Source};
use par_base::{Fault, Limits};
use run_words::{read_words, words_say_one_thing};
use std::alloc::Global;
use watch_laws::{scripts_keep_counts, watches_are_beside};

// How a run ends that has carried out its script, but for a dump.
fn ended(end: ScriptEnd) -> End
    ensures { result ≡ ended_lem end }
{
    match end {
        ScriptEnd::Done => End::Done,
        ScriptEnd::Memory => End::Memory,
        ScriptEnd::Syntax => End::Syntax,
        ScriptEnd::Unread => End::Unread,
        ScriptEnd::Unwritten => End::Unwritten,
        ScriptEnd::TooLong => End::LongScript,
    }
}

// Reads the words, begins from the database that they load, runs the script and dumps at the end.
fn run<W: Watcher, S: Source, K: Sink, F: Files>(
    alloc: Global,
    words: &[String],
    script: &mut S,
    out: &mut K,
    files: &mut F,
    watchers: Vec<W>,
) -> End
    requires { AllFresh (map W.seen watchers.items) }
    ensures ends { Ends (map string_bytes words.now) (F.told files.old) (F.told files.new)
        (map W.seen watchers.items)
        (S.left script.old) (S.left script.new) (S.faults script.old) (S.faults script.new)
        (K.held out.old) (K.held out.new) (K.faults out.old) (K.faults out.new)
        (F.faults files.old) (F.faults files.new) result }
    ensures stays { EndStays (K.faults out.old) (K.faults out.new) result }
    ensures files { StaysBut (map string_bytes words.now) (F.told files.old) (F.told files.new)
        ((result ≡ end.Done) ⊎ Rose (F.faults files.old) (F.faults files.new)) }
    ensures misses { Misses (map string_bytes words.now) (F.told files.old) (F.missing files.old)
        (F.missing files.new) }
    ensures untouched { (n : ℕ) → Generates (map string_bytes words.now) n
        → Untouched (S.left script.old) (S.left script.new) (S.faults script.old)
        (S.faults script.new) }
    ensures later_read { S.faults script.old ≤ S.faults script.new }
    ensures later_write { K.faults out.old ≤ K.faults out.new }
    ensures later_file { F.faults files.old ≤ F.faults files.new }
{
    // That a run has one start, and a state one dump, rests on these.
    words_say_one_thing();
    two_runs_are_one();
    // That the counts at the end are such as are dumped rests on these.
    scripts_keep_counts();
    watches_are_beside();
    // These are laws of every run: they take no time.
    runs_are_ordinary();
    runs_are_serial();
    said_runs_are_one();
    let asked = match read_words(alloc, words) {
        Ok(asked) => asked,
        Err(Fault::Refused(_)) => return put_last(End::BadWords, b"bad words\n", out),
        Err(Fault::Memory(_)) => return End::Memory,
    };
    let limits = Limits {
        max_id: asked.max_id,
    };
    let mut transactions = match begin(alloc, asked.load, limits, files) {
        Ok(transactions) => transactions,
        Err(NotBegun::Memory) => return End::Memory,
        Err(NotBegun::Refused) => return put_last(End::Refused, b"dump refused\n", out),
        Err(NotBegun::TooLong) => return put_last(End::LongLoad, b"too long\n", out),
        Err(NotBegun::Fault) => return put_last(End::UnreadLoad, b"file fault\n", out),
    };
    if let Some(n) = asked.generate {
        return generate(alloc, &mut transactions, n, asked.dump, out, files);
    }
    let Ok(begun) = with_watchers(alloc, transactions, watchers) else {
        return End::Memory;
    };
    let mut stream = Stream::new(alloc, begun);
    match run_source(alloc, &mut stream, script, out) {
        ScriptEnd::Done => finish(alloc, stream.watched().sessions(), asked.dump, out, files),
        end => ended(end),
    }
}

/// Runs the script that the source gives, and puts the lines that answer its statements. The words are
/// those after the program's name: `--load FILE` begins from the database whose dump the file holds,
/// `--dump FILE` dumps it to a file at the end, with what was counted and is pending, `--max-ids N`
/// sets the greatest identifier that is drawn, and `--generate N` runs the generated script of N
/// numbers in place of the source's, which isn't touched, and puts its summary. The watchers are those that
/// WATCH takes, the first one first; of them, and of what is watched, nothing is dumped. The answer is a
/// status:
///
/// - 0: all statements were carried out and answered, or the generated ones carried out and summed up,
///   and the dump was written where there is one
/// - 1: memory ran out
/// - 2: the words say nothing; the last line is `bad words`
/// - 3: the bytes are no script; the last line is `syntax` with line and column of the first fault
/// - 4: the loaded bytes are no dump of either format; the last line is `dump refused`
/// - 5: the source failed; the last line is `read fault`
/// - 6: the sink failed
/// - 7: a statement has more than 65,536 bytes from its first one to its last semicolon, or the script,
///   the loaded file or the dump has more than 268,435,456; the last line is `too long`
/// - 8: the loaded file couldn't be read, or the dump not be written; the last line is `file fault`
///
/// Before the last line of 3, 5, of 7 on the script or the dump, and of 8 on the dump stand the replies
/// to the statements that were known to end. After 2 and 4, and where the loaded file is too long or
/// couldn't be read, nothing was taken from the source. After 1 and 6 a front was put of what would be
/// put otherwise.
/// Takes memory in the number of bytes and tokens, and in that of a dump's values.
pub fn inverda_watched<S: Source, K: Sink, F: Files>(
    alloc: Global,
    words: &[String],
    script: &mut S,
    out: &mut K,
    files: &mut F,
    watchers: Vec<Box<dyn Watcher>>,
) -> u8
    requires { AllFresh (map (λ b. (Watcher-box b).seen b.value) watchers.items) }
    ensures statuses { (result ≡ 0) ⊎ (result ≡ 1) ⊎ (result ≡ 2) ⊎ (result ≡ 3) ⊎ (result ≡ 4)
        ⊎ (result ≡ 5) ⊎ (result ≡ 6) ⊎ (result ≡ 7) ⊎ (result ≡ 8) }

    // A script is answered as its statements say, from the empty database or from where the loaded dump
    // stands, and the dump is that of where they lead.
    ensures done { result ≡ 0 → Ran (map string_bytes words.now) (F.told files.old)
        (F.told files.new) (map (λ b. (Watcher-box b).seen b.value) watchers.items)
        (S.left script.old) (S.left script.new) (K.held out.old)
        (K.held out.new) }
    ensures answers { result ≡ 0 → RunsSource (map string_bytes words.now) → OfStart
        (map string_bytes words.now) (F.told files.old)
        (map (λ b. (Watcher-box b).seen b.value) watchers.items)
        (λ from. AnswersScript from (S.left script.old) (K.held out.old) (K.held out.new)) }
    ensures unseen { result ≡ 0 → RunsSource (map string_bytes words.now) → OfStart
        (map string_bytes words.now) (F.told files.old)
        (map (λ b. (Watcher-box b).seen b.value) watchers.items)
        (λ from. MovesUnseen from (S.left script.old) (S.left script.new) (K.held out.old)
        (K.held out.new)) }
    ensures calm { result ≡ 0 → (S.faults script.new ≡ S.faults script.old)
        × (K.faults out.new ≡ K.faults out.old) × (F.faults files.new ≡ F.faults files.old) }

    // Where nothing fails, the words, what is told of files, and the bytes decide the status.
    ensures complete { ToldWhole (map string_bytes words.now) (F.told files.old)
        (map (λ b. (Watcher-box b).seen b.value) watchers.items)
        (S.left script.old) → ¬ Rose (S.faults script.old) (S.faults script.new)
        → ¬ Rose (K.faults out.old) (K.faults out.new)
        → ¬ Rose (F.faults files.old) (F.faults files.new) → (result ≡ 0) ⊎ (result ≡ 1) }
    ensures generates { ToldGenerated (map string_bytes words.now)
        → ¬ Rose (K.faults out.old) (K.faults out.new)
        → ¬ Rose (F.faults files.old) (F.faults files.new) → (result ≡ 0) ⊎ (result ≡ 1) }
    ensures stops { (at : ℕ) → Told' (map string_bytes words.now) (F.told files.old)
        (map (λ b. (Watcher-box b).seen b.value) watchers.items)
        (S.left script.old) (Misspelled at) → ¬ Rose (S.faults script.old) (S.faults script.new)
        → ¬ Rose (K.faults out.old) (K.faults out.new)
        → ¬ Rose (F.faults files.old) (F.faults files.new) → (result ≡ 3) ⊎ (result ≡ 1) }
    ensures passes { Told' (map string_bytes words.now) (F.told files.old)
        (map (λ b. (Watcher-box b).seen b.value) watchers.items) (S.left script.old) Long
        ⊎ Told' (map string_bytes words.now) (F.told files.old)
        (map (λ b. (Watcher-box b).seen b.value) watchers.items) (S.left script.old) Open
        → ¬ Rose (S.faults script.old) (S.faults script.new)
        → ¬ Rose (K.faults out.old) (K.faults out.new)
        → ¬ Rose (F.faults files.old) (F.faults files.new) → (result ≡ 7) ⊎ (result ≡ 1) }
    ensures refuses { ToldNoDump (map string_bytes words.now) (F.told files.old)
        → ¬ Rose (K.faults out.old) (K.faults out.new)
        → ¬ Rose (F.faults files.old) (F.faults files.new) → (result ≡ 4) ⊎ (result ≡ 1) }
    ensures longer { ToldLonger (map string_bytes words.now) (F.told files.old)
        → ¬ Rose (K.faults out.old) (K.faults out.new)
        → ¬ Rose (F.faults files.old) (F.faults files.new) → (result ≡ 7) ⊎ (result ≡ 1) }

    // Every other end has its cause.
    ensures words { result ≡ 2 → SayNothing (map string_bytes words.now)
        × Appends (K.held out.old) (K.held out.new) (line (codes "bad words")) }
    ensures words_only { SayNothing (map string_bytes words.now)
        → (result ≡ 2) ⊎ (result ≡ 1) ⊎ (result ≡ 6) }
    ensures untouched { (result ≡ 2) ⊎ (result ≡ 4) → (S.left script.new ≡ S.left script.old)
        × (S.faults script.new ≡ S.faults script.old) }
    ensures unread { (n : ℕ) → Generates (map string_bytes words.now) n
        → (S.left script.new ≡ S.left script.old)
        × (S.faults script.new ≡ S.faults script.old) }
    ensures syntax { result ≡ 3 → OfStart (map string_bytes words.now) (F.told files.old)
        (map (λ b. (Watcher-box b).seen b.value) watchers.items)
        (λ from. Stopped from (S.left script.old) (S.left script.new) (S.faults script.old)
        (S.faults script.new) (K.held out.old) (K.held out.new)) }
    ensures refused { result ≡ 4 → RefusedDump (map string_bytes words.now) (F.told files.old)
        (K.held out.old) (K.held out.new) }
    ensures read { result ≡ 5 → OfStart (map string_bytes words.now) (F.told files.old)
        (map (λ b. (Watcher-box b).seen b.value) watchers.items)
        (λ from. Unread from (S.left script.old) (S.left script.new) (S.faults script.old)
        (S.faults script.new) (K.held out.old) (K.held out.new)) }
    ensures write { result ≡ 6 → Rose (K.faults out.old) (K.faults out.new) }
    ensures sink { K.faults out.new ≢ K.faults out.old → result ≡ 6 }
    ensures long { result ≡ 7 → OfStart (map string_bytes words.now) (F.told files.old)
        (map (λ b. (Watcher-box b).seen b.value) watchers.items)
        (λ from. Passed from (S.left script.old) (S.left script.new) (S.faults script.old)
        (S.faults script.new) (K.held out.old) (K.held out.new))
        ⊎ LongLoad (map string_bytes words.now) (F.told files.old) (S.left script.old)
        (S.left script.new) (S.faults script.old) (S.faults script.new) (K.held out.old)
        (K.held out.new)
        ⊎ LongDump (map string_bytes words.now) (F.told files.old)
        (map (λ b. (Watcher-box b).seen b.value) watchers.items) (S.left script.old)
        (S.left script.new) (S.faults script.old) (S.faults script.new) (K.held out.old)
        (K.held out.new) }
    ensures fault { result ≡ 8 → Rose (F.faults files.old) (F.faults files.new)
        × (UnreadLoad (map string_bytes words.now) (S.left script.old) (S.left script.new)
        (S.faults script.old) (S.faults script.new) (K.held out.old) (K.held out.new)
        ⊎ UnwrittenDump (map string_bytes words.now) (F.told files.old)
        (map (λ b. (Watcher-box b).seen b.value) watchers.items) (S.left script.old)
        (S.left script.new) (S.faults script.old) (S.faults script.new) (K.held out.old)
        (K.held out.new)) }

    // The replies after 3, 5 and 7 are those of all bytes that the source told, up to their first fault
    // or to where they were cut off.
    ensures cut_syntax { result ≡ 3 → OfStart (map string_bytes words.now) (F.told files.old)
        (map (λ b. (Watcher-box b).seen b.value) watchers.items)
        (λ from. StoppedOfAll from (S.left script.old) (K.held out.old) (K.held out.new)) }
    ensures cut_read { result ≡ 5 → OfStart (map string_bytes words.now) (F.told files.old)
        (map (λ b. (Watcher-box b).seen b.value) watchers.items)
        (λ from. FirstReplies from (S.left script.old) (K.held out.old) (K.held out.new)
        (codes "read fault")) }
    ensures cut_long { result ≡ 7 → OfStart (map string_bytes words.now) (F.told files.old)
        (map (λ b. (Watcher-box b).seen b.value) watchers.items)
        (λ from. FirstReplies from (S.left script.old) (K.held out.old) (K.held out.new)
        (codes "too long"))
        ⊎ LongLoad (map string_bytes words.now) (F.told files.old) (S.left script.old)
        (S.left script.new) (S.faults script.old) (S.faults script.new) (K.held out.old)
        (K.held out.new)
        ⊎ LongDump (map string_bytes words.now) (F.told files.old)
        (map (λ b. (Watcher-box b).seen b.value) watchers.items) (S.left script.old)
        (S.left script.new) (S.faults script.old) (S.faults script.new) (K.held out.old)
        (K.held out.new) }

    // Where memory ran out or the sink failed, a front was put of what would be otherwise, by what
    // failed before.
    ensures begun { (result ≡ 1) ⊎ (result ≡ 6)
        → Early (map string_bytes words.now) (F.told files.old)
        (map (λ b. (Watcher-box b).seen b.value) watchers.items) (S.left script.old)
        (S.left script.new) (S.faults script.old) (S.faults script.new) (K.held out.old)
        (K.held out.new) (F.faults files.old) (F.faults files.new) }

    // The first call that fails is the last one on its object, and the status tells of it, but for a
    // fault in the bytes that were taken before.
    ensures once_read { RoseOnce (S.faults script.old) (S.faults script.new) }
    ensures once_write { RoseOnce (K.faults out.old) (K.faults out.new) }
    ensures once_file { RoseOnce (F.faults files.old) (F.faults files.new) }
    ensures source { S.faults script.new ≢ S.faults script.old
        → (result ≡ 1) ⊎ (result ≡ 3) ⊎ (result ≡ 5) ⊎ (result ≡ 6) ⊎ (result ≡ 7) }
    ensures file { F.faults files.new ≢ F.faults files.old → (result ≡ 6) ⊎ (result ≡ 8) }

    // No count falls, and a file stays as it was, but for the one that the words name to be written.
    ensures files { StaysBut (map string_bytes words.now) (F.told files.old) (F.told files.new)
        ((result ≡ 0) ⊎ Rose (F.faults files.old) (F.faults files.new)) }
    ensures misses { Misses (map string_bytes words.now) (F.told files.old) (F.missing files.old)
        (F.missing files.new) }
    ensures later_read { S.faults script.old ≤ S.faults script.new }
    ensures later_write { K.faults out.old ≤ K.faults out.new }
    ensures later_file { F.faults files.old ≤ F.faults files.new }
{
    // That words say one thing, and so a run has one start, rests on it.
    words_say_one_thing();
    match run(alloc, words, script, out, files, watchers) {
        End::Done => 0,
        End::Memory => 1,
        End::BadWords => 2,
        End::Syntax => 3,
        End::Refused => 4,
        End::Unread => 5,
        End::Unwritten => 6,
        End::LongScript => 7,
        End::LongLoad => 7,
        End::LongDump => 7,
        End::UnreadLoad => 8,
        End::UnwrittenDump => 8,
    }
}
