//! The command of which `clap` reads the words.
ghost use Rattle.std.specs.Prelude.{◌≡◌, map, string_bytes, IfOk};
ghost use Rattle.clap.specs.Simple.{app_of};
ghost use Rattle.run_words.specs.inner.Reading.{Matches, program};

use crate::BadWords;
use clap::error::ErrorKind;
use clap::{Arg, ArgAction, ArgMatches, Command};
use par_base::{Fault, Memory};
use std::alloc::{AllocError, Global};

// The program with its options. The words before them, as the program's own name, aren't given.
fn options<'a>(alloc: Global) -> Result<Command<'a>, AllocError>
    ensures { IfOk result (λ command. app_of command ≡ program) }
{
    let load = Arg::new(alloc, "load").long("load").action(ArgAction::Set);
    let dump = Arg::new(alloc, "dump").long("dump").action(ArgAction::Set);
    let max_ids = Arg::new(alloc, "max-ids")
        .long("max-ids")
        .action(ArgAction::Set);
    let generate = Arg::new(alloc, "generate")
        .long("generate")
        .action(ArgAction::Set);
    let command = Command::new(alloc, "inverda")
        .no_binary_name(true)
        .disable_help_flag(true);
    command.arg(load)?.arg(dump)?.arg(max_ids)?.arg(generate)
}

/// What `clap` finds in the words.
pub fn match_words<'a>(
    alloc: Global,
    words: &'a [String],
) -> Result<ArgMatches<'a>, Fault<BadWords>>
    ensures { Matches (map string_bytes words.now) result }
{
    match options(alloc)?.try_get_matches_from(words) {
        Ok(matches) => Ok(matches),
        Err(error) if error.kind() == ErrorKind::OutOfMemory => {
            Err(Fault::Memory(Memory::meant_by(error)))
        }
        Err(_) => Err(Fault::Refused(BadWords)),
    }
}
