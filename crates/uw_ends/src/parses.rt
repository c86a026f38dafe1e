// What clap makes of the words after a command's name.
ghost use Rattle.std.specs.Prelude.{◌≡◌, true, false, IfOk, IfErr, map, option_map, codes};
ghost use Rattle.std.specs.String.{string_bytes};
ghost use Rattle.clap.specs.Words.{app_of, first_of, found_of, is_simple_and_free, matches_of, rows_of};
ghost use Rattle.uw_ends.specs.Words.{is_taken, load_app, pipe_app, plain_app};

use crate::WordsFault;
use clap::error::ErrorKind;
use clap::{Arg, ArgMatches};
use std::alloc::{AllocError, Global};

// A command of clap that takes no words yet: it has no program's name before them, and neither help nor a version.
pub(crate) fn plain_command<'a>(alloc: Global, name: &'a str) -> clap::Command<'a>
    ensures { app_of result ≡ plain_app name.entry.now }
{
    clap::Command::new(alloc, name)
        .no_binary_name(true)
        .disable_help_flag(true)
        .disable_version_flag(true)
}

// The command of `pipe`: one option with a value.
pub(crate) fn pipe_command<'a>(alloc: Global) -> Result<clap::Command<'a>, AllocError>
    ensures { IfOk result (λ command. app_of command ≡ pipe_app) }
{
    let die = Arg::new(alloc, "die").long("die");
    plain_command(alloc, "pipe").arg(die)
}

// The command of `load`: two positionals.
pub(crate) fn load_command<'a>(alloc: Global) -> Result<clap::Command<'a>, AllocError>
    ensures { IfOk result (λ command. app_of command ≡ load_app) }
{
    let first = Arg::new(alloc, "first").required(true);
    let count = Arg::new(alloc, "count").required(true);
    plain_command(alloc, "load").arg(first)?.arg(count)
}

// The matches of the words, or Usage where clap does not take them.
pub(crate) fn parse<'a>(
    command: clap::Command<'a>,
    words: &'a [String],
) -> Result<ArgMatches<'a>, WordsFault>
    requires { is_simple_and_free (app_of command) ≡ true }
    ensures taken { IfOk result (λ _. is_taken (app_of command.entry) (map string_bytes words.entry.now) ≡ true) }
    ensures found { IfOk result (λ m. rows_of (found_of m) ≡ matches_of (app_of command.entry) (map string_bytes words.entry.now)) }
    ensures usage { IfErr result (λ fault. fault ≡ WordsFault.Usage → is_taken (app_of command.entry) (map string_bytes words.entry.now) ≡ false) }
{
    match command.try_get_matches_from(words) {
        Ok(matches) => Ok(matches),
        Err(error) => match error.kind() {
            ErrorKind::OutOfMemory => Err(WordsFault::Memory),
            _ => Err(WordsFault::Usage),
        },
    }
}

// The value that clap found for an argument.
pub(crate) fn value<'a>(matches: &ArgMatches<'a>, name: &str) -> Option<&'a str>
    ensures { option_map (λ text. text.now) result ≡ first_of name.now (rows_of (found_of matches.now)) }
{
    matches.get_str(name)
}
