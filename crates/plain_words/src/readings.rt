//! Words that clap reads. It is not to see one that begins with `-`: what it answers to `--help` is not what a program here prints.

ghost use Rattle.std.specs.Prelude.{◌≡◌, ◌≢◌, true, false, IfOk, map, string_bytes, option_map};
ghost use Rattle.std.specs.List.{list_any};
ghost use Rattle.clap.specs.Faults.{is_simple_and_free};
ghost use Rattle.clap.specs.Matches.{found_of};
ghost use Rattle.clap.specs.Simple.{app_of};
ghost use Rattle.clap.specs.Values.{kind_of};
ghost use Rattle.plain_words.specs.Readings.{is_flag, ReadsWords};

use clap::error::ErrorKind;
use clap::{ArgMatches, Command, Error};
use fab_base::NoMem;

/// Whether a word begins with `-`.
#[tactic(auto, using(crate::proofs::Flags::no_byte))]
fn is_flag(word: &str) -> bool
    ensures { result ≡ is_flag word.now }
{
    let bytes = word.as_bytes();
    if bytes.is_empty() {
        return false;
    }
    bytes[0] == b'-'
}

/// Whether one of the words begins with `-`.
fn has_flag(words: &[String]) -> bool
    ensures { result ≡ list_any (λ word. is_flag (string_bytes word)) words.now }
{
    words.iter().any(|word| is_flag(word.as_str()))
}

/// Whether words were not read for want of memory.
fn is_memory(error: &Error) -> bool
    ensures { result ≡ false → kind_of error.now ≢ ErrorKind.OutOfMemory }
{
    match error.kind() {
        ErrorKind::OutOfMemory => true,
        _ => false,
    }
}

/// What clap finds in these words by a command line, the program's own name left out. None where one of them begins with `-`, or where clap
/// does not take them.
///
/// # Errors
///
/// `NoMemory` where no memory was left.
pub fn read_words<'a>(
    line: Command<'a>,
    words: &'a [String],
) -> Result<Option<ArgMatches<'a>>, NoMem>
    requires { is_simple_and_free (app_of line) ≡ true }
    ensures { IfOk result (λ read. ReadsWords (app_of line.entry) (map string_bytes words.now) (option_map found_of read)) }
{
    if has_flag(words) {
        return Ok(None);
    }
    match line.try_get_matches_from(words) {
        Ok(matches) => Ok(Some(matches)),
        Err(error) => {
            if is_memory(&error) {
                return Err(NoMem::NoMemory);
            }
            Ok(None)
        }
    }
}
