//! What words ask for. Clap reads them; what it is not to read, help and words that begin with `-`, is no request.

ghost use Rattle.std.specs.Prelude.{◌≡◌, IfOk, map, string_bytes, option_map};
ghost use Rattle.clap.specs.Matches.{found_of, first_value};
ghost use Rattle.clap.specs.Simple.{app_of};
ghost use Rattle.replay_words.specs.CommandLines.{named_app, command_app};
ghost use Rattle.replay_words.specs.Requests.{one_word, three_words, made_by, request_of, request_found, request_matched};

use clap::{Arg, ArgMatches, Command};
use fab_base::NoMem;
use lines::parse_number;
use plain_words::read_words;
use std::alloc::{AllocError, Global};

/// The most lines of a schedule.
const MOST_LINES: u64 = 1_048_576;

/// What words ask for.
#[derive(Clone, Copy, PartialEq, Eq)]
pub enum Request {
    /// To run an input: `run`.
    Run,
    /// To audit an input: `audit`.
    Audit,
    /// To make a schedule of so many lines, by this seed, and run it: `make SEED LINES`.
    Make {
        /// The seed.
        seed: u64,
        /// How many lines.
        lines: u64,
    },
}

/// The command line's name.
fn named<'a>(alloc: Global) -> Command<'a>
    ensures { app_of result ≡ named_app }
{
    Command::new(alloc, "replay").no_binary_name(true)
}

/// The command line: a word, and two numbers where it wants them.
fn command<'a>(alloc: Global) -> Result<Command<'a>, AllocError>
    ensures { IfOk result (λ command. app_of command ≡ command_app) }
{
    let word = Arg::new(alloc, "word").required(true);
    let seed = Arg::new(alloc, "seed");
    let lines = Arg::new(alloc, "lines");
    let one = named(alloc).arg(word)?;
    let two = one.arg(seed)?;
    let three = two.arg(lines)?;
    Ok(three)
}

/// What one word asks for.
fn one_word(word: &str) -> Option<Request>
    ensures { result ≡ one_word word.now }
{
    if word == "run" {
        return Some(Request::Run);
    }
    if word == "audit" {
        return Some(Request::Audit);
    }
    None
}

/// What these words ask for behind `make`.
fn made_by(seed: &str, lines: &str) -> Option<Request>
    ensures { result ≡ made_by seed.now lines.now }
{
    let seed = parse_number(seed.as_bytes())?;
    let lines = parse_number(lines.as_bytes())?;
    if lines > MOST_LINES {
        return None;
    }
    Some(Request::Make { seed, lines })
}

/// What three words ask for.
fn three_words(word: &str, seed: &str, lines: &str) -> Option<Request>
    ensures { result ≡ three_words word.now seed.now lines.now }
{
    if word == "make" {
        made_by(seed, lines)
    } else {
        None
    }
}

/// What is asked for by the values that were found.
fn request_found(word: Option<&str>, seed: Option<&str>, lines: Option<&str>) -> Option<Request>
    ensures { result ≡ request_found (option_map (λ text. text.now) word.entry) (option_map (λ text. text.now) seed.entry)
        (option_map (λ text. text.now) lines.entry) }
{
    match word {
        None => None,
        Some(word) => match seed {
            None => match lines {
                None => one_word(word),
                Some(_) => None,
            },
            Some(seed) => match lines {
                None => None,
                Some(lines) => three_words(word, seed, lines),
            },
        },
    }
}

/// What the matches of the command line ask for.
fn request_matched(matches: &ArgMatches) -> Option<Request>
    ensures { result ≡ request_matched (found_of matches.now) }
{
    let word = matches.get_str("word");
    let seed = matches.get_str("seed");
    let lines = matches.get_str("lines");
    request_found(word, seed, lines)
}

/// What these words ask for, the program's own name left out. None where they are none of the forms.
///
/// # Errors
///
/// `NoMemory` where no memory was left.
pub fn request_of(alloc: Global, words: &[String]) -> Result<Option<Request>, NoMem>
    ensures { IfOk result (λ request. request ≡ request_of (map string_bytes words.now)) }
{
    let line = command(alloc)?;
    match read_words(line, words)? {
        Some(matches) => Ok(request_matched(&matches)),
        None => Ok(None),
    }
}
