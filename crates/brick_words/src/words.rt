//! The words of a command line. Clap reads them, unless one begins with `-`: then they are of no form.

ghost use Rattle.std.specs.Prelude.{◌≡◌, IfOk, map, string_bytes, option_map};
ghost use Rattle.clap.specs.Matches.{found_of, first_value};
ghost use Rattle.clap.specs.Simple.{app_of};
ghost use Rattle.brick_words.specs.CommandLines.{brick_named, brick_first, brick_app};
ghost use Rattle.brick_words.specs.Words.{wanted, format_work, serve_work, local_work, tcp_port, session_work, wants, four_words, five_words, words_found, words_matched, command_of};

use clap::{Arg, ArgMatches, Command};
use fab_base::NoMem;
use lines::parse_number;
use plain_words::read_words;
use std::alloc::{AllocError, Global};

/// What the words of a command line ask for.
#[derive(Clone, Copy)]
pub struct Words<'w> {
    /// The name of the source whose text is the layout.
    pub layout: &'w str,
    /// The name of the disk, or what the names of the bricks' disks begin with.
    pub name: &'w str,
    /// What is to be done.
    pub work: Work,
}

/// What is to be done.
#[derive(Clone, Copy)]
pub enum Work {
    /// The store of the brick of this number is to be made.
    Format {
        /// The number of the brick.
        id: u64,
    },
    /// The brick of this number is to serve so many turns.
    Serve {
        /// The number of the brick.
        id: u64,
        /// How many turns it is to serve.
        turns: u64,
    },
    /// All bricks of the layout are to be hosted for this.
    HostAll {
        /// What is to be done with them.
        task: Task,
    },
}

/// What is to be done with the bricks that a process hosts.
#[derive(Clone, Copy)]
pub enum Task {
    /// The commands of standard input are to be run, by so many turns.
    Commands {
        /// How many turns they may take.
        turns: u64,
    },
    /// The client of a session is to be served, by so many turns.
    Session {
        /// The TCP port of the session.
        port: u16,
        /// How many turns it may take.
        turns: u64,
    },
}

/// The greatest TCP port.
const MOST_PORT: u64 = 65_535;

/// The command line's name.
fn named<'a>(alloc: Global) -> Command<'a>
    ensures { app_of result ≡ brick_named }
{
    Command::new(alloc, "brick").no_binary_name(true)
}

/// The command line's first two words: what is to be done, and the layout.
fn first_words<'a>(alloc: Global) -> Result<Command<'a>, AllocError>
    ensures { IfOk result (λ command. app_of command ≡ brick_first) }
{
    let word = Arg::new(alloc, "word").required(true);
    let layout = Arg::new(alloc, "layout").required(true);
    let one = named(alloc).arg(word)?;
    let two = one.arg(layout)?;
    Ok(two)
}

/// The command line: behind those, a name and a number, and one more number where the word wants it.
fn command<'a>(alloc: Global) -> Result<Command<'a>, AllocError>
    ensures { IfOk result (λ command. app_of command ≡ brick_app) }
{
    let name = Arg::new(alloc, "name").required(true);
    let number = Arg::new(alloc, "number").required(true);
    let turns = Arg::new(alloc, "turns");
    let two = first_words(alloc)?;
    let three = two.arg(name)?;
    let four = three.arg(number)?;
    let five = four.arg(turns)?;
    Ok(five)
}

/// To make the store of brick ID.
fn format_work(id: &str) -> Option<Work>
    ensures { result ≡ format_work id.now }
{
    let id = parse_number(id.as_bytes())?;
    Some(Work::Format { id })
}

/// To serve TURNS turns as brick ID.
fn serve_work(id: &str, turns: &str) -> Option<Work>
    ensures { result ≡ serve_work id.now turns.now }
{
    let id = parse_number(id.as_bytes())?;
    let turns = parse_number(turns.as_bytes())?;
    Some(Work::Serve { id, turns })
}

/// To run commands by TURNS turns.
fn local_work(turns: &str) -> Option<Work>
    ensures { result ≡ local_work turns.now }
{
    let turns = parse_number(turns.as_bytes())?;
    let task = Task::Commands { turns };
    Some(Work::HostAll { task })
}

/// To serve the client of the session at TCPPORT by TURNS turns.
fn session_work(port: &str, turns: &str) -> Option<Work>
    ensures { result ≡ session_work port.now turns.now }
{
    let port = tcp_port(port)?;
    let turns = parse_number(turns.as_bytes())?;
    let task = Task::Session { port, turns };
    Some(Work::HostAll { task })
}

/// The TCP port that a word spells.
fn tcp_port(word: &str) -> Option<u16>
    ensures { result ≡ tcp_port word.now }
{
    let number = parse_number(word.as_bytes())?;
    if 1 <= number && number <= MOST_PORT {
        Some(number as u16)
    } else {
        None
    }
}

/// This work on the disk of this name, or those of this prefix.
fn wants<'w>(layout: &'w str, name: &'w str, work: Option<Work>) -> Option<Words<'w>>
    ensures { option_map wanted result ≡ wants layout.now name.now work }
{
    let work = work?;
    Some(Words { layout, name, work })
}

/// What `format LAYOUT DISK ID` or `local LAYOUT PREFIX TURNS` asks for.
fn four_words<'w>(word: &str, layout: &'w str, name: &'w str, count: &str) -> Option<Words<'w>>
    ensures { option_map wanted result ≡ four_words word.now layout.now name.now count.now }
{
    if word == "format" {
        wants(layout, name, format_work(count))
    } else if word == "local" {
        wants(layout, name, local_work(count))
    } else {
        None
    }
}

/// What `serve LAYOUT DISK ID TURNS` or `nbd LAYOUT PREFIX TCPPORT TURNS` asks for.
fn five_words<'w>(
    word: &str,
    layout: &'w str,
    name: &'w str,
    number: &str,
    turns: &str,
) -> Option<Words<'w>>
    ensures { option_map wanted result ≡ five_words word.now layout.now name.now number.now turns.now }
{
    if word == "serve" {
        wants(layout, name, serve_work(number, turns))
    } else if word == "nbd" {
        wants(layout, name, session_work(number, turns))
    } else {
        None
    }
}

/// What is asked for by the words that were found.
fn words_found<'w>(
    word: Option<&'w str>,
    layout: Option<&'w str>,
    name: Option<&'w str>,
    number: Option<&'w str>,
    turns: Option<&'w str>,
) -> Option<Words<'w>>
    ensures { option_map wanted result ≡ words_found (option_map (λ text. text.now) word.entry) (option_map (λ text. text.now) layout.entry)
        (option_map (λ text. text.now) name.entry) (option_map (λ text. text.now) number.entry) (option_map (λ text. text.now) turns.entry) }
{
    let word = word?;
    let layout = layout?;
    let name = name?;
    let number = number?;
    match turns {
        None => four_words(word, layout, name, number),
        Some(turns) => five_words(word, layout, name, number, turns),
    }
}

/// What the matches of the command line ask for.
fn words_matched<'w>(matches: &ArgMatches<'w>) -> Option<Words<'w>>
    ensures { option_map wanted result ≡ words_matched (found_of matches.now) }
{
    let word = matches.get_str("word");
    let layout = matches.get_str("layout");
    let name = matches.get_str("name");
    let number = matches.get_str("number");
    let turns = matches.get_str("turns");
    words_found(word, layout, name, number, turns)
}

/// What these words ask for, the program's own name left out. None where they are of no form.
///
/// # Errors
///
/// `NoMemory` where no memory was left.
pub fn words_of(alloc: Global, words: &[String]) -> Result<Option<Words<'_>>, NoMem>
    ensures { IfOk result (λ asked. option_map wanted asked ≡ command_of (map string_bytes words.now)) }
{
    let line = command(alloc)?;
    match read_words(line, words)? {
        Some(matches) => Ok(words_matched(&matches)),
        None => Ok(None),
    }
}
