//! The words after the program's name.
ghost use Rattle.std.specs.Char.{is_ascii_digit};
ghost use Rattle.std.specs.List.{list_all};
ghost use Rattle.std.specs.Prelude.{◌≡◌, None, Some, IfSome, MatchOption, map, string_bytes};
ghost use Rattle.psm_commands.specs.Command.{CanBeDone, command_of};
ghost use Rattle.psm.specs.Words.{begins_with_zero, bounded, command_in, generate_with, is_number, number_of, script_with, short_with, turns_of};

use psm_commands::{Command, Files, MOST_CALLS};

/// The turns of a session where the words state none.
const DEFAULT_TURNS: u64 = 1_000_000;

/// The command that the words after the program's name state, where they have the form `run M S`, `compile M`, `exec O S` or `gen N`;
/// `--turns N` may stand after the files of `run` and `exec`.
pub fn command_in(words: &[String]) -> Option<Command<'_>>
    ensures can { IfSome result CanBeDone }
    ensures form { MatchOption result (command_in (map string_bytes words.now) ≡ None)
        (λ c. command_in (map string_bytes words.now) ≡ Some (command_of c)) }
{
    match words {
        [word, subject] => short_for(word.as_str(), subject.as_str()),
        [word, for_code, for_script, options @ ..] => script_for(
            word.as_str(),
            for_code.as_str(),
            for_script.as_str(),
            turns_in(options),
        ),
        _ => None,
    }
}

// The command of two words, `compile` or `gen` by the first.
fn short_for<'a>(word: &str, subject: &'a str) -> Option<Command<'a>>
    ensures can { IfSome result CanBeDone }
    ensures form { MatchOption result (short_with word.now subject.now ≡ None)
        (λ c. short_with word.now subject.now ≡ Some (command_of c)) }
{
    if word == "compile" {
        Some(Command::Compile(subject))
    } else if word == "gen" {
        generate_for(number_in(subject))
    } else {
        None
    }
}

// The command `gen` with that number of calls, if there is one and it isn't above the most.
fn generate_for<'a>(number: Option<u64>) -> Option<Command<'a>>
    ensures can { IfSome result CanBeDone }
    ensures form { MatchOption result (generate_with (bounded number) ≡ None)
        (λ c. generate_with (bounded number) ≡ Some (command_of c)) }
{
    let calls = number?;
    if calls <= MOST_CALLS as u64 {
        Some(Command::Generate(calls as u32))
    } else {
        None
    }
}

// The command that runs a script, `run` or `exec` by the first word, where there are turns.
fn script_for<'a>(
    word: &str,
    for_code: &'a str,
    for_script: &'a str,
    turns: Option<u64>,
) -> Option<Command<'a>>
    ensures can { IfSome result CanBeDone }
    ensures form { MatchOption result (script_with word.now for_code.now for_script.now turns ≡ None)
        (λ c. script_with word.now for_code.now for_script.now turns ≡ Some (command_of c)) }
{
    let turns = turns?;
    let files = Files {
        for_code,
        for_script,
        turns,
    };
    if word == "run" {
        Some(Command::Run(files))
    } else if word == "exec" {
        Some(Command::Exec(files))
    } else {
        None
    }
}

// The turns that the words after the names state.
fn turns_in(options: &[String]) -> Option<u64>
    ensures { result ≡ turns_of (map string_bytes options.now) }
{
    if options.is_empty() {
        return Some(DEFAULT_TURNS);
    }
    match options {
        [option, number] if option.as_str() == "--turns" => number_in(number.as_str()),
        _ => None,
    }
}

// The number that a word is.
fn number_in(word: &str) -> Option<u64>
    ensures { result ≡ number_of word.now }
{
    if is_number(word.as_bytes()) {
        match word.parse::<u64>() {
            Ok(number) => Some(number),
            Err(_) => None,
        }
    } else {
        None
    }
}

fn is_number(word: &[u8]) -> bool
    ensures { result ≡ is_number word.now }
{
    all_digits(word) && !word.is_empty() && word.len() <= 18 && !begins_with_zero(word)
}

fn all_digits(word: &[u8]) -> bool
    ensures { result ≡ list_all is_ascii_digit word.now }
{
    word.iter().all(|byte| byte.is_ascii_digit())
}

// Whether a zero stands before another byte.
fn begins_with_zero(word: &[u8]) -> bool
    ensures { result ≡ begins_with_zero word.now }
{
    match word {
        [digit, _, ..] => *digit == b'0',
        _ => false,
    }
}
