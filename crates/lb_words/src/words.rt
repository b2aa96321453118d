//! What the words of the command line ask for, or that they are no command.
ghost use Rattle.std.specs.Prelude.{◌≡◌, ◌≤◌, IfOk, IfSome, MatchOption, Some, None, map, string_bytes};
ghost use Rattle.std.specs.List.{list_any};
ghost use Rattle.clap.specs.Words.{subcommand_rows_of, rows_of, found_of};
ghost use Rattle.lb_text.specs.Numbers.{number_of};
ghost use Rattle.lb_words.specs.Parser.{is_special, work_read, work_found};
ghost use Rattle.lb_words.specs.Words.{generated, work_of, IsInRange};

use crate::parser::parser;
use crate::work::Work;
use clap::ArgMatches;
use clap::error::ErrorKind;
use lb_base::NoMemory;
use lb_text::{MINUS, number_of};
use lb_trace::MAX_ROWS;
use std::alloc::Global;

/// The greatest number that the generator starts from.
pub const MAX_NUMBER: u64 = u32::MAX as u64;

// A word that the parser could take for an option or for its own help.
fn is_special(word: &str) -> bool
    ensures { result ≡ is_special word.now }
{
    match word.as_bytes() {
        [first, ..] => *first == MINUS || word == "help",
        [] => false,
    }
}

// Whether one of the words is such a word.
fn has_special(words: &[String]) -> bool
    ensures { result ≡ list_any is_special (map string_bytes words.now) }
{
    for word in words {
        if is_special(word.as_str()) {
            return true;
        }
    }
    false
}

// The number up to `most` that a word spells.
fn number_in(word: &str, most: u64) -> Option<u32>
    requires { most ≤ MAX_NUMBER }
    ensures number { MatchOption result (number_of most word.now ≡ None) (λ n. number_of most word.now ≡ Some n) }
    ensures in_range { IfSome result (λ n. n ≤ most) }
{
    match number_of(word.as_bytes(), most) {
        Ok(number) => Some(number as u32),
        Err(_) => None,
    }
}

// The work on a generated trace that a word names.
fn generated(word: &str, number: u32, rows: u32) -> Option<Work>
    requires { rows ≤ MAX_ROWS }
    ensures work { result ≡ generated word.now number rows }
    ensures in_range { IfSome result IsInRange }
{
    if word == "gen" {
        Some(Work::Gen { number, rows })
    } else if word == "sum" {
        Some(Work::Sum { number, rows })
    } else {
        None
    }
}

// The work that a subcommand asks for, with the values that were found for it.
#[tactic(auto, unfolding(crate::specs::Parser::work_read), using(crate::proofs::Found::first_found))]
fn work_read(word: &str, found: &ArgMatches) -> Option<Work>
    ensures work { result ≡ work_read word.now (rows_of (found_of found.now)) }
    ensures in_range { IfSome result IsInRange }
{
    if word == "step" {
        return Some(Work::Step);
    }
    if word == "run" {
        return Some(Work::Run);
    }
    if word == "topo" {
        return Some(Work::Topo);
    }
    if word == "check" {
        return Some(Work::Check);
    }
    let number = number_in(found.get_str("NUMBER")?, MAX_NUMBER)?;
    let rows = number_in(found.get_str("ROWS")?, MAX_ROWS)?;
    generated(word, number, rows)
}

// The work that the parser found.
#[tactic(auto, unfolding(crate::specs::Parser::work_found), using(crate::proofs::Found::rows_found, crate::proofs::Found::no_rows_found))]
fn work_found(matches: &ArgMatches) -> Option<Work>
    ensures work { result ≡ work_found (subcommand_rows_of matches.now) }
    ensures in_range { IfSome result IsInRange }
{
    let (word, found) = matches.subcommand()?;
    work_read(word, found)
}

/// The work that the words ask for; None exactly where they are no command (README.md).
pub fn work_of(alloc: Global, words: &[String]) -> Result<Option<Work>, NoMemory>
    ensures work { IfOk result (λ work. work ≡ work_of (map string_bytes words.now)) }
    ensures in_range { IfOk result (λ work. IfSome work IsInRange) }
{
    if has_special(words) {
        return Ok(None);
    }
    match parser(alloc)?.try_get_matches_from(words) {
        Ok(matches) => Ok(work_found(&matches)),
        Err(error) => {
            if error.kind() == ErrorKind::OutOfMemory {
                Err(NoMemory)
            } else {
                Ok(None)
            }
        }
    }
}
