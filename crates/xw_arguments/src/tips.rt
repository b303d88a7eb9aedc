//! Tips for words that are no arguments.
ghost use Rattle.std.specs.Prelude.{◌≡◌, ◌++◌, map, option_map, IfOk};
ghost use Rattle.xw_arguments.specs.Tips.{file_tip, has_value, is_argument, is_named, is_option, is_puz, is_session, option_meant, tip_at, tip_due, tip_of, tip_text, HasTip};

use clap::error::ErrorKind;
use std::alloc::{AllocError, Global};
use std::convert::AsStr;

/// What to try in place of a word that is no argument.
#[derive(Clone, Copy, Debug)]
pub enum Tip<'a> {
    /// An option whose second dash is missing.
    Option(&'static str),
    /// A file that may be the word list.
    List(&'a str),
    /// A file that may be the puzzle to start with.
    Puzzle(&'a str),
    /// A file that may be the session to go on with.
    Session(&'a str),
}

/// Returns the option that a word with a single dash stands for.
fn option_meant(word: &str) -> Option<&'static str>
    ensures { option_map (λ option. option.now) result ≡ option_meant word.now }
{
    match word {
        "-dict" => Some("--dict"),
        "-from" => Some("--from"),
        "-resume" => Some("--resume"),
        "-to" => Some("--to"),
        "-save" => Some("--save"),
        "-journal" => Some("--journal"),
        "-sync" => Some("--sync"),
        "-progress" => Some("--progress"),
        "-explain" => Some("--explain"),
        _ => None,
    }
}

/// Returns whether a word takes the next one as its value: it is an option without `=`, and no flag.
fn has_value(word: &str) -> bool
    ensures { result ≡ has_value word.now }
{
    let bytes = word.as_bytes();
    bytes.starts_with(b"--")
        && !bytes.contains(&b'=')
        && word != "--sync"
        && word != "--progress"
        && word != "--explain"
}

/// Returns whether a name ends with `.puz`.
fn is_puz(name: &str) -> bool
    ensures { result ≡ is_puz name.now }
{
    name.as_bytes().ends_with(b".puz")
}

/// Returns whether a name ends with `.xw`.
fn is_session(name: &str) -> bool
    ensures { result ≡ is_session name.now }
{
    name.as_bytes().ends_with(b".xw")
}

/// Returns the tip for a file that is given without an option.
fn file_tip<'a>(file: &'a str) -> Tip<'a>
    ensures { tip_text result ≡ file_tip file.entry.now }
{
    if is_puz(file) {
        Tip::Puzzle(file)
    } else if is_session(file) {
        Tip::Session(file)
    } else {
        Tip::List(file)
    }
}

/// Returns the tip for a word that is no argument of `edit`, if it has one.
fn tip_at<'a>(word: &'a str) -> Option<Tip<'a>>
    ensures { option_map tip_text result ≡ tip_at word.entry.now }
{
    if let Some(option) = option_meant(word) {
        return Some(Tip::Option(option));
    }
    if word.as_bytes().starts_with(b"-") {
        return None;
    }
    Some(file_tip(word))
}

/// Returns whether a word is this option, or this option with `=` and a value.
fn is_named(word: &str, option: &[u8]) -> bool
    ensures { result ≡ is_named word.now option.now }
{
    let bytes = word.as_bytes();
    bytes.starts_with(option)
        && (bytes.len() == option.len() || bytes.get(option.len()) == Some(&b'='))
}

/// Returns whether a word is an option of `edit`.
fn is_option(word: &str) -> bool
    ensures { result ≡ is_option word.now }
{
    is_named(word, b"--dict")
        || is_named(word, b"--from")
        || is_named(word, b"--resume")
        || is_named(word, b"--to")
        || is_named(word, b"--save")
        || is_named(word, b"--journal")
        || is_named(word, b"--sync")
        || is_named(word, b"--progress")
        || is_named(word, b"--explain")
}

/// Returns whether a word of `edit` is an argument: the value of the word before it, or an option.
fn is_argument(previous: &str, word: &str) -> bool
    ensures { result ≡ is_argument previous.now word.now }
{
    if has_value(previous) && (!word.as_bytes().starts_with(b"-") || word == "-") {
        return true;
    }
    is_option(word)
}

/// Returns the tip for the first word of `edit` that is no argument. The error is about this word. The first two words
/// are the program and `edit`.
fn tip_of<'a, S: AsStr>(words: &'a [S]) -> Option<Tip<'a>>
    ensures { option_map tip_text result ≡ tip_of (map S.text words.entry.now) }
{
    if words.len() < 2 || words[1].as_str() != "edit" {
        return None;
    }
    for i in 2..words.len() {
        let word = words[i].as_str();
        if !is_argument(words[i - 1].as_str(), word) {
            return tip_at(word);
        }
    }
    None
}

/// Returns the tip that is due for an error of this kind.
pub fn tip_due<'a, S: AsStr>(kind: ErrorKind, words: &'a [S]) -> Option<Tip<'a>>
    ensures { option_map tip_text result ≡ tip_due kind (map S.text words.entry.now) }
{
    match kind {
        ErrorKind::UnknownArgument => tip_of(words),
        _ => None,
    }
}

/// Adds a tip to the text of an error, after its first line.
pub fn with_tip(alloc: Global, text: String, tip: Option<Tip<'_>>) -> Result<String, AllocError>
    ensures { IfOk result (λ told. HasTip text.bytes.items (option_map tip_text tip.entry) told.bytes.items) }
{
    let Some(tip) = tip else {
        return Ok(text);
    };
    match text.split_once('\n') {
        Some((error, rest)) => tipped(alloc, error, rest, tip),
        None => tipped(alloc, text.as_str(), "", tip),
    }
}

/// Returns the first line of an error, a tip, and the other lines.
fn tipped(alloc: Global, error: &str, rest: &str, tip: Tip<'_>) -> Result<String, AllocError>
    ensures { IfOk result (λ told. told.bytes.items ≡ error.now ++ tip_text tip.entry ++ rest.now) }
{
    match tip {
        Tip::Option(option) => format!(in alloc;
            "{error}\n\n  tip: a similar argument exists: '{option}'\n{rest}"
        ),
        Tip::List(file) => format!(in alloc;
            "{error}\n\n  tip: to load it as the word list, use '--dict {file}'\n{rest}"
        ),
        Tip::Puzzle(file) => format!(in alloc;
            "{error}\n\n  tip: to start with this puzzle, use '--from {file}'\n{rest}"
        ),
        Tip::Session(file) => format!(in alloc;
            "{error}\n\n  tip: to go on with this session, use '--journal {file}'\n{rest}"
        ),
    }
}
