//! The word list of a session.
ghost use Rattle.std.specs.Prelude.{◌≡◌, ◌⊎◌, ◌++◌, ◌&&◌, None, IfOk, IfErr, OnOk, OnErr, IsOkUnless};
ghost use Rattle.xw_words.specs.WordList.{listed_in};
ghost use Rattle.xw_answers.specs.Text.{word_fault};
ghost use Rattle.xw_desk.specs.declared.failure.Failure.TheVariants.{Memory};
ghost use Rattle.xw_desk.specs.Desk.{Reports};
ghost use Rattle.xw_desk.specs.Files.{IsFileFault};
ghost use Rattle.xw_cli_files.specs.WordLists.{counts_line, is_long, HasNoWords, HasWords, IsLoaded, IsLoadedTold, IsLoadingTold, IsOverfull, IsUnloaded};

use crate::lists::notes_of;
use memchr::memchr_iter;
use xw_answers::refusal;
use xw_desk::desk::Desk;
use xw_desk::failure::Failure;
use xw_desk::files::file_fault;
use xw_desk::outlet::Outlet;
use xw_disk::Disk;
use xw_lines::{Sink, Source};
use xw_words::{Bank, Loaded, WordFault};

/// A word list with more line feeds than this takes a while to load.
const LONG: usize = 1_000_000;

/// Loads the word list if one is given, and otherwise returns an empty dictionary.
pub fn dictionary<'a, D: Disk, I: Source, O: Outlet, E: Sink>(
    desk: &mut Desk<D, I, O, E>,
    named: Option<&'a str>,
) -> Result<Bank, Failure<'a>>
    ensures ok { IfOk result (λ bank. HasWords named.entry bank.words desk.old desk.new) }
    ensures err { IfErr result (λ failure. HasNoWords named.entry failure desk.old desk.new) }
{
    match named {
        Some(file) => read_dictionary(desk, file),
        None => Bank::new(desk.alloc).map_err(|_| Failure::Memory),
    }
}

/// Loads a word list into a dictionary, and prints how many lines were added and skipped, with notes on the list if
/// failures are explained. On a terminal it first prints that a long list is loading.
pub fn read_dictionary<'a, D: Disk, I: Source, O: Outlet, E: Sink>(
    desk: &mut Desk<D, I, O, E>,
    file: &'a str,
) -> Result<Bank, Failure<'a>>
    ensures ok { IfOk result (λ bank. IsLoaded file.entry.now bank.words desk.old desk.new) }
    ensures err { IfErr result (λ failure. IsUnloaded file.entry.now failure desk.old desk.new) }
{
    let bytes = desk.read_file(file)?;
    let list = bytes.as_slice();
    tell_loading(desk, file, list)?;
    dictionary_of(desk, file, list)
}

/// Returns whether a word list takes a while to load.
fn is_long(bytes: &[u8]) -> bool
    ensures { result ≡ is_long bytes.now }
{
    memchr_iter(b'\n', bytes).count() > LONG
}

/// Returns whether a terminal is told that a word list is loading.
fn tells_loading<D: Disk, I: Source, O: Outlet, E: Sink>(
    desk: &Desk<D, I, O, E>,
    bytes: &[u8],
) -> bool
    ensures { result ≡ (desk.now.is_terminal && is_long bytes.now) }
{
    desk.is_terminal && is_long(bytes)
}

/// Prints on a terminal that a word list is loading, if it is long.
fn tell_loading<'a, D: Disk, I: Source, O: Outlet, E: Sink>(
    desk: &mut Desk<D, I, O, E>,
    file: &'a str,
    bytes: &[u8],
) -> Result<(), Failure<'a>>
    ensures told { OnOk result (IsLoadingTold file.entry.now bytes.now desk.old desk.new) }
    ensures memory { IsOkUnless result Memory }
    ensures untold { OnErr result (desk.new ≡ desk.old) }
{
    if !tells_loading(desk, bytes) {
        return Ok(());
    }
    let text = format!(in desk.alloc; "xw: {file}: loading\n")?;
    desk.report(text.as_bytes());
    Ok(())
}

/// Loads the bytes of a word list and prints its counts, as `read_dictionary`.
fn dictionary_of<'a, D: Disk, I: Source, O: Outlet, E: Sink>(
    desk: &mut Desk<D, I, O, E>,
    file: &'a str,
    bytes: &[u8],
) -> Result<Bank, Failure<'a>>
    ensures words { IfOk result (λ bank. bank.words ≡ listed_in bytes.now) }
    ensures told { OnOk result (IsLoadedTold file.entry.now bytes.now desk.old desk.new) }
    ensures err { IfErr result (λ failure. (failure ≡ Memory) ⊎ IsOverfull file.entry.now bytes.now failure) }
    ensures untold { OnErr result (desk.new ≡ desk.old) }
{
    let notes = notes_of(desk.alloc, bytes, desk.explains)?;
    match Bank::load_list(desk.alloc, bytes) {
        Ok((bank, loaded)) => {
            tell_loaded(desk, file, loaded, notes.as_str())?;
            Ok(bank)
        }
        Err(fault) => Err(unloaded(file, fault)),
    }
}

/// Returns the failure for a fault of a word list.
fn unloaded<'a>(file: &'a str, fault: WordFault) -> Failure<'a>
    ensures memory { fault ≡ WordFault.Memory → result ≡ Memory }
    ensures told { (result ≡ Memory) ⊎ IsFileFault file.entry.now (word_fault fault) None result }
{
    match fault {
        WordFault::Memory => Failure::Memory,
        _ => file_fault(file, refusal::word_name(fault), None),
    }
}

/// Prints how many lines of a word list were added and skipped, and then the notes.
fn tell_loaded<'a, D: Disk, I: Source, O: Outlet, E: Sink>(
    desk: &mut Desk<D, I, O, E>,
    file: &'a str,
    loaded: Loaded,
    notes: &str,
) -> Result<(), Failure<'a>>
    ensures told { OnOk result (Reports (counts_line file.entry.now loaded.added loaded.skipped ++ notes.now) desk.old desk.new) }
    ensures memory { IsOkUnless result Memory }
    ensures untold { OnErr result (desk.new ≡ desk.old) }
{
    let (added, skipped) = (loaded.added, loaded.skipped);
    let text = format!(in desk.alloc; "xw: {file}: {added} added, {skipped} skipped\n{notes}")?;
    desk.report(text.as_bytes());
    Ok(())
}
