//! Opens a session on the word list and the puzzle that a call names.
ghost use Rattle.std.specs.Prelude.{◌≡◌, ◌⊎◌, Some, IfOk, IfErr, IsOkUnless};
ghost use Rattle.xw_grid.specs.Puzzle.{PuzzleShown};
ghost use Rattle.xw_session.specs.Opening.{empty_puzzle, opened_on};
ghost use Rattle.xw_desk.specs.declared.failure.Failure.TheVariants.{Memory};
ghost use Rattle.xw_desk.specs.Files.{IsUnread};
ghost use Rattle.xw_cli.specs.Performed.{HasPuzzle, IsOpened, IsUnopened};

use std::alloc::Global;
use xw_arguments::SessionFiles;
use xw_cli_files::word_list::dictionary;
use xw_desk::desk::Desk;
use xw_desk::failure::Failure;
use xw_desk::outlet::Outlet;
use xw_disk::Disk;
use xw_feas::feasible::Feasible;
use xw_feas::observed::Observed;
use xw_feas::progress::Observer;
use xw_feas::searchable::Searchable;
use xw_lines::{Sink, Source};
use xw_session::{Session, opening};
use xw_words::Bank;

/// Opens a session on the given word list and puzzle. The observer is told how far a long search is, if the call asks for
/// it or messages go to a terminal.
pub fn open_observed<'a, F: Searchable, D: Disk, I: Source, O: Outlet, E: Sink, W: Observer>(
    desk: &mut Desk<D, I, O, E>,
    named: SessionFiles<'a>,
    observer: W,
) -> Result<Session<Observed<F, W>>, Failure<'a>>
    ensures ok { IfOk result (λ session. IsOpened named.entry session desk.old desk.new) }
    ensures err { IfErr result (λ failure. IsUnopened named.entry failure desk.old desk.new) }
{
    let is_told = named.shows_progress || desk.is_terminal;
    let session: Session<F> = open(desk, named)?;
    Ok(session.observed(is_told.then_some(observer)))
}

/// Opens a session on the given word list and puzzle. The word list is read first.
fn open<'a, F: Feasible, D: Disk, I: Source, O: Outlet, E: Sink>(
    desk: &mut Desk<D, I, O, E>,
    named: SessionFiles<'a>,
) -> Result<Session<F>, Failure<'a>>
    ensures ok { IfOk result (λ session. IsOpened named.entry session desk.old desk.new) }
    ensures err { IfErr result (λ failure. IsUnopened named.entry failure desk.old desk.new) }
{
    let bank = dictionary(desk, named.dict)?;
    match named.from_file {
        Some(file) => open_puzzle(desk, bank, file),
        None => open_empty(desk.alloc, bank),
    }
}

/// Opens a session on a puzzle file.
fn open_puzzle<'a, F: Feasible, D: Disk, I: Source, O: Outlet, E: Sink>(
    desk: &mut Desk<D, I, O, E>,
    bank: Bank,
    file: &'a str,
) -> Result<Session<F>, Failure<'a>>
    ensures ok { IfOk result (λ session. (puzzle : PuzzleShown) × HasPuzzle (Some file.entry) puzzle desk.old desk.new × (session ≡ opened_on bank.words puzzle)) }
    ensures err { IfErr result (λ failure. IsUnread file.entry.now failure desk.old desk.new
        ⊎ ((failure ≡ Memory) × (puzzle : PuzzleShown) × HasPuzzle (Some file.entry) puzzle desk.old desk.new)) }
{
    let (_, puzzle) = desk.read_puzzle(file)?;
    Ok(opening::open_puzzle(desk.alloc, bank, puzzle)?)
}

/// Opens a session on an empty grid.
fn open_empty<'a, F: Feasible>(alloc: Global, bank: Bank) -> Result<Session<F>, Failure<'a>>
    ensures ok { IfOk result (λ session. session ≡ opened_on bank.words empty_puzzle) }
    ensures memory { IsOkUnless result Memory }
{
    Ok(opening::open_empty(alloc, bank)?)
}
