//! Worked examples of lists of cells that are written at once, and of refused edits that are passed over, for both
//! engines.
use std::alloc::Global;
use xw_feas::edit::{Edit, Refusal};
use xw_feas::feasible::run;
use xw_feas::searchable::Searchable;
use xw_grid::cell::Cell;
use xw_grid::fault::GridFault;
use xw_grid::grid::Grid;
use xw_letters::letter::Letter;
use xw_letters::letter_set::LetterSet;
use xw_live::live::Live;
use xw_plain::plain::Plain;
use xw_words::bank::Bank;

/// Cells by row and column, each with the byte of a letter, or empty.
type List = &'static [(u32, u32, Option<u8>)];

/// Cells by row and column, each with its feasible letters.
type Cells = &'static [(u32, u32, &'static [u8])];

/// What is feasible in the empty square.
const WHOLE: Cells = &[(1, 1, b"A"), (1, 2, b"ST"), (2, 1, b"ST"), (2, 2, b"O")];

/// Lists that are written into the square, in order, each with what is feasible after it.
const WRITTEN: &[(List, Cells)] = &[
    (&[], WHOLE),
    (
        &[(1, 2, Some(b'S')), (2, 1, Some(b't'))],
        &[(1, 1, b"A"), (1, 2, b"S"), (2, 1, b"T"), (2, 2, b"O")],
    ),
    (
        &[(1, 1, Some(b'A')), (1, 2, None), (2, 2, Some(b'O'))],
        &[(1, 1, b"A"), (1, 2, b"ST"), (2, 1, b"T"), (2, 2, b"O")],
    ),
    (
        &[(1, 1, None), (2, 1, None), (2, 2, None), (1, 2, None)],
        WHOLE,
    ),
    (
        &[(2, 2, Some(b'X')), (1, 1, Some(b'I')), (2, 2, None)],
        &[(1, 1, b""), (1, 2, b""), (2, 1, b""), (2, 2, b"")],
    ),
    (
        &[(1, 1, Some(b'X')), (1, 2, Some(b'T')), (2, 1, Some(b'S'))],
        &[(1, 1, b"X"), (1, 2, b"T"), (2, 1, b"S"), (2, 2, b"O")],
    ),
    (
        &[(1, 1, None), (1, 1, Some(b'A')), (1, 2, Some(b'T'))],
        &[(1, 1, b"A"), (1, 2, b"T"), (2, 1, b"S"), (2, 2, b"O")],
    ),
    (&[(1, 1, None), (1, 2, None), (2, 1, None)], WHOLE),
];

/// What is feasible in the square with its last cell blocked.
const BLOCKED: Cells = &[(1, 1, b"AIST"), (1, 2, b"NOST"), (2, 1, b"NOST")];

/// Lists that are refused there as a whole.
const REFUSED: &[(List, GridFault)] = &[
    (
        &[(1, 1, Some(b'A')), (2, 2, Some(b'O'))],
        GridFault::OnBlock,
    ),
    (&[(1, 1, None), (1, 3, Some(b'A'))], GridFault::OutOfGrid),
    (&[(0, 1, None), (2, 2, None)], GridFault::OutOfGrid),
    (&[(2, 2, None), (0, 1, None)], GridFault::OnBlock),
];

fn at(row: u32, col: u32) -> Cell {
    Cell { row, col }
}

fn list_of(alloc: Global, spelled: List) -> Result<Vec<(Cell, Option<Letter>)>, Refusal> {
    let mut list = Vec::new(alloc);
    for written in spelled {
        let (row, col, byte) = *written;
        let letter = match byte {
            Some(byte) => Letter::of(byte),
            None => None,
        };
        list.push((at(row, col), letter))
            .map_err(|_| Refusal::Grid(GridFault::Memory))?;
    }
    Ok(list)
}

/// Why an engine refuses a list; `None` if it does not.
fn refusal_of<E: Searchable>(engine: &mut E, list: &[(Cell, Option<Letter>)]) -> Option<Refusal> {
    engine.edit(&Edit::Write(list)).err()
}

fn is_set_of(set: LetterSet, text: &[u8]) -> bool {
    for byte in text {
        match Letter::of(*byte) {
            Some(letter) if set.has(letter) => {}
            _ => return false,
        }
    }
    set.len() == text.len()
}

/// Whether these cells have these feasible letters.
fn shows<E: Searchable>(engine: &E, cells: Cells) -> bool {
    for (row, col, text) in cells {
        match engine.letters(at(*row, *col)) {
            Ok(letters) if is_set_of(letters, *text) => {}
            _ => return false,
        }
    }
    true
}

/// Whether an engine on the empty square writes each list.
fn writes<E: Searchable>(alloc: Global, engine: &mut E) -> Result<bool, Refusal> {
    for (spelled, cells) in WRITTEN {
        let list = list_of(alloc, *spelled)?;
        if refusal_of(engine, list.as_slice()).is_some() || !shows(engine, *cells) {
            return Ok(false);
        }
    }
    Ok(true)
}

/// Whether an engine on the square with its last cell blocked refuses each list, and changes nothing.
fn refuses<E: Searchable>(alloc: Global, engine: &mut E) -> Result<bool, Refusal> {
    for (spelled, fault) in REFUSED {
        let list = list_of(alloc, *spelled)?;
        if refusal_of(engine, list.as_slice()) != Some(Refusal::Grid(*fault))
            || !shows(engine, BLOCKED)
        {
            return Ok(false);
        }
    }
    Ok(true)
}

/// Adds the words of the square by edits of which three are refused.
fn add_words<E: Searchable>(engine: &mut E) -> u64 {
    let edits = [
        Edit::Add(b"AS", None),
        Edit::Add(b"4", None),
        Edit::Add(b"AT", None),
        Edit::Add(b"at", None),
        Edit::Add(b"SO", None),
        Edit::Set(at(3, 1), Letter::first()),
        Edit::Add(b"TO", None),
        Edit::Add(b"IN", None),
    ];
    run(engine, &edits)
}

fn passes<E: Searchable>(alloc: Global) -> Result<bool, Refusal> {
    let grid = Grid::new(alloc, 2, 2)?;
    let mut engine = E::open(alloc, grid, Bank::new(alloc)?)?;
    let mut passes = add_words(&mut engine) == 3;
    passes &= writes(alloc, &mut engine)?;
    let _ = engine.edit(&Edit::Block(at(2, 2)))?;
    passes &= refuses(alloc, &mut engine)?;
    Ok(passes)
}

#[test]
fn plain_writes(rt: HostRuntime) {
    assert!(rt; passes::<Plain>(rt.alloc()) == Ok(true));
}

#[test]
fn live_writes(rt: HostRuntime) {
    assert!(rt; passes::<Live>(rt.alloc()) == Ok(true));
}
