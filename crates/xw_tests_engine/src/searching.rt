//! Worked examples of saved states, and of words counted by letter, for both engines.
ghost use Rattle.xw_feas.specs.Snapshot.{IsTwin, CanSave};

use std::alloc::Global;
use xw_feas::board::Board;
use xw_feas::edit::{Edit, Refusal};
use xw_feas::searchable::Searchable;
use xw_grid::cell::Cell;
use xw_grid::grid::Grid;
use xw_letters::letter::Letter;
use xw_live::live::Live;
use xw_plain::plain::Plain;
use xw_words::bank::Bank;

/// A light by its index, a position, a letter, and how many feasible words of the light have the
/// letter there.
type Tally = (usize, usize, u8, usize);

/// The words of a grid of 3 by 3 cells.
const WORDS: &str = "CAT ARE TEN COT ORE BAT";

/// Of the empty grid. Across 1 and down 1 may be CAT, COT or BAT, down 2 and across 4 may be ARE or
/// ORE, and the others are TEN.
const EMPTY: &[Tally] = &[
    (0, 0, b'C', 2),
    (0, 0, b'B', 1),
    (0, 0, b'A', 0),
    (0, 1, b'A', 2),
    (1, 1, b'O', 1),
    (1, 2, b'T', 3),
    (2, 0, b'O', 1),
    (4, 2, b'E', 2),
    (5, 0, b'T', 1),
];

/// With O in the second cell: across 1 is COT, down 1 may be CAT or COT, and down 2 is ORE.
const WITH_O: &[Tally] = &[
    (0, 0, b'C', 1),
    (0, 0, b'B', 0),
    (0, 1, b'O', 1),
    (1, 1, b'A', 1),
    (1, 0, b'B', 0),
    (2, 0, b'O', 1),
    (2, 0, b'A', 0),
];

/// Opens an engine with an empty grid, and adds the words.
fn opened<E: Searchable>(alloc: Global) -> Result<E, Refusal> {
    let grid = Grid::new(alloc, 3, 3)?;
    let mut engine = E::open(alloc, grid, Bank::new(alloc)?)?;
    for word in WORDS.split_ascii_whitespace() {
        let _ = engine.edit(&Edit::Add(word.as_bytes(), None))?;
    }
    Ok(engine)
}

/// Whether an engine counts so many words.
fn counts<E: Searchable>(engine: &E, tally: Tally) -> bool {
    let (light, position, byte, count) = tally;
    let board = Board::new(engine.grid(), engine.lights());
    if light >= board.light_count() || position >= board.light(light).len() {
        return false;
    }
    match Letter::of(byte) {
        Some(letter) => engine.tally(light, position, letter) == count,
        None => false,
    }
}

fn counts_all<E: Searchable>(engine: &E, tallies: &[Tally]) -> bool {
    for tally in tallies {
        if !counts(engine, *tally) {
            return false;
        }
    }
    true
}

/// Enters O in the second cell.
fn enter_o<E: Searchable>(engine: &mut E)
    ensures { IsTwin (E.state engine.old) (E.state engine.new) }
{
    let _ = engine.edit(&Edit::Set(Cell { row: 1, col: 2 }, Letter::capital(b'O')));
}

/// Whether an engine goes back to the empty grid and forth again.
fn goes_back<E: Searchable>(alloc: Global) -> Result<bool, Refusal> {
    let mut engine: E = opened(alloc)?;
    let mut kept = engine.snapshot()?;
    let mut passes = counts_all(&engine, EMPTY);
    enter_o(&mut engine);
    passes &= counts_all(&engine, WITH_O);
    engine.exchange(&mut kept);
    passes &= counts_all(&engine, EMPTY);
    engine.exchange(&mut kept);
    passes &= counts_all(&engine, WITH_O);
    engine.save(&mut kept);
    engine.exchange(&mut kept);
    Ok(passes && counts_all(&engine, WITH_O))
}

/// Leaves out the words below a grade.
fn choose_least<E: Searchable>(engine: &mut E, grade: u8)
    ensures { CanSave (E.state engine.old) (E.state engine.new) }
{
    let _ = engine.edit(&Edit::Least(grade));
}

/// Whether an engine goes back to a state that was saved in a snapshot of another least grade, and finds its words
/// there, also after a letter came and went.
fn goes_back_at_a_grade<E: Searchable>(alloc: Global) -> Result<bool, Refusal> {
    let mut engine: E = opened(alloc)?;
    let _ = engine.edit(&Edit::Add(b"RAT", Some(10)))?;
    let mut kept = engine.snapshot()?;
    let mut passes = !counts_all(&engine, EMPTY);
    choose_least(&mut engine, 50);
    engine.save(&mut kept);
    enter_o(&mut engine);
    passes &= counts_all(&engine, WITH_O);
    engine.exchange(&mut kept);
    passes &= counts_all(&engine, EMPTY);
    enter_o(&mut engine);
    let _ = engine.edit(&Edit::Clear(Cell { row: 1, col: 2 }))?;
    Ok(passes && counts_all(&engine, EMPTY))
}

#[test]
fn plain_goes_back(rt: HostRuntime) {
    assert!(rt; goes_back::<Plain>(rt.alloc()) == Ok(true));
}

#[test]
fn live_goes_back(rt: HostRuntime) {
    assert!(rt; goes_back::<Live>(rt.alloc()) == Ok(true));
}

#[test]
fn plain_goes_back_at_a_grade(rt: HostRuntime) {
    assert!(rt; goes_back_at_a_grade::<Plain>(rt.alloc()) == Ok(true));
}

#[test]
fn live_goes_back_at_a_grade(rt: HostRuntime) {
    assert!(rt; goes_back_at_a_grade::<Live>(rt.alloc()) == Ok(true));
}
