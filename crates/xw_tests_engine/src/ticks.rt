//! Worked examples of the ticks that the engine counts for edits: no fewer than what has to be read, and no more than an
//! edit may cost.
use std::process::Abort;
use xw_feas::edit::{Edit, Refusal};
use xw_grid::cell::Cell;
use xw_grid::grid::Grid;
use xw_letters::letter::Letter;
use xw_live::live::Live;
use xw_words::bank::Bank;

/// How many words of three letters there are. A tick reads 64 of them, so it takes 3 ticks to look at one letter of all.
const WORDS: usize = 130;

/// The most that an edit of the only light may cost. To revive it: for each of its 3 positions, and for which words are
/// active, 3 ticks. To strip it: for each position 100 for each 64 words, 4 for each word, and 1.
const COST: u64 = (3 + 1) * 3 + 3 * (100 * 3 + 4 * 130 + 1);

/// Columns of the light, each with the letter to enter there and the ticks that it takes at least. The first one takes a
/// look at one letter of all words, the second one at the five words with that letter. Every word ends in the third one,
/// so it needs no look.
const LETTERS: [(u32, u8, u64); 3] = [(1, b'C', 3), (2, b'B', 1), (3, b'S', 0)];

/// The word at an index of AAS, BAS and so on to ZAS, and ABS to ZES.
fn word(index: usize) -> [u8; 3] {
    let letters = b"ABCDEFGHIJKLMNOPQRSTUVWXYZ";
    [letters[index % 26], letters[index / 26 % 26], b'S']
}

/// An engine with one light of three cells.
fn opened(rt: &(impl Abort + AllocGlobal)) -> Result<Live, Refusal> {
    let grid = Grid::new(rt.alloc(), 3, 1)?;
    let mut bank = Bank::new(rt.alloc())?;
    for index in 0..WORDS {
        assert!(rt; bank.add(&word(index), None).is_ok());
    }
    Live::new(rt.alloc(), grid, bank)
}

/// The ticks that it takes to enter a letter in a cell of the row.
fn ticks_for(engine: &mut Live, col: u32, letter: Letter) -> Result<Option<u64>, Refusal> {
    let before = engine.spent();
    engine.edit_counted(&Edit::Set(Cell { row: 1, col }, letter))?;
    Ok(engine.spent().checked_sub(before))
}

#[test]
fn letters_take_ticks(rt: HostRuntime) -> Result<(), Refusal> {
    let mut engine = opened(&rt)?;
    for (col, byte, least) in LETTERS {
        let letter = Letter::of(byte).expect(&rt, "it is a letter");
        let ticks = ticks_for(&mut engine, col, letter)?;
        assert!(rt;
            matches!(ticks, Some(count) if least <= count && count <= COST),
            "wrong number of ticks for letter {col}"
        );
    }
    Ok(())
}
