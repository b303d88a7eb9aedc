//! Counts and weighs the words of a light by letter.
ghost use Rattle.std.specs.Prelude.{◌≡◌, ◌*◌, ◌^◌, ◌<◌, ◌≤◌, ◌&&◌, ◌==◌, length, if◌then◌else◌};
ghost use Rattle.xw_words.specs.Dictionary.{known_words};
ghost use Rattle.xw_net.specs.Tally.{row_tally};

use crate::net::Net;
use xw_bits::bit_row::BitRow;
use xw_feas::board::Board;
use xw_grid::grid::Grid;
use xw_grid::lights::Lights;
use xw_letters::letter::Letter;
use xw_letters::letter_set::LetterSet;
use xw_words::bank::Bank;
use xw_words::counted::Counted;
use xw_words::rows::Rows;

/// The most words of a light that are weighed one by one.
const FEW_WEIGHED: usize = 128;

/// The number of words in a chunk of the row that have the letter at the position.
fn count_chunk<R: Rows>(
    rows: &mut R,
    row: &BitRow,
    len: usize,
    position: usize,
    letter: Letter,
    chunk: usize,
) -> usize
    requires { 64 * chunk < length row.now.bits }
    ensures entries { R.entries rows.new ≡ R.entries rows.old }
    ensures tally { result ≡ row_tally row.now.bits (R.entries rows.old len) position letter (64 * chunk) 64 }
    ensures small { result ≤ 64 }
{
    let words = row.chunk(chunk);
    if words == 0 {
        return 0;
    }
    let with_letter = words & rows.column(len, position, letter, chunk);
    with_letter.count_ones() as usize
}

/// The number of words of the row that have the letter at the position.
fn count_row<R: Rows>(
    rows: &mut R,
    row: &BitRow,
    len: usize,
    position: usize,
    letter: Letter,
) -> usize
    ensures tally { result ≡ row_tally row.now.bits (R.entries rows.old len) position letter 0 (length row.now.bits) }
    ensures small { result < 2 ^ 58 }
{
    let _ = row.len();
    let mut total = 0;
    let mut from = 0;
    while let Some(chunk) = row.next_chunk(from) {
        total += count_chunk(rows, row, len, position, letter, chunk);
        from = chunk + 1;
    }
    total
}

/// 1 if the entered word of a light is in the net and has the letter, else 0.
fn count_entered(entered: bool, here: u8, letter: u8) -> usize
    ensures { result ≡ (if entered && (here == letter) then 1 else 0) }
{
    if entered && here == letter { 1 } else { 0 }
}

/// Adds to the weight of a letter.
fn add_weight(weights: &mut [u64; 26], letter: Letter, more: u64) {
    let index = (letter.byte() - b'A') as usize;
    weights[index] = weights[index].saturating_add(more);
}

/// The weight of a word; 1 if words are counted.
fn weigh_word(bank: &Bank, len: usize, index: usize, weighted: bool) -> u64 {
    if weighted { bank.weight(len, index) } else { 1 }
}

/// The weights of the words of a row by their letter at a position, or their numbers: the words are read one by one.
fn weigh_words(bank: &Bank, row: &BitRow, len: usize, position: usize, weighted: bool) -> [u64; 26]
    requires words { length row.now.bits ≤ length (known_words bank.now.words len) }
    requires position { position < len }
{
    let mut weights = [0; 26];
    let mut from = 0;
    while let Some(index) = row.next_one(from) {
        let weight = weigh_word(bank, len, index, weighted);
        add_weight(&mut weights, bank.word(len, index)[position], weight);
        from = index + 1;
    }
    weights
}

/// The weight of the words of a row that have the letter at the position, or their number.
fn weigh_letter(
    bank: &Bank,
    row: &BitRow,
    len: usize,
    position: usize,
    letter: Letter,
    weighted: bool,
) -> u64 {
    if weighted {
        bank.weigh(len, position, letter, row)
    } else {
        count_row(&mut Counted::new(bank, 0), row, len, position, letter) as u64
    }
}

/// The weights of the words of a row that have the letters of a set at a position, or their numbers: the columns are read one
/// by one.
fn weigh_letters(
    bank: &Bank,
    row: &BitRow,
    len: usize,
    position: usize,
    letters: LetterSet,
    weighted: bool,
) -> [u64; 26] {
    let mut weights = [0; 26];
    let mut from = 0;
    while let Some(index) = letters.next_index(from) {
        let letter = Letter::at(index);
        let weight = weigh_letter(bank, row, len, position, letter, weighted);
        add_weight(&mut weights, letter, weight);
        from = index + 1;
    }
    weights
}

impl Net {
    ghost use Rattle.std.specs.Prelude.{◌≡◌, ◌<◌, length};
    ghost use Rattle.xw_grid.specs.Light.{lights_of};
    ghost use Rattle.xw_feas.specs.Board.{board_of, light_at};
    ghost use Rattle.xw_net.specs.Net.{IsSettledFor, IsSettledOver};
    ghost use Rattle.xw_net.specs.Tally.{net_tally};

    /// The number of words of a light that have the letter at a position.
    pub fn tally(
        &self,
        grid: &Grid,
        lights: &Lights,
        bank: &Bank,
        light: usize,
        position: usize,
        letter: Letter,
    ) -> usize
        requires lights { lights.now ≡ lights_of grid.now }
        requires settled { ∥ IsSettledFor (record { grid = grid.now; words = bank.now.words }) self.now ∥₁ }
        requires light { light < length lights.now }
        requires position { position < length (light_at (board_of grid.now) light) }
        ensures { result ≡ net_tally (record { grid = grid.now; words = bank.now.words }) self.now light position letter }
    {
        let board = Board::new(grid, lights);
        let cells = board.light(light);
        let mut rows = Counted::new(bank, 0);
        let row = &self.rows[light];
        let listed = count_row(&mut rows, row, cells.len(), position, letter);
        let here = board.letter(cells.at(position));
        listed + count_entered(self.entered[light], here.byte(), letter.byte())
    }

    /// For each letter of a set, by its index in the alphabet, the number of words of a light that have it at a position or, if
    /// `weighted`, their weight. Where the light has few words, it reads them one by one. It is a hint for a search; the
    /// contract promises nothing.
    pub fn promises(
        &self,
        board: &Board<'_>,
        bank: &Bank,
        light: usize,
        position: usize,
        letters: LetterSet,
        weighted: bool,
    ) -> [u64; 26]
        requires settled { IsSettledOver board.now bank.now.words self.now }
        requires light { light < length board.now.lights }
        requires position { position < length (light_at board.now light) }
    {
        let cells = board.light(light);
        let row = &self.rows[light];
        let mut weights = if row.count() <= FEW_WEIGHED {
            weigh_words(bank, row, cells.len(), position, weighted)
        } else {
            weigh_letters(bank, row, cells.len(), position, letters, weighted)
        };
        if self.entered[light] {
            let here = board.letter(cells.at(position));
            add_weight(&mut weights, here, 1);
        }
        weights
    }
}
