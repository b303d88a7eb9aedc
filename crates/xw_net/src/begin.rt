//! The start of an update: finds the lights that an edit touches directly. It queues the lights
//! that may lose words or letters, and marks as seeds the lights that may gain some.
ghost use Rattle.std.specs.Prelude.{◌≡◌, ℕ, ◌+◌, ◌*◌, ◌^◌, ◌<◌, ◌≤◌, true, false, ◌&&◌, Contains, Option, length};
ghost use Rattle.xw_grid.specs.declared.cell.Cell.{Cell as SpecCell};
ghost use Rattle.xw_grid.specs.Grid.{index_of, is_inside};
ghost use Rattle.xw_feas.specs.Board.{light_at};
ghost use Rattle.xw_feas.specs.Feasible.{may_stand};
ghost use Rattle.xw_feas.specs.Flags.{set_has};
ghost use Rattle.xw_net.specs.Spread.{AreAsLong, IsThrough, KeepsSpread, bits_in, OtherCellsStay};
ghost use Rattle.xw_net.specs.Begin.{IsEdited, StaysEdited, EditsCells, HasLength, IsQueuedSeed, IsConcerned, may_have, is_seed as spec_is_seed, has_changed, is_read, AreNarrowed, Prepares};
ghost use Rattle.xw_net.specs.Brought.{HasBase, CostsAtMost};
ghost use Rattle.xw_net.specs.Filled.{AreLong};
ghost use Rattle.xw_net.specs.Room.{KeepRoom};
ghost use Rattle.xw_net.specs.Worklist.{is_marked, Grows, Adds, MarksOnly, HasLights};
ghost use Rattle.xw_net.specs.Marks.{AreByCell};

use crate::base::read_marked;
use crate::narrow::narrow_row;
use crate::seeds::{free_cell, mark_through};
use crate::spread::letters_allowed;
use crate::worklist::Worklist;
use xw_bits::bit_row::BitRow;
use xw_feas::board::{Board, has_all_entries};
use xw_grid::cell::Cell;
use xw_grid::grid::Grid;
use xw_letters::letter::Letter;
use xw_letters::letter_set::LetterSet;
use xw_words::rows::Rows;

/// Removes from a cell the letters that it no longer allows.
pub(crate) fn narrow_cell(board: &Board<'_>, cell: usize, letters: &mut [LetterSet])
    requires cell { cell < length letters.old }
    ensures len { length letters.new ≡ length letters.old }
    ensures here { (letter : ℕ) → set_has letters.new cell letter ≡ (set_has letters.old cell letter && may_stand board.now cell letter) }
    ensures others { OtherCellsStay cell letters.old letters.new }
{
    letters[cell] = letters[cell].common(letters_allowed(board, cell));
}

/// Updates the letters of an edited cell, and queues the lights through it. If the cell was empty
/// and has a letter now, it only loses letters. Otherwise it gets all letters that it allows, and
/// the lights through it become seeds.
fn edit_cell(
    board: &Board<'_>,
    cell: usize,
    old: Option<Letter>,
    letters: &mut [LetterSet],
    queue: &mut Worklist,
    chain: &mut Worklist,
)
    requires cell { cell < length board.now.open_cells }
    requires letters { AreByCell board.now letters.old }
    requires queue { HasLights board.now queue.old }
    requires chain { HasLights board.now chain.old }
    ensures len { length letters.new ≡ length letters.old }
    ensures queue { Adds (IsThrough board.now cell) queue.old queue.new }
    ensures grows { Grows chain.old chain.new }
    ensures within { MarksOnly (IsThrough board.now cell) chain.old chain.new }
    ensures edited { IsEdited board.now (set_has letters.new) (is_marked queue.new.marks) (is_marked chain.new.marks) cell old }
    ensures stays { (other : ℕ) (entry : Option ℕ) → StaysEdited board.now letters.old queue.old chain.old letters.new queue.new chain.new other entry }
    ensures spread { KeepsSpread board.now letters.old chain.old letters.new chain.new }
{
    mark_through(board, cell, queue);
    if old.is_none() && board.entry(cell).is_some() {
        narrow_cell(board, cell, letters);
    } else {
        free_cell(board, cell, letters, chain);
    }
}

/// The index of a cell inside the grid.
pub(crate) fn index_in(grid: &Grid, cell: Cell) -> usize
    requires { is_inside grid.now cell ≡ true }
    ensures index { result ≡ index_of grid.now cell }
    ensures within { result < length grid.now.squares }
{
    match grid.index(cell) {
        Some(index) => index,
        None => unreachable!(),
    }
}

/// Calls `edit_cell` for each cell that an edit wrote. The cells come with their entry before the
/// edit.
pub(crate) fn edit_cells(
    grid: &Grid,
    board: &Board<'_>,
    cells: &[(Cell, Option<Letter>)],
    letters: &mut [LetterSet],
    queue: &mut Worklist,
    chain: &mut Worklist,
)
    requires cells { length grid.now.squares ≡ length board.now.open_cells }
    requires inside { (listed : SpecCell × Option ℕ) → Contains cells.now listed → is_inside grid.now listed.0 ≡ true }
    requires letters { AreByCell board.now letters.old }
    requires queue { HasLights board.now queue.old }
    requires chain { HasLights board.now chain.old }
    ensures { EditsCells grid.now board.now cells.now letters.old queue.old chain.old letters.new queue.new chain.new }
{
    for at in 0..cells.len() {
        let (cell, old) = cells[at];
        let cell = index_in(grid, cell);
        edit_cell(board, cell, old, letters, queue, chain);
    }
}

/// Whether the changed word has this length and is in the row, or is the last known word or past
/// the end of the row.
fn may_have_word(word: Option<(usize, usize)>, len: usize, row: &BitRow) -> bool
    ensures { result ≡ may_have word len row.now.bits }
{
    match word {
        Some((long, index)) => {
            long == len && (row.len() <= index || row.len() - 1 == index || row.has(index))
        }
        None => false,
    }
}

/// Whether a queued light is a seed: it has a letter in every cell, or the changed word may be a
/// base word of it.
fn is_seed(board: &Board<'_>, word: Option<(usize, usize)>, base: &[BitRow], light: usize) -> bool
    requires light { light < length board.now.lights }
    requires base { light < length base.now }
    ensures { result ≡ spec_is_seed board.now word (light_at board.now light) (bits_in base.now light) }
{
    let cells = board.light(light);
    has_all_entries(board, &cells) || may_have_word(word, cells.len(), &base[light])
}

/// Removes from each queued light the words that are not base words, and marks it if it is a seed.
fn touch_lights(
    board: &Board<'_>,
    word: Option<(usize, usize)>,
    base: &[BitRow],
    queue: &Worklist,
    rows: &mut [BitRow],
    chain: &mut Worklist,
)
    requires base { length board.now.lights ≤ length base.now }
    requires queue { HasLights board.now queue.now }
    requires rows { length board.now.lights ≤ length rows.old }
    requires bits { AreAsLong board.now rows.old base.now }
    requires chain { HasLights board.now chain.old }
    ensures len { length rows.new ≡ length rows.old }
    ensures row_room { KeepRoom rows.old rows.new }
    ensures on { AreNarrowed board.now word base.now (is_marked queue.now.marks) rows.old rows.new }
    ensures off { (light : ℕ) → is_marked queue.now.marks light ≡ false → bits_in rows.new light ≡ bits_in rows.old light }
    ensures chain { Adds (IsQueuedSeed board.now word base.now queue.now) chain.old chain.new }
{
    for light in 0..board.light_count() {
        if !queue.contains(light) {
            continue;
        }
        narrow_row(board, word, base, light, rows);
        if !is_seed(board, word, base, light) {
            continue;
        }
        chain.insert(light);
    }
}

/// Whether the changed word may be a base word of a light of this length, or may be among its words
/// in the net.
fn has_changed_word(word: Option<(usize, usize)>, len: usize, base: &BitRow, words: &BitRow) -> bool
    ensures { result ≡ has_changed word len base.now.bits words.now.bits }
{
    may_have_word(word, len, base) || may_have_word(word, len, words)
}

/// Queues the lights that the changed word may concern.
fn queue_changed(
    board: &Board<'_>,
    word: Option<(usize, usize)>,
    base: &[BitRow],
    words: &[BitRow],
    queue: &mut Worklist,
)
    requires base { length board.now.lights ≤ length base.now }
    requires words { length board.now.lights ≤ length words.now }
    requires queue { HasLights board.now queue.old }
    ensures { Adds (IsConcerned board.now word base.now words.now) queue.old queue.new }
{
    if word.is_none() {
        return;
    }
    for light in 0..board.light_count() {
        let len = board.light(light).len();
        if !has_changed_word(word, len, &base[light], &words[light]) {
            continue;
        }
        queue.insert(light);
    }
}

/// Updates the base rows as far as they can have changed, queues the lights that the changed word
/// may concern, and removes from the queued lights the words that are not base words. Marks as
/// seeds the lights that may get words back.
pub(crate) fn prepare<R: Rows>(
    rows: &mut R,
    board: &Board<'_>,
    word: Option<(usize, usize)>,
    filled: Option<usize>,
    queue: &mut Worklist,
    base: &mut [BitRow],
    words: &mut [BitRow],
    chain: &mut Worklist,
)
    requires long { AreLong board.now (R.entries rows.old) }
    requires base { HasBase board.now (R.entries rows.old) base.old }
    requires queue { HasLights board.now queue.old }
    requires words { HasBase board.now (R.entries rows.old) words.old }
    requires chain { HasLights board.now chain.old }
    ensures entries { R.entries rows.new ≡ R.entries rows.old }
    ensures risen { R.ticks rows.old ≤ R.ticks rows.new }
    ensures base { HasBase board.now (R.entries rows.old) base.new }
    ensures words { HasBase board.now (R.entries rows.old) words.new }
    ensures words_room { KeepRoom words.old words.new }
    ensures base_room { KeepRoom base.old base.new }
    ensures queue { Grows queue.old queue.new }
    ensures queued_within { MarksOnly (HasLength board.now word) queue.old queue.new }
    ensures chain { Grows chain.old chain.new }
    ensures within { MarksOnly (λ light. is_marked queue.new.marks light ≡ true) chain.old chain.new }
    ensures prepared { Prepares board.now (R.entries rows.old) word filled words.old words.new base.old base.new queue.new chain.new }
    ensures cost { CostsAtMost board.now (R.entries rows.old) (is_read board.now word (is_marked queue.new.marks)) (R.ticks rows.old) (R.ticks rows.new) }
{
    read_marked(rows, board, word, filled, queue, base);
    queue_changed(board, word, base, words, queue);
    touch_lights(board, word, base, queue, words, chain);
}
