//! The base words of a light, as a row of bits with one bit for each known word of the light's
//! length.
ghost use Rattle.std.specs.Prelude.{◌≡◌, ℕ, ◌+◌, ◌*◌, ◌<◌, ◌≤◌, ◌&&◌, true, false, length, slice_index, slice_index_or, Some, IfSome, IfNone};
ghost use Rattle.xw_bits.specs.Bits.{has_bit};
ghost use Rattle.xw_words.specs.Columns.{is_active};
ghost use Rattle.xw_words.specs.Dictionary.{entry_at};
ghost use Rattle.xw_feas.specs.Board.{light_at, entry, is_wholly_entered};
ghost use Rattle.xw_net.specs.Base.{KeepsAgreeing, KeepsEntry, IsLongAt, is_agreeing, is_base_word, has_entry, AreOfLength, row_cost, base_row, IsRowOf, IsRowBut, IsRightBut, WasRow, WasBase};
ghost use Rattle.xw_net.specs.Region.{chunks_of};
ghost use Rattle.xw_net.specs.Spread.{bits_in};
ghost use Rattle.xw_net.specs.Filled.{AreLong};
ghost use Rattle.xw_net.specs.Worklist.{is_marked, HasLights};
ghost use Rattle.xw_net.specs.Room.{KeepRoom};
ghost use Rattle.xw_net.specs.Brought.{HasBase, AreRead, CostsAtMost};
ghost use Rattle.xw_net.specs.Begin.{is_long as spec_is_long, is_read as spec_is_read};

use crate::worklist::Worklist;
use xw_bits::bit_row::BitRow;
use xw_feas::board::{Board, Cells, has_all_entries};
use xw_letters::letter_set::LetterSet;
use xw_words::rows::Rows;

/// A bit for each word of a chunk: whether it has the letter of the light's cell at a position. If
/// the cell is empty, all bits are set.
fn agreeing_in<R: Rows>(
    rows: &mut R,
    board: &Board<'_>,
    cells: &Cells,
    position: usize,
    chunk: usize,
) -> u64
    requires { position < length cells.now }
    ensures entries { R.entries rows.new ≡ R.entries rows.old }
    ensures risen { R.ticks rows.old ≤ R.ticks rows.new }
    ensures words { (k : ℕ) → k < 64 → has_bit result k ≡ has_entry (entry board.now (slice_index cells.now position)) (R.entries rows.old (length cells.now)) position (64 * chunk + k) }
    ensures cost { R.ticks rows.new ≤ R.ticks rows.old + 1 }
{
    match board.entry(cells.at(position)) {
        None => u64::MAX,
        Some(letter) => rows.column(cells.len(), position, letter, chunk),
    }
}

/// A bit for each word of a chunk: whether it is active and agrees with the letters in the light's
/// cells.
fn base_in<R: Rows>(rows: &mut R, board: &Board<'_>, cells: &Cells, chunk: usize) -> u64
    requires { AreOfLength (R.entries rows.old) (length cells.now) }
    ensures entries { R.entries rows.new ≡ R.entries rows.old }
    ensures risen { R.ticks rows.old ≤ R.ticks rows.new }
    ensures words { (k : ℕ) → k < 64 → has_bit result k ≡ is_agreeing board.now cells.now (R.entries rows.old) (64 * chunk + k) }
    ensures cost { R.ticks rows.new ≤ R.ticks rows.old + (length cells.now + 1) }
{
    let mut words = rows.active(cells.len(), chunk);
    for position in 0..cells.len() {
        if words == 0 {
            return 0;
        }
        words &= agreeing_in(rows, board, cells, position, chunk);
    }
    words
}

/// A bit for each word of a chunk: whether it is a base word. If every cell of the light has a
/// letter, it reads nothing.
fn base_chunk<R: Rows>(
    rows: &mut R,
    board: &Board<'_>,
    cells: &Cells,
    entered: bool,
    chunk: usize,
) -> u64
    requires long { AreOfLength (R.entries rows.old) (length cells.now) }
    requires entered { entered ≡ is_wholly_entered board.now cells.now }
    ensures entries { R.entries rows.new ≡ R.entries rows.old }
    ensures risen { R.ticks rows.old ≤ R.ticks rows.new }
    ensures words { (k : ℕ) → k < 64 → has_bit result k ≡ is_base_word board.now cells.now (entry_at (R.entries rows.old (length cells.now)) (64 * chunk + k)) }
    ensures cost { R.ticks rows.new ≤ R.ticks rows.old + (length cells.now + 1) }
    ensures unread { entered ≡ true → R.ticks rows.new ≡ R.ticks rows.old }
{
    if entered {
        0
    } else {
        base_in(rows, board, cells, chunk)
    }
}

/// Keeps the words that have the letter of the light's cell at a position. Does nothing if the cell
/// is empty.
fn keep_agreeing<R: Rows>(
    rows: &mut R,
    board: &Board<'_>,
    cells: &Cells,
    position: usize,
    row: &mut BitRow,
)
    requires position { position < length cells.now }
    requires row { length row.old.bits ≡ length (R.entries rows.old (length cells.now)) }
    ensures entries { R.entries rows.new ≡ R.entries rows.old }
    ensures risen { R.ticks rows.old ≤ R.ticks rows.new }
    ensures len { length row.new.bits ≡ length row.old.bits }
    ensures bits { KeepsAgreeing board.now cells.now (R.entries rows.old) position row.old.bits row.new.bits }
    ensures room { row.new.room ≡ row.old.room }
    ensures cost { R.ticks rows.new ≤ R.ticks rows.old + chunks_of (length row.old.bits) }
{
    if let Some(letter) = board.entry(cells.at(position)) {
        rows.keep_columns(cells.len(), position, LetterSet::only(letter), row);
    }
}

/// Sets the bits of the known words that are active and agree with the letters in the light's
/// cells.
fn read_open<R: Rows>(rows: &mut R, board: &Board<'_>, cells: &Cells, row: &mut BitRow)
    requires long { AreOfLength (R.entries rows.old) (length cells.now) }
    requires row { length row.old.bits ≡ length (R.entries rows.old (length cells.now)) }
    ensures entries { R.entries rows.new ≡ R.entries rows.old }
    ensures risen { R.ticks rows.old ≤ R.ticks rows.new }
    ensures len { length row.new.bits ≡ length row.old.bits }
    ensures bits { (i : ℕ) → slice_index_or row.new.bits i false ≡ is_agreeing board.now cells.now (R.entries rows.old) i }
    ensures room { row.new.room ≡ row.old.room }
    ensures cost { R.ticks rows.new ≤ R.ticks rows.old + (length cells.now + 1) * chunks_of (length row.old.bits) }
{
    rows.read_active(cells.len(), row);
    for position in 0..cells.len() {
        keep_agreeing(rows, board, cells, position, row);
    }
}

/// Sets the bits of a light's base words, and counts them. If every cell of the light has a letter,
/// it reads nothing.
pub fn read_base<R: Rows>(rows: &mut R, board: &Board<'_>, light: usize, row: &mut BitRow)
    requires light { light < length board.now.lights }
    requires long { IsLongAt board.now (R.entries rows.old) light }
    requires bits { IsRowOf board.now (R.entries rows.old) light row.old.bits }
    ensures entries { R.entries rows.new ≡ R.entries rows.old }
    ensures risen { R.ticks rows.old ≤ R.ticks rows.new }
    ensures bits { row.new.bits ≡ base_row board.now (R.entries rows.old) light }
    ensures room { row.new.room ≡ row.old.room }
    ensures cost { R.ticks rows.new ≤ R.ticks rows.old + row_cost board.now light (length row.old.bits) }
    ensures unread { is_wholly_entered board.now (light_at board.now light) ≡ true → R.ticks rows.new ≡ R.ticks rows.old }
{
    let cells = board.light(light);
    if has_all_entries(board, &cells) {
        row.clear();
        row.keep_count();
    } else {
        read_open(rows, board, &cells, row);
        row.keep_count();
    }
}

/// Updates the chunk of a base row that has the word at this index.
fn read_chunk<R: Rows>(
    rows: &mut R,
    board: &Board<'_>,
    light: usize,
    index: usize,
    row: &mut BitRow,
)
    requires light { light < length board.now.lights }
    requires long { IsLongAt board.now (R.entries rows.old) light }
    requires bits { IsRowOf board.now (R.entries rows.old) light row.old.bits }
    ensures entries { R.entries rows.new ≡ R.entries rows.old }
    ensures risen { R.ticks rows.old ≤ R.ticks rows.new }
    ensures len { length row.new.bits ≡ length row.old.bits }
    ensures bits { IsRightBut board.now (R.entries rows.old) light index row.old.bits → row.new.bits ≡ base_row board.now (R.entries rows.old) light }
    ensures room { row.new.room ≡ row.old.room }
    ensures cost { R.ticks rows.new ≤ R.ticks rows.old + row_cost board.now light (length row.old.bits) }
{
    if index >= row.len() {
        return;
    }
    let cells = board.light(light);
    let entered = has_all_entries(board, &cells);
    let words = base_chunk(rows, board, &cells, entered, index / 64);
    row.set_chunk(index / 64, words);
}

/// Keeps the words that have the letter of a cell, at each position of the light with this cell.
fn keep_entry<R: Rows>(
    rows: &mut R,
    board: &Board<'_>,
    cells: &Cells,
    cell: usize,
    row: &mut BitRow,
)
    requires row { length row.old.bits ≡ length (R.entries rows.old (length cells.now)) }
    ensures entries { R.entries rows.new ≡ R.entries rows.old }
    ensures risen { R.ticks rows.old ≤ R.ticks rows.new }
    ensures len { length row.new.bits ≡ length row.old.bits }
    ensures bits { KeepsEntry board.now cells.now (R.entries rows.old) cell (length cells.now) row.old.bits row.new.bits }
    ensures room { row.new.room ≡ row.old.room }
    ensures cost { R.ticks rows.new ≤ R.ticks rows.old + length cells.now * chunks_of (length row.old.bits) }
{
    for position in 0..cells.len() {
        if cells.at(position) != cell {
            continue;
        }
        keep_agreeing(rows, board, cells, position, row);
    }
}

/// Updates the base row of a light after an empty cell got a letter: it keeps the words that have
/// this letter there.
pub(crate) fn read_filled<R: Rows>(
    rows: &mut R,
    board: &Board<'_>,
    cell: usize,
    light: usize,
    row: &mut BitRow,
)
    requires light { light < length board.now.lights }
    requires long { IsLongAt board.now (R.entries rows.old) light }
    requires bits { IsRowOf board.now (R.entries rows.old) light row.old.bits }
    ensures entries { R.entries rows.new ≡ R.entries rows.old }
    ensures risen { R.ticks rows.old ≤ R.ticks rows.new }
    ensures len { length row.new.bits ≡ length row.old.bits }
    ensures bits { WasRow board.now (R.entries rows.old) cell light row.old.bits → row.new.bits ≡ base_row board.now (R.entries rows.old) light }
    ensures room { row.new.room ≡ row.old.room }
    ensures cost { R.ticks rows.new ≤ R.ticks rows.old + row_cost board.now light (length row.old.bits) }
{
    let cells = board.light(light);
    if has_all_entries(board, &cells) {
        row.clear();
        row.keep_count();
    } else {
        keep_entry(rows, board, &cells, cell, row);
        row.keep_count();
    }
}

/// The index of the changed word, if that word has length `len`.
pub(crate) fn index_if_long(word: Option<(usize, usize)>, len: usize) -> Option<usize>
    ensures found { IfSome result (λ index. word ≡ Some (len, index)) }
    ensures none { IfNone result ((index : ℕ) → word ≡ Some (len, index) → ⊥) }
{
    match word {
        Some((long, index)) if long == len => Some(index),
        _ => None,
    }
}

/// Updates a base row: only the chunk of the changed word if that has the light's length, else the
/// whole row.
fn read_changed<R: Rows>(
    rows: &mut R,
    board: &Board<'_>,
    word: Option<(usize, usize)>,
    light: usize,
    row: &mut BitRow,
)
    requires light { light < length board.now.lights }
    requires long { IsLongAt board.now (R.entries rows.old) light }
    requires bits { IsRowOf board.now (R.entries rows.old) light row.old.bits }
    ensures entries { R.entries rows.new ≡ R.entries rows.old }
    ensures risen { R.ticks rows.old ≤ R.ticks rows.new }
    ensures len { length row.new.bits ≡ length row.old.bits }
    ensures bits { IsRowBut board.now (R.entries rows.old) word light row.old.bits → row.new.bits ≡ base_row board.now (R.entries rows.old) light }
    ensures room { row.new.room ≡ row.old.room }
    ensures cost { R.ticks rows.new ≤ R.ticks rows.old + row_cost board.now light (length row.old.bits) }
{
    match index_if_long(word, board.light(light).len()) {
        Some(index) => read_chunk(rows, board, light, index, row),
        None => read_base(rows, board, light, row),
    }
}

/// Updates a base row. If the edit only filled an empty cell, it reads one column.
pub(crate) fn read_row<R: Rows>(
    rows: &mut R,
    board: &Board<'_>,
    word: Option<(usize, usize)>,
    filled: Option<usize>,
    light: usize,
    row: &mut BitRow,
)
    requires light { light < length board.now.lights }
    requires long { IsLongAt board.now (R.entries rows.old) light }
    requires bits { IsRowOf board.now (R.entries rows.old) light row.old.bits }
    ensures entries { R.entries rows.new ≡ R.entries rows.old }
    ensures risen { R.ticks rows.old ≤ R.ticks rows.new }
    ensures len { length row.new.bits ≡ length row.old.bits }
    ensures bits { IsRowBut board.now (R.entries rows.old) word light row.old.bits → WasBase board.now (R.entries rows.old) filled light row.old.bits → row.new.bits ≡ base_row board.now (R.entries rows.old) light }
    ensures room { row.new.room ≡ row.old.room }
    ensures cost { R.ticks rows.new ≤ R.ticks rows.old + row_cost board.now light (length row.old.bits) }
{
    match filled {
        Some(cell) => read_filled(rows, board, cell, light, row),
        None => read_changed(rows, board, word, light, row),
    }
}

/// Whether the changed word has the light's length. Without a changed word it does not look up the
/// length.
fn is_long(board: &Board<'_>, word: Option<(usize, usize)>, light: usize) -> bool
    requires { light < length board.now.lights }
    ensures { result ≡ spec_is_long word (length (light_at board.now light)) }
{
    match word {
        Some((long, _)) => long == board.light(light).len(),
        None => false,
    }
}

/// Whether the edit can have changed the base row of a light.
fn is_read(board: &Board<'_>, word: Option<(usize, usize)>, list: &Worklist, light: usize) -> bool
    requires light { light < length board.now.lights }
    requires list { light < length list.now.marks }
    ensures { result ≡ spec_is_read board.now word (is_marked list.now.marks) light }
{
    list.contains(light) || is_long(board, word, light)
}

/// Updates the base row of each light that is marked or has the length of the changed word.
pub fn read_marked<R: Rows>(
    rows: &mut R,
    board: &Board<'_>,
    word: Option<(usize, usize)>,
    filled: Option<usize>,
    list: &Worklist,
    base: &mut [BitRow],
)
    requires long { AreLong board.now (R.entries rows.old) }
    requires list { HasLights board.now list.now }
    requires base { HasBase board.now (R.entries rows.old) base.old }
    ensures entries { R.entries rows.new ≡ R.entries rows.old }
    ensures risen { R.ticks rows.old ≤ R.ticks rows.new }
    ensures base { HasBase board.now (R.entries rows.old) base.new }
    ensures on { AreRead board.now (R.entries rows.old) word filled (spec_is_read board.now word (is_marked list.now.marks)) base.old base.new }
    ensures off { (light : ℕ) → spec_is_read board.now word (is_marked list.now.marks) light ≡ false → bits_in base.new light ≡ bits_in base.old light }
    ensures row_room { KeepRoom base.old base.new }
    ensures cost { CostsAtMost board.now (R.entries rows.old) (spec_is_read board.now word (is_marked list.now.marks)) (R.ticks rows.old) (R.ticks rows.new) }
{
    for light in 0..board.light_count() {
        if !is_read(board, word, list, light) {
            continue;
        }
        read_row(rows, board, word, filled, light, &mut base[light]);
    }
}
