//! Removes from a light the words that are no longer base words after an edit.
ghost use Rattle.std.specs.Prelude.{◌≡◌, ℕ, ◌<◌, ◌≤◌, length, Some};
ghost use Rattle.xw_net.specs.Begin.{IsNarrowedRow, IsNarrowed};
ghost use Rattle.xw_net.specs.Room.{KeepRoom};
ghost use Rattle.xw_net.specs.Spread.{OtherRowsStay, IsAsLong};

use crate::base::index_if_long;
use xw_bits::bit_row::BitRow;
use xw_feas::board::Board;

/// Removes, from the chunk of the word at this index, the words that are not base words.
fn narrow_at(base: &BitRow, index: usize, row: &mut BitRow)
    requires { length row.old.bits ≡ length base.now.bits }
    ensures room { row.new.room ≡ row.old.room }
    ensures narrowed { (len : ℕ) → IsNarrowedRow (Some (len, index)) len row.old.bits base.now.bits row.new.bits }
{
    let chunk = index / 64;
    if 64 * chunk >= row.len() {
        return;
    }
    let left = row.chunk(chunk) & base.chunk(chunk);
    row.set_chunk(chunk, left);
}

/// Removes the words that are not base words, and counts those that are left. If the changed word has the light's length, it only
/// processes that word's chunk.
pub(crate) fn narrow(word: Option<(usize, usize)>, len: usize, base: &BitRow, row: &mut BitRow)
    requires { length row.old.bits ≡ length base.now.bits }
    ensures room { row.new.room ≡ row.old.room }
    ensures narrowed { IsNarrowedRow word len row.old.bits base.now.bits row.new.bits }
{
    match index_if_long(word, len) {
        Some(index) => narrow_at(base, index, row),
        None => {
            row.and(base);
            row.keep_count();
        }
    }
}

/// Narrows the row of one light in the array of all rows.
pub(crate) fn narrow_row(
    board: &Board<'_>,
    word: Option<(usize, usize)>,
    base: &[BitRow],
    light: usize,
    rows: &mut [BitRow],
)
    requires light { light < length board.now.lights }
    requires base { light < length base.now }
    requires rows { light < length rows.old }
    requires bits { IsAsLong light rows.old base.now }
    ensures len { length rows.new ≡ length rows.old }
    ensures row_room { KeepRoom rows.old rows.new }
    ensures here { IsNarrowed board.now word light base.now rows.old rows.new }
    ensures others { OtherRowsStay light rows.old rows.new }
{
    narrow(
        word,
        board.light(light).len(),
        &base[light],
        &mut rows[light],
    );
}
