//! The letters of the words of a row, read word by word. Where a row has few words, this takes less time than a search
//! for a word with each letter. No tick counts these reads, so they are for searches only.
ghost use Rattle.std.specs.Prelude.{◌≡◌, ℕ, ◌+◌, ◌<◌, ◌≤◌, ◌||◌, true, false, length, slice_get, IfSome, IfNone};
ghost use Rattle.xw_letters.specs.LetterSet.{has};
ghost use Rattle.xw_words.specs.Columns.{letter_is};
ghost use Rattle.xw_words.specs.Dictionary.{known_words};
ghost use Rattle.xw_feas.specs.Flags.{set_has};
ghost use Rattle.xw_net.specs.Inner.Passed.{AreLettersOf};

use crate::light_position::{LightPosition, Positions};
use crate::net::Net;
use xw_bits::bit_row::BitRow;
use xw_feas::board::Board;
use xw_letters::letter::Letter;
use xw_letters::letter_set::LetterSet;
use xw_words::bank::Bank;

/// The most words of a light that are read one by one.
const FEW_WORDS: usize = 64;

/// The most cells of a light whose words are read one by one. Hardly any light has more.
const FEW_CELLS: usize = 32;

/// Adds each letter of a word to the set of its position.
fn add_letters(sets: &mut [LetterSet], word: &[Letter])
    requires { length word.now ≤ length sets.old }
    ensures len { length sets.new ≡ length sets.old }
    ensures added { (position letter : ℕ) → set_has sets.new position letter ≡ (set_has sets.old position letter || letter_is (slice_get word.now position) letter) }
{
    for position in 0..word.len() {
        sets[position].insert(word[position]);
    }
}

/// The letters that the words of a row have at each position. `len` is the length of the words.
fn letters_of(bank: &Bank, row: &BitRow, len: usize) -> [LetterSet; FEW_CELLS]
    requires row { length row.now.bits ≡ length (known_words bank.now.words len) }
    requires len { len ≤ 32 }
    ensures long { length result ≡ 32 }
    ensures letters { AreLettersOf row.now.bits (known_words bank.now.words len) result }
{
    let mut sets = [LetterSet::new(); FEW_CELLS];
    let mut from = 0;
    while let Some(index) = row.next_one(from) {
        add_letters(&mut sets, bank.word(len, index));
        from = index + 1;
    }
    sets
}

impl Net {
    ghost use Rattle.std.specs.Prelude.{◌≡◌, ℕ, ◌<◌, ◌≤◌, true, false, length, slice_index_or};
    ghost use Rattle.xw_words.specs.Dictionary.{known_words};
    ghost use Rattle.xw_feas.specs.Board.{light_at};
    ghost use Rattle.xw_net.specs.Marks.{cell_at};
    ghost use Rattle.xw_net.specs.Nets.{IsShaped, IsLeft, IsThere, left_of};
    ghost use Rattle.xw_net.specs.Steps.{IsStrippable, IsStep, IsCheck, IsStruckFrom, WaitMore, PendAtSlots, StandFewer, StandListed, ListsOn, AreLightHeld, ChecksOn};

    /// Removes from the cell at a position the letters that are not among `listed`.
    pub(crate) fn keep_listed(&mut self, board: &Board<'_>, here: LightPosition, listed: LetterSet)
        requires shaped { IsShaped board.now self.old }
        requires there { IsThere board.now here }
        ensures shaped { IsShaped board.now self.new }
        ensures rest { IsLeft self.old self.new }
        ensures same { IsStruckFrom self.old self.new }
        ensures fewer { left_of self.new ≤ left_of self.old }
        ensures waits { WaitMore self.old self.new }
        ensures pending { PendAtSlots board.now self.old self.new }
        ensures alive { StandFewer self.old self.new }
        ensures listed { StandListed (cell_at board.now here.light here.position) listed self.new }
        ensures kept { ListsOn board.now here.light here.position listed self.old self.new }
    {
        let gone = self.letters[here.cell].without(listed);
        if let Some(_) = gone.next_index(0) {
            self.drop_letters(board, here, gone, false);
        }
    }

    /// Whether a light has few words, none of them entered, and few cells.
    pub(crate) fn is_narrow(&self, board: &Board<'_>, light: usize) -> bool
        requires light { light < length board.now.lights }
        requires rows { light < length self.now.rows.items }
        requires entered { light < length self.now.entered.items }
        ensures open { result ≡ true → slice_index_or self.now.entered.items light false ≡ false }
        ensures short { result ≡ true → length (light_at board.now light) ≤ 32 }
    {
        if self.entered[light] || self.rows[light].count() > FEW_WORDS {
            return false;
        }
        if board.light(light).len() > FEW_CELLS {
            return false;
        }
        true
    }

    /// Checks each letter at each position of a light without an entered word: reads all words of the light, and removes
    /// the letters that none of them has. It costs no tick, whatever it reads.
    pub(crate) fn pass_light(&mut self, bank: &Bank, board: &Board<'_>, light: usize)
        requires net { IsStrippable board.now (known_words bank.now.words) self.old }
        requires light { light < length board.now.lights }
        requires open { slice_index_or self.old.entered.items light false ≡ false }
        requires short { length (light_at board.now light) ≤ 32 }
        ensures step { IsStep board.now (known_words bank.now.words) self.old self.new }
        ensures check { IsCheck board.now (known_words bank.now.words) self.old self.new }
        ensures same { IsStruckFrom self.old self.new }
        ensures held { AreLightHeld board.now (known_words bank.now.words) self.new light }
        ensures kept { (ticks : ℕ) → ChecksOn board.now (known_words bank.now.words) light self.old ticks self.new ticks }
    {
        let positions = Positions::of(board, light);
        let listed = letters_of(bank, &self.rows[light], positions.len());
        for position in 0..positions.len() {
            self.keep_listed(board, positions.at(position), listed[position]);
        }
    }
}
