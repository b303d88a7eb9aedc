//! Computes the feasible words and letters: starts with all base words and allowed letters, and
//! removes those without support until nothing changes.
ghost use Rattle.std.specs.Prelude.{◌≡◌, ◌<◌, ◌≤◌, ◌+◌, length, All, IsTrue, IsFalse, ◌↔◌, ◌&&◌, ℕ, slice_index, slice_index_or, [], false, if◌then◌else◌};
ghost use Rattle.xw_feas.specs.Board.{agrees, allows, is_wholly_entered, spelled, light_at};
ghost use Rattle.xw_feas.specs.Known.{spellings};
ghost use Rattle.xw_feas.specs.Choices.{choices, base_flags, HasLetters, SupportsLight, SupportsItself, IsExact};
ghost use Rattle.xw_feas.specs.Flags.{flag_at, set_has, standing_count};
ghost use Rattle.xw_letters.specs.LetterSet.{has};
ghost use Rattle.xw_feas.specs.Standing.{HasRows, HasWordWith, KeepsLettersBelow, StripsUnsupported};
ghost use Rattle.xw_feas.specs.Feasible.{may_stand, AreAnswers};
ghost use Rattle.xw_feas.specs.AnswersOf.{answers_of};
ghost use Rattle.xw_feas.specs.WellFormed.{HasLetterEntries};
ghost use Rattle.xw_plain.specs.Stands.{AreStripped};

use crate::flags::Flags;
use xw_feas::board::{Board, Cells, allowed, has_all_entries};
use xw_letters::letter::Letter;
use xw_letters::letter_set::LetterSet;
use xw_words::bank::Bank;

/// Whether a cell with this entry allows the letter.
fn allowed_by(entry: Option<Letter>, letter: Letter) -> bool
    ensures { result ≡ allows entry letter }
{
    match entry {
        None => true,
        Some(entered) => entered.byte() == letter.byte(),
    }
}

/// Whether each cell allows the word's letter at its position.
#[tactic(auto, using(xw_feas::proofs::BoardLemmas::agrees_more))]
fn agrees_with(board: &Board<'_>, cells: &Cells, word: &[Letter]) -> bool
    requires { length word.now ≡ length cells.now }
    ensures { result ≡ agrees board.now cells.now word.now }
{
    for position in 0..cells.len() {
        if !allowed_by(board.entry(cells.at(position)), word[position]) {
            return false;
        }
    }
    true
}

/// The letter at a position of a choice: of a known word, or of the entered word.
fn choice_letter(
    board: &Board<'_>,
    bank: &Bank,
    cells: &Cells,
    choice: usize,
    position: usize,
) -> Letter
    requires choice { choice ≤ length (spellings bank.now.words (length cells.now)) }
    requires position { position < length cells.now }
    ensures { result ≡ slice_index (slice_index_or (choices board.now bank.now.words cells.now) choice []) position }
{
    if choice < bank.known(cells.len()) {
        bank.word(cells.len(), choice)[position]
    } else {
        board.letter(cells.at(position))
    }
}

/// Whether a choice is a base word of the light with these cells.
#[tactic(auto, using(xw_feas::proofs::ChoicesLemmas::base_steps))]
fn is_base(board: &Board<'_>, bank: &Bank, cells: &Cells, entered: bool, choice: usize) -> bool
    requires choice { choice ≤ length (spellings bank.now.words (length cells.now)) }
    requires entered { entered ≡ is_wholly_entered board.now cells.now }
    ensures { result ≡ slice_index_or (base_flags board.now bank.now.words cells.now) choice false }
{
    if choice < bank.known(cells.len()) {
        !entered
            && bank.is_active(cells.len(), choice)
            && agrees_with(board, cells, bank.word(cells.len(), choice))
    } else {
        entered
    }
}

/// Sets the flags of the light's base words, and clears all others.
fn reset_words(board: &Board<'_>, bank: &Bank, cells: &Cells, words: &mut Flags)
    requires { length words.old ≡ length (spellings bank.now.words (length cells.now)) + 1 }
    ensures { words.new ≡ base_flags board.now bank.now.words cells.now }
{
    let entered = has_all_entries(board, cells);
    for choice in 0..words.len() {
        words.set(choice, is_base(board, bank, cells, entered, choice));
    }
}

/// Whether each letter of the choice is set at its cell.
fn has_letters(
    board: &Board<'_>,
    bank: &Bank,
    cells: &Cells,
    choice: usize,
    letters: &[LetterSet],
) -> bool
    requires choice { choice ≤ length (spellings bank.now.words (length cells.now)) }
    requires in_board { All (λ cell. cell < length letters.now) cells.now }
    ensures { IsTrue result ↔ HasLetters (set_has letters.now) cells.now (slice_index_or (choices board.now bank.now.words cells.now) choice []) }
{
    for position in 0..cells.len() {
        let letter = choice_letter(board, bank, cells, choice, position);
        if !letters[cells.at(position)].has(letter) {
            return false;
        }
    }
    true
}

/// Removes the words with a letter that is not set at its cell. Returns whether it removed any.
#[tactic(auto, using(crate::proofs::FlagsLemmas::strike))]
fn strip_words(
    board: &Board<'_>,
    bank: &Bank,
    cells: &Cells,
    words: &mut Flags,
    letters: &[LetterSet],
) -> bool
    requires long { length words.old ≡ length (spellings bank.now.words (length cells.now)) + 1 }
    requires in_board { All (λ cell. cell < length letters.now) cells.now }
    ensures long { length words.new ≡ length words.old }
    ensures kept { AreStripped board.now bank.now.words cells.now letters.now words.old words.new }
    ensures fewer { standing_count words.new + (if result then 1 else 0) ≤ standing_count words.old }
    ensures same { IsFalse result → words.new ≡ words.old }
{
    let mut removed = false;
    for choice in 0..words.len() {
        if words.at(choice) && !has_letters(board, bank, cells, choice, letters) {
            words.set(choice, false);
            removed = true;
        }
    }
    removed
}

/// The letters that the light's words have at a position.
fn letters_seen(
    board: &Board<'_>,
    bank: &Bank,
    cells: &Cells,
    words: &Flags,
    position: usize,
) -> LetterSet
    requires long { length words.now ≡ length (spellings bank.now.words (length cells.now)) + 1 }
    requires position { position < length cells.now }
    ensures each { (choice : ℕ) →
        IsTrue (slice_index_or words.now choice false) →
        IsTrue (has result (slice_index (slice_index_or (choices board.now bank.now.words cells.now) choice []) position)) }
    ensures no_other { (letter : ℕ) →
        IsTrue (has result letter) →
        HasWordWith words.now (choices board.now bank.now.words cells.now) position letter }
{
    let mut seen = LetterSet::new();
    for choice in 0..words.len() {
        if words.at(choice) {
            seen.insert(choice_letter(board, bank, cells, choice, position));
        }
    }
    seen
}

/// Intersects `set` with `other`. Returns whether that removed a letter.
fn keep_common(set: &mut LetterSet, other: LetterSet) -> bool
    ensures flags { (letter : ℕ) →
        has set.new letter ≡ (has set.old letter && has other letter) }
    ensures fewer { set.new + (if result then 1 else 0) ≤ set.old }
    ensures same { IsFalse result → set.new ≡ set.old }
{
    let common = set.common(other);
    let removed = !common.is_same(*set);
    *set = common;
    removed
}

/// Removes the letters at the light's cells that none of its words has there. Returns whether it
/// removed any.
fn strip_letters(
    board: &Board<'_>,
    bank: &Bank,
    cells: &Cells,
    words: &Flags,
    letters: &mut [LetterSet],
) -> bool
    requires long { length words.now ≡ length (spellings bank.now.words (length cells.now)) + 1 }
    requires in_board { All (λ cell. cell < length letters.old) cells.now }
    ensures { KeepsLettersBelow words.now (choices board.now bank.now.words cells.now) cells.now letters.old letters.new result (length cells.now) }
{
    let mut removed = false;
    for position in 0..cells.len() {
        let seen = letters_seen(board, bank, cells, words, position);
        let cell = cells.at(position);
        let set = &mut letters[cell];
        let lacks_words = keep_common(set, seen);
        removed |= lacks_words;
    }
    removed
}

/// Removes the words and letters without support in one light. Returns whether it removed any.
fn strip_light(
    board: &Board<'_>,
    bank: &Bank,
    light: usize,
    words: &mut [Flags],
    letters: &mut [LetterSet],
) -> bool
    requires light { light < length board.now.lights }
    requires rows { HasRows board.now bank.now.words words.old letters.old }
    ensures strips { StripsUnsupported board.now bank.now.words words.old letters.old words.new letters.new result }
    ensures supported { IsFalse result → SupportsLight board.now bank.now.words (flag_at words.new) (set_has letters.new) light }
{
    let cells = board.light(light);
    let row = &mut words[light];
    let lacks_letters = strip_words(board, bank, &cells, row, letters);
    let lacks_words = strip_letters(board, bank, &cells, row, letters);
    lacks_letters | lacks_words
}

/// Makes one pass over all lights that removes words and letters without support. Returns whether
/// it removed any.
fn strip_all(board: &Board<'_>, bank: &Bank, words: &mut [Flags], letters: &mut [LetterSet]) -> bool
    requires { HasRows board.now bank.now.words words.old letters.old }
    ensures strips { StripsUnsupported board.now bank.now.words words.old letters.old words.new letters.new result }
    ensures supported { IsFalse result → SupportsItself board.now bank.now.words (flag_at words.new) (set_has letters.new) }
{
    let mut removed = false;
    for light in 0..board.light_count() {
        removed |= strip_light(board, bank, light, words, letters);
    }
    removed
}

/// Sets all base words of each light, and all letters that each cell allows.
fn reset(board: &Board<'_>, bank: &Bank, words: &mut [Flags], letters: &mut [LetterSet])
    requires { HasRows board.now bank.now.words words.old letters.old }
    ensures rows { HasRows board.now bank.now.words words.new letters.new }
    ensures words { (light : ℕ) →
        light < length board.now.lights →
        slice_index_or words.new light [] ≡ base_flags board.now bank.now.words (light_at board.now light) }
    ensures letters { (cell letter : ℕ) →
        set_has letters.new cell letter ≡ may_stand board.now cell letter }
    ensures entries { HasLetterEntries board.now }
{
    for light in 0..board.light_count() {
        let row = &mut words[light];
        reset_words(board, bank, &board.light(light), row);
    }
    for cell in 0..board.cell_count() {
        letters[cell] = allowed(board.is_open(cell), board.entry(cell));
    }
}

/// Computes the feasible words and letters.
pub fn settle(board: &Board<'_>, bank: &Bank, words: &mut [Flags], letters: &mut [LetterSet])
    requires { HasRows board.now bank.now.words words.old letters.old }
    ensures rows { HasRows board.now bank.now.words words.new letters.new }
    ensures exact { IsExact board.now bank.now.words (flag_at words.new) (set_has letters.new) }
    ensures answers { AreAnswers board.now bank.now.words (answers_of board.now bank.now.words words.new letters.new) }
    ensures entries { HasLetterEntries board.now }
{
    reset(board, bank, words, letters);
    let mut removed = true;
    while removed {
        removed = strip_all(board, bank, words, letters);
    }
}
