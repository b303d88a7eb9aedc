//! Saved states of the engine, the levels of a search, and the number of its words by letter.
ghost use Rattle.std.specs.Prelude.{◌≡◌, ◌<◌, ◌≤◌, ℕ, suc, true, false, [], ◌∷◌, ◌++◌, length, slice_index, slice_index_or, Ok, IfSome, IfNone, OnOk, OnErr, if◌then◌else◌};
ghost use Rattle.xw_words.specs.Dictionary.{with_least};
ghost use Rattle.xw_grid.specs.EditLaws.{SameShape};
ghost use Rattle.xw_grid.specs.Light.{lights_of};
ghost use Rattle.xw_feas.specs.Board.{board_of, light_at};
ghost use Rattle.xw_feas.specs.Choices.{choice_at, choices};
ghost use Rattle.xw_feas.specs.Count.{number};
ghost use Rattle.xw_feas.specs.Single.{IsWellFormed-prop};
ghost use Rattle.xw_feas.specs.State.{after, letter_set, known_placed, known_count};
ghost use Rattle.xw_feas.specs.Trying.{MayTryLetter, IsDeadLight, IsTried, levels_after};
ghost use Rattle.xw_feas.specs.WellFormed.{IsWellFormed};
ghost use Rattle.xw_plain.specs.Stands.{stands_with};

use crate::plain::{Plain, settle_position};
use std::alloc::AllocError;
use std::snapshot::Snapshot;
use xw_feas::board::Board;
use xw_feas::feasible::Feasible;
use xw_feas::searchable::Searchable;
use xw_grid::cell::Cell;
use xw_grid::grid::Grid;
use xw_letters::letter::Letter;
use xw_letters::letter_set::LetterSet;
use xw_words::bank::Bank;

/// A saved grid, and the least grade of an active word. `bank` takes no memory: it tells the prover the dictionary.
#[derive(Drop)]
pub struct Saved {
    pub(crate) grid: Grid,
    pub(crate) least: u8,
    pub(crate) bank: Snapshot<Bank>,
    ghost formed: { IsWellFormed (record { grid = grid; words = bank.value.words }) } by { IsWellFormed-prop (record { grid = grid; words = bank.value.words }) },
    ghost same_least: { least ≡ bank.value.words.least },
}

impl Plain {
    ghost use Rattle.xw_plain.specs.Plain.{state_of, levels_of};

    /// The letter at a position of a word of a light, by its index; the word that the letters of
    /// the light spell comes after all known words.
    fn letter_of(&self, light: usize, choice: usize, position: usize) -> Letter
        requires light { light < length (lights_of self.now.position.grid) }
        requires choice { choice < length (choices (board_of self.now.position.grid) self.now.position.bank.words (light_at (board_of self.now.position.grid) light)) }
        requires position { position < length (light_at (board_of self.now.position.grid) light) }
        ensures { result ≡ slice_index (choice_at (board_of self.now.position.grid) self.now.position.bank.words light choice) position }
    {
        let board = Board::new(&self.position.grid, &self.position.lights);
        let cells = board.light(light);
        if choice < self.position.bank.known(cells.len()) {
            self.position.bank.word(cells.len(), choice)[position]
        } else {
            board.letter(cells.at(position))
        }
    }

    /// 1 if a word of a light, by its index, is feasible and has the letter at a position; otherwise 0.
    fn count_choice(&self, light: usize, choice: usize, position: usize, letter: Letter) -> usize
        requires light { light < length (lights_of self.now.position.grid) }
        requires choice { choice < length (choices (board_of self.now.position.grid) self.now.position.bank.words (light_at (board_of self.now.position.grid) light)) }
        requires position { position < length (light_at (board_of self.now.position.grid) light) }
        ensures small { result ≤ 1 }
        ensures count { result ≡ (if stands_with (board_of self.now.position.grid) self.now.position.bank.words self.now.words.items light choice position letter then 1 else 0) }
    {
        let row = &self.words[light];
        if row.at(choice) && self.letter_of(light, choice, position).byte() == letter.byte() {
            1
        } else {
            0
        }
    }

    /// Keeps the grid as a level. If an allocation fails, changes nothing.
    fn keep_level(&mut self) -> Result<(), AllocError>
        ensures state { state_of self.new ≡ state_of self.old }
        ensures levels { OnOk result (levels_of self.new ≡ levels_of self.old ++ state_of self.old ∷ []) }
        ensures none { OnErr result (levels_of self.new ≡ levels_of self.old) }
        ensures placed { self.new.placed ≡ self.old.placed }
    {
        let Ok(grid) = self.position.grid.copy() else {
            return Err(AllocError);
        };
        self.levels.push(grid)?;
        Ok(())
    }

    /// Enters a letter, and counts a placement.
    fn enter_letter(&mut self, cell: Cell, letter: Letter)
        requires { MayTryLetter (state_of self.old) cell letter }
        ensures made { after (state_of self.old) (letter_set cell letter) ≡ Ok (state_of self.new) }
        ensures levels { levels_of self.new ≡ levels_of self.old }
        ensures placed { number self.new.placed ≡ suc (number self.old.placed) }
    {
        self.position.enter(cell, Some(letter));
        settle_position(&self.position, &mut self.words, &mut self.letters);
        self.placed.raise();
    }

    /// Places a known word in a light, both by index, and counts a placement.
    pub(crate) fn enter_word(&mut self, light: usize, index: usize)
        requires light { light < length (lights_of (state_of self.old).grid) }
        requires index { index < known_count (state_of self.old) light }
        ensures made { after (state_of self.old) (known_placed (state_of self.old) light index) ≡ Ok (state_of self.new) }
        ensures levels { levels_of self.new ≡ levels_of self.old }
        ensures placed { number self.new.placed ≡ suc (number self.old.placed) }
    {
        self.position.place_known(light, index);
        settle_position(&self.position, &mut self.words, &mut self.letters);
        self.placed.raise();
    }

    /// Takes the last level back.
    fn take_back(&mut self)
        requires { 0 < length (levels_of self.old) }
        ensures back { levels_of self.old ≡ levels_of self.new ++ state_of self.new ∷ [] }
        ensures placed { self.new.placed ≡ self.old.placed }
    {
        if let Some(mut grid) = self.levels.pop() {
            let least = self.position.bank.least();
            self.take_state(&mut grid, least);
        }
    }

    /// Exchanges the grid for one of the same shape, and chooses a least grade.
    fn take_state(&mut self, grid: &mut Grid, least: u8)
        requires { SameShape (state_of self.old).grid grid.old }
        ensures now { state_of self.new ≡ record { grid = grid.old; words = with_least least (state_of self.old).words } }
        ensures before { grid.new ≡ (state_of self.old).grid }
        ensures levels { self.new.levels ≡ self.old.levels }
        ensures placed { self.new.placed ≡ self.old.placed }
    {
        self.position.exchange(grid);
        self.position.choose_least(least);
        settle_position(&self.position, &mut self.words, &mut self.letters);
    }

    /// Whether a light is watched and has no feasible word.
    fn is_dead(&self, light: usize, watched: &[bool]) -> bool
        requires { light < length (lights_of (state_of self.now).grid) }
        ensures watched { result ≡ true → slice_index_or watched.now light false ≡ true }
        ensures dead { result ≡ true → IsDeadLight (state_of self.now) light }
        ensures alive { result ≡ false → slice_index_or watched.now light false ≡ true → IsDeadLight (state_of self.now) light → ⊥ }
    {
        if light >= watched.len() {
            return false;
        }
        if !watched[light] {
            return false;
        }
        self.word_count_at(light) == 0
    }

    /// The first watched light without a feasible word.
    fn dead_light(&self, watched: &[bool]) -> Option<usize>
        ensures watched { IfSome result (λ light. slice_index_or watched.now light false ≡ true) }
        ensures dead { IfSome result (IsDeadLight (state_of self.now)) }
        ensures alive { IfNone result ((light : ℕ) → slice_index_or watched.now light false ≡ true → IsDeadLight (state_of self.now) light → ⊥) }
    {
        for light in 0..self.words.len() {
            if self.is_dead(light, watched) {
                return Some(light);
            }
        }
        None
    }

    /// Takes the last level back if a watched light has no feasible word, and returns such a light.
    fn go_back_if_dead(&mut self, watched: &[bool]) -> Option<usize>
        requires { 0 < length (levels_of self.old) }
        ensures watched { IfSome result (λ light. slice_index_or watched.now light false ≡ true) }
        ensures dead { IfSome result (IsDeadLight (state_of self.old)) }
        ensures back { IfSome result (λ light. levels_of self.old ≡ levels_of self.new ++ state_of self.new ∷ []) }
        ensures alive { IfNone result ((light : ℕ) → slice_index_or watched.now light false ≡ true → IsDeadLight (state_of self.old) light → ⊥) }
        ensures same { IfNone result (self.new ≡ self.old) }
        ensures placed { self.new.placed ≡ self.old.placed }
    {
        let dead = self.dead_light(watched);
        if dead.is_some() {
            self.take_back();
        }
        dead
    }
}

impl Searchable for Plain {
    ghost use Rattle.xw_plain.specs.Plain.{state_of, levels_of};

    type Snapshot = Saved;

    ghost saved = { λ snapshot. record { grid = snapshot.grid; words = snapshot.bank.value.words } };

    ghost levels = { λ engine. levels_of engine };

    fn snapshot(&self) -> Result<Saved, AllocError> {
        Ok(Saved {
            grid: match self.position.grid.copy() {
                Ok(grid) => grid,
                Err(_) => return Err(AllocError),
            },
            least: self.position.bank.least(),
            bank: Snapshot::of(&self.position.bank),
        })
    }

    fn save(&self, snapshot: &mut Saved) {
        snapshot.grid.copy_from(&self.position.grid);
        snapshot.least = self.position.bank.least();
        snapshot.bank = Snapshot::of(&self.position.bank);
    }

    fn exchange(&mut self, snapshot: &mut Saved) {
        let least = self.position.bank.least();
        let bank = Snapshot::of(&self.position.bank);
        let saved = snapshot.least;
        self.take_state(&mut snapshot.grid, saved);
        snapshot.least = least;
        snapshot.bank = bank;
    }

    fn begin_search(&mut self) {
        self.levels.clear();
    }

    fn try_letter(
        &mut self,
        cell: Cell,
        letter: Letter,
        watched: &[bool],
    ) -> Result<Option<usize>, AllocError> {
        self.keep_level()?;
        self.enter_letter(cell, letter);
        Ok(self.go_back_if_dead(watched))
    }

    fn try_word(
        &mut self,
        light: usize,
        index: usize,
        watched: &[bool],
    ) -> Result<Option<usize>, AllocError> {
        self.keep_level()?;
        self.enter_word(light, index);
        Ok(self.go_back_if_dead(watched))
    }

    fn back_level(&mut self) {
        self.take_back();
    }

    fn tally(&self, light: usize, position: usize, letter: Letter) -> usize {
        let row = &self.words[light];
        let mut total = 0;
        for choice in 0..row.len() {
            total += self.count_choice(light, choice, position, letter);
        }
        total
    }

    fn promises(
        &self,
        light: usize,
        position: usize,
        letters: LetterSet,
        weighted: bool,
    ) -> [u64; 26] {
        let _ = weighted;
        let mut promises = [0; 26];
        for index in 0..26 {
            let letter = Letter::at(index);
            if letters.has(letter) {
                promises[index as usize] = self.tally(light, position, letter) as u64;
            }
        }
        promises
    }

    fn emptied(&self) -> Option<usize> {
        None
    }
}
