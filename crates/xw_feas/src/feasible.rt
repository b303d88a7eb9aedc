//! The interface of an engine, and a function that runs a list of edits.
ghost use Rattle.std.specs.Prelude.{◌≡◌, ℕ, suc, ◌<◌, length, map, Ok, IfOk, IfErr, OnOk, OnErr};
ghost use Rattle.std.specs.Borrow.{sem};
ghost use Rattle.std.specs.Io.BufRead.{Rests};
ghost use Rattle.xw_letters.specs.LetterSet.{letters_in};
ghost use Rattle.xw_grid.specs.Light.{lights_of};
ghost use Rattle.xw_feas.specs.Board.{board_of};
ghost use Rattle.xw_feas.specs.Changes.{letters_of};
ghost use Rattle.xw_feas.specs.Feasible.{Answers, AreAnswers};
ghost use Rattle.xw_feas.specs.State.{State, IsAfter, action_of, after, known_placed, known_count};
ghost use Rattle.xw_feas.specs.Engine.{IsEdited};
ghost use Rattle.xw_feas.specs.Placings.{placed_after};
ghost use Rattle.xw_feas.specs.EngineState.{state_of};
ghost use Rattle.xw_feas.specs.WellFormed.{IsWellFormed};
ghost use Rattle.xw_feas.specs.Queries.{count_answer, next_answer, next_found, words_of, AreLetters};

use crate::changed::Changed;
use crate::edit::{Edit, Found, Refusal};
use crate::engine_state::EngineState;
use std::alloc::Global;
use xw_grid::cell::{Cell, LightName};
use xw_grid::fault::GridFault;
use xw_grid::grid::Grid;
use xw_grid::lights::Lights;
use xw_letters::letter_set::LetterSet;
use xw_words::bank::Bank;

/// An engine: it owns a grid and a dictionary, applies edits to them, and keeps the feasible words
/// and letters up to date.
pub trait Feasible: Drop {
    /// The grid and the dictionary.
    ghost state: { Self → State };

    /// The feasible words and letters.
    ghost answers: { Self → Answers };

    /// How many words and letters were placed.
    ghost placed: { Self → ℕ };

    /// Creates an engine for a grid and a dictionary. Returns `Memory` if an allocation fails.
    fn open(alloc: Global, grid: Grid, bank: Bank) -> Result<Self, Refusal>
        ensures ok { IfOk result (λ engine. state engine ≡ record { grid = grid; words = bank.words }) }
        ensures err { IfErr result (λ refusal. refusal ≡ Refusal.Grid GridFault.Memory) };

    /// Applies an edit, and returns an iterator over the cells whose feasible letters changed. A refused
    /// edit changes nothing. The refusals, and their order, are those of the edit of the grid or the
    /// dictionary; `Block`, `Bar` and `Add` of a new word may also return `Memory`.
    ///
    /// The iterator borrows the engine. In the contract, `now` is the engine once that borrow ends. After
    /// `Ok`, its grid and dictionary are those that the edit leads to, and the iterator yields exactly the
    /// open cells whose feasible letters changed, each with its new letters. After `Err`, nothing has
    /// changed. `Set` and `Place` count as a placement.
    fn edit(&mut self, edit: &Edit<'_>) -> Result<Changed<'_>, Refusal>
        ensures* edited { sem 𝓛 (Rests Self.row self.entry (λ now. IsEdited (state self.old) (answers self.old) (action_of edit.now) result (state now) (answers now) × (placed now ≡ placed_after (placed self.old) (action_of edit.now) result))) };

    /// Replaces the grid and keeps the dictionary. Returns `Memory` if an allocation fails, and then
    /// changes nothing.
    fn regrid(&mut self, grid: Grid) -> Result<(), Refusal>
        ensures ok { OnOk result (state self.new ≡ record { grid = grid; words = (state self.old).words }) }
        ensures err { IfErr result (λ refusal. refusal ≡ Refusal.Grid GridFault.Memory) }
        ensures same { OnErr result (state self.new ≡ state self.old) }
        ensures answers_same { OnErr result (answers self.new ≡ answers self.old) }
        ensures placed { placed self.new ≡ placed self.old };

    /// The grid with its lights, and the dictionary.
    fn position(&self) -> &EngineState
        ensures { state_of result.now ≡ state self.now };

    /// The number of feasible words of a light, by its index.
    fn word_count_at(&self, light: usize) -> usize
        requires { light < length (lights_of (state self.now).grid) }
        ensures { result ≡ length (words_of (answers self.now) light) };

    /// The first feasible word of a light, by its index, whose own index is at least `from`.
    fn next_word_at(&self, light: usize, from: usize) -> Option<Found>
        requires { light < length (lights_of (state self.now).grid) }
        ensures { result ≡ next_found (board_of (state self.now).grid) (state self.now).words (answers self.now) light from };

    /// The feasible letters of a cell, by its index.
    fn letters_at(&self, index: usize) -> LetterSet
        requires { index < length (state self.now).grid.squares }
        ensures { letters_of (answers self.now) index ≡ letters_in result };

    /// The grid.
    fn grid(&self) -> &Grid
        ensures { result.now ≡ (state self.now).grid }
    {
        &self.position().grid
    }

    /// The dictionary.
    fn bank(&self) -> &Bank
        ensures { result.now.words ≡ (state self.now).words }
    {
        &self.position().bank
    }

    /// The lights of the grid, in order.
    fn lights(&self) -> &Lights
        ensures { result.now ≡ lights_of (state self.now).grid }
    {
        &self.position().lights
    }

    /// The number of feasible words of a light. Returns `NoLight` if no light has this name.
    fn word_count(&self, name: LightName) -> Result<usize, Refusal>
        ensures { result ≡ count_answer (state self.now) (answers self.now) name }
    {
        match self.lights().index(name) {
            None => Err(Refusal::NoLight),
            Some(light) => Ok(self.word_count_at(light)),
        }
    }

    /// The first feasible word of a light whose index is at least `from`; the entered word of a
    /// filled light has index 0. Returns `NoLight` if no light has this name.
    fn next_word(&self, name: LightName, from: usize) -> Result<Option<Found>, Refusal>
        ensures { result ≡ next_answer (state self.now) (answers self.now) name from }
    {
        match self.lights().index(name) {
            None => Err(Refusal::NoLight),
            Some(light) => Ok(self.next_word_at(light, from)),
        }
    }

    /// The feasible letters of a cell. Returns `OutOfGrid`, then `OnBlock` if the cell is a block.
    fn letters(&self, cell: Cell) -> Result<LetterSet, Refusal>
        ensures { AreLetters (state self.now) (answers self.now) cell result }
    {
        let grid = self.grid();
        match grid.index(cell) {
            None => Err(Refusal::Grid(GridFault::OutOfGrid)),
            Some(_) if grid.is_block(cell) => Err(Refusal::Grid(GridFault::OnBlock)),
            Some(index) => Ok(self.letters_at(index)),
        }
    }

    /// Places a known word in a light. Both are given by index, the word by its index among the known words
    /// of the light's length. This always succeeds, and counts as a placement.
    fn place_word_at(&mut self, light: usize, index: usize)
        requires light { light < length (lights_of (state self.old).grid) }
        requires index { index < known_count (state self.old) light }
        ensures made { after (state self.old) (known_placed (state self.old) light index) ≡ Ok (state self.new) }
        ensures placed { placed self.new ≡ suc (placed self.old) };

    /// The answers are exactly the feasible words and letters of the current grid and dictionary.
    ghost exact: { (engine : Self) → AreAnswers (board_of (state engine).grid) (state engine).words (answers engine) };

    /// The grid and the dictionary satisfy their invariants.
    ghost well_formed: { (engine : Self) → IsWellFormed (state engine) };
}

/// Applies the edits in order, skips the refused ones, and returns their number.
pub fn run<E: Feasible>(engine: &mut E, edits: &[Edit<'_>]) -> u64
    ensures state { IsAfter (E.state engine.old) (map action_of edits.now) result (E.state engine.new) }
    ensures answers { AreAnswers (board_of (E.state engine.new).grid) (E.state engine.new).words (E.answers engine.new) }
{
    let mut refused = 0;
    for edit in edits {
        if engine.edit(edit).is_err() {
            refused += 1;
        }
    }
    refused
}
