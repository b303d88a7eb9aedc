//! The interface of an engine that a search for a fill can use.
ghost use Rattle.std.specs.Prelude.{◌≡◌, suc, ◌<◌, [], ◌∷◌, ◌++◌, List, length, IfOk, OnOk, OnErr};
ghost use Rattle.xw_grid.specs.Light.{lights_of};
ghost use Rattle.xw_feas.specs.Board.{board_of, light_at};
ghost use Rattle.xw_feas.specs.Snapshot.{CanSave};
ghost use Rattle.xw_feas.specs.State.{State, letter_set, known_placed};
ghost use Rattle.xw_feas.specs.Trying.{IsTried, MayTryLetter, MayTryWord, levels_after};
ghost use Rattle.xw_feas.specs.Queries.{tally_of};

use crate::feasible::Feasible;
use crate::progress::News;
use std::alloc::AllocError;
use xw_grid::cell::Cell;
use xw_letters::letter::Letter;
use xw_letters::letter_set::LetterSet;

/// An engine that a search can use: it tries letters and words, goes back, returns to saved states, and weighs letters.
///
/// A search places letters and words one after another, and takes the last one back. Each placement is a level. The engine keeps
/// what it needs for the way back, and may allocate for it. Any other change forgets the levels.
///
/// A snapshot holds a grid with its feasible words and letters. Its memory is allocated once; after that, saving a
/// state in it and returning to that state allocate nothing.
pub trait Searchable: Feasible {
    /// A saved state, with its answers.
    type Snapshot: Drop;

    /// The grid and the dictionary of a snapshot.
    ghost saved: { Self.Snapshot → State };

    /// The states before the placements that `back_level` takes back, the last one last.
    ghost levels: { Self → List State };

    /// Creates a snapshot of the state.
    fn snapshot(&self) -> Result<Self::Snapshot, AllocError>
        ensures { IfOk result (λ snapshot. saved snapshot ≡ Self.state self.now) };

    /// Saves the state in a snapshot, in place of the one it holds. The least grade may have changed since.
    fn save(&self, snapshot: &mut Self::Snapshot)
        requires { CanSave (saved snapshot.old) (Self.state self.now) }
        ensures saved { saved snapshot.new ≡ Self.state self.now };

    /// Returns to the saved state and its least grade. The snapshot then holds the state before.
    fn exchange(&mut self, snapshot: &mut Self::Snapshot)
        requires { CanSave (saved snapshot.old) (Self.state self.old) }
        ensures now { Self.state self.new ≡ saved snapshot.old }
        ensures saved { saved snapshot.new ≡ Self.state self.old }
        ensures placed { Self.placed self.new ≡ Self.placed self.old };

    /// Begins a search at the current state: forgets all levels.
    fn begin_search(&mut self)
        ensures state { Self.state self.new ≡ Self.state self.old }
        ensures levels { Self.levels self.new ≡ [] }
        ensures placed { Self.placed self.new ≡ Self.placed self.old };

    /// Enters a feasible letter in an empty cell, as a level. If this leaves a watched light without a feasible word, returns such
    /// a light instead, and changes nothing. Both count as a placement. Returns an error if an allocation fails, and then
    /// changes nothing.
    fn try_letter(
        &mut self,
        cell: Cell,
        letter: Letter,
        watched: &[bool],
    ) -> Result<Option<usize>, AllocError>
        requires { MayTryLetter (Self.state self.old) cell letter }
        ensures tried { IfOk result (λ dead. IsTried (Self.state self.old) (letter_set cell letter) watched.now dead (Self.state self.new)) }
        ensures same { OnErr result (Self.state self.new ≡ Self.state self.old) }
        ensures levels { Self.levels self.new ≡ levels_after (Self.levels self.old) (Self.state self.old) result }
        ensures placed { OnOk result (Self.placed self.new ≡ suc (Self.placed self.old)) }
        ensures none { OnErr result (Self.placed self.new ≡ Self.placed self.old) };

    /// Enters a feasible known word in a light, both by index, as `try_letter` enters a letter.
    fn try_word(
        &mut self,
        light: usize,
        index: usize,
        watched: &[bool],
    ) -> Result<Option<usize>, AllocError>
        requires { MayTryWord (Self.state self.old) light index }
        ensures tried { IfOk result (λ dead. IsTried (Self.state self.old) (known_placed (Self.state self.old) light index) watched.now dead (Self.state self.new)) }
        ensures same { OnErr result (Self.state self.new ≡ Self.state self.old) }
        ensures levels { Self.levels self.new ≡ levels_after (Self.levels self.old) (Self.state self.old) result }
        ensures placed { OnOk result (Self.placed self.new ≡ suc (Self.placed self.old)) }
        ensures none { OnErr result (Self.placed self.new ≡ Self.placed self.old) };

    /// Takes the last placement back.
    fn back_level(&mut self)
        requires { 0 < length (Self.levels self.old) }
        ensures back { Self.levels self.old ≡ Self.levels self.new ++ Self.state self.new ∷ [] }
        ensures placed { Self.placed self.new ≡ Self.placed self.old };

    /// The number of feasible words of a light, by its index, that have the letter at a position.
    fn tally(&self, light: usize, position: usize, letter: Letter) -> usize
        requires light { light < length (lights_of (Self.state self.now).grid) }
        requires position { position < length (light_at (board_of (Self.state self.now).grid) light) }
        ensures { result ≡ tally_of (Self.answers self.now) light position letter };

    /// For each letter of a set, by its index in the alphabet, how promising it is at a position of a light, which is given by
    /// index: the number of feasible words that have it there or, if `weighted`, their weight. A word of a better grade weighs
    /// more. It is a hint for a search; the contract promises nothing.
    fn promises(
        &self,
        light: usize,
        position: usize,
        letters: LetterSet,
        weighted: bool,
    ) -> [u64; 26]
        requires light { light < length (lights_of (Self.state self.now).grid) }
        requires position { position < length (light_at (board_of (Self.state self.now).grid) light) };

    /// The index of the first light that the engine found without a word during the last edit. It is a hint for a
    /// search; the contract promises nothing.
    fn emptied(&self) -> Option<usize>;

    /// Is told how far a search is. Nothing changes by it.
    fn tell(&self, news: News) {
        let _ = news;
    }
}
