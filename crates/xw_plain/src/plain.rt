//! An engine that computes all answers from scratch after each edit.
ghost use Rattle.std.specs.Prelude.{◌≡◌, length, All, IfOk, IfErr, OnErr, IsOkUnless, OnOk, Ok, Err};
ghost use Rattle.xw_grid.specs.EditLaws.{SameShape};
ghost use Rattle.xw_feas.specs.AnswersOf.{answers_of};
ghost use Rattle.xw_feas.specs.Board.{board_of};
ghost use Rattle.xw_feas.specs.Changed.{changes_left};
ghost use Rattle.xw_feas.specs.Changes.{changed_sets};
ghost use Rattle.xw_feas.specs.Choices.{IsExact};
ghost use Rattle.xw_feas.specs.Feasible.{AreAnswers};
ghost use Rattle.xw_feas.specs.Flags.{flag_at, set_has};
ghost use Rattle.xw_feas.specs.Pending.{pending_action, IsPending};
ghost use Rattle.xw_feas.specs.EngineState.{state_of as position_state_of};
ghost use Rattle.xw_feas.specs.Single.{IsExact-prop};
ghost use Rattle.xw_feas.specs.Standing.{HasRows};
ghost use Rattle.xw_feas.specs.State.{action_of, after, IsRefused};
ghost use Rattle.xw_plain.specs.Stands.{AreAnswered, AreAnswered-prop};

use crate::flags::Flags;
use crate::rows::{make_grid_rows, make_grown_rows};
use crate::standing::settle;
use std::alloc::Global;
use xw_feas::board::{Board, has_all_entries};
use xw_feas::changed::{Changed, make_grid_sets};
use xw_feas::count::Count;
use xw_feas::edit::{Edit, Found, Refusal};
use xw_feas::engine_state::EngineState;
use xw_feas::feasible::Feasible;
use xw_feas::notes::make_noted;
use xw_feas::pending::Pending;
use xw_grid::fault::GridFault;
use xw_grid::grid::Grid;
use xw_grid::lights::Lights;
use xw_letters::letter_set::LetterSet;
use xw_words::bank::Bank;

/// Computes the feasible words and letters of a position, whatever the arrays held before.
pub(crate) fn settle_position(
    position: &EngineState,
    words: &mut Vec<Flags>,
    letters: &mut Vec<LetterSet>,
)
    requires rows { HasRows (board_of position.now.grid) position.now.bank.words words.old.items letters.old.items }
    ensures rows { HasRows (board_of position.now.grid) position.now.bank.words words.new.items letters.new.items }
    ensures exact { IsExact (board_of position.now.grid) position.now.bank.words (flag_at words.new.items) (set_has letters.new.items) }
    ensures answers { AreAnswers (board_of position.now.grid) position.now.bank.words (answers_of (board_of position.now.grid) position.now.bank.words words.new.items letters.new.items) }
{
    settle(
        &Board::new(&position.grid, &position.lights),
        &position.bank,
        words,
        letters,
    );
}

/// Copies the letters to `before`, and then computes the feasible words and letters.
fn settle_anew(
    position: &EngineState,
    words: &mut Vec<Flags>,
    letters: &mut Vec<LetterSet>,
    before: &mut Vec<LetterSet>,
)
    requires rows { HasRows (board_of position.now.grid) position.now.bank.words words.old.items letters.old.items }
    requires before { length before.old.items ≡ length letters.old.items }
    ensures rows { HasRows (board_of position.now.grid) position.now.bank.words words.new.items letters.new.items }
    ensures exact { IsExact (board_of position.now.grid) position.now.bank.words (flag_at words.new.items) (set_has letters.new.items) }
    ensures answers { AreAnswers (board_of position.now.grid) position.now.bank.words (answers_of (board_of position.now.grid) position.now.bank.words words.new.items letters.new.items) }
    ensures before { before.new.items ≡ letters.old.items }
    ensures cells { length before.new.items ≡ length letters.new.items }
{
    before.as_mut_slice().copy_from_slice(letters);
    settle_position(position, words, letters);
}

/// An engine that computes all answers from scratch after each edit.
///
/// It keeps a flag for each word of each light, a set of letters for each cell, the sets from before the last edit, and the
/// grids before the placements of a search. `placed` takes no memory: it tells the prover how many words and letters were
/// placed.
#[derive(Drop)]
pub struct Plain {
    pub(crate) alloc: Global,
    pub(crate) position: EngineState,
    pub(crate) words: Vec<Flags>,
    pub(crate) letters: Vec<LetterSet>,
    before: Vec<LetterSet>,
    pub(crate) levels: Vec<Grid>,
    pub(crate) placed: Count,
    ghost rows: { HasRows (board_of position.grid) position.bank.words words.items letters.items },
    ghost exact: { IsExact (board_of position.grid) position.bank.words (flag_at words.items) (set_has letters.items) } by { IsExact-prop (board_of position.grid) position.bank.words (flag_at words.items) (set_has letters.items) },
    ghost answered: { AreAnswered (board_of position.grid) position.bank.words words.items letters.items } by { AreAnswered-prop (board_of position.grid) position.bank.words words.items letters.items },
    ghost same_cells: { length before.items ≡ length letters.items },
    ghost alike: { All (λ level. SameShape level position.grid) levels.items },
}

impl Plain {
    ghost use Rattle.xw_plain.specs.Plain.{state_of, IsDone, IsApplied};

    /// An engine for a grid and a dictionary. Returns `Memory` if an allocation fails.
    pub fn new(alloc: Global, grid: Grid, bank: Bank) -> Result<Plain, Refusal>
        ensures state { IfOk result (λ engine. state_of engine ≡ record { grid = grid; words = bank.words }) }
        ensures err { IfErr result (λ refusal. refusal ≡ Refusal.Grid GridFault.Memory) }
    {
        let letters = make_grid_sets(alloc, &grid)?;
        let before = make_grid_sets(alloc, &grid)?;
        let position = EngineState::new(alloc, grid, bank)?;
        let words = make_grid_rows(alloc, &position.grid, &position.lights, &position.bank)?;
        Ok(Plain::settled(alloc, position, words, letters, before))
    }

    /// Builds an engine from its parts, and computes the answers. The contents of the arrays do not
    /// matter.
    fn settled(
        alloc: Global,
        position: EngineState,
        mut words: Vec<Flags>,
        mut letters: Vec<LetterSet>,
        before: Vec<LetterSet>,
    ) -> Plain
        requires rows { HasRows (board_of position.grid) position.bank.words words.items letters.items }
        requires before { length before.items ≡ length letters.items }
        ensures state { state_of result ≡ record { grid = position.grid; words = position.bank.words } }
    {
        settle_position(&position, &mut words, &mut letters);
        Plain {
            alloc,
            position,
            words,
            letters,
            before,
            levels: Vec::new(alloc),
            placed: Count::new(),
        }
    }

    /// Applies an edit, computes the answers, and forgets the levels. It allocates rows of flags that fit after the edit first, so
    /// a failed allocation changes nothing.
    fn apply(&mut self, edit: &Edit<'_>) -> Result<(), Refusal>
        ensures { IsApplied self.old self.new (action_of edit.now) result }
    {
        self.levels.clear();
        let pending = match self.position.judge(edit) {
            Ok(pending) => pending,
            Err(refusal) => return Err(refusal),
        };
        match &pending {
            Pending::InPlace(edit) => self.position.commit(edit),
            Pending::Shape(edit) => {
                let (grid, lights) = self.position.shaped(self.alloc, edit)?;
                let rows = make_grid_rows(self.alloc, &grid, &lights, &self.position.bank)?;
                self.position.reshape(edit, grid, lights);
                self.words = rows;
            }
            Pending::New(word, grade) => {
                let rows = make_grown_rows(self.alloc, &self.position, word.len())?;
                self.position.reserve(word)?;
                self.position.append(word, *grade);
                self.words = rows;
            }
        }
        settle_anew(
            &self.position,
            &mut self.words,
            &mut self.letters,
            &mut self.before,
        );
        self.placed.note(edit);
        Ok(())
    }

    /// The cells whose feasible letters the last edit changed.
    fn changed(&self) -> Changed<'_>
        ensures { changes_left result ≡ changed_sets self.now.position.grid self.now.before.items self.now.letters.items 0 }
    {
        Changed::new(
            &self.position.grid,
            self.before.as_slice(),
            self.letters.as_slice(),
        )
    }

    /// Replaces the grid, with new arrays for it, and computes the answers.
    fn take_grid(&mut self, grid: Grid) -> Result<(), GridFault>
        ensures ok { OnOk result (state_of self.new ≡ record { grid = grid; words = (state_of self.old).words }) }
        ensures memory { IsOkUnless result GridFault.Memory }
        ensures unchanged { OnErr result (self.new ≡ self.old) }
        ensures placed { self.new.placed ≡ self.old.placed }
    {
        let lights = Lights::of(self.alloc, &grid)?;
        let noted = make_noted(self.alloc, &grid)?;
        let words = make_grid_rows(self.alloc, &grid, &lights, &self.position.bank)?;
        let letters = make_grid_sets(self.alloc, &grid)?;
        let before = make_grid_sets(self.alloc, &grid)?;
        self.levels.clear();
        self.position.replace(grid, lights, noted);
        self.words = words;
        self.letters = letters;
        self.before = before;
        settle_position(&self.position, &mut self.words, &mut self.letters);
        Ok(())
    }
}

impl Feasible for Plain {
    ghost use Rattle.xw_feas.specs.Count.{number};

    ghost state = { λ engine. record { grid = engine.position.grid; words = engine.position.bank.words } };

    ghost answers = { λ engine. answers_of (board_of engine.position.grid) engine.position.bank.words engine.words.items engine.letters.items };

    ghost placed = { λ engine. number engine.placed };

    ghost exact = { λ engine. engine.answered };

    ghost well_formed = { λ engine. engine.position.formed };

    fn open(alloc: Global, grid: Grid, bank: Bank) -> Result<Plain, Refusal> {
        Plain::new(alloc, grid, bank)
    }

    fn edit(&mut self, edit: &Edit<'_>) -> Result<Changed<'_>, Refusal> {
        self.apply(edit)?;
        Ok(self.changed())
    }

    fn regrid(&mut self, grid: Grid) -> Result<(), Refusal> {
        self.take_grid(grid)?;
        Ok(())
    }

    fn position(&self) -> &EngineState {
        &self.position
    }

    fn word_count_at(&self, light: usize) -> usize {
        let row = &self.words[light];
        row.count()
    }

    fn next_word_at(&self, light: usize, from: usize) -> Option<Found> {
        let board = Board::new(&self.position.grid, &self.position.lights);
        let cells = board.light(light);
        let row = &self.words[light];
        let known = self.position.bank.known(cells.len());
        if has_all_entries(&board, &cells) {
            if from == 0 && row.at(known) {
                return Some(Found::Entered);
            }
            return None;
        }
        for index in from..known {
            if row.at(index) {
                return Some(Found::Listed(index));
            }
        }
        None
    }

    fn letters_at(&self, index: usize) -> LetterSet {
        self.letters[index]
    }

    fn place_word_at(&mut self, light: usize, index: usize) {
        self.levels.clear();
        self.enter_word(light, index);
    }
}
