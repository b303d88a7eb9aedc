//! A grid with its lights and a dictionary. An edit is judged, which changes nothing; once there is
//! room for what is pending, it is made, which cannot fail, and what it changed is noted.
ghost use Rattle.std.specs.Prelude.{◌≡◌, ◌<◌, ℕ, All, Option, None, length, true, IfOk, OnOk, IsOk, IsOkUnless, Ok};
ghost use Rattle.xw_words.specs.declared.bank.Added.TheVariants.{Returned};
ghost use Rattle.xw_words.specs.Bank.{has_room};
ghost use Rattle.xw_words.specs.Dictionary.{IsDictionary, IsNew, known_words, add_answer, strike_answer, with_least};
ghost use Rattle.xw_grid.specs.declared.cell.Cell.{Cell as SpecCell};
ghost use Rattle.xw_grid.specs.Edit.{set_symmetry};
ghost use Rattle.xw_grid.specs.EditLaws.{SameShape};
ghost use Rattle.xw_grid.specs.Light.{lights_of};
ghost use Rattle.xw_feas.specs.Pending.{in_place_action, shape_action, CanPlace, IsInPlace, IsJudged};
ghost use Rattle.xw_feas.specs.Shape.{fault_at, GrowsAt};
ghost use Rattle.xw_feas.specs.Single.{IsWellFormed-prop};
ghost use Rattle.xw_feas.specs.State.{after, grid_after, action_of, add_word, light_of, entered, word_placed, symmetry_chosen, word_added, word_struck, list_written, least_chosen, known_count, known_placed};
ghost use Rattle.xw_feas.specs.WellFormed.{IsWellFormed};

use crate::edit::{Edit, Refusal};
use crate::effect::Effect;
use crate::notes::{Notes, is_changed, make_noted};
use crate::pending::{InPlace, Pending, ShapeEdit};
use crate::place::{enter_word, judge_place, place_known};
use crate::turned::turned_lengths;
use crate::write::{enter_list, judge_cell, judge_list};
use std::alloc::Global;
use xw_grid::cell::{Cell, LightName, Symmetry};
use xw_grid::fault::GridFault;
use xw_grid::grid::Grid;
use xw_grid::lights::Lights;
use xw_letters::letter::Letter;
use xw_words::WordFault;
use xw_words::bank::{Added, Bank};
use xw_words::word::{LONGEST, spell};

/// A grid, its lights, and a dictionary, with the notes of what the last edit changed.
#[derive(Drop)]
pub struct EngineState {
    pub grid: Grid,
    pub lights: Lights,
    pub bank: Bank,
    pub notes: Notes,
    ghost room: { length notes.noted.items ≡ length grid.squares },
    ghost light_list: { lights ≡ lights_of grid },
    ghost formed: { IsWellFormed (record { grid = grid; words = bank.words }) } by { IsWellFormed-prop (record { grid = grid; words = bank.words }) },
}

impl EngineState {
    ghost use Rattle.xw_feas.specs.EngineState.{state_of};
    ghost use Rattle.xw_feas.specs.Effect.{fields_by, IsCommitted, IsTold, Tells};

    /// The position of a grid and a dictionary. Returns `Memory` if an allocation fails.
    #[tactic(auto, using(crate::proofs::WellFormedLemmas::state_formed))]
    pub fn new(alloc: Global, grid: Grid, bank: Bank) -> Result<EngineState, GridFault>
        ensures state { IfOk result (λ position. state_of position ≡ record { grid = grid; words = bank.words }) }
        ensures memory { IsOkUnless result GridFault.Memory }
    {
        let lights = Lights::of(alloc, &grid)?;
        let noted = make_noted(alloc, &grid)?;
        grid.well_formed();
        bank.well_formed();
        Ok(EngineState {
            grid,
            lights,
            bank,
            notes: Notes::of(noted),
        })
    }

    /// Which kind of edit this is, with what was looked up for it, or the rule's refusal.
    pub fn judge<'a>(&self, edit: &Edit<'a>) -> Result<Pending<'a>, Refusal>
        ensures { IsJudged (state_of self.now) (action_of edit.now) result }
    {
        match *edit {
            Edit::Set(cell, letter) => self.judge_entry(cell, Some(letter)),
            Edit::Clear(cell) => self.judge_entry(cell, None),
            Edit::Place(name, word) => self.judge_place(name, word),
            Edit::Write(list) => self.judge_list(list),
            Edit::Block(cell) => self.judge_shape(ShapeEdit::Block(cell)),
            Edit::Bar(cell, side) => self.judge_shape(ShapeEdit::Bar(cell, side)),
            Edit::Symmetry(kind) => self.judge_symmetry(kind),
            Edit::Add(word, grade) => self.judge_add(word, grade),
            Edit::Strike(word) => self.judge_strike(word),
            Edit::Least(grade) => Ok(Pending::InPlace(InPlace::Least(grade))),
        }
    }

    #[tactic(auto, using(crate::proofs::WriteLemmas::entered_refused))]
    fn judge_entry<'a>(&self, cell: Cell, letter: Option<Letter>) -> Result<Pending<'a>, Refusal>
        ensures { IsJudged (state_of self.now) (entered cell letter) result }
    {
        judge_cell(&self.grid, cell)?;
        Ok(Pending::InPlace(InPlace::Enter(cell, letter)))
    }

    fn judge_place<'a>(&self, name: LightName, word: &'a [u8]) -> Result<Pending<'a>, Refusal>
        ensures { IsJudged (state_of self.now) (word_placed name word.now) result }
    {
        let light = judge_place(&self.lights, name, word)?;
        Ok(Pending::InPlace(InPlace::Place(light, word)))
    }

    fn judge_list<'a>(&self, list: &'a [(Cell, Option<Letter>)]) -> Result<Pending<'a>, Refusal>
        ensures { IsJudged (state_of self.now) (list_written list.now) result }
    {
        judge_list(&self.grid, list)?;
        Ok(Pending::InPlace(InPlace::List(list)))
    }

    fn judge_shape<'a>(&self, edit: ShapeEdit) -> Result<Pending<'a>, Refusal>
        ensures { IsJudged (state_of self.now) (shape_action edit) result }
    {
        match edit {
            ShapeEdit::Block(cell) => self.grid.judge_block(cell)?,
            ShapeEdit::Bar(cell, side) => self.grid.judge_bar(cell, side)?,
        }
        Ok(Pending::Shape(edit))
    }

    fn judge_symmetry<'a>(&self, kind: Symmetry) -> Result<Pending<'a>, Refusal>
        ensures { IsJudged (state_of self.now) (symmetry_chosen kind) result }
    {
        self.grid.judge_symmetry(kind)?;
        Ok(Pending::InPlace(InPlace::Symmetry(kind)))
    }

    fn judge_add<'a>(&self, word: &'a [u8], grade: Option<u8>) -> Result<Pending<'a>, Refusal>
        ensures { IsJudged (state_of self.now) (word_added word.now grade) result }
    {
        Ok(match self.bank.judge_add(word)? {
            Added::New(_) => Pending::New(word, grade),
            Added::Returned(index) => Pending::InPlace(InPlace::Return(word, grade, index)),
        })
    }

    fn judge_strike<'a>(&self, word: &'a [u8]) -> Result<Pending<'a>, Refusal>
        ensures { IsJudged (state_of self.now) (word_struck word.now) result }
    {
        let index = self.bank.judge_strike(word)?;
        Ok(Pending::InPlace(InPlace::Strike(word, index)))
    }

    /// Makes an edit that needs no memory.
    pub fn commit(&mut self, edit: &InPlace<'_>)
        requires { IsInPlace (state_of self.old) edit.now }
        ensures { IsCommitted self.old self.new (in_place_action (state_of self.old) edit.now) }
    {
        if self.keeps(edit) {
            self.notes.note_nothing();
            return;
        }
        match *edit {
            InPlace::Enter(cell, letter) => self.enter(cell, letter),
            InPlace::Place(light, word) => self.place(light, word),
            InPlace::List(list) => self.write(list),
            InPlace::Symmetry(kind) => self.choose_symmetry(kind),
            InPlace::Return(word, grade, index) => self.bring_back(word, grade, index),
            InPlace::Strike(word, index) => self.strike(word, index),
            InPlace::Least(grade) => self.limit(grade),
        }
    }

    /// Writes a letter into a cell, or empties it.
    #[tactic(auto, using(crate::proofs::WellFormedLemmas::state_formed))]
    pub fn enter(&mut self, cell: Cell, letter: Option<Letter>)
        requires { fault_at self.old.grid cell ≡ None }
        ensures made { after (state_of self.old) (entered cell letter) ≡ Ok (state_of self.new) }
        ensures lights { self.new.lights ≡ self.old.lights }
        ensures words { self.new.bank.words ≡ self.old.bank.words }
        ensures shape { SameShape self.old.grid self.new.grid }
        ensures effect { self.new.notes.effect ≡ Effect.Cells }
        ensures told { Tells (state_of self.old) (entered cell letter) (fields_by self.new.lights self.new.notes Effect.Cells) }
    {
        self.notes.written.note_cell(&self.grid, cell);
        self.grid.enter(cell, letter);
        self.grid.well_formed();
        self.notes.effect = Effect::Cells;
    }

    /// Whether an edit writes the entry that is there.
    fn keeps(&self, edit: &InPlace<'_>) -> bool
        ensures { result ≡ true → IsInPlace (state_of self.now) edit.now → after (state_of self.now) (in_place_action (state_of self.now) edit.now) ≡ Ok (state_of self.now) }
    {
        match *edit {
            InPlace::Enter(cell, letter) => !is_changed(&self.grid, cell, letter),
            _ => false,
        }
    }

    /// Writes a word into a light, by the light's index.
    #[tactic(auto, using(crate::proofs::WellFormedLemmas::state_formed))]
    fn place(&mut self, light: usize, word: &[u8])
        requires { CanPlace (state_of self.old) light word.now }
        ensures { IsCommitted self.old self.new (word_placed (light_of (state_of self.old) light).name word.now) }
    {
        self.notes
            .written
            .note_index(&self.grid, &self.lights, light);
        self.notes.effect = Effect::Cells;
        enter_word(&mut self.grid, &self.lights, light, word);
    }

    /// Writes a list of cells.
    #[tactic(auto, using(crate::proofs::WellFormedLemmas::state_formed))]
    fn write(&mut self, list: &[(Cell, Option<Letter>)])
        requires { All (λ (written : SpecCell × Option ℕ). fault_at self.old.grid written.0 ≡ None) list.now }
        ensures { IsCommitted self.old self.new (list_written list.now) }
    {
        self.notes.note_all(&self.grid);
        enter_list(&mut self.grid, list);
        self.grid.well_formed();
        let count = self.notes.keep_changed(&self.grid);
        self.notes.effect = Effect::List(count);
    }

    /// Sets the symmetry.
    #[tactic(auto, using(crate::proofs::WellFormedLemmas::state_formed))]
    fn choose_symmetry(&mut self, kind: Symmetry)
        requires { IsOk (set_symmetry self.old.grid kind) }
        ensures { IsCommitted self.old self.new (symmetry_chosen kind) }
    {
        self.grid.choose_symmetry(kind);
        self.grid.well_formed();
        self.notes.effect = Effect::Nothing;
    }

    /// Makes a known word active again.
    #[tactic(auto, using(crate::proofs::WellFormedLemmas::state_formed))]
    fn bring_back(&mut self, word: &[u8], grade: Option<u8>, index: usize)
        requires { add_answer self.old.bank.words word.now ≡ Ok (Returned index) }
        ensures { IsCommitted self.old self.new (word_added word.now grade) }
    {
        let len = word.len();
        self.bank.return_at(len, index, grade);
        self.bank.well_formed();
        self.notes.effect = Effect::Word(len, index);
    }

    /// Strikes a word.
    #[tactic(auto, using(crate::proofs::WellFormedLemmas::state_formed))]
    fn strike(&mut self, word: &[u8], index: usize)
        requires { strike_answer self.old.bank.words word.now ≡ Ok index }
        ensures { IsCommitted self.old self.new (word_struck word.now) }
    {
        let len = word.len();
        self.bank.strike_at(len, index);
        self.bank.well_formed();
        self.notes.effect = Effect::Word(len, index);
    }

    /// Leaves out the words below a grade.
    #[tactic(auto, using(crate::proofs::WellFormedLemmas::state_formed))]
    fn limit(&mut self, grade: u8)
        ensures { IsCommitted self.old self.new (least_chosen grade) }
    {
        self.notes.turned = turned_lengths(&self.bank, grade);
        let before = self.bank.least();
        limit_in(&mut self.bank, grade);
        self.notes.effect = Effect::Least(self.bank.least() < before);
    }

    /// Makes an edit of the shape, with the grid and the lights after it.
    #[tactic(auto, using(crate::proofs::WellFormedLemmas::state_formed))]
    pub fn reshape(&mut self, edit: &ShapeEdit, grid: Grid, lights: Lights)
        requires made { grid_after self.old.grid (shape_action edit.now) ≡ Ok grid }
        requires lights { lights ≡ lights_of grid }
        requires cells { length grid.squares ≡ length self.old.grid.squares }
        ensures made { after (state_of self.old) (shape_action edit.now) ≡ Ok (state_of self.new) }
        ensures state { state_of self.new ≡ record { grid = grid; words = self.old.bank.words } }
        ensures lights { self.new.lights ≡ lights }
        ensures effect { self.new.notes.effect ≡ Effect.Shape (lights_of self.old.grid) }
        ensures told { IsTold (state_of self.old) self.new (shape_action edit.now) }
    {
        self.notes.written.note_shape(&self.grid, edit);
        grid.well_formed();
        self.grid = grid;
        self.notes.effect = Effect::Shape(std::mem::replace(&mut self.lights, lights));
    }

    /// Adds a word that is not known, in reserved room.
    #[tactic(auto, using(crate::proofs::WellFormedLemmas::state_formed))]
    pub fn append(&mut self, word: &[u8], grade: Option<u8>)
        requires new { IsNew (add_answer self.old.bank.words word.now) }
        requires room { has_room self.old.bank (length word.now) ≡ true }
        ensures made { after (state_of self.old) (word_added word.now grade) ≡ Ok (state_of self.new) }
        ensures grid { self.new.grid ≡ self.old.grid }
        ensures lights { self.new.lights ≡ self.old.lights }
        ensures counts { GrowsAt self.old.bank.words self.new.bank.words (length word.now) }
        ensures effect { self.new.notes.effect ≡ Effect.Word (length word.now) (length (known_words self.old.bank.words (length word.now))) }
        ensures told { IsTold (state_of self.old) self.new (word_added word.now grade) }
    {
        let index = add_in(&mut self.bank, word, grade);
        self.notes.effect = Effect::Word(word.len(), index);
    }

    /// Places a known word in a light, both by index.
    #[tactic(auto, using(crate::proofs::WellFormedLemmas::state_formed))]
    pub fn place_known(&mut self, light: usize, index: usize)
        requires light { light < length (lights_of self.old.grid) }
        requires index { index < known_count (state_of self.old) light }
        ensures made { after (state_of self.old) (known_placed (state_of self.old) light index) ≡ Ok (state_of self.new) }
        ensures words { self.new.bank.words ≡ self.old.bank.words }
        ensures shape { SameShape self.old.grid self.new.grid }
        ensures effect { self.new.notes.effect ≡ Effect.Cells }
        ensures told { Tells (state_of self.old) (known_placed (state_of self.old) light index) (fields_by self.new.lights self.new.notes Effect.Cells) }
    {
        self.notes
            .written
            .note_index(&self.grid, &self.lights, light);
        self.notes.effect = Effect::Cells;
        place_known(&mut self.grid, &self.lights, &self.bank, light, index);
    }

    /// A copy of the grid with an edit of its shape, and its lights. Returns `Memory` if an allocation fails.
    pub fn shaped(&self, alloc: Global, edit: &ShapeEdit) -> Result<(Grid, Lights), GridFault>
        requires { IsOk (grid_after self.now.grid (shape_action edit.now)) }
        ensures ok { IfOk result (λ shaped. grid_after self.now.grid (shape_action edit.now) ≡ Ok shaped.0) }
        ensures lights { IfOk result (λ shaped. shaped.1 ≡ lights_of shaped.0) }
        ensures cells { IfOk result (λ shaped. length shaped.0.squares ≡ length self.now.grid.squares) }
        ensures memory { IsOkUnless result GridFault.Memory }
    {
        let mut grid = self.grid.copy()?;
        reshape(&mut grid, edit);
        let lights = Lights::of(alloc, &grid)?;
        Ok((grid, lights))
    }

    /// Replaces the grid, its lights and the space for its entries.
    #[tactic(auto, using(crate::proofs::WellFormedLemmas::state_formed))]
    pub fn replace(&mut self, grid: Grid, lights: Lights, noted: Vec<(Cell, Option<Letter>)>)
        requires lights { lights ≡ lights_of grid }
        requires room { length noted.items ≡ length grid.squares }
        ensures { state_of self.new ≡ record { grid = grid; words = self.old.bank.words } }
    {
        grid.well_formed();
        self.grid = grid;
        self.lights = lights;
        self.notes.noted = noted;
    }

    /// Exchanges the grid for one of the same shape.
    #[tactic(auto, using(crate::proofs::WellFormedLemmas::state_formed))]
    pub fn exchange(&mut self, grid: &mut Grid)
        requires { SameShape self.old.grid grid.old }
        ensures now { state_of self.new ≡ record { grid = grid.old; words = self.old.bank.words } }
        ensures before { grid.new ≡ self.old.grid }
    {
        grid.well_formed();
        std::mem::swap(&mut self.grid, grid);
    }

    /// Makes the grid equal to one of the same shape.
    #[tactic(auto, using(crate::proofs::WellFormedLemmas::state_formed))]
    pub fn copy_grid(&mut self, grid: &Grid)
        requires { SameShape self.old.grid grid.now }
        ensures { state_of self.new ≡ record { grid = grid.now; words = self.old.bank.words } }
    {
        grid.well_formed();
        self.grid.copy_from(grid);
    }

    /// Chooses the least grade of an active word.
    #[tactic(auto, using(crate::proofs::WellFormedLemmas::state_formed))]
    pub fn choose_least(&mut self, least: u8)
        ensures { state_of self.new ≡ record { grid = self.old.grid; words = with_least least self.old.bank.words } }
    {
        limit_in(&mut self.bank, least);
    }

    /// Reserves room for a word that is not known. Returns `Memory` if an allocation fails.
    pub fn reserve(&mut self, word: &[u8]) -> Result<(), WordFault>
        requires { IsNew (add_answer self.old.bank.words word.now) }
        ensures grid { self.new.grid ≡ self.old.grid }
        ensures lights { self.new.lights ≡ self.old.lights }
        ensures words { self.new.bank.words ≡ self.old.bank.words }
        ensures room { OnOk result (has_room self.new.bank (length word.now) ≡ true) }
        ensures memory { IsOkUnless result WordFault.Memory }
    {
        self.bank.well_formed();
        self.bank.reserve(word.len())
    }
}

/// Makes an edit of the shape of a grid.
fn reshape(grid: &mut Grid, edit: &ShapeEdit)
    requires { IsOk (grid_after grid.old (shape_action edit.now)) }
    ensures made { grid_after grid.old (shape_action edit.now) ≡ Ok grid.new }
    ensures cells { length grid.new.squares ≡ length grid.old.squares }
{
    grid.well_formed();
    match *edit {
        ShapeEdit::Block(cell) => grid.turn_block(cell),
        ShapeEdit::Bar(cell, side) => grid.turn_bar(cell, side),
    }
}

/// Adds a word that is not known, in reserved room, and returns its index. Its grade is as `Bank::add` says.
fn add_in(bank: &mut Bank, word: &[u8], grade: Option<u8>) -> usize
    requires new { IsNew (add_answer bank.old.words word.now) }
    requires room { has_room bank.old (length word.now) ≡ true }
    ensures index { result ≡ length (known_words bank.old.words (length word.now)) }
    ensures words { add_word bank.old.words word.now grade ≡ Ok bank.new.words }
    ensures counts { GrowsAt bank.old.words bank.new.words (length word.now) }
    ensures distinct { IsDictionary bank.new.words }
{
    bank.well_formed();
    let mut letters = [Letter::first(); LONGEST];
    spell(&mut letters, word);
    let index = bank.add_reserved(&letters[..word.len()], grade);
    bank.well_formed();
    index
}

/// Chooses the least grade of an active word.
fn limit_in(bank: &mut Bank, least: u8)
    ensures words { bank.new.words ≡ with_least least bank.old.words }
    ensures distinct { IsDictionary bank.new.words }
{
    bank.set_least(least);
    bank.well_formed();
}
