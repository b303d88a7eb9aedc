//! Saved states of the engine, and the number of its words by letter.
ghost use Rattle.std.specs.Prelude.{◌≡◌, ◌≢◌, ℕ, ◌<◌, ◌++◌, ◌∷◌, [], All, List, length, true, false, slice_index_or, Ok, None, IfOk, IfSome};
ghost use Rattle.xw_words.specs.Dictionary.{known_words};
ghost use Rattle.xw_grid.specs.Grid.{Grid as SpecGrid};
ghost use Rattle.xw_feas.specs.Board.{board_of};
ghost use Rattle.xw_feas.specs.Feasible.{IsFeasibleWord};
ghost use Rattle.xw_feas.specs.EngineState.{state_of as position_state_of};
ghost use Rattle.xw_live.specs.Levels.{HasSizeOf, IsLastIn, IsLedTo, IsLeft};
ghost use Rattle.xw_live.specs.declared.levels.Placement.{Placement};
ghost use Rattle.xw_net.specs.Entered.{IsTriedOn};
ghost use Rattle.xw_net.specs.Level.{IsBack};
ghost use Rattle.xw_net.specs.Net.{IsSettledFor};
ghost use Rattle.xw_net.specs.Seen.{AreSeen};
ghost use Rattle.xw_net.specs.Steps.{IsEmptied};
ghost use Rattle.xw_net.specs.Update.{AreInside};
ghost use Rattle.xw_feas.specs.Single.{IsWellFormed-prop};
ghost use Rattle.xw_feas.specs.WellFormed.{IsWellFormed};
ghost use Rattle.xw_live.specs.Engine.{IsKept, IsKept-prop};

use crate::levels::Levels;
use crate::live::Live;
use std::alloc::AllocError;
use std::snapshot::Snapshot;
use xw_feas::board::Board;
use xw_feas::engine_state::EngineState;
use xw_feas::searchable::Searchable;
use xw_grid::cell::Cell;
use xw_grid::grid::Grid;
use xw_letters::letter::Letter;
use xw_letters::letter_set::LetterSet;
use xw_net::net::Net;
use xw_net::trying::Search;
use xw_words::bank::Bank;

/// A saved grid with its net, and the least grade of an active word. `bank` takes no memory: it tells the prover for
/// which dictionary the net is settled.
#[derive(Drop)]
pub struct Saved {
    pub(crate) grid: Grid,
    pub(crate) net: Net,
    pub(crate) least: u8,
    pub(crate) bank: Snapshot<Bank>,
    ghost kept: { IsKept (record { grid = grid; words = bank.value.words }) net } by { IsKept-prop (record { grid = grid; words = bank.value.words }) net },
    ghost formed: { IsWellFormed (record { grid = grid; words = bank.value.words }) } by { IsWellFormed-prop (record { grid = grid; words = bank.value.words }) },
    ghost same_least: { least ≡ bank.value.words.least },
}

/// Updates the net after the last placement was entered in the grid. If this leaves a watched light without a feasible word,
/// returns such a light. Unless it returns `Ok(None)`, it takes the placement back.
fn try_level(
    position: &mut EngineState,
    net: &mut Net,
    levels: &mut Levels,
    watched: &[bool],
    in_turn: bool,
) -> Result<Option<usize>, AllocError>
    requires last { (others : List Placement) × IsLastIn position.old.grid net.old others levels.old.made.items }
    requires inside { AreInside position.old.grid position.old.notes.written }
    requires tried { IsTriedOn (position_state_of position.old) position.old.notes.written net.old }
    requires seen { AreSeen (board_of position.old.grid) (known_words position.old.bank.words) levels.old.trail.seen.items }
    ensures words { position.new.bank.words ≡ position.old.bank.words }
    ensures seen { AreSeen (board_of position.old.grid) (known_words position.old.bank.words) levels.new.trail.seen.items }
    ensures none_waits { net.new.spare ≡ net.old.spare }
    ensures grid { result ≡ Ok None → position.new.grid ≡ position.old.grid }
    ensures settled { result ≡ Ok None → ∥ IsSettledFor (position_state_of position.old) net.new ∥₁ }
    ensures alive { result ≡ Ok None → (light : ℕ) → slice_index_or watched.now light false ≡ true → IsEmptied net.new light → IsEmptied net.old light }
    ensures made { result ≡ Ok None → (others : List Placement) → IsLastIn position.old.grid net.old others levels.old.made.items → IsLedTo net.old others levels.old.made.items levels.new.made.items net.new }
    ensures back { result ≢ Ok None → IsBack net.old net.new }
    ensures dead { IfOk result (λ dead. IfSome dead (λ light. (word : List ℕ) → ¬ IsFeasibleWord (board_of position.old.grid) position.old.bank.words light word)) }
    ensures watched { IfOk result (λ dead. IfSome dead (λ light. slice_index_or watched.now light false ≡ true)) }
    ensures within { IfOk result (λ dead. IfSome dead (λ light. light < length position.old.lights)) }
    ensures left { result ≢ Ok None → (others : List Placement) (last : Placement) → levels.old.made.items ≡ others ++ last ∷ [] → IsLeft others last levels.old.made.items levels.new.made.items position.new.grid }
    ensures spare { (grid : SpecGrid) → All (HasSizeOf grid) levels.old.made.items → All (HasSizeOf grid) levels.old.spare.items → All (HasSizeOf grid) levels.new.spare.items }
{
    let Some(mut placement) = levels.made.pop() else {
        unreachable!();
    };
    let search = Search {
        grid: &position.grid,
        lights: &position.lights,
        written: position.notes.written.as_slice(),
        words: &position.bank,
        watched,
        in_turn,
    };
    let tried = net.try_letters(search, &mut placement.level, &mut levels.trail);
    if matches!(tried, Ok(None)) {
        let _ = levels.made.push(placement);
    } else {
        position.exchange(&mut placement.grid);
        let _ = levels.spare.push(placement);
    }
    tried
}

impl Live {
    ghost use Rattle.std.specs.Prelude.{◌≡◌, true, OnOk, OnErr};
    ghost use Rattle.xw_grid.specs.Light.{lights_of};
    ghost use Rattle.xw_live.specs.Levels.{IsLastOf};
    ghost use Rattle.xw_live.specs.Live.{state_of};
    ghost use Rattle.xw_net.specs.Brought.{IsBase};
    ghost use Rattle.xw_net.specs.Copy.{CanCopy, IsCopy};

    /// Keeps the state as a level. If an allocation fails, changes nothing.
    fn keep_level(&mut self) -> Result<(), AllocError>
        ensures last { OnOk result (IsLastOf self.old.position.grid self.old.net self.old.levels.made.items self.new.levels.made.items) }
        ensures none { OnErr result (self.new.levels.made.items ≡ self.old.levels.made.items) }
        ensures seen { OnOk result (AreSeen (board_of self.new.position.grid) (known_words self.new.position.bank.words) self.new.levels.trail.seen.items) }
        ensures grid { self.new.position.grid ≡ self.old.position.grid }
        ensures words { self.new.position.bank.words ≡ self.old.position.bank.words }
        ensures net { self.new.net ≡ self.old.net }
        ensures placed { self.new.placed ≡ self.old.placed }
        ensures spent { self.new.spent ≡ self.old.spent }
    {
        self.levels.begin(&self.position.grid, &self.net)?;
        Ok(())
    }
}

impl Searchable for Live {
    ghost use Rattle.std.specs.Prelude.{suc, OnOk, OnErr};
    ghost use Rattle.xw_feas.specs.Count.{number};
    ghost use Rattle.xw_feas.specs.Snapshot.{CanSave};
    ghost use Rattle.xw_feas.specs.State.{letter_set, known_placed};
    ghost use Rattle.xw_feas.specs.Trying.{IsTried, MayTryLetter, MayTryWord, levels_after};
    ghost use Rattle.xw_live.specs.Levels.{states_before};
    ghost use Rattle.xw_live.specs.Live.{state_of, levels_of};
    ghost use Rattle.xw_live.specs.Saved.{saved_state};

    type Snapshot = Saved;

    ghost saved = { λ snapshot. record { grid = snapshot.grid; words = snapshot.bank.value.words } };

    ghost levels = { λ live. states_before live.position.bank.words live.levels.made.items };

    fn snapshot(&self) -> Result<Saved, AllocError> {
        let position = &self.position;
        let grid = match position.grid.copy() {
            Ok(grid) => grid,
            Err(_) => return Err(AllocError),
        };
        let net = self.net.copy(self.alloc, &position.grid, &position.lights, &position.bank)?;
        Ok(Saved {
            grid,
            net,
            least: position.bank.least(),
            bank: Snapshot::of(&position.bank),
        })
    }

    fn save(&self, snapshot: &mut Saved) {
        snapshot.net.copy_from(&self.net, &self.position.lights);
        snapshot.grid.copy_from(&self.position.grid);
        snapshot.least = self.position.bank.least();
        snapshot.bank = Snapshot::of(&self.position.bank);
    }

    fn exchange(&mut self, snapshot: &mut Saved)
        requires { CanSave (saved_state snapshot.old) (state_of self.old) }
        ensures now { state_of self.new ≡ saved_state snapshot.old }
        ensures saved { saved_state snapshot.new ≡ state_of self.old }
        ensures placed { number self.new.placed ≡ number self.old.placed }
        ensures spent { self.new.spent ≡ self.old.spent }
    {
        let least = self.position.bank.least();
        let bank = Snapshot::of(&self.position.bank);
        self.levels
            .clear_between(&self.position.grid, &snapshot.grid);
        self.position.exchange(&mut snapshot.grid);
        self.position.choose_least(snapshot.least);
        std::mem::swap(&mut self.net, &mut snapshot.net);
        snapshot.least = least;
        snapshot.bank = bank;
    }

    fn begin_search(&mut self)
        ensures state { state_of self.new ≡ state_of self.old }
        ensures levels { levels_of self.new ≡ [] }
        ensures placed { number self.new.placed ≡ number self.old.placed }
        ensures spent { self.new.spent ≡ self.old.spent }
    {
        self.levels.clear();
    }

    fn try_letter(
        &mut self,
        cell: Cell,
        letter: Letter,
        watched: &[bool],
    ) -> Result<Option<usize>, AllocError>
        requires { MayTryLetter (state_of self.old) cell letter }
        ensures tried { IfOk result (λ dead. IsTried (state_of self.old) (letter_set cell letter) watched.now dead (state_of self.new)) }
        ensures same { OnErr result (state_of self.new ≡ state_of self.old) }
        ensures levels { levels_of self.new ≡ levels_after (levels_of self.old) (state_of self.old) result }
        ensures placed { OnOk result (number self.new.placed ≡ suc (number self.old.placed)) }
        ensures none { OnErr result (number self.new.placed ≡ number self.old.placed) }
        ensures spent { self.new.spent ≡ self.old.spent }
    {
        self.keep_level()?;
        self.position.enter(cell, Some(letter));
        let tried = try_level(
            &mut self.position,
            &mut self.net,
            &mut self.levels,
            watched,
            true,
        )?;
        self.placed.raise();
        Ok(tried)
    }

    fn try_word(
        &mut self,
        light: usize,
        index: usize,
        watched: &[bool],
    ) -> Result<Option<usize>, AllocError>
        requires { MayTryWord (state_of self.old) light index }
        ensures tried { IfOk result (λ dead. IsTried (state_of self.old) (known_placed (state_of self.old) light index) watched.now dead (state_of self.new)) }
        ensures same { OnErr result (state_of self.new ≡ state_of self.old) }
        ensures levels { levels_of self.new ≡ levels_after (levels_of self.old) (state_of self.old) result }
        ensures placed { OnOk result (number self.new.placed ≡ suc (number self.old.placed)) }
        ensures none { OnErr result (number self.new.placed ≡ number self.old.placed) }
        ensures spent { self.new.spent ≡ self.old.spent }
    {
        self.keep_level()?;
        self.position.place_known(light, index);
        let tried = try_level(
            &mut self.position,
            &mut self.net,
            &mut self.levels,
            watched,
            false,
        )?;
        self.placed.raise();
        Ok(tried)
    }

    fn back_level(&mut self)
        requires { 0 < length (levels_of self.old) }
        ensures back { levels_of self.old ≡ levels_of self.new ++ state_of self.new ∷ [] }
        ensures placed { number self.new.placed ≡ number self.old.placed }
        ensures spent { self.new.spent ≡ self.old.spent }
    {
        if let Some(mut placement) = self.levels.made.pop() {
            self.net
                .take_back(&mut placement.level, &mut self.levels.trail);
            self.position.exchange(&mut placement.grid);
            let _ = self.levels.spare.push(placement);
        }
    }

    fn tally(&self, light: usize, position: usize, letter: Letter) -> usize {
        let at = &self.position;
        self.net
            .tally(&at.grid, &at.lights, &at.bank, light, position, letter)
    }

    fn promises(
        &self,
        light: usize,
        position: usize,
        letters: LetterSet,
        weighted: bool,
    ) -> [u64; 26] {
        let at = &self.position;
        let board = Board::new(&at.grid, &at.lights);
        self.net
            .promises(&board, &at.bank, light, position, letters, weighted)
    }

    fn emptied(&self) -> Option<usize> {
        self.net.emptied()
    }
}
