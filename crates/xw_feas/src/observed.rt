//! An engine whose searches an observer is told of.
ghost use Rattle.std.specs.Prelude.{◌≡◌};

use crate::changed::Changed;
use crate::edit::{Edit, Found, Refusal};
use crate::engine_state::EngineState;
use crate::feasible::Feasible;
use crate::progress::{News, Observer, Progress, Task};
use crate::searchable::Searchable;
use std::alloc::{AllocError, Global};
use std::cell::Cell as Slot;
use xw_grid::cell::Cell;
use xw_grid::grid::Grid;
use xw_letters::letter::Letter;
use xw_letters::letter_set::LetterSet;
use xw_words::bank::Bank;

/// After how many placements the observer is told again.
const STEP: u64 = 5_000;

/// An engine that tells an observer, if there is one, how far each search is. Otherwise it is the engine below.
/// - `progress`: how far the search is.
/// - `due`: the number of placements at which the observer is told next.
#[derive(Drop)]
pub struct Observed<E: Feasible, O: Observer> {
    engine: E,
    observer: Option<O>,
    progress: Slot<Progress>,
    due: Slot<u64>,
}

impl<E: Feasible, O: Observer> Observed<E, O> {
    /// The engine, with an observer of its searches.
    pub fn new(engine: E, observer: Option<O>) -> Observed<E, O>
        ensures { result.engine ≡ engine }
    {
        Observed {
            engine,
            observer,
            progress: Slot::new(Progress::begun(Task::Fill)),
            due: Slot::new(STEP),
        }
    }

    /// Notes what a search tells, and tells the observer when it is due.
    fn note(&self, observer: &O, news: News) {
        let progress = self.progress.get();
        match news {
            News::Begins(task) => {
                self.progress.set(Progress::begun(task));
                self.due.set(STEP);
            }
            News::Placed { made, .. } if made < self.due.get() => {}
            News::Placed { made, limit } => {
                let told = Progress {
                    made,
                    limit,
                    ..progress
                };
                self.due.set(made.saturating_add(STEP - made % STEP));
                observer.observe(&told);
            }
            News::Graded { worst, bound } => self.progress.set(Progress {
                worst,
                bound: Some(bound),
                ..progress
            }),
            News::Ends => observer.end(),
        }
    }
}

impl<E: Feasible, O: Observer> Feasible for Observed<E, O> {
    ghost state = { λ observed. E.state observed.engine };

    ghost answers = { λ observed. E.answers observed.engine };

    ghost placed = { λ observed. E.placed observed.engine };

    ghost exact = { λ observed. E.exact observed.engine };

    ghost well_formed = { λ observed. E.well_formed observed.engine };

    fn open(alloc: Global, grid: Grid, bank: Bank) -> Result<Observed<E, O>, Refusal> {
        Ok(Observed::new(E::open(alloc, grid, bank)?, None))
    }

    fn edit(&mut self, edit: &Edit<'_>) -> Result<Changed<'_>, Refusal> {
        self.engine.edit(edit)
    }

    fn regrid(&mut self, grid: Grid) -> Result<(), Refusal> {
        self.engine.regrid(grid)
    }

    fn position(&self) -> &EngineState {
        self.engine.position()
    }

    fn word_count_at(&self, light: usize) -> usize {
        self.engine.word_count_at(light)
    }

    fn next_word_at(&self, light: usize, from: usize) -> Option<Found> {
        self.engine.next_word_at(light, from)
    }

    fn letters_at(&self, index: usize) -> LetterSet {
        self.engine.letters_at(index)
    }

    fn place_word_at(&mut self, light: usize, index: usize) {
        self.engine.place_word_at(light, index);
    }
}

impl<E: Searchable, O: Observer> Searchable for Observed<E, O> {
    type Snapshot = E::Snapshot;

    ghost saved = { E.saved };

    ghost levels = { λ observed. E.levels observed.engine };

    fn snapshot(&self) -> Result<E::Snapshot, AllocError> {
        self.engine.snapshot()
    }

    fn save(&self, snapshot: &mut E::Snapshot) {
        self.engine.save(snapshot);
    }

    fn exchange(&mut self, snapshot: &mut E::Snapshot) {
        self.engine.exchange(snapshot);
    }

    fn begin_search(&mut self) {
        self.engine.begin_search();
    }

    fn try_letter(
        &mut self,
        cell: Cell,
        letter: Letter,
        watched: &[bool],
    ) -> Result<Option<usize>, AllocError> {
        self.engine.try_letter(cell, letter, watched)
    }

    fn try_word(
        &mut self,
        light: usize,
        index: usize,
        watched: &[bool],
    ) -> Result<Option<usize>, AllocError> {
        self.engine.try_word(light, index, watched)
    }

    fn back_level(&mut self) {
        self.engine.back_level();
    }

    fn tally(&self, light: usize, position: usize, letter: Letter) -> usize {
        self.engine.tally(light, position, letter)
    }

    fn promises(
        &self,
        light: usize,
        position: usize,
        letters: LetterSet,
        weighted: bool,
    ) -> [u64; 26] {
        self.engine.promises(light, position, letters, weighted)
    }

    fn emptied(&self) -> Option<usize> {
        self.engine.emptied()
    }

    fn tell(&self, news: News) {
        if let Some(observer) = &self.observer {
            self.note(observer, news);
        }
    }
}
