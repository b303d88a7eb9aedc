//! Suggests the next word to place.
ghost use Rattle.std.specs.Prelude.{◌≡◌, ◌<◌, false, slice_index_or, []};
ghost use Rattle.xw_search.specs.OfState.{light_count, is_entered};
ghost use Rattle.xw_fill.specs.OfState.{leaves_words, index_to_try, IsTriedAt, spellings_at};
ghost use Rattle.xw_fill.specs.Suggesting.{suggestion};

use crate::scan::{chosen, first_without_words, next_word_index};
use crate::trial::Trial;
use xw_feas::feasible::Feasible;
use xw_grid::cell::LightName;
use xw_search::lights::name_at;

/// A suggestion.
#[derive(Clone, Copy, Debug, PartialEq, Eq)]
pub enum Suggestion {
    /// This light has no feasible word.
    Dead(LightName),
    /// All lights are wholly entered.
    Done,
    /// A word for a light. `word` is its index among the known words of the light's length.
    Try { light: LightName, word: usize },
    /// Every feasible word of this light leaves some light without a feasible word.
    NoWord(LightName),
}

/// Returns whether every light still has a feasible word after a word is placed in a light. Leaves the state as it
/// was.
fn can_be_placed<E: Feasible>(engine: &mut E, light: usize, index: usize) -> bool
    requires tried { IsTriedAt (E.state engine.old) light index }
    ensures found { result ≡ leaves_words (E.state engine.old) light (slice_index_or (spellings_at (E.state engine.old) light) index []) }
    ensures unchanged { E.state engine.new ≡ E.state engine.old }
{
    let trial = Trial::place(engine, light, index);
    let blocked = first_without_words(engine).is_some();
    trial.take_back(engine);
    !blocked
}

/// Returns the index of the light's first feasible word after whose placement every light has a feasible word.
fn find_index<E: Feasible>(engine: &mut E, light: usize) -> Option<usize>
    requires light { light < light_count (E.state engine.old) }
    requires not_entered { is_entered (E.state engine.old) light ≡ false }
    ensures found { result ≡ index_to_try (E.state engine.old) light }
    ensures unchanged { E.state engine.new ≡ E.state engine.old }
{
    let mut from = 0;
    while let Some(index) = next_word_index(engine, light, from) {
        if can_be_placed(engine, light, index) {
            return Some(index);
        }
        from = index + 1;
    }
    None
}

/// Suggests the next word. Allocates no memory, and leaves the engine's state and answers as they were.
pub fn suggest<E: Feasible>(engine: &mut E) -> Suggestion
    ensures suggestion { result ≡ suggestion (E.state engine.old) }
    ensures unchanged { E.state engine.new ≡ E.state engine.old }
    ensures answers { E.answers engine.new ≡ E.answers engine.old }
{
    if let Some(light) = first_without_words(engine) {
        return Suggestion::Dead(name_at(engine, light));
    }
    match chosen(engine) {
        None => Suggestion::Done,
        Some(light) => {
            let name = name_at(engine, light);
            match find_index(engine, light) {
                None => Suggestion::NoWord(name),
                Some(word) => Suggestion::Try { light: name, word },
            }
        }
    }
}
