//! Notes when each light became wholly entered, so that a search tests only new words for repeats.
ghost use Rattle.std.specs.Prelude.{◌≡◌, ◌<◌, length, suc, true, is_some, IfSome};
ghost use Rattle.xw_search.specs.OfState.{is_entered, is_repeat, light_count, is_spelled_again};
ghost use Rattle.xw_fill.specs.Inner.OfState.{AreEntered, AreOnlyEntered, SpellApart};
ghost use Rattle.xw_search.specs.Below.{any_below};
ghost use Rattle.xw_fill.specs.Inner.EnteredSince.{within, noted, has_note, StayNoted};

use xw_feas::feasible::Feasible;
use xw_search::lights::{agree, is_entered, light_count};

/// Returns whether a light became wholly entered after fewer than `placements` placements.
pub fn is_within(since: Option<usize>, placements: usize) -> bool
    ensures { result ≡ within since placements }
{
    match since {
        None => false,
        Some(since) => since < placements,
    }
}

/// Sets the note of each light that is wholly entered after `placements` placements. Notes from fewer placements stay,
/// and their lights are not read again.
pub fn note_entered<E: Feasible>(engine: &E, since: &mut [Option<usize>], placements: usize)
    requires long { length since.old ≡ light_count (E.state engine.now) }
    requires before { AreOnlyEntered (E.state engine.now) (noted since.old placements) }
    ensures long { length since.new ≡ length since.old }
    ensures stay { StayNoted placements since.old since.new }
    ensures within { AreEntered (E.state engine.now) (noted since.new (suc placements)) }
    ensures entered { AreEntered (E.state engine.now) (has_note since.new) }
{
    for light in 0..light_count(engine) {
        if !is_within(since[light], placements) {
            since[light] = note_of(engine, light, placements);
        }
    }
}

/// Returns the new note of a light without an earlier note.
fn note_of<E: Feasible>(engine: &E, light: usize, placements: usize) -> Option<usize>
    requires { light < light_count (E.state engine.now) }
    ensures entered { is_some result ≡ is_entered (E.state engine.now) light }
    ensures placements { IfSome result (λ since. since ≡ placements) }
{
    if is_entered(engine, light) {
        Some(placements)
    } else {
        None
    }
}

/// Returns whether another wholly entered light spells the same as this one.
fn has_same<E: Feasible>(engine: &E, since: &[Option<usize>], light: usize) -> bool
    requires long { length since.now ≡ light_count (E.state engine.now) }
    requires noted { AreEntered (E.state engine.now) (has_note since.now) }
    requires light { light < light_count (E.state engine.now) }
    requires entered { is_entered (E.state engine.now) light ≡ true }
    ensures { result ≡ is_spelled_again (E.state engine.now) light }
{
    for other in 0..light_count(engine) {
        if other != light && since[other].is_some() {
            if agree(engine, light, other) {
                return true;
            }
        }
    }
    false
}

/// Returns whether two wholly entered lights spell the same. The lights with notes from fewer placements must all
/// differ; only the others are compared with all lights.
pub fn has_new_repeat<E: Feasible>(engine: &E, since: &[Option<usize>], placements: usize) -> bool
    requires long { length since.now ≡ light_count (E.state engine.now) }
    requires noted { AreEntered (E.state engine.now) (has_note since.now) }
    requires apart { SpellApart (E.state engine.now) (noted since.now placements) }
    ensures { result ≡ any_below (is_repeat (E.state engine.now)) (light_count (E.state engine.now)) }
{
    for light in 0..light_count(engine) {
        if since[light].is_some() && !is_within(since[light], placements) {
            if has_same(engine, since, light) {
                return true;
            }
        }
    }
    false
}
