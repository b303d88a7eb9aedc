//! Which lights of a worklist are taken first. This decides an order only, so the contracts say nothing of the stack.
ghost use Rattle.std.specs.Prelude.{◌≡◌, ◌⊎◌, ℕ, ◌+◌, ◌<◌, ◌≤◌, [], ◌∷◌, ◌++◌, length, replicate, slice_index, slice_set, IfSome, IfOk, OnOk, vec_capacity};

use std::alloc::{AllocError, Global};
use std::marker::Model;

/// No light, and no place.
const NONE: usize = usize::MAX;

/// A stack of the lights to take first, without room of its own for each entry: every light names the one below it.
#[derive(Drop)]
pub(crate) struct Urgent {
    /// Whether lights are taken first at all.
    is_on: bool,
    /// For each light, where in the worklist it was put last.
    places: Vec<usize>,
    /// For each light on the stack, the one below it, or itself if it is the lowest; `NONE` for the others.
    below: Vec<usize>,
    /// The light on top; `NONE` if there is none.
    top: usize,
}

/// The places of the lights, by light.
impl Model for Urgent {
    ghost use Rattle.std.specs.Prelude.{◌≡◌, ℕ, List, length};

    ghost Value = { List ℕ };

    ghost view = { λ urgent. urgent.places.items };

    ghost invariant = { λ urgent. length urgent.below.items ≡ length urgent.places.items };
}

impl Urgent {
    /// An empty stack for `count` lights.
    pub(crate) fn new(alloc: Global, count: usize) -> Result<Urgent, AllocError>
        ensures { IfOk result (λ urgent. length urgent ≡ count) }
    {
        Ok(Urgent {
            is_on: false,
            places: vec![in alloc; NONE; count]?,
            below: vec![in alloc; NONE; count]?,
            top: NONE,
        })
    }

    /// Makes room for `count` lights in total.
    pub(crate) fn reserve(&mut self, count: usize) -> Result<(), AllocError>
        ensures kept { (light : ℕ) → light < length self.old → slice_index self.new light ≡ slice_index self.old light }
        ensures longer { length self.old ≤ length self.new }
        ensures few { (length self.new ≤ count) ⊎ (self.new ≡ self.old) }
        ensures room { OnOk result (count ≤ length self.new) }
    {
        let more = count.saturating_sub(self.places.len());
        self.places.reserve_exact(more)?;
        self.below.reserve_exact(more)?;
        lengthen(&mut self.places, more);
        lengthen(&mut self.below, more);
        Ok(())
    }

    /// Begins to take lights first, with none on the stack.
    pub(crate) fn start(&mut self)
        ensures { self.new ≡ self.old }
    {
        self.is_on = true;
        self.top = NONE;
        self.below.as_mut_slice().fill(NONE);
    }

    /// Takes no light first any more.
    pub(crate) fn stop(&mut self)
        ensures { self.new ≡ self.old }
    {
        self.is_on = false;
        self.top = NONE;
    }

    /// Notes where in the worklist a light is.
    pub(crate) fn put(&mut self, light: usize, place: usize)
        requires { light < length self.old }
        ensures { self.new ≡ slice_set self.old light place }
    {
        self.places[light] = place;
    }

    /// Puts a light on top, unless it is on the stack.
    pub(crate) fn add(&mut self, light: usize)
        ensures { self.new ≡ self.old }
    {
        if !self.is_on {
            return;
        }
        if let Some(below) = self.below.get_mut(light) {
            if *below == NONE {
                *below = if self.top == NONE { light } else { self.top };
                self.top = light;
            }
        }
    }

    /// Whether a light is on the stack.
    pub(crate) fn has_any(&self) -> bool {
        self.top != NONE
    }

    /// Takes the light on top.
    fn pop(&mut self) -> Option<usize>
        ensures { self.new ≡ self.old }
    {
        let light = self.top;
        self.top = NONE;
        let below = self.below.get_mut(light)?;
        if *below != light {
            self.top = *below;
        }
        *below = NONE;
        Some(light)
    }

    /// Where a light is among those that wait; `None` if it is not among them.
    fn place_of(&self, light: usize, waiting: &[usize]) -> Option<usize>
        ensures { IfSome result (λ place. place < length waiting.now) }
    {
        let place = *self.places.get(light)?;
        if *waiting.get(place)? == light {
            Some(place)
        } else {
            None
        }
    }

    /// Where the light to take next is: takes lights off the stack up to one that waits. `otherwise` if none does.
    pub(crate) fn next_place(&mut self, waiting: &[usize], otherwise: usize) -> usize
        ensures same { self.new ≡ self.old }
        ensures within { otherwise < length waiting.now → result < length waiting.now }
    {
        for _ in 0..waiting.len() {
            let Some(light) = self.pop() else {
                return otherwise;
            };
            if let Some(place) = self.place_of(light, waiting) {
                return place;
            }
        }
        otherwise
    }

    /// Notes which light is at a place now. Takes none first any more once no light waits.
    pub(crate) fn note_moved(&mut self, waiting: &[usize], place: usize)
        requires { place < length waiting.now → slice_index waiting.now place < length self.old }
        ensures there { place < length waiting.now → self.new ≡ slice_set self.old (slice_index waiting.now place) place }
        ensures past { length waiting.now ≤ place → self.new ≡ self.old }
    {
        match waiting.get(place) {
            Some(light) => self.put(*light, place),
            None => {}
        }
        if waiting.is_empty() {
            self.stop();
        }
    }

    /// The lengths of the arrays.
    pub(crate) fn sizes(&self) -> [usize; 2]
        ensures { result ≡ length self.now ∷ length self.now ∷ [] }
    {
        let Urgent {
            is_on: _,
            places,
            below,
            top: _,
        } = self;
        [places.len(), below.len()]
    }
}

/// Appends `NONE` so many times, in reserved room.
fn lengthen(list: &mut Vec<usize>, more: usize)
    requires { length list.old.items + more ≤ vec_capacity list.old }
    ensures { list.new.items ≡ list.old.items ++ replicate more 18446744073709551615 }
{
    for _ in 0..more {
        let _ = list.push(NONE);
    }
}
