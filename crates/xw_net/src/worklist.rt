//! Lists of lights that wait, each at most once.
ghost use Rattle.std.specs.Prelude.{◌≡◌, ◌+◌, ◌*◌, ◌^◌, ◌<◌, ◌≤◌, true, false, [], ◌∷◌, ◌++◌, length, replicate, slice_set, vec_len, IfSome, IfNone, IfOk, OnOk, vec_capacity, if◌then◌else◌};
ghost use Rattle.std.specs.List.Sorted.{IsPermutation};
ghost use Rattle.xw_net.specs.Sizes.{list_sizes};
ghost use Rattle.xw_net.specs.Worklist.{is_marked, is_waiting, Grows, IsIdle, IsRoomierList, IsTakenFrom};

use crate::urgent::Urgent;
use std::alloc::{AllocError, Global};
use std::marker::Model;

/// A list of lights that wait to be processed. A light is marked from when it is inserted until it
/// is released or the list is cleared, also after it was taken. A marked light is not inserted
/// again.
#[derive(Drop)]
pub struct Worklist {
    marks: Vec<bool>,
    lights: Vec<usize>,
    /// The lights to take first, after `renew` and until the list is empty.
    urgent: Urgent,
}

impl Model for Worklist {
    ghost use Rattle.std.specs.Prelude.{length, vec_capacity};
    ghost use Rattle.xw_net.specs.Worklist.{ListOfLights, IsKeptList};

    ghost Value = { ListOfLights };

    ghost view = { λ list. record { marks = list.marks.items; lights = list.lights.items; room = length list.urgent } };

    ghost invariant = { λ list. IsKeptList list.marks.items list.lights.items list.urgent (vec_capacity list.lights) };
}

impl Worklist {
    /// An empty list for `count` lights.
    pub(crate) fn new(alloc: Global, count: usize) -> Result<Worklist, AllocError>
        ensures { IfOk result (IsIdle count) }
    {
        Ok(Worklist {
            marks: vec![in alloc; false; count]?,
            lights: Vec::with_capacity(alloc, count)?,
            urgent: Urgent::new(alloc, count)?,
        })
    }

    /// Whether a light is marked.
    pub(crate) fn contains(&self, light: usize) -> bool
        requires { light < length self.now.marks }
        ensures { result ≡ is_marked self.now.marks light }
    {
        self.marks.as_slice()[light]
    }

    /// Marks a light and puts it at the end, unless it is marked.
    pub(crate) fn insert(&mut self, light: usize)
        requires { light < length self.old.marks }
        ensures marks { self.new.marks ≡ slice_set self.old.marks light true }
        ensures lights { self.new.lights ≡ (if is_marked self.old.marks light then self.old.lights else self.old.lights ++ light ∷ []) }
        ensures room { self.old.room ≤ self.new.room }
        ensures grows { Grows self.old self.new }
    {
        if !self.marks[light] {
            self.marks[light] = true;
            self.urgent.put(light, self.lights.len());
            let _ = self.lights.push(light);
        }
    }

    /// As `insert`. An urgent light is taken before others.
    pub(crate) fn insert_urgent(&mut self, light: usize, is_urgent: bool)
        requires { light < length self.old.marks }
        ensures marks { self.new.marks ≡ slice_set self.old.marks light true }
        ensures lights { self.new.lights ≡ (if is_marked self.old.marks light then self.old.lights else self.old.lights ++ light ∷ []) }
        ensures room { self.old.room ≤ self.new.room }
        ensures grows { Grows self.old self.new }
    {
        if is_urgent {
            self.urgent.add(light);
        }
        self.insert(light);
    }

    /// Whether an urgent light may wait.
    pub(crate) fn has_urgent(&self) -> bool {
        self.urgent.has_any()
    }

    /// Takes the last light. It stays marked.
    pub(crate) fn take_last(&mut self) -> Option<usize>
        ensures taken { IfSome result (λ light. self.old.lights ≡ self.new.lights ++ light ∷ []) }
        ensures marked { IfSome result (λ light. is_marked self.old.marks light ≡ true) }
        ensures within { IfSome result (λ light. light < length self.old.marks) }
        ensures none { IfNone result (self.old.lights ≡ []) }
        ensures left { IfNone result (self.new.lights ≡ []) }
        ensures rest { self.new ≡ record self.old { lights = self.new.lights } }
    {
        self.lights.pop()
    }

    /// The lights that wait.
    pub(crate) fn waiting(&self) -> &[usize]
        ensures { result.now ≡ self.now.lights }
    {
        &self.lights
    }

    /// Takes an urgent light if one waits, and otherwise the light at index `at` of the list, or the first one if the
    /// list is not that long. It stays marked.
    pub(crate) fn take_at(&mut self, at: usize) -> Option<usize>
        ensures taken { IfSome result (λ light. IsPermutation self.old.lights (light ∷ self.new.lights)) }
        ensures marked { IfSome result (λ light. is_marked self.old.marks light ≡ true) }
        ensures within { IfSome result (λ light. light < length self.old.marks) }
        ensures once { IfSome result (λ light. is_waiting self.new.lights light ≡ false) }
        ensures none { IfNone result (self.old.lights ≡ []) }
        ensures left { IfNone result (self.new.lights ≡ []) }
        ensures rest { self.new ≡ record self.old { lights = self.new.lights } }
    {
        let otherwise = if at < self.lights.len() { at } else { 0 };
        let from = self.urgent.next_place(&self.lights, otherwise);
        let taken = take_from(&mut self.lights, from);
        self.urgent.note_moved(&self.lights, from);
        taken
    }

    /// Unmarks a light that was taken.
    pub(crate) fn release(&mut self, light: usize)
        requires light { light < length self.old.marks }
        requires taken { is_waiting self.old.lights light ≡ false }
        ensures { self.new ≡ record self.old { marks = slice_set self.old.marks light false } }
    {
        self.marks[light] = false;
    }

    /// Takes all lights off the list, and unmarks them.
    pub(crate) fn clear(&mut self)
        ensures { self.new ≡ record self.old { marks = replicate (length self.old.marks) false; lights = [] } }
    {
        self.lights.clear();
        self.marks.as_mut_slice().fill(false);
        self.urgent.stop();
    }

    /// Reserves room for `count` lights in total.
    pub(crate) fn reserve(&mut self, count: usize) -> Result<(), AllocError>
        ensures same { IsRoomierList self.old self.new }
        ensures room { OnOk result (count ≤ self.new.room) }
    {
        self.lights
            .reserve_exact(count.saturating_sub(self.lights.len()))?;
        self.urgent.reserve(count)
    }

    /// Takes all lights off the list, and replaces the marks by those of other lights. Until the list is empty, urgent
    /// lights are taken first.
    pub(crate) fn renew(&mut self, marks: Vec<bool>)
        requires { vec_len marks ≤ self.old.room }
        ensures { self.new ≡ record self.old { marks = marks.items; lights = [] } }
    {
        self.lights.clear();
        self.marks = marks;
        self.urgent.start();
    }

    /// The number of lights that wait.
    pub(crate) fn len(&self) -> usize
        ensures { result ≡ length self.now.lights }
    {
        self.lights.len()
    }

    /// The lengths of the arrays: the lights that wait, the marks, and those of `Urgent`.
    pub(crate) fn sizes(&self) -> [usize; 4]
        ensures { result ≡ list_sizes self.now }
    {
        let Worklist {
            marks,
            lights,
            urgent,
        } = self;
        let [places, below] = urgent.sizes();
        [lights.len(), marks.len(), places, below]
    }
}

/// Takes the light at index `from`, if any waits. The last one moves to that index.
fn take_from(lights: &mut Vec<usize>, from: usize) -> Option<usize>
    requires { 0 < length lights.old.items → from < length lights.old.items }
    ensures moved { IfSome result (λ light. IsTakenFrom lights.old.items lights.new.items from) }
    ensures taken { IfSome result (λ light. IsPermutation lights.old.items (light ∷ lights.new.items)) }
    ensures none { IfNone result (lights.old.items ≡ []) }
    ensures left { IfNone result (lights.new.items ≡ []) }
    ensures capacity { vec_capacity lights.new ≡ vec_capacity lights.old }
{
    if lights.is_empty() {
        return None;
    }
    let light = lights.swap_remove(from);
    Some(light)
}
