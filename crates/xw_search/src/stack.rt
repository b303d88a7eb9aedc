//! The stack of a search: what it has placed, and the way back.
ghost use Rattle.std.specs.Prelude.{◌≡◌, suc, [], ◌∷◌, ◌++◌, length, IfOk, IfSome, IfNone, OnOk, OnErr};
ghost use Rattle.std.specs.Option.{option_to_list};
ghost use Rattle.xw_feas.specs.Trying.{levels_after};
ghost use Rattle.xw_search.specs.Position.{DiffersInEntries};
ghost use Rattle.xw_search.specs.Stack.{AreForced, IsTakenBack, LeadThrough, HasTried, first_or};
ghost use Rattle.xw_search.specs.NamedFill.{flags};

use crate::placement::Placement;
use std::alloc::{AllocError, Global};
use xw_feas::searchable::Searchable;

/// The placements of a search in order. Each is a level of the engine, and one stack serves many searches.
#[derive(Drop)]
pub struct Stack<M: Placement> {
    placements: Vec<M>,
}

impl<M: Placement> Stack<M> {
    /// Allocates a stack for `room` placements.
    pub fn new(alloc: Global, room: usize) -> Result<Stack<M>, AllocError>
        ensures { IfOk result (λ stack. stack.placements.items ≡ []) }
    {
        let placements = Vec::with_capacity(alloc, room)?;
        Ok(Stack { placements })
    }

    /// Begins a search at the current state: forgets all placements.
    pub fn begin<E: Searchable>(&mut self, engine: &mut E)
        ensures empty { self.new.placements.items ≡ [] }
        ensures levels { E.levels engine.new ≡ [] }
        ensures state { E.state engine.new ≡ E.state engine.old }
        ensures count { E.placed engine.new ≡ E.placed engine.old }
    {
        self.placements.clear();
        engine.begin_search();
    }

    /// Returns the number of placements.
    pub fn len(&self) -> usize
        ensures { result ≡ length self.now.placements.items }
    {
        self.placements.len()
    }

    /// Places a word or a letter. If this leaves a watched light without a feasible word, returns such a light instead, and then
    /// nothing changes. Returns an error if an allocation fails, and then changes nothing.
    pub fn try_place<E: Searchable>(
        &mut self,
        engine: &mut E,
        placement: M,
        watched: &[bool],
    ) -> Result<Option<usize>, AllocError>
        requires may { M.may_place placement (E.state engine.old) }
        requires stands { LeadThrough M.is_placed self.old.placements.items (E.levels engine.old) (E.state engine.old) }
        ensures tried { IfOk result (HasTried M.is_placed (flags watched.now) placement (E.state engine.old) self.old.placements.items (E.state engine.new) self.new.placements.items) }
        ensures same { OnErr result (E.state engine.new ≡ E.state engine.old) }
        ensures stands { LeadThrough M.is_placed self.new.placements.items (E.levels engine.new) (E.state engine.new) }
        ensures levels { E.levels engine.new ≡ levels_after (E.levels engine.old) (E.state engine.old) result }
        ensures start { first_or (E.levels engine.new) (E.state engine.new) ≡ first_or (E.levels engine.old) (E.state engine.old) }
        ensures entries { DiffersInEntries (E.state engine.old) (E.state engine.new) }
        ensures count { OnOk result (E.placed engine.new ≡ suc (E.placed engine.old)) }
        ensures none { OnErr result (E.placed engine.new ≡ E.placed engine.old) }
    {
        self.placements.push(placement)?;
        let Ok(dead) = placement.try_place(engine, watched) else {
            let _ = self.placements.pop();
            return Err(AllocError);
        };
        if let Some(light) = dead {
            let _ = self.placements.pop();
            return Ok(Some(light));
        }
        Ok(None)
    }

    /// Takes back the last placement, and returns it. Returns `None` if there is none, and then changes nothing.
    pub fn back<E: Searchable>(&mut self, engine: &mut E) -> Option<M>
        requires stands { LeadThrough M.is_placed self.old.placements.items (E.levels engine.old) (E.state engine.old) }
        ensures back { IfSome result (λ placement. M.is_placed placement (E.state engine.new) (E.state engine.old)) }
        ensures placements { self.old.placements.items ≡ self.new.placements.items ++ option_to_list result }
        ensures levels { IfSome result (λ placement. E.levels engine.old ≡ E.levels engine.new ++ E.state engine.new ∷ []) }
        ensures start { first_or (E.levels engine.new) (E.state engine.new) ≡ first_or (E.levels engine.old) (E.state engine.old) }
        ensures none { IfNone result (self.old.placements.items ≡ []) }
        ensures same { IfNone result (engine.new ≡ engine.old) }
        ensures stands { LeadThrough M.is_placed self.new.placements.items (E.levels engine.new) (E.state engine.new) }
        ensures entries { DiffersInEntries (E.state engine.old) (E.state engine.new) }
        ensures count { E.placed engine.new ≡ E.placed engine.old }
    {
        let last = self.placements.pop()?;
        engine.back_level();
        Some(last)
    }

    /// Takes back the last placement that was not forced, with the forced ones after it, and returns it. Returns `None`
    /// if there is none, and then takes back all.
    pub fn retreat<E: Searchable>(&mut self, engine: &mut E) -> Option<M>
        requires stands { LeadThrough M.is_placed self.old.placements.items (E.levels engine.old) (E.state engine.old) }
        ensures back { IfSome result (λ placement. IsTakenBack M.is_placed M.forced placement self.new.placements.items (E.state engine.new) self.old.placements.items (E.state engine.old)) }
        ensures none { IfNone result (AreForced M.forced self.old.placements.items) }
        ensures same { IfNone result (self.old.placements.items ≡ [] → E.state engine.new ≡ E.state engine.old) }
        ensures stands { LeadThrough M.is_placed self.new.placements.items (E.levels engine.new) (E.state engine.new) }
        ensures start { first_or (E.levels engine.new) (E.state engine.new) ≡ first_or (E.levels engine.old) (E.state engine.old) }
        ensures entries { DiffersInEntries (E.state engine.old) (E.state engine.new) }
        ensures count { E.placed engine.new ≡ E.placed engine.old }
    {
        while let Some(last) = self.back(engine) {
            if !last.is_forced() {
                return Some(last);
            }
        }
        None
    }

    /// Takes all placements back: returns to the state where the search began.
    pub fn reset<E: Searchable>(&mut self, engine: &mut E)
        requires stands { LeadThrough M.is_placed self.old.placements.items (E.levels engine.old) (E.state engine.old) }
        ensures back { E.state engine.new ≡ first_or (E.levels engine.old) (E.state engine.old) }
        ensures count { E.placed engine.new ≡ E.placed engine.old }
    {
        while let Some(_last) = self.back(engine) {}
    }
}
