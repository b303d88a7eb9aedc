//! What a search places in one step.
ghost use Rattle.std.specs.Prelude.{◌≡◌, suc, Bool, IfOk, OnOk, OnErr};
ghost use Rattle.xw_feas.specs.State.{State};
ghost use Rattle.xw_feas.specs.Trying.{levels_after};
ghost use Rattle.xw_search.specs.NamedFill.{flags};
ghost use Rattle.xw_search.specs.Position.{DiffersInEntries};
ghost use Rattle.xw_search.specs.Stack.{HasLed};

use std::alloc::AllocError;
use xw_feas::searchable::Searchable;

/// A word in a light, or a letter in a cell, that a search places as a level of the engine.
pub trait Placement: Copy {
    /// It can be placed in a state.
    ghost may_place: { Self → State → Type 0 };

    /// It leads from one state to another.
    ghost is_placed: { Self → State → State → Type 0 };

    /// Nothing else can be placed where it is placed.
    ghost forced: { Self → Bool };

    /// Whether nothing else can be placed where it is placed. A search that goes back passes over it.
    fn is_forced(&self) -> bool
        ensures { result ≡ forced self.now };

    /// Places it, in one placement of the engine. If this leaves a watched light without a feasible word, returns such a light
    /// instead, and then nothing changes. Returns an error if an allocation fails, and then changes nothing.
    fn try_place<E: Searchable>(
        &self,
        engine: &mut E,
        watched: &[bool],
    ) -> Result<Option<usize>, AllocError>
        requires { may_place self.now (E.state engine.old) }
        ensures led { IfOk result (HasLed (is_placed self.now (E.state engine.old)) (flags watched.now) (E.state engine.old) (E.state engine.new)) }
        ensures same { OnErr result (E.state engine.new ≡ E.state engine.old) }
        ensures levels { E.levels engine.new ≡ levels_after (E.levels engine.old) (E.state engine.old) result }
        ensures count { OnOk result (E.placed engine.new ≡ suc (E.placed engine.old)) }
        ensures none { OnErr result (E.placed engine.new ≡ E.placed engine.old) };

    /// It changes only entries.
    ghost entries: { (placement : Self) (before after : State) → is_placed placement before after → DiffersInEntries before after };
}
