//! Fills the lights of a plan letter by letter, first where the search failed before.
ghost use Rattle.std.specs.Prelude.{◌≡◌, IfOk, OnOk, OnErr};
ghost use Rattle.xw_search.specs.Allowance.{IsCounted, HasPlaced, HasPlacedWithin};
ghost use Rattle.xw_search.specs.OfState.{IsPlan, IsOpen};
ghost use Rattle.xw_search.specs.NamedFill.{flags, IsAutofilled};
ghost use Rattle.xw_search.specs.Progress.{entries_of, HasEntered};

use crate::allowance::Allowance;
use crate::checks::first_dead;
use crate::filling::Filling;
use crate::frame::Frame;
use crate::plan::Plan;
use crate::repeats::has_repeat;
use crate::run::{Effort, Ending, run};
use crate::stack::Stack;
use std::alloc::{AllocError, Global};
use xw_feas::searchable::Searchable;

/// Repeats the search, each time with a later cut, until it ends.
fn run_again<E: Searchable>(
    engine: &mut E,
    stack: &mut Stack<Frame>,
    plan: &Plan,
    effort: &mut Effort,
    allowance: &mut Allowance,
) -> Result<Filling, AllocError>
    requires plan { IsPlan (E.state engine.old) plan.now }
    requires open { IsOpen (flags plan.now.named.items) (E.state engine.old) (entries_of (E.state engine.old)) }
    ensures counted { IsCounted allowance.old allowance.new (E.state engine.old) (E.state engine.new) }
    ensures placed { OnOk result (HasPlaced allowance.old allowance.new (E.placed engine.old) (E.placed engine.new)) }
    ensures within { HasPlacedWithin allowance.old allowance.new (E.placed engine.old) (E.placed engine.new) }
    ensures until { allowance.new.until ≡ allowance.old.until }
    ensures limit { result ≡ Ok Filling.Limit → allowance.new.made ≡ allowance.new.until }
    ensures ok { IfOk result (IsAutofilled (flags plan.now.named.items) (E.state engine.old) (E.state engine.new)) }
    ensures entered { IfOk result (HasEntered (flags plan.now.named.items) (E.state engine.old) (E.state engine.new)) }
    ensures unchanged { OnErr result (E.state engine.new ≡ E.state engine.old) }
{
    loop {
        let cut = effort.cut;
        match run(engine, stack, plan, effort, cut, allowance) {
            Ending::Filled => return Ok(Filling::Filled),
            Ending::NoFill => return Ok(Filling::NoFill),
            Ending::Limit => return Ok(Filling::Limit),
            Ending::Memory => return Err(AllocError),
            Ending::Cut => {
                effort.cut = cut.saturating_mul(2);
                effort.weighted = effort.graded && !effort.weighted;
            }
        }
    }
}

/// A stack for searches that fill the lights of a plan.
pub fn stack_for(alloc: Global, plan: &Plan) -> Result<Stack<Frame>, AllocError> {
    Stack::new(alloc, plan.targets.len())
}

/// Fills the lights of a plan by letters. The state changes only for `Filled`. The stack may have served other searches.
pub fn fill_planned<E: Searchable>(
    alloc: Global,
    engine: &mut E,
    stack: &mut Stack<Frame>,
    plan: &Plan,
    effort: &mut Effort,
    allowance: &mut Allowance,
) -> Result<Filling, AllocError>
    requires plan { IsPlan (E.state engine.old) plan.now }
    ensures counted { IsCounted allowance.old allowance.new (E.state engine.old) (E.state engine.new) }
    ensures placed { OnOk result (HasPlaced allowance.old allowance.new (E.placed engine.old) (E.placed engine.new)) }
    ensures within { HasPlacedWithin allowance.old allowance.new (E.placed engine.old) (E.placed engine.new) }
    ensures until { allowance.new.until ≡ allowance.old.until }
    ensures limit { result ≡ Ok Filling.Limit → allowance.new.made ≡ allowance.new.until }
    ensures ok { IfOk result (IsAutofilled (flags plan.now.named.items) (E.state engine.old) (E.state engine.new)) }
    ensures entered { IfOk result (HasEntered (flags plan.now.named.items) (E.state engine.old) (E.state engine.new)) }
    ensures unchanged { OnErr result (E.state engine.new ≡ E.state engine.old) }
{
    if first_dead(engine, &plan.watched).is_some() {
        return Ok(Filling::NoFill);
    }
    let repeats = has_repeat(alloc, engine)?;
    if repeats {
        return Ok(Filling::NoFill);
    }
    run_again(engine, stack, plan, effort, allowance)
}
