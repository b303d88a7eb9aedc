//! Answers `autofill`.
ghost use Rattle.std.specs.Prelude.{◌≡◌, ◌+◌, ◌≤◌, IfOk, IfErr, OnOk, OnErr};
ghost use Rattle.xw_search.specs.NamedFill.{IsAutofilled, is_named, AreLights};
ghost use Rattle.xw_session.specs.NamedSearch.{names_of as spec_names_of, IsUnsearched};
ghost use Rattle.xw_session.specs.Answer.{AnswersSearch};

use crate::lookup::names_of;
use crate::session::Session;
use crate::session::ending::{Ended, write_given};
use std::alloc::Global;
use xw_commands::lights::LightArgs;
use xw_feas::edit::Refusal;
use xw_feas::progress::{News, Task};
use xw_feas::searchable::Searchable;
use xw_fill::named_lights::{Hint, autofill};
use xw_lines::device::{Sink, WriteFailed};
use xw_search::allowance::Allowance;
use xw_search::filling::Filling;

/// Fills these lights, or all lights if there are none, if a search finds a fill within its limit. Continues the
/// search that left the hint, if it was for the same lights and seed. Places at most `limit` words and letters, and all of
/// them before it answers `Limit`.
fn filled<E: Searchable>(
    alloc: Global,
    engine: &mut E,
    lights: LightArgs<'_>,
    limit: u64,
    seed: u64,
    hint: &mut Option<Hint>,
) -> Result<Filling, Refusal>
    ensures ok { IfOk result (IsAutofilled (is_named (E.state engine.old) (spec_names_of lights.entry)) (E.state engine.old) (E.state engine.new)) }
    ensures known { OnOk result (AreLights (E.state engine.old) (spec_names_of lights.entry)) }
    ensures refused { IfErr result (IsUnsearched (E.state engine.old) (spec_names_of lights.entry)) }
    ensures unchanged { OnErr result (E.state engine.new ≡ E.state engine.old) }
    ensures idle { limit ≡ 0 → E.state engine.new ≡ E.state engine.old }
    ensures within { E.placed engine.new ≤ limit + E.placed engine.old }
    ensures limit { result ≡ Ok Filling.Limit → E.placed engine.new ≡ limit + E.placed engine.old }
{
    let names = names_of(alloc, engine, lights)?;
    let mut allowance = Allowance::new(limit);
    autofill(alloc, engine, names.as_slice(), &mut allowance, seed, hint)
}

impl<E: Searchable> Session<E> {
    ghost use Rattle.xw_commands.specs.declared.search.Search.TheVariants as searches;

    /// Answers `autofill`: fills lights with some fill, if a search finds one within its limit.
    pub(crate) fn answer_autofill<W: Sink>(
        &mut self,
        limit: u64,
        seed: u64,
        lights: LightArgs<'_>,
        sink: &mut W,
    ) -> Result<Ended, WriteFailed>
        ensures { AnswersSearch W.transcript W.failures self.old (searches.Autofill limit seed lights.entry) result self.new sink.old sink.new }
    {
        self.engine.tell(News::Begins(Task::Autofill));
        let filled = filled(
            self.alloc,
            &mut self.engine,
            lights,
            limit,
            seed,
            &mut self.hints.autofill,
        );
        self.engine.tell(News::Ends);
        self.hints
            .end_autofill_if(matches!(filled, Ok(Filling::Filled)));
        write_given(sink, filled)
    }
}
