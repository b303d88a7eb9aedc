//! Answers `best`.
ghost use Rattle.std.specs.Prelude.{◌≡◌, ◌+◌, ◌≤◌, IfOk, IfErr, OnOk, OnErr};
ghost use Rattle.xw_search.specs.NamedFill.{is_named, AreLights};
ghost use Rattle.xw_best.specs.Best.{IsBest};
ghost use Rattle.xw_best.specs.OneSearch.{IsBestWithin};
ghost use Rattle.xw_lines.specs.Sends.{Sends};
ghost use Rattle.xw_answers.specs.Text.{number_line};
ghost use Rattle.xw_session.specs.NamedSearch.{names_of as spec_names_of, IsUnsearched};
ghost use Rattle.xw_session.specs.Answer.{AnswersSearch};

use crate::lookup::names_of;
use crate::session::Session;
use crate::session::ending::{Ended, WriteLines, write_given};
use std::alloc::Global;
use xw_answers::text;
use xw_best::best::{Best, BestHint, best_fill};
use xw_commands::lights::LightArgs;
use xw_feas::edit::Refusal;
use xw_feas::progress::{News, Task};
use xw_feas::searchable::Searchable;
use xw_lines::device::{Sink, WriteFailed};
use xw_search::allowance::Allowance;
use xw_search::filling::Filling;

/// Fills these lights, or all lights if there are none, with the best fill that a search finds within its limit.
/// Continues the search that left the hint, if it was for the same lights and seed and began with the same entries.
/// Places at most `limit` words and letters.
fn best_filled<E: Searchable>(
    alloc: Global,
    engine: &mut E,
    lights: LightArgs<'_>,
    limit: u64,
    seed: u64,
    hint: &mut Option<BestHint>,
) -> Result<Best, Refusal>
    ensures ok { IfOk result (IsBest (is_named (E.state engine.old) (spec_names_of lights.entry)) (E.state engine.old) (E.state engine.new)) }
    ensures within { IfOk result (IsBestWithin E.state E.saved (is_named (E.state engine.old) (spec_names_of lights.entry)) engine.old engine.new limit) }
    ensures known { OnOk result (AreLights (E.state engine.old) (spec_names_of lights.entry)) }
    ensures refused { IfErr result (IsUnsearched (E.state engine.old) (spec_names_of lights.entry)) }
    ensures unchanged { OnErr result (E.state engine.new ≡ E.state engine.old) }
    ensures idle { limit ≡ 0 → E.state engine.new ≡ E.state engine.old }
    ensures placed { E.placed engine.new ≤ limit + E.placed engine.old }
{
    let names = names_of(alloc, engine, lights)?;
    let mut allowance = Allowance::new(limit);
    best_fill(alloc, engine, names.as_slice(), &mut allowance, seed, hint)
}

/// Writes a name and a grade.
fn write_grade<W: Sink>(sink: &mut W, name: &str, grade: u8) -> Result<(), WriteFailed>
    ensures { Sends W.transcript W.failures sink.old sink.new result (number_line name.now grade) }
{
    text::write_named_number(sink, name, u64::from(grade))
}

impl WriteLines for Best {
    ghost use Rattle.xw_session.specs.Best.{best_lines};

    ghost lines = { best_lines };

    fn write_lines<W: Sink>(self, sink: &mut W) -> Result<(), WriteFailed> {
        match self {
            Best::Filled { least, bound } => {
                Filling::Filled.write_lines(sink)?;
                write_grade(sink, "least", least)?;
                write_grade(sink, "bound", bound)
            }
            Best::NoFill => Filling::NoFill.write_lines(sink),
            Best::Limit { bound } => {
                Filling::Limit.write_lines(sink)?;
                write_grade(sink, "bound", bound)
            }
        }
    }
}

impl<E: Searchable> Session<E> {
    ghost use Rattle.xw_commands.specs.declared.search.Search.TheVariants as searches;

    /// Answers `best`: fills lights with the best fill that a search finds within its limit.
    pub(crate) fn answer_best<W: Sink>(
        &mut self,
        limit: u64,
        seed: u64,
        lights: LightArgs<'_>,
        sink: &mut W,
    ) -> Result<Ended, WriteFailed>
        ensures { AnswersSearch W.transcript W.failures self.old (searches.Best limit seed lights.entry) result self.new sink.old sink.new }
    {
        self.engine.tell(News::Begins(Task::Best));
        let best = best_filled(
            self.alloc,
            &mut self.engine,
            lights,
            limit,
            seed,
            &mut self.hints.best,
        );
        self.engine.tell(News::Ends);
        self.hints
            .end_autofill_if(matches!(best, Ok(Best::Filled { .. })));
        write_given(sink, best)
    }
}
