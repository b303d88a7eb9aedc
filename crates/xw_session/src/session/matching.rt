//! Answers `unmatched`.
ghost use Rattle.std.specs.Prelude.{◌≡◌, ◌<◌, true, false, length};
ghost use Rattle.xw_feas.specs.Board.{board_of};
ghost use Rattle.xw_feas.specs.Feasible.{base_words_at};
ghost use Rattle.xw_search.specs.OfState.{light_count, is_entered as spec_is_entered};
ghost use Rattle.xw_session.specs.Unmatched.{is_unmatched as spec_is_unmatched};
ghost use Rattle.xw_session.specs.Answer.{AnswersQuery};

use crate::session::Session;
use crate::session::ending::{Ended, accepted};
use crate::session::telling::{LightReport, write_each_light};
use xw_answers::text::{self, Pattern};
use xw_feas::feasible::Feasible;
use xw_lines::device::{Sink, WriteFailed};
use xw_search::lights::{is_entered, name_at};

/// Returns whether an active word agrees with the letters of a light that is not wholly entered.
fn has_base_word<E: Feasible>(engine: &E, light: usize) -> bool
    requires light { light < light_count (E.state engine.now) }
    requires not_entered { spec_is_entered (E.state engine.now) light ≡ false }
    ensures yes { result ≡ true → 0 < length (base_words_at (board_of (E.state engine.now).grid) (E.state engine.now).words light) }
    ensures no { result ≡ false → length (base_words_at (board_of (E.state engine.now).grid) (E.state engine.now).words light) ≡ 0 }
{
    let pattern = Pattern::named(engine.grid(), engine.lights(), name_at(engine, light));
    match engine.bank().matching(pattern.bytes()) {
        Ok(mut words) => words.next().is_some(),
        Err(_) => unreachable!(),
    }
}

/// Returns whether a light is not wholly entered and no active word agrees with its letters.
fn is_unmatched<E: Feasible>(engine: &E, light: usize) -> bool
    requires { light < light_count (E.state engine.now) }
    ensures { result ≡ spec_is_unmatched (E.state engine.now) light }
{
    !is_entered(engine, light) && !has_base_word(engine, light)
}

/// A light that no word matches has a line with its letters.
struct UnmatchedLights;

impl LightReport for UnmatchedLights {
    ghost use Rattle.xw_session.specs.Unmatched.{unmatched_line};

    ghost line = { unmatched_line };

    fn write_light<E: Feasible, W: Sink>(
        &self,
        sink: &mut W,
        engine: &E,
        light: usize,
    ) -> Result<(), WriteFailed> {
        if is_unmatched(engine, light) {
            text::write_light_word(sink, engine.grid(), engine.lights(), name_at(engine, light))
        } else {
            Ok(())
        }
    }
}

impl<E: Feasible> Session<E> {
    ghost use Rattle.xw_commands.specs.declared.query.Query.TheVariants as queries;

    /// Answers `unmatched`: the lights that no word matches.
    pub(crate) fn answer_unmatched<W: Sink>(&self, sink: &mut W) -> Result<Ended, WriteFailed>
        ensures { AnswersQuery W.transcript W.failures self.now queries.Unmatched result sink.old sink.new }
    {
        accepted(write_each_light(sink, &self.engine, &UnmatchedLights))
    }
}
