//! Answers `grade` and `grades`.
ghost use Rattle.std.specs.Prelude.{◌≡◌, true, flat_map, is_some};
ghost use Rattle.std.specs.Option.{option_and_then};
ghost use Rattle.xw_grid.specs.Light.{lights_of, index_named};
ghost use Rattle.xw_search.specs.OfState.{grade_of};
ghost use Rattle.xw_search.specs.NamedFill.{AreLights};
ghost use Rattle.xw_lines.specs.Sends.{Sends};
ghost use Rattle.xw_session.specs.Reply.{name_of_light};
ghost use Rattle.xw_session.specs.NamedSearch.{names_of};
ghost use Rattle.xw_session.specs.Grades.{named_line, grade_lines};
ghost use Rattle.xw_session.specs.Answer.{AnswersQuery};

use crate::lookup::{are_lights, known_name};
use crate::session::Session;
use crate::session::ending::{Ended, accepted};
use crate::session::telling::{LightReport, write_each_light};
use xw_answers::answer_line::{Token, write_line};
use xw_answers::refusal::CommandRefusal;
use xw_answers::text;
use xw_commands::command::LightArg;
use xw_commands::lights::LightArgs;
use xw_feas::edit::Refusal;
use xw_feas::feasible::Feasible;
use xw_grid::LightName;
use xw_lines::device::{Sink, WriteFailed};
use xw_search::lights::{is_entered, name_at};
use xw_search::listing::grade;

/// A wholly entered light has a line with the grade of its word.
struct EnteredGrades;

impl LightReport for EnteredGrades {
    ghost use Rattle.xw_session.specs.Grades.{entered_line};

    ghost line = { entered_line };

    fn write_light<E: Feasible, W: Sink>(
        &self,
        sink: &mut W,
        engine: &E,
        light: usize,
    ) -> Result<(), WriteFailed> {
        if is_entered(engine, light) {
            text::write_grade(sink, name_at(engine, light), grade(engine, light))
        } else {
            Ok(())
        }
    }
}

/// Returns the grade of the word of the light with this name.
fn grade_named<E: Feasible>(engine: &E, name: LightName) -> Option<u8>
    ensures { result ≡ option_and_then (grade_of (E.state engine.now)) (index_named (lights_of (E.state engine.now).grid) name) }
{
    let light = engine.lights().index(name)?;
    grade(engine, light)
}

/// Writes the grade of the word of a light that a command names.
fn write_named<E: Feasible, W: Sink>(
    sink: &mut W,
    engine: &E,
    named: LightArg,
) -> Result<(), WriteFailed>
    requires { is_some (index_named (lights_of (E.state engine.now).grid) (name_of_light named)) ≡ true }
    ensures { Sends W.transcript W.failures sink.old sink.new result (named_line (E.state engine.now) (name_of_light named)) }
{
    match known_name(engine, named) {
        Some(name) => text::write_grade(sink, name, grade_named(engine, name)),
        None => unreachable!(),
    }
}

/// Writes the grades of the words of lights that a command names.
fn write_each<E: Feasible, W: Sink>(
    sink: &mut W,
    engine: &E,
    lights: LightArgs<'_>,
) -> Result<(), WriteFailed>
    requires { AreLights (E.state engine.now) (names_of lights) }
    ensures { Sends W.transcript W.failures sink.old sink.new result (flat_map (named_line (E.state engine.now)) (names_of lights.entry)) }
{
    for named in lights {
        write_named(sink, engine, named)?;
    }
    Ok(())
}

/// Writes the grades of the words of the named lights, or of all wholly entered lights if none is named.
fn write_grades<E: Feasible, W: Sink>(
    sink: &mut W,
    engine: &E,
    lights: LightArgs<'_>,
) -> Result<(), WriteFailed>
    requires { AreLights (E.state engine.now) (names_of lights) }
    ensures { Sends W.transcript W.failures sink.old sink.new result (grade_lines (E.state engine.now) (names_of lights.entry)) }
{
    if lights.copy().next().is_none() {
        write_each_light(sink, engine, &EnteredGrades)
    } else {
        write_each(sink, engine, lights)
    }
}

impl<E: Feasible> Session<E> {
    ghost use Rattle.xw_commands.specs.declared.query.Query.TheVariants as queries;

    /// Answers `grade`: the grade of a known word.
    pub(crate) fn answer_grade<W: Sink>(
        &self,
        word: &[u8],
        sink: &mut W,
    ) -> Result<Ended, WriteFailed>
        ensures { AnswersQuery W.transcript W.failures self.now (queries.Grade word.now) result sink.old sink.new }
    {
        match self.engine.bank().grade_of(word) {
            Ok(grade) => accepted(write_line(sink, &[Token::Number(grade as u64)])),
            Err(fault) => Ok(Err(CommandRefusal::Engine(Refusal::Word(fault)))),
        }
    }

    /// Answers `grades`: the grades of the words of named lights, or of all wholly entered lights.
    pub(crate) fn answer_grades<W: Sink>(
        &self,
        lights: LightArgs<'_>,
        sink: &mut W,
    ) -> Result<Ended, WriteFailed>
        ensures { AnswersQuery W.transcript W.failures self.now (queries.Grades lights.entry) result sink.old sink.new }
    {
        if !are_lights(&self.engine, lights.copy()) {
            return Ok(Err(CommandRefusal::Engine(Refusal::NoLight)));
        }
        accepted(write_grades(sink, &self.engine, lights))
    }
}
