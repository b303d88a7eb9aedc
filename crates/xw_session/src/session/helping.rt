//! Answers `help`.
ghost use Rattle.std.specs.Prelude.{◌≡◌, Ok, Err, IfOk, IfErr};
ghost use Rattle.xw_lines.specs.Sends.{Sends};
ghost use Rattle.xw_commands.specs.Command.{form_named};
ghost use Rattle.xw_answers.specs.Text.{word_line};
ghost use Rattle.xw_session.specs.Help.{form_lines, changing_forms, all_forms};
ghost use Rattle.xw_session.specs.Reply.{form_shown};
ghost use Rattle.xw_session.specs.Answer.{AnswersQuery};

use crate::session::Session;
use crate::session::ending::{Ended, accepted};
use xw_answers::answer_line::{Token, write_line};
use xw_answers::refusal::CommandRefusal;
use xw_commands::change::CHANGES;
use xw_commands::command::{self, SyntaxFault, Text};
use xw_commands::names::CommandName;
use xw_commands::query::QUERIES;
use xw_commands::search::SEARCHES;
use xw_feas::feasible::Feasible;
use xw_lines::device::{Sink, WriteFailed};

/// Returns the form of the command with this word, or `Command` if there is none.
fn form_of(word: &[u8]) -> Result<&'static str, CommandRefusal>
    ensures ok { IfOk result (λ form. form_shown (form_named word.now) ≡ Ok (word_line form.now)) }
    ensures refused { IfErr result (λ refusal. form_shown (form_named word.now) ≡ Err refusal) }
{
    match command::form_named(word) {
        Some(form) => Ok(form),
        None => Err(CommandRefusal::Syntax(SyntaxFault::Command)),
    }
}

/// Writes the form of a command on a line.
fn write_form<W: Sink>(sink: &mut W, form: &str) -> Result<(), WriteFailed>
    ensures { Sends W.transcript W.failures sink.old sink.new result (word_line form.now) }
{
    write_line(sink, &[Token::Name(form)])
}

/// Writes the forms of these commands.
fn write_forms<N: CommandName, W: Sink>(sink: &mut W, names: &[N]) -> Result<(), WriteFailed>
    ensures { Sends W.transcript W.failures sink.old sink.new result (form_lines N.form names.now) }
{
    for name in names {
        write_form(sink, name.form())?;
    }
    Ok(())
}

/// Writes the forms of the changes, and then of the searches.
fn write_changing_forms<W: Sink>(sink: &mut W) -> Result<(), WriteFailed>
    ensures { Sends W.transcript W.failures sink.old sink.new result changing_forms }
{
    write_forms(sink, &CHANGES)?;
    write_forms(sink, &SEARCHES)
}

/// Writes the forms of all commands.
fn write_all_forms<W: Sink>(sink: &mut W) -> Result<(), WriteFailed>
    ensures { Sends W.transcript W.failures sink.old sink.new result all_forms }
{
    write_forms(sink, &QUERIES)?;
    write_changing_forms(sink)
}

impl<E: Feasible> Session<E> {
    ghost use Rattle.std.specs.Prelude.{Some, None};
    ghost use Rattle.xw_commands.specs.declared.query.Query.TheVariants as queries;

    /// Answers `help` with the word of a command.
    fn answer_form<W: Sink>(&self, word: &[u8], sink: &mut W) -> Result<Ended, WriteFailed>
        ensures { AnswersQuery W.transcript W.failures self.now (queries.Help (Some word.now)) result sink.old sink.new }
    {
        match form_of(word) {
            Ok(form) => accepted(write_form(sink, form)),
            Err(refusal) => Ok(Err(refusal)),
        }
    }

    /// Answers `help` without a word.
    fn answer_forms<W: Sink>(&self, sink: &mut W) -> Result<Ended, WriteFailed>
        ensures { AnswersQuery W.transcript W.failures self.now (queries.Help None) result sink.old sink.new }
    {
        accepted(write_all_forms(sink))
    }

    /// Answers `help`: the forms of all commands, or of the one that is named.
    pub(crate) fn answer_help<W: Sink>(
        &self,
        word: &Option<Text<'_>>,
        sink: &mut W,
    ) -> Result<Ended, WriteFailed>
        ensures { AnswersQuery W.transcript W.failures self.now (queries.Help word.now) result sink.old sink.new }
    {
        match word {
            Some(word) => self.answer_form(word.bytes(), sink),
            None => self.answer_forms(sink),
        }
    }
}
