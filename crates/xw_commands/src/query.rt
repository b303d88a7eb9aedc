//! The queries: the commands that answer lines and change nothing.
ghost use Rattle.std.specs.Prelude.{◌≡◌};
ghost use Rattle.xw_commands.specs.Reading.{Reads};
ghost use Rattle.xw_commands.specs.Query.{query_word, query_named};

use crate::command::{CellArg, LightArg, SyntaxFault, Text};
use crate::lights::LightArgs;
use crate::names::{CommandName, Named};
use crate::words::Words;

/// A query with its arguments.
#[derive(Drop)]
pub enum Query<'a> {
    Match(Text<'a>),
    Grade(Text<'a>),
    Circles,
    Show,
    Lights,
    Words(LightArg, Option<u64>),
    Choices(LightArg, u64, Option<Text<'a>>),
    Letters(CellArg),
    Tally(CellArg),
    Duplicates,
    Unlisted,
    Grades(LightArgs<'a>),
    Unmatched,
    Suggest,
    Why(LightArg),
    Help(Option<Text<'a>>),
    Tell(Report),
}

/// The queries that report on the whole puzzle and take no arguments.
#[derive(Clone, Copy, Debug, PartialEq, Eq)]
pub enum Report {
    Cells,
    Counts,
    Texts,
    Stats,
    Longest,
    Record,
}

/// The name of a query.
#[derive(Clone, Copy)]
pub enum QueryName {
    Match,
    Grade,
    Circles,
    Show,
    Lights,
    Words,
    Choices,
    Letters,
    Tally,
    Duplicates,
    Unlisted,
    Grades,
    Unmatched,
    Suggest,
    Why,
    Help,
    Tell(Report),
}

/// The names of all queries.
pub const QUERIES: [QueryName; 22] = [
    QueryName::Match,
    QueryName::Grade,
    QueryName::Circles,
    QueryName::Show,
    QueryName::Lights,
    QueryName::Words,
    QueryName::Choices,
    QueryName::Letters,
    QueryName::Tally,
    QueryName::Duplicates,
    QueryName::Unlisted,
    QueryName::Grades,
    QueryName::Unmatched,
    QueryName::Suggest,
    QueryName::Why,
    QueryName::Help,
    QueryName::Tell(Report::Cells),
    QueryName::Tell(Report::Counts),
    QueryName::Tell(Report::Texts),
    QueryName::Tell(Report::Stats),
    QueryName::Tell(Report::Longest),
    QueryName::Tell(Report::Record),
];

/// The name of the query.
impl Named for Report {
    ghost use Rattle.xw_commands.specs.Query.{report_word};

    ghost name = { report_word };

    fn name(self) -> &'static str {
        match self {
            Report::Cells => "cells",
            Report::Counts => "counts",
            Report::Texts => "texts",
            Report::Stats => "stats",
            Report::Longest => "longest",
            Report::Record => "record",
        }
    }
}

impl Named for QueryName {
    ghost use Rattle.xw_commands.specs.Query.{query_word};

    ghost name = { query_word };

    fn name(self) -> &'static str {
        match self {
            QueryName::Match => "match",
            QueryName::Grade => "grade",
            QueryName::Circles => "circles",
            QueryName::Show => "show",
            QueryName::Lights => "lights",
            QueryName::Words => "words",
            QueryName::Choices => "choices",
            QueryName::Letters => "letters",
            QueryName::Tally => "tally",
            QueryName::Duplicates => "dups",
            QueryName::Unlisted => "unlisted",
            QueryName::Grades => "grades",
            QueryName::Unmatched => "unmatched",
            QueryName::Suggest => "suggest",
            QueryName::Why => "why",
            QueryName::Help => "help",
            QueryName::Tell(report) => report.name(),
        }
    }
}

impl CommandName for QueryName {
    ghost use Rattle.xw_commands.specs.Query.{query_form};

    ghost form = { query_form };

    fn form(self) -> &'static str {
        match self {
            QueryName::Match => "match PATTERN",
            QueryName::Grade => "grade WORD",
            QueryName::Circles => "circles",
            QueryName::Show => "show",
            QueryName::Lights => "lights",
            QueryName::Words => "words N DIR [K]",
            QueryName::Choices => "choices N DIR K [FIRST]",
            QueryName::Letters => "letters R C",
            QueryName::Tally => "tally R C",
            QueryName::Duplicates => "dups",
            QueryName::Unlisted => "unlisted",
            QueryName::Grades => "grades [N DIR]..",
            QueryName::Unmatched => "unmatched",
            QueryName::Suggest => "suggest",
            QueryName::Why => "why N DIR",
            QueryName::Help => "help [COMMAND]",
            QueryName::Tell(report) => report.name(),
        }
    }
}

/// Reads the arguments of a query.
pub(crate) fn arguments<'a>(
    name: QueryName,
    words: &mut Words<'a>,
) -> Result<Query<'a>, SyntaxFault>
    ensures { Reads (λ query. query) result words.new (query_named (query_word name) words.old) }
{
    match name {
        QueryName::Match => Ok(Query::Match(words.word()?)),
        QueryName::Grade => Ok(Query::Grade(words.word()?)),
        QueryName::Circles => Ok(Query::Circles),
        QueryName::Show => Ok(Query::Show),
        QueryName::Lights => Ok(Query::Lights),
        QueryName::Words => Ok(Query::Words(words.named()?, words.number_if_any()?)),
        QueryName::Choices => Ok(Query::Choices(
            words.named()?,
            words.number()?,
            words.word_if_any()?,
        )),
        QueryName::Letters => Ok(Query::Letters(words.spot()?)),
        QueryName::Tally => Ok(Query::Tally(words.spot()?)),
        QueryName::Duplicates => Ok(Query::Duplicates),
        QueryName::Unlisted => Ok(Query::Unlisted),
        QueryName::Grades => Ok(Query::Grades(LightArgs::read(words))),
        QueryName::Unmatched => Ok(Query::Unmatched),
        QueryName::Suggest => Ok(Query::Suggest),
        QueryName::Why => Ok(Query::Why(words.named()?)),
        QueryName::Help => Ok(Query::Help(words.word_if_any()?)),
        QueryName::Tell(report) => Ok(Query::Tell(report)),
    }
}
