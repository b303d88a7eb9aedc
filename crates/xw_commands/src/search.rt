//! The searches: the commands that answer how they ended and may enter letters.
ghost use Rattle.std.specs.Prelude.{◌≡◌};
ghost use Rattle.xw_commands.specs.Reading.{Reads};
ghost use Rattle.xw_commands.specs.Search.{search_word, search_named};

use crate::command::SyntaxFault;
use crate::lights::LightArgs;
use crate::names::{CommandName, Named};
use crate::words::Words;

/// A search with its arguments.
#[derive(Drop)]
pub enum Search<'a> {
    Fill(u64),
    Autofill(u64, u64, LightArgs<'a>),
    Best(u64, u64, LightArgs<'a>),
}

/// The name of a search.
#[derive(Clone, Copy)]
pub enum SearchName {
    Fill,
    Autofill,
    Best,
}

/// The names of all searches.
pub const SEARCHES: [SearchName; 3] = [SearchName::Fill, SearchName::Autofill, SearchName::Best];

impl Named for SearchName {
    ghost use Rattle.xw_commands.specs.Search.{search_word};

    ghost name = { search_word };

    fn name(self) -> &'static str {
        match self {
            SearchName::Fill => "fill",
            SearchName::Autofill => "autofill",
            SearchName::Best => "best",
        }
    }
}

impl CommandName for SearchName {
    ghost use Rattle.xw_commands.specs.Search.{search_form};

    ghost form = { search_form };

    fn form(self) -> &'static str {
        match self {
            SearchName::Fill => "fill K",
            SearchName::Autofill => "autofill K [SEED [N DIR]..]",
            SearchName::Best => "best K [SEED [N DIR]..]",
        }
    }
}

/// Reads the arguments of a search.
pub(crate) fn arguments<'a>(
    name: SearchName,
    words: &mut Words<'a>,
) -> Result<Search<'a>, SyntaxFault>
    ensures { Reads (λ search. search) result words.new (search_named (search_word name) words.old) }
{
    match name {
        SearchName::Fill => Ok(Search::Fill(words.number()?)),
        SearchName::Autofill => Ok(Search::Autofill(
            words.number()?,
            words.number_or_zero()?,
            LightArgs::read(words),
        )),
        SearchName::Best => Ok(Search::Best(
            words.number()?,
            words.number_or_zero()?,
            LightArgs::read(words),
        )),
    }
}
