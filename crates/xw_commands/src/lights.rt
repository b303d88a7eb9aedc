//! The lights that a command names.
ghost use Rattle.std.specs.Prelude.{◌≡◌, ℕ, Ok};
ghost use Rattle.std.specs.Iterator.{YieldsFirst, item_count};
ghost use Rattle.xw_commands.specs.Reading.{lights as spec_lights};

use crate::command::LightArg;
use crate::words::Words;
use std::marker::Model;

/// An iterator over the lights named in a line. The grid may have no such lights.
#[derive(Drop)]
pub struct LightArgs<'a> {
    words: Words<'a>,
}

impl<'a> Model for LightArgs<'a> {
    ghost use Rattle.std.specs.Prelude.{List};
    ghost use Rattle.xw_commands.specs.declared.command.LightArg.{LightArg};
    ghost use Rattle.xw_commands.specs.Reading.{lights_first};

    ghost Value = { List LightArg };

    ghost view = { λ lights. (lights_first lights.words).0 };
}

impl<'a> LightArgs<'a> {
    /// Reads as many lights as come next.
    pub(crate) fn read(words: &mut Words<'a>) -> LightArgs<'a>
        ensures { spec_lights words.old ≡ Ok (result, words.new) }
    {
        let lights = LightArgs {
            words: words.copy(),
        };
        while words.named_if_any().is_some() {}
        lights
    }

    /// Returns an iterator over the same lights.
    pub fn copy(&self) -> LightArgs<'a>
        ensures { result ≡ self.now }
    {
        LightArgs {
            words: self.words.copy(),
        }
    }
}

impl<'a> Iterator for LightArgs<'a> {
    type Item = LightArg;

    ghost next_gives = { YieldsFirst (λ lights. lights) };

    ghost remaining = { item_count (λ lights. lights) };

    fn next(&mut self) -> Option<LightArg> {
        self.words.named_if_any()
    }
}
