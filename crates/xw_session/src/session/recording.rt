//! Writes the record of a session.
ghost use Rattle.xw_lines.specs.Sends.{Sends};
ghost use Rattle.xw_answers.specs.Record.{command_lines};
ghost use Rattle.xw_session.specs.Record.{section_commands, record_lines};

use crate::session::Session;
use crate::session::putting::Target;
use xw_answers::record::{self, Part};
use xw_commands::command::{Field, TextField};
use xw_feas::feasible::Feasible;
use xw_grid::{Direction, Side};
use xw_lines::device::{Sink, WriteFailed};

/// A group of commands in a record.
#[derive(Clone, Copy)]
pub enum Section {
    Words,
    Size,
    Cells(Part),
    Symmetry,
    Text(TextField),
    Watch,
}

/// The sections in the order in which they are written.
pub const SECTIONS: &[Section; 15] = &[
    Section::Words,
    Section::Size,
    Section::Cells(Part::Circles),
    Section::Cells(Part::Bars(Side::Right)),
    Section::Cells(Part::Bars(Side::Below)),
    Section::Cells(Part::Blocks),
    Section::Symmetry,
    Section::Cells(Part::Letters),
    Section::Text(TextField::Title),
    Section::Text(TextField::Author),
    Section::Text(TextField::Copyright),
    Section::Text(TextField::Notes),
    Section::Cells(Part::Clues(Direction::Across)),
    Section::Cells(Part::Clues(Direction::Down)),
    Section::Watch,
];

impl<E: Feasible> Session<E> {
    /// Writes the commands of a section.
    fn write_section<W: Sink>(&self, section: Section, sink: &mut W) -> Result<(), WriteFailed>
        ensures { Sends W.transcript W.failures sink.old sink.new result (command_lines (section_commands self.now section)) }
    {
        let grid = self.engine.grid();
        match section {
            Section::Words => record::write_words(sink, self.engine.bank(), &self.begun),
            Section::Size => record::write_size(sink, grid),
            Section::Cells(part) => {
                record::write_part(sink, grid, &self.clues, &self.circles, part)
            }
            Section::Symmetry => record::write_symmetry(sink, grid.symmetry()),
            Section::Text(name) => {
                record::write_text(sink, Field::Text(name), self.text_at(Target::Text(name)))
            }
            Section::Watch => record::write_watch(sink, self.is_watched),
        }
    }

    /// Writes the commands that rebuild this session from one that starts with the same words.
    pub fn write_record<W: Sink>(&self, sink: &mut W) -> Result<(), WriteFailed>
        ensures { Sends W.transcript W.failures sink.old sink.new result (record_lines self.now) }
    {
        for section in SECTIONS {
            self.write_section(*section, sink)?;
        }
        Ok(())
    }
}
