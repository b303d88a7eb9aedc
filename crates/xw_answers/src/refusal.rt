//! The reasons for which a command is refused, and their names.
ghost use Rattle.std.specs.Prelude.{◌≡◌};
ghost use Rattle.xw_answers.specs.Text.{word_fault, grid_fault, syntax_fault, engine_refusal, name_of};

use xw_commands::command::SyntaxFault;
use xw_feas::edit::Refusal;
use xw_grid::GridFault;
use xw_words::WordFault;

/// Why a command was refused. A refused command changes nothing.
#[derive(Clone, Copy, Debug, PartialEq, Eq)]
pub enum CommandRefusal {
    /// The line is not a command.
    Syntax(SyntaxFault),
    /// A refusal of an edit or a query of the engine.
    Engine(Refusal),
    /// The text has a NUL.
    NulByte,
    /// The spelling of the text has a wrong escape.
    Escape,
    /// The light has a feasible word.
    Alive,
}

/// Returns the name of a refusal. The name does not include the location of the fault.
pub fn name(refusal: CommandRefusal) -> &'static str
    ensures { result.now ≡ name_of refusal }
{
    match refusal {
        CommandRefusal::Syntax(fault) => syntax_name(fault),
        CommandRefusal::Engine(refusal) => engine_name(refusal),
        CommandRefusal::NulByte => "NulByte",
        CommandRefusal::Escape => "Escape",
        CommandRefusal::Alive => "Alive",
    }
}

fn engine_name(refusal: Refusal) -> &'static str
    ensures { result.now ≡ engine_refusal refusal }
{
    match refusal {
        Refusal::Word(fault) => word_name(fault),
        Refusal::Grid(fault) => grid_name(fault),
        Refusal::NoLight => "NoLight",
        Refusal::PlaceLength => "PlaceLength",
    }
}

fn syntax_name(fault: SyntaxFault) -> &'static str
    ensures { result.now ≡ syntax_fault fault }
{
    match fault {
        SyntaxFault::LineTooLong => "LineTooLong",
        SyntaxFault::Command => "Command",
        SyntaxFault::Arguments => "Arguments",
    }
}

/// Returns the name of a fault of a word or the dictionary.
pub fn word_name(fault: WordFault) -> &'static str
    ensures { result.now ≡ word_fault fault }
{
    match fault {
        WordFault::BadLetter(_) => "BadLetter",
        WordFault::Length => "Length",
        WordFault::Known => "Known",
        WordFault::Full => "Full",
        WordFault::Unknown => "Unknown",
        WordFault::Memory => "Memory",
    }
}

fn grid_name(fault: GridFault) -> &'static str
    ensures { result.now ≡ grid_fault fault }
{
    match fault {
        GridFault::Size => "Size",
        GridFault::OutOfGrid => "OutOfGrid",
        GridFault::OnBlock => "OnBlock",
        GridFault::Occupied => "Occupied",
        GridFault::NotSquare => "NotSquare",
        GridFault::Border => "Border",
        GridFault::Memory => "Memory",
    }
}

impl From<Refusal> for CommandRefusal {
    ghost use Rattle.std.specs.Prelude.{◌≡◌};
    ghost use Rattle.xw_answers.specs.declared.refusal.CommandRefusal.TheVariants.{Engine};

    ghost from_gives = { λ edit refusal. refusal ≡ Engine edit };

    fn from(refusal: Refusal) -> CommandRefusal {
        CommandRefusal::Engine(refusal)
    }
}

impl From<GridFault> for CommandRefusal {
    ghost use Rattle.std.specs.Prelude.{◌≡◌};
    ghost use Rattle.xw_feas.specs.declared.edit.Refusal.TheVariants.{Grid};
    ghost use Rattle.xw_answers.specs.declared.refusal.CommandRefusal.TheVariants.{Engine};

    ghost from_gives = { λ fault refusal. refusal ≡ Engine (Grid fault) };

    fn from(fault: GridFault) -> CommandRefusal {
        CommandRefusal::Engine(Refusal::Grid(fault))
    }
}
