//! The words of the values of arguments. Commands, answers and records spell them in the same way.
use crate::command::TextField;
use xw_grid::{Direction, Side, Symmetry};

/// The directions.
pub const DIRECTIONS: [Direction; 2] = [Direction::Across, Direction::Down];

/// The sides of a cell that can have a bar.
pub const SIDES: [Side; 2] = [Side::Right, Side::Below];

/// The symmetries.
pub const SYMMETRIES: [Symmetry; 5] = [
    Symmetry::None,
    Symmetry::Half,
    Symmetry::Quarter,
    Symmetry::LeftRight,
    Symmetry::UpDown,
];

/// The states of a switch: on and off.
pub const SWITCHES: [bool; 2] = [true, false];

/// The text fields, and `None` for a clue.
pub const TEXT_FIELDS: [Option<TextField>; 5] = [
    Some(TextField::Title),
    Some(TextField::Author),
    Some(TextField::Copyright),
    Some(TextField::Notes),
    None,
];

/// The word for a clue, where a text field may stand.
pub const CLUE: &str = "clue";

/// A value that a line spells as a word.
pub trait Named: Copy {
    ghost use Rattle.std.specs.Prelude.{◌≡◌, ℕ, List};

    ghost name: { Self → List ℕ };

    /// Returns the word.
    fn name(self) -> &'static str
        ensures { result.now ≡ name self };
}

/// The name of a command.
pub trait CommandName: Copy {
    ghost use Rattle.std.specs.Prelude.{◌≡◌, ℕ, List};

    ghost form: { Self → List ℕ };

    /// Returns the word of the command with its arguments.
    fn form(self) -> &'static str
        ensures { result.now ≡ form self };
}

impl Named for Direction {
    ghost use Rattle.xw_commands.specs.Names.{direction_name};

    ghost name = { direction_name };

    fn name(self) -> &'static str {
        match self {
            Direction::Across => "across",
            Direction::Down => "down",
        }
    }
}

impl Named for Side {
    ghost use Rattle.xw_commands.specs.Names.{side_name};

    ghost name = { side_name };

    fn name(self) -> &'static str {
        match self {
            Side::Right => "right",
            Side::Below => "below",
        }
    }
}

impl Named for Symmetry {
    ghost use Rattle.xw_commands.specs.Names.{symmetry_name};

    ghost name = { symmetry_name };

    fn name(self) -> &'static str {
        match self {
            Symmetry::None => "none",
            Symmetry::Half => "half",
            Symmetry::Quarter => "quarter",
            Symmetry::LeftRight => "leftright",
            Symmetry::UpDown => "updown",
        }
    }
}

/// The name of a switch's state.
impl Named for bool {
    ghost use Rattle.xw_commands.specs.Names.{switch_name};

    ghost name = { switch_name };

    fn name(self) -> &'static str {
        if self { "on" } else { "off" }
    }
}

impl Named for TextField {
    ghost use Rattle.xw_commands.specs.Names.{field_name};

    ghost name = { field_name };

    fn name(self) -> &'static str {
        match self {
            TextField::Title => "title",
            TextField::Author => "author",
            TextField::Copyright => "copyright",
            TextField::Notes => "notes",
        }
    }
}

/// The name of a text field, or of a clue.
impl Named for Option<TextField> {
    ghost use Rattle.xw_commands.specs.Names.{field_or_clue_name};

    ghost name = { field_or_clue_name };

    fn name(self) -> &'static str {
        match self {
            Some(field) => field.name(),
            None => CLUE,
        }
    }
}
