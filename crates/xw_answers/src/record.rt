//! Writes the commands of a record, section by section.
ghost use Rattle.std.specs.Prelude.{◌≡◌, ℕ, ◌+◌, ◌*◌, ◌<◌, ◌≤◌, ◌++◌, [], ◌∷◌, map, flat_map, drop, length, codes, decimal};
ghost use Rattle.std.specs.List.{range_with_len};
ghost use Rattle.xw_words.specs.Dictionary.{known_words as spec_known_words, entry_at};
ghost use Rattle.xw_grid.specs.Clue.{clue_at};
ghost use Rattle.xw_grid.specs.Grid.{entry as spec_entry};
ghost use Rattle.xw_commands.specs.declared.change.Change.TheVariants as changes;
ghost use Rattle.xw_commands.specs.declared.change.ChangeName.TheVariants as names;
ghost use Rattle.xw_commands.specs.Change.{change_word};
ghost use Rattle.xw_lines.specs.Sends.{Sends};
ghost use Rattle.xw_answers.specs.Escape.{escaped_text};
ghost use Rattle.xw_commands.specs.Names.{direction_name, clue_name};
ghost use Rattle.xw_answers.specs.Spelling.{at_spot, command_line};
ghost use Rattle.xw_answers.specs.Text.{line_of};
ghost use Rattle.xw_answers.specs.Record.{command_lines, known_counts, named_grade as spec_named_grade, add_command, regrade_commands, strike_commands, row_commands, length_commands, least_commands, word_commands, piece_at, further_pieces, more_command, text_commands, spot_of, circle_commands, bar_commands, block_commands, letter_commands, clue_commands, cell_commands, part_commands};

use crate::answer_line::{Token, write_line};
use xw_commands::change::ChangeName;
use xw_commands::command::{BEST_GRADE, CellArg, Field, TextField, TextMode};
use xw_commands::names::{CLUE, Named};
use xw_grid::{Cell, Circles, Clues, Direction, Grid, Side, Symmetry};
use xw_letters::Letter;
use xw_lines::device::{Sink, WriteFailed};
use xw_words::Bank;

/// The kinds of content that a record lists cell by cell.
#[derive(Clone, Copy)]
pub enum Part {
    Circles,
    Bars(Side),
    Blocks,
    Letters,
    Clues(Direction),
}

/// The number of word lengths, 0 to 255.
pub const LENGTHS: usize = 256;

/// The maximum number of bytes of a text in one command, counted before escaping.
const PIECE: usize = 2000;

/// Returns, for each length, how many words are known.
pub fn known_words(bank: &Bank) -> [usize; LENGTHS]
    ensures { result ≡ known_counts bank.now.words }
{
    let mut counts = [0; LENGTHS];
    for count in 0..LENGTHS {
        counts[count] = bank.known(count);
    }
    counts
}

// ---- words

/// Writes a command that takes a word.
fn write_word_command<W: Sink>(
    sink: &mut W,
    name: ChangeName,
    word: &[Letter],
) -> Result<(), WriteFailed>
    ensures { Sends W.transcript W.failures sink.old sink.new result (line_of (change_word name ∷ word.now ∷ [])) }
{
    write_line(sink, &[Token::Name(name.name()), Token::Letters(word)])
}

/// Writes an `add` command, with a grade if there is one.
fn write_add<W: Sink>(sink: &mut W, word: &[Letter], grade: Option<u8>) -> Result<(), WriteFailed>
    ensures { Sends W.transcript W.failures sink.old sink.new result (command_line (changes.Add word.now grade)) }
{
    let name = Token::Name(ChangeName::Add.name());
    match grade {
        Some(grade) => write_line(
            sink,
            &[name, Token::Letters(word), Token::Number(u64::from(grade))],
        ),
        None => write_line(sink, &[name, Token::Letters(word)]),
    }
}

/// Returns the grade to name in the `add` command of a new word. Returns `None` for the greatest grade, which a new
/// word gets anyway.
fn named_grade(grade: u8) -> Option<u8>
    ensures { result ≡ spec_named_grade grade }
{
    if grade == BEST_GRADE {
        None
    } else {
        Some(grade)
    }
}

/// Writes an `add` command for each word of a length after the first `begun` words.
fn write_added<W: Sink>(
    sink: &mut W,
    bank: &Bank,
    count: usize,
    begun: usize,
) -> Result<(), WriteFailed>
    ensures { Sends W.transcript W.failures sink.old sink.new result (command_lines (map add_command (drop begun (spec_known_words bank.now.words count)))) }
{
    for index in begun..bank.known(count) {
        let grade = named_grade(bank.grade(count, index));
        write_add(sink, bank.word(count, index), grade)?;
    }
    Ok(())
}

/// Writes the commands that restore the grade of the word at an index, if the word came back with a new grade.
fn write_regraded_at<W: Sink>(
    sink: &mut W,
    bank: &Bank,
    count: usize,
    index: usize,
) -> Result<(), WriteFailed>
    requires { index < length (spec_known_words bank.now.words count) }
    ensures { Sends W.transcript W.failures sink.old sink.new result (command_lines (regrade_commands (entry_at (spec_known_words bank.now.words count) index))) }
{
    if !bank.is_regraded(count, index) {
        return Ok(());
    }
    let word = bank.word(count, index);
    write_word_command(sink, ChangeName::Strike, word)?;
    write_add(sink, word, Some(bank.grade(count, index)))
}

/// Writes the commands that restore the grades of the words of a length.
fn write_regraded<W: Sink>(sink: &mut W, bank: &Bank, count: usize) -> Result<(), WriteFailed>
    ensures { Sends W.transcript W.failures sink.old sink.new result (command_lines (flat_map regrade_commands (spec_known_words bank.now.words count))) }
{
    for index in 0..bank.known(count) {
        write_regraded_at(sink, bank, count, index)?;
    }
    Ok(())
}

/// Writes a `strike` command for the word at an index if it is struck.
fn write_struck_at<W: Sink>(
    sink: &mut W,
    bank: &Bank,
    count: usize,
    index: usize,
) -> Result<(), WriteFailed>
    requires { index < length (spec_known_words bank.now.words count) }
    ensures { Sends W.transcript W.failures sink.old sink.new result (command_lines (strike_commands (entry_at (spec_known_words bank.now.words count) index))) }
{
    if !bank.is_struck(count, index) {
        return Ok(());
    }
    write_word_command(sink, ChangeName::Strike, bank.word(count, index))
}

/// Writes a `strike` command for each struck word of a length.
fn write_struck<W: Sink>(sink: &mut W, bank: &Bank, count: usize) -> Result<(), WriteFailed>
    ensures { Sends W.transcript W.failures sink.old sink.new result (command_lines (flat_map strike_commands (spec_known_words bank.now.words count))) }
{
    for index in 0..bank.known(count) {
        write_struck_at(sink, bank, count, index)?;
    }
    Ok(())
}

/// Writes what was done to the words of a length: words with other grades, and struck words.
fn write_marks<W: Sink>(sink: &mut W, bank: &Bank, count: usize) -> Result<(), WriteFailed>
    ensures { Sends W.transcript W.failures sink.old sink.new result (command_lines (flat_map regrade_commands (spec_known_words bank.now.words count) ++ flat_map strike_commands (spec_known_words bank.now.words count))) }
{
    write_regraded(sink, bank, count)?;
    write_struck(sink, bank, count)
}

fn write_row<W: Sink>(
    sink: &mut W,
    bank: &Bank,
    count: usize,
    begun: usize,
) -> Result<(), WriteFailed>
    ensures { Sends W.transcript W.failures sink.old sink.new result (command_lines (row_commands (spec_known_words bank.now.words count) begun)) }
{
    write_added(sink, bank, count, begun)?;
    write_marks(sink, bank, count)
}

/// Writes the commands of the words of each length.
fn write_rows<W: Sink>(
    sink: &mut W,
    bank: &Bank,
    begun: &[usize; LENGTHS],
) -> Result<(), WriteFailed>
    ensures { Sends W.transcript W.failures sink.old sink.new result (command_lines (flat_map (length_commands begun.now bank.now.words) (range_with_len 0 256))) }
{
    for count in 0..LENGTHS {
        write_row(sink, bank, count, begun[count])?;
    }
    Ok(())
}

/// Writes a `least` command, unless the grade is 0.
fn write_least<W: Sink>(sink: &mut W, least: u8) -> Result<(), WriteFailed>
    ensures { Sends W.transcript W.failures sink.old sink.new result (command_lines (least_commands least)) }
{
    if least == 0 {
        return Ok(());
    }
    write_line(
        sink,
        &[
            Token::Name(ChangeName::Least.name()),
            Token::Number(u64::from(least)),
        ],
    )
}

/// Writes the words added since the start of the session, the words with other grades, and the struck words, for each
/// length, and then the least grade.
pub fn write_words<W: Sink>(
    sink: &mut W,
    bank: &Bank,
    begun: &[usize; LENGTHS],
) -> Result<(), WriteFailed>
    ensures { Sends W.transcript W.failures sink.old sink.new result (command_lines (word_commands begun.now bank.now.words)) }
{
    write_rows(sink, bank, begun)?;
    write_least(sink, bank.least())
}

// ---- texts

/// Returns the piece of a text after `before` full pieces.
fn piece(text: &[u8], before: usize) -> &[u8]
    requires { 2000 * before ≤ length text.now }
    ensures { result.now ≡ piece_at text.now before }
{
    let rest = &text[PIECE * before..];
    &rest[..rest.len().min(PIECE)]
}

/// Writes the command that puts a piece of a text into a field.
fn write_put<W: Sink>(
    sink: &mut W,
    putting: TextMode,
    field: Field,
    text: &[u8],
) -> Result<(), WriteFailed>
    ensures { Sends W.transcript W.failures sink.old sink.new result (command_line (changes.Put putting field (escaped_text text.now))) }
{
    match field {
        Field::Text(field) => write_line(
            sink,
            &[
                Token::Name(putting.name()),
                Token::Name(field.name()),
                Token::Text(text),
            ],
        ),
        Field::Clue(spot, direction) => write_line(
            sink,
            &[
                Token::Name(putting.name()),
                Token::Name(CLUE),
                Token::Number(spot.row),
                Token::Number(spot.col),
                Token::Name(direction.name()),
                Token::Text(text),
            ],
        ),
    }
}

/// Writes `more` commands for the pieces of a text after the first.
fn write_further<W: Sink>(sink: &mut W, field: Field, text: &[u8]) -> Result<(), WriteFailed>
    ensures { Sends W.transcript W.failures sink.old sink.new result (command_lines (map (more_command field text.now) (range_with_len 0 (further_pieces text.now)))) }
{
    let further = text.len().saturating_sub(1) / PIECE;
    for before in 0..further {
        write_put(sink, TextMode::Behind, field, piece(text, before + 1))?;
    }
    Ok(())
}

/// Writes a text as a `text` command and, if it is long, `more` commands.
pub fn write_text<W: Sink>(sink: &mut W, field: Field, text: &[u8]) -> Result<(), WriteFailed>
    ensures { Sends W.transcript W.failures sink.old sink.new result (command_lines (text_commands field text.now)) }
{
    write_put(sink, TextMode::Instead, field, piece(text, 0))?;
    write_further(sink, field, text)
}

// ---- the grid

/// Writes the `size` command.
pub fn write_size<W: Sink>(sink: &mut W, grid: &Grid) -> Result<(), WriteFailed>
    ensures { Sends W.transcript W.failures sink.old sink.new result (command_lines (changes.Size grid.now.width grid.now.height ∷ [])) }
{
    write_line(
        sink,
        &[
            Token::Name(ChangeName::Size.name()),
            Token::Number(u64::from(grid.width())),
            Token::Number(u64::from(grid.height())),
        ],
    )
}

pub fn write_symmetry<W: Sink>(sink: &mut W, kind: Symmetry) -> Result<(), WriteFailed>
    ensures { Sends W.transcript W.failures sink.old sink.new result (command_lines (changes.Symmetry kind ∷ [])) }
{
    write_line(
        sink,
        &[
            Token::Name(ChangeName::Symmetry.name()),
            Token::Name(kind.name()),
        ],
    )
}

pub fn write_watch<W: Sink>(sink: &mut W, is_on: bool) -> Result<(), WriteFailed>
    ensures { Sends W.transcript W.failures sink.old sink.new result (command_lines (changes.Watch is_on ∷ [])) }
{
    write_line(
        sink,
        &[
            Token::Name(ChangeName::Watch.name()),
            Token::Name(is_on.name()),
        ],
    )
}

/// Writes a command that takes a cell.
fn write_cell_command<W: Sink>(
    sink: &mut W,
    name: ChangeName,
    cell: Cell,
) -> Result<(), WriteFailed>
    ensures { Sends W.transcript W.failures sink.old sink.new result (line_of (change_word name ∷ at_spot (spot_of cell) [])) }
{
    write_line(
        sink,
        &[
            Token::Name(name.name()),
            Token::Number(u64::from(cell.row)),
            Token::Number(u64::from(cell.col)),
        ],
    )
}

/// Writes a command that takes a cell and one more word.
fn write_cell_and_word<W: Sink>(
    sink: &mut W,
    name: ChangeName,
    cell: Cell,
    word: &[u8],
) -> Result<(), WriteFailed>
    ensures { Sends W.transcript W.failures sink.old sink.new result (line_of (change_word name ∷ at_spot (spot_of cell) (word.now ∷ []))) }
{
    write_line(
        sink,
        &[
            Token::Name(name.name()),
            Token::Number(u64::from(cell.row)),
            Token::Number(u64::from(cell.col)),
            Token::Bytes(word),
        ],
    )
}

fn write_circle<W: Sink>(sink: &mut W, circles: &Circles, cell: Cell) -> Result<(), WriteFailed>
    ensures { Sends W.transcript W.failures sink.old sink.new result (command_lines (circle_commands circles.now cell)) }
{
    if !circles.has(cell) {
        return Ok(());
    }
    write_cell_command(sink, ChangeName::Circle, cell)
}

fn write_bar<W: Sink>(sink: &mut W, grid: &Grid, side: Side, cell: Cell) -> Result<(), WriteFailed>
    ensures { Sends W.transcript W.failures sink.old sink.new result (command_lines (bar_commands grid.now side cell)) }
{
    if !grid.is_barred(cell, side) {
        return Ok(());
    }
    write_cell_and_word(sink, ChangeName::Bar, cell, side.name().as_bytes())
}

fn write_block<W: Sink>(sink: &mut W, grid: &Grid, cell: Cell) -> Result<(), WriteFailed>
    ensures { Sends W.transcript W.failures sink.old sink.new result (command_lines (block_commands grid.now cell)) }
{
    if !grid.is_block(cell) {
        return Ok(());
    }
    write_cell_command(sink, ChangeName::Block, cell)
}

/// Writes the command that enters the letter of a cell, if it has one.
pub fn write_letter<W: Sink>(sink: &mut W, grid: &Grid, cell: Cell) -> Result<(), WriteFailed>
    ensures { Sends W.transcript W.failures sink.old sink.new result (command_lines (letter_commands cell (spec_entry grid.now cell))) }
{
    match grid.entry(cell) {
        Some(letter) => write_cell_and_word(sink, ChangeName::Set, cell, &[letter.byte()]),
        None => Ok(()),
    }
}

fn write_clue<W: Sink>(
    sink: &mut W,
    clues: &Clues,
    direction: Direction,
    cell: Cell,
) -> Result<(), WriteFailed>
    ensures { Sends W.transcript W.failures sink.old sink.new result (command_lines (clue_commands cell direction (clue_at clues.now cell direction))) }
{
    let text = clues.get(cell, direction);
    if text.is_empty() {
        return Ok(());
    }
    let spot = CellArg {
        row: u64::from(cell.row),
        col: u64::from(cell.col),
    };
    write_text(sink, Field::Clue(spot, direction), text)
}

/// Writes the commands for one kind of content of a cell.
fn write_kept<W: Sink>(
    sink: &mut W,
    grid: &Grid,
    clues: &Clues,
    circles: &Circles,
    part: Part,
    cell: Cell,
) -> Result<(), WriteFailed>
    ensures { Sends W.transcript W.failures sink.old sink.new result (command_lines (cell_commands grid.now clues.now circles.now part cell)) }
{
    match part {
        Part::Circles => write_circle(sink, circles, cell),
        Part::Bars(side) => write_bar(sink, grid, side, cell),
        Part::Blocks => write_block(sink, grid, cell),
        Part::Letters => write_letter(sink, grid, cell),
        Part::Clues(direction) => write_clue(sink, clues, direction, cell),
    }
}

/// Writes the commands for one kind of content of all cells. Circles on blocks and clues without a light are included.
pub fn write_part<W: Sink>(
    sink: &mut W,
    grid: &Grid,
    clues: &Clues,
    circles: &Circles,
    part: Part,
) -> Result<(), WriteFailed>
    ensures { Sends W.transcript W.failures sink.old sink.new result (command_lines (part_commands grid.now clues.now circles.now part)) }
{
    for index in 0..grid.size() {
        write_kept(sink, grid, clues, circles, part, grid.cell_at(index))?;
    }
    Ok(())
}
