//! Writes the counts of the command `stats`.
ghost use Rattle.std.specs.Prelude.{◌≡◌, ◌+◌, ◌*◌, ◌<◌, ◌≤◌, [], ◌∷◌, length, codes, decimal, flat_map, slice_index_or};
ghost use Rattle.xw_grid.specs.Light.{lights_of, no_light};
ghost use Rattle.xw_lines.specs.Sends.{Sends};
ghost use Rattle.xw_answers.specs.Text.{line_of, two_decimals};
ghost use Rattle.xw_answers.specs.Stats.{is_unchecked as spec_is_unchecked, is_counted as spec_is_counted, count_of, count_of_size, total_size, mean_hundredths, bar_count, size_line, letter_line, size_lines, letter_lines, stat_line, stat_lines};

use crate::answer_line::{Token, write_line};
use crate::text::write_named_number;
use xw_grid::{Cell, Grid, Lights, Side};
use xw_lines::device::{Sink, WriteFailed};

/// A line of the counts of a grid. `Sizes` and `Letters` are many lines.
#[derive(Clone, Copy)]
pub enum Stat {
    Cells,
    Blocks,
    Bars,
    Entered,
    Lights,
    Sizes,
    Unchecked,
    Mean,
    Letters,
}

/// The counts in the order in which they are written.
const STATS: &[Stat; 9] = &[
    Stat::Cells,
    Stat::Blocks,
    Stat::Bars,
    Stat::Entered,
    Stat::Lights,
    Stat::Sizes,
    Stat::Unchecked,
    Stat::Mean,
    Stat::Letters,
];

/// What a cell is counted as.
#[derive(Clone, Copy)]
pub enum Tally {
    Block,
    Bar(Side),
    Entered,
    Unchecked,
    Letter(u8),
}

/// Returns whether exactly one light passes through a cell.
fn is_unchecked(grid: &Grid, lights: &Lights, cell: Cell) -> bool
    requires { lights.now ≡ lights_of grid.now }
    ensures { result ≡ spec_is_unchecked grid.now cell }
{
    let has_down = lights.down_at(cell).is_some();
    if lights.across_at(cell).is_some() {
        !has_down
    } else {
        has_down
    }
}

fn has_letter(grid: &Grid, cell: Cell, letter: u8) -> bool
    ensures { result ≡ spec_is_counted grid.now (Tally.Letter letter) cell }
{
    match grid.entry(cell) {
        Some(entered) => entered.byte() == letter,
        None => false,
    }
}

fn is_counted(grid: &Grid, lights: &Lights, tally: Tally, cell: Cell) -> bool
    requires { lights.now ≡ lights_of grid.now }
    ensures { result ≡ spec_is_counted grid.now tally cell }
{
    match tally {
        Tally::Block => grid.is_block(cell),
        Tally::Bar(side) => grid.is_barred(cell, side),
        Tally::Entered => grid.entry(cell).is_some(),
        Tally::Unchecked => is_unchecked(grid, lights, cell),
        Tally::Letter(letter) => has_letter(grid, cell, letter),
    }
}

fn count(grid: &Grid, lights: &Lights, tally: Tally) -> u64
    requires { lights.now ≡ lights_of grid.now }
    ensures count { result ≡ count_of grid.now tally }
    ensures few { result ≤ 65025 }
{
    let mut count = 0;
    for index in 0..grid.size() {
        if is_counted(grid, lights, tally, grid.cell_at(index)) {
            count += 1;
        }
    }
    count
}

fn count_bars(grid: &Grid, lights: &Lights) -> u64
    requires { lights.now ≡ lights_of grid.now }
    ensures { result ≡ bar_count grid.now }
{
    count(grid, lights, Tally::Bar(Side::Right)) + count(grid, lights, Tally::Bar(Side::Below))
}

fn count_size(lights: &Lights, size: u32) -> u64
    ensures { result ≡ count_of_size lights.now size }
{
    let mut count = 0;
    for index in 0..lights.len() {
        if lights.at(index).size == size {
            count += 1;
        }
    }
    count
}

/// Returns the sum of the lengths of all lights.
fn total(lights: &Lights) -> u64
    ensures total { result ≡ total_size lights.now }
    ensures small { result ≤ 64770 * 4294967295 }
{
    let mut total = 0;
    for index in 0..lights.len() {
        total += u64::from(lights.at(index).size);
    }
    total
}

/// Returns the mean length of the lights in hundredths.
fn mean(lights: &Lights) -> u64
    ensures { result ≡ mean_hundredths (length lights.now) (total_size lights.now) }
{
    hundredths(lights.len() as u64, total(lights))
}

/// Returns the mean in hundredths, rounded to the nearest, with halves rounded up. The mean of no lights is 0.
fn hundredths(count: u64, total: u64) -> u64
    requires few { count ≤ 64770 }
    requires small { total ≤ 64770 * 4294967295 }
    ensures { result ≡ mean_hundredths count total }
{
    if count == 0 {
        return 0;
    }
    (200 * total + count) / (2 * count)
}

/// Writes how many lights have a length. Writes nothing if none has it.
fn write_size<W: Sink>(
    sink: &mut W,
    grid: &Grid,
    lights: &Lights,
    size: u32,
) -> Result<(), WriteFailed>
    requires { lights.now ≡ lights_of grid.now }
    ensures { Sends W.transcript W.failures sink.old sink.new result (size_line grid.now size) }
{
    let count = count_size(lights, size);
    if count == 0 {
        return Ok(());
    }
    write_line(
        sink,
        &[
            Token::Name("light"),
            Token::Number(u64::from(size)),
            Token::Number(count),
        ],
    )
}

fn write_sizes<W: Sink>(sink: &mut W, grid: &Grid, lights: &Lights) -> Result<(), WriteFailed>
    requires { lights.now ≡ lights_of grid.now }
    ensures { Sends W.transcript W.failures sink.old sink.new result (size_lines grid.now) }
{
    for before in 0..254 {
        write_size(sink, grid, lights, before + 2)?;
    }
    Ok(())
}

fn write_mean<W: Sink>(sink: &mut W, hundredths: u64) -> Result<(), WriteFailed>
    ensures { Sends W.transcript W.failures sink.old sink.new result (line_of (codes "mean" ∷ two_decimals hundredths ∷ [])) }
{
    write_line(sink, &[Token::Name("mean"), Token::Hundredths(hundredths)])
}

/// Writes in how many cells a letter is entered. Writes nothing if it is in none.
fn write_letter<W: Sink>(
    sink: &mut W,
    grid: &Grid,
    lights: &Lights,
    letter: u8,
) -> Result<(), WriteFailed>
    requires { lights.now ≡ lights_of grid.now }
    ensures { Sends W.transcript W.failures sink.old sink.new result (letter_line grid.now letter) }
{
    let count = count(grid, lights, Tally::Letter(letter));
    if count == 0 {
        return Ok(());
    }
    write_line(
        sink,
        &[
            Token::Name("letter"),
            Token::Bytes(&[letter]),
            Token::Number(count),
        ],
    )
}

fn write_letters<W: Sink>(sink: &mut W, grid: &Grid, lights: &Lights) -> Result<(), WriteFailed>
    requires { lights.now ≡ lights_of grid.now }
    ensures { Sends W.transcript W.failures sink.old sink.new result (letter_lines grid.now) }
{
    for before in 0..26 {
        write_letter(sink, grid, lights, before + b'A')?;
    }
    Ok(())
}

fn write_stat<W: Sink>(
    sink: &mut W,
    grid: &Grid,
    lights: &Lights,
    stat: Stat,
) -> Result<(), WriteFailed>
    requires { lights.now ≡ lights_of grid.now }
    ensures { Sends W.transcript W.failures sink.old sink.new result (stat_line grid.now stat) }
{
    match stat {
        Stat::Cells => write_named_number(sink, "cells", grid.size() as u64),
        Stat::Blocks => write_named_number(sink, "blocks", count(grid, lights, Tally::Block)),
        Stat::Bars => write_named_number(sink, "bars", count_bars(grid, lights)),
        Stat::Entered => write_named_number(sink, "entered", count(grid, lights, Tally::Entered)),
        Stat::Lights => write_named_number(sink, "lights", lights.len() as u64),
        Stat::Sizes => write_sizes(sink, grid, lights),
        Stat::Unchecked => write_named_number(
            sink,
            "unchecked",
            count(grid, lights, Tally::Unchecked),
        ),
        Stat::Mean => write_mean(sink, mean(lights)),
        Stat::Letters => write_letters(sink, grid, lights),
    }
}

/// Writes all counts of a grid.
pub fn write_stats<W: Sink>(sink: &mut W, grid: &Grid, lights: &Lights) -> Result<(), WriteFailed>
    requires { lights.now ≡ lights_of grid.now }
    ensures { Sends W.transcript W.failures sink.old sink.new result (stat_lines grid.now) }
{
    for stat in STATS {
        write_stat(sink, grid, lights, *stat)?;
    }
    Ok(())
}
