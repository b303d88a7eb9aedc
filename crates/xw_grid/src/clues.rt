//! Clues, addressed by the start cell and direction of their light.
ghost use Rattle.std.specs.Prelude.{◌≡◌, [], IfOk, OnOk, OnErr, IsOk, IsOkUnless};
ghost use Rattle.xw_grid.specs.Clue.{no_clues, clue_at, with_clue, text_at, with_text};
ghost use Rattle.xw_grid.specs.EditLaws.{CluesAreKept};
ghost use Rattle.xw_grid.specs.ClueView.{texts_in};

use crate::cell::{Cell, Direction};
use crate::fault::GridFault;
use std::alloc::{AllocError, Global};
use std::collections::BTreeMap;
use std::marker::Model;

/// The clues of a puzzle. A clue stays when an edit removes its light.
#[derive(Drop)]
pub struct Clues {
    alloc: Global,
    across: BTreeMap<Cell, Vec<u8>>,
    down: BTreeMap<Cell, Vec<u8>>,
}

impl Model for Clues {
    ghost use Rattle.xw_grid.specs.Clue.{ClueMap};
    ghost use Rattle.xw_grid.specs.ClueView.{texts_in};

    ghost Value = { ClueMap };

    ghost view = { λ clues. record { across = texts_in clues.across; down = texts_in clues.down } };
}

impl Clues {
    /// No clues.
    pub fn new(alloc: Global) -> Clues
        ensures { result ≡ no_clues }
    {
        Clues {
            alloc,
            across: BTreeMap::new(alloc),
            down: BTreeMap::new(alloc),
        }
    }

    /// A copy of the clues. Returns `Memory` if an allocation fails.
    pub fn copy(&self) -> Result<Clues, GridFault>
        ensures ok { IfOk result (λ copy. copy ≡ self.now) }
        ensures memory { IsOkUnless result GridFault.Memory }
    {
        Ok(Clues {
            alloc: self.alloc,
            across: self.across.clone()?,
            down: self.down.clone()?,
        })
    }

    /// The clue at a cell and direction; empty if there is none.
    pub fn get(&self, cell: Cell, direction: Direction) -> &[u8]
        ensures { result.now ≡ clue_at self.now cell direction }
    {
        match direction {
            Direction::Across => text_of(&self.across, cell),
            Direction::Down => text_of(&self.down, cell),
        }
    }

    /// Sets the clue at a cell and direction; an empty text removes it, which always succeeds. Returns
    /// `Memory` if an allocation fails, and then changes nothing.
    pub fn set(&mut self, cell: Cell, direction: Direction, text: &[u8]) -> Result<(), GridFault>
        ensures ok { OnOk result (self.new ≡ with_clue self.old cell direction text.now) }
        ensures err { OnErr result (self.new ≡ self.old) }
        ensures memory { IsOkUnless result GridFault.Memory }
        ensures freed { text.now ≡ [] → IsOk result }
    {
        match direction {
            Direction::Across => keep(&mut self.across, self.alloc, cell, text)?,
            Direction::Down => keep(&mut self.down, self.alloc, cell, text)?,
        }
        Ok(())
    }
}

fn text_of(texts: &BTreeMap<Cell, Vec<u8>>, cell: Cell) -> &[u8]
    ensures { result.now ≡ text_at (texts_in texts.now) cell }
{
    match texts.get(&cell) {
        Some(text) => text,
        None => &[],
    }
}

/// Sets the text of a cell; an empty text removes it.
fn keep(
    texts: &mut BTreeMap<Cell, Vec<u8>>,
    alloc: Global,
    cell: Cell,
    text: &[u8],
) -> Result<(), AllocError>
    ensures ok { OnOk result (texts_in texts.new ≡ with_text (texts_in texts.old) cell text.now) }
    ensures err { OnErr result (texts_in texts.new ≡ texts_in texts.old) }
    ensures freed { text.now ≡ [] → IsOk result }
{
    if text.is_empty() {
        texts.remove(&cell);
        return Ok(());
    }
    texts.insert(cell, Vec::from_slice(alloc, text)?)?;
    Ok(())
}

/// The clue at a cell and direction is the one that was last set for them.
pub fn clues_are_kept()
    ensures { CluesAreKept }
{}
