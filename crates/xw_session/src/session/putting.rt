//! The commands `text` and `more`, which put a text with escapes into a field.
ghost use Rattle.std.specs.Prelude.{◌≡◌, ℕ, ◌++◌, List, [], true, false, Some, Err, IfOk, IfErr, IsOk, OnOk, OnErr, IsOkUnless};
ghost use Rattle.xw_answers.specs.Escape.{text_spelled};
ghost use Rattle.xw_session.specs.Put.{target_of, has_target, CanPut, text_at as spec_text_at, with_text_at, with_piece};
ghost use Rattle.xw_session.specs.Reply.{put as spec_put};
ghost use Rattle.xw_session.specs.State.{SessionState, seen};
ghost use Rattle.xw_session.specs.Answer.{Edits};

use crate::session::changing::has_nul;
use crate::session::ending::Ended;
use crate::session::{Session, cell_in};
use std::alloc::{AllocError, Global};
use xw_answers::escape;
use xw_answers::refusal::CommandRefusal;
use xw_commands::command::{Field, TextField, TextMode};
use xw_feas::edit::Refusal;
use xw_feas::feasible::Feasible;
use xw_grid::{Cell, Direction, Grid, GridFault};

/// A text that a field names: a text of the puzzle, or the clue at a cell and direction.
#[derive(Clone, Copy)]
pub enum Target {
    Text(TextField),
    Clue(Cell, Direction),
}

/// Returns the text of a spelling. If it is empty, nothing is allocated.
fn spelled(alloc: Global, spelling: &[u8]) -> Result<Vec<u8>, GridFault>
    ensures ok { IfOk result (λ text. (piece : List ℕ) → text_spelled spelling.now ≡ Some piece → text.items ≡ piece) }
    ensures memory { IsOkUnless result GridFault.Memory }
    ensures freed { spelling.now ≡ [] → IsOk result }
{
    let mut text = Vec::new(alloc);
    if spelling.is_empty() {
        return Ok(text);
    }
    escape::append(&mut text, spelling)?;
    Ok(text)
}

/// Returns the target of a field. Returns `OutOfGrid` if the grid does not have it.
fn field_target(grid: &Grid, field: Field) -> Result<Target, Refusal>
    ensures ok { IfOk result (λ target. (target ≡ target_of field) × (has_target grid.now (target_of field) ≡ true)) }
    ensures refused { IfErr result (λ refusal. (refusal ≡ Refusal.Grid GridFault.OutOfGrid) × (has_target grid.now (target_of field) ≡ false)) }
{
    match field {
        Field::Text(name) => Ok(Target::Text(name)),
        Field::Clue(spot, direction) => Ok(Target::Clue(cell_in(grid, spot)?, direction)),
    }
}

/// Returns the target of a field into which a spelling may be put. Returns the first refusal that applies, in the order
/// `Escape`, `OutOfGrid`, `NulByte`.
fn put_target(grid: &Grid, field: Field, spelling: &[u8]) -> Result<Target, CommandRefusal>
    ensures ok { IfOk result (λ target. CanPut grid.now field spelling.now target) }
    ensures refused { IfErr result (λ refusal. (state : SessionState) (putting : TextMode) → state.engine.grid ≡ grid.now → spec_put state putting field (text_spelled spelling.now) ≡ Err refusal) }
{
    if !escape::is_spelling(spelling) {
        return Err(CommandRefusal::Escape);
    }
    let target = field_target(grid, field)?;
    if has_nul(spelling) {
        return Err(CommandRefusal::NulByte);
    }
    Ok(target)
}

impl<E: Feasible> Session<E> {
    ghost use Rattle.xw_commands.specs.declared.change.Change.TheVariants as changes;

    pub(crate) fn text_at(&self, target: Target) -> &[u8]
        ensures { result.now ≡ spec_text_at self.now target }
    {
        match target {
            Target::Text(TextField::Title) => &self.texts.title,
            Target::Text(TextField::Author) => &self.texts.author,
            Target::Text(TextField::Copyright) => &self.texts.copyright,
            Target::Text(TextField::Notes) => &self.texts.notes,
            Target::Clue(cell, direction) => self.clues.get(cell, direction),
        }
    }

    /// Stores a text at a target. If an allocation fails, the session is unchanged.
    fn keep(&mut self, target: Target, text: Vec<u8>) -> Result<(), GridFault>
        ensures ok { OnOk result (self.new ≡ with_text_at self.old target text.items) }
        ensures err { OnErr result (self.new ≡ self.old) }
        ensures memory { IsOkUnless result GridFault.Memory }
        ensures freed { text.items ≡ [] → IsOk result }
    {
        match target {
            Target::Text(field) => {
                self.keep_text(field, text);
                Ok(())
            }
            Target::Clue(cell, direction) => self.clues.set(cell, direction, &text),
        }
    }

    /// Replaces a field of a draft, or of the puzzle if there is no draft, by the text of a spelling, or appends it.
    /// Returns the first refusal that applies, in the order `Escape`, `OutOfGrid`, `NulByte`, `Memory`.
    pub(crate) fn put(
        &mut self,
        draft: Option<&Grid>,
        putting: TextMode,
        field: Field,
        spelling: &[u8],
    ) -> Ended
        ensures done { Edits (seen self.old draft.entry) (changes.Put putting field spelling.now) result (seen self.new draft.entry) }
        ensures engine { self.new.engine ≡ self.old.engine }
        ensures begun { self.new.begun ≡ self.old.begun }
    {
        let target = put_target(self.grid_of(draft), field, spelling)?;
        self.put_text(putting, target, spelling)?;
        Ok(())
    }

    fn put_text(
        &mut self,
        putting: TextMode,
        target: Target,
        spelling: &[u8],
    ) -> Result<(), GridFault>
        ensures ok { OnOk result ((piece : List ℕ) → text_spelled spelling.now ≡ Some piece → self.new ≡ with_piece self.old putting target piece) }
        ensures err { OnErr result (self.new ≡ self.old) }
        ensures memory { IsOkUnless result GridFault.Memory }
        ensures freed { spelling.now ≡ [] → IsOk result }
    {
        match putting {
            TextMode::Instead => self.put_instead(target, spelling),
            TextMode::Behind => self.put_behind(target, spelling),
        }
    }

    fn put_instead(&mut self, target: Target, spelling: &[u8]) -> Result<(), GridFault>
        ensures ok { OnOk result ((piece : List ℕ) → text_spelled spelling.now ≡ Some piece → self.new ≡ with_piece self.old TextMode.Instead target piece) }
        ensures err { OnErr result (self.new ≡ self.old) }
        ensures memory { IsOkUnless result GridFault.Memory }
        ensures freed { spelling.now ≡ [] → IsOk result }
    {
        let text = spelled(self.alloc, spelling)?;
        self.keep(target, text)
    }

    fn put_behind(&mut self, target: Target, spelling: &[u8]) -> Result<(), GridFault>
        ensures ok { OnOk result ((piece : List ℕ) → text_spelled spelling.now ≡ Some piece → self.new ≡ with_piece self.old TextMode.Behind target piece) }
        ensures err { OnErr result (self.new ≡ self.old) }
        ensures memory { IsOkUnless result GridFault.Memory }
        ensures freed { spelling.now ≡ [] → IsOk result }
    {
        if spelling.is_empty() {
            return Ok(());
        }
        match target {
            Target::Text(field) => self.append_text(field, spelling)?,
            Target::Clue(cell, direction) => self.append_clue(cell, direction, spelling)?,
        }
        Ok(())
    }

    /// Appends the text of a spelling to a text of the puzzle.
    fn append_text(&mut self, field: TextField, spelling: &[u8]) -> Result<(), AllocError>
        ensures ok { OnOk result ((piece : List ℕ) → text_spelled spelling.now ≡ Some piece → self.new ≡ with_text_at self.old (Target.Text field) (spec_text_at self.old (Target.Text field) ++ piece)) }
        ensures err { OnErr result (self.new ≡ self.old) }
    {
        match field {
            TextField::Title => escape::append(&mut self.texts.title, spelling),
            TextField::Author => escape::append(&mut self.texts.author, spelling),
            TextField::Copyright => escape::append(&mut self.texts.copyright, spelling),
            TextField::Notes => escape::append(&mut self.texts.notes, spelling),
        }
    }

    /// Appends the text of a spelling to a clue.
    fn append_clue(
        &mut self,
        cell: Cell,
        direction: Direction,
        spelling: &[u8],
    ) -> Result<(), GridFault>
        ensures ok { OnOk result ((piece : List ℕ) → text_spelled spelling.now ≡ Some piece → self.new ≡ with_text_at self.old (Target.Clue cell direction) (spec_text_at self.old (Target.Clue cell direction) ++ piece)) }
        ensures err { OnErr result (self.new ≡ self.old) }
        ensures memory { IsOkUnless result GridFault.Memory }
    {
        let text = escape::behind(self.alloc, self.clues.get(cell, direction), spelling)?;
        self.clues.set(cell, direction, &text)
    }
}
