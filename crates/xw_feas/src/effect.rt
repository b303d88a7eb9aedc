//! What an edit changed.
use xw_grid::lights::Lights;

/// What the last edit of a position changed. `Notes` has the cells that it wrote and the lengths that it turned.
#[derive(Drop)]
pub enum Effect {
    /// Nothing that an answer depends on.
    Nothing,
    /// It wrote the cells of `Notes::written`.
    Cells,
    /// It wrote a list of cells. It changed this many: the first ones of `Notes::noted`.
    List(usize),
    /// It wrote the cells of `Notes::written`, and these were the lights before it.
    Shape(Lights),
    /// It added or struck a word, given by its length and its index.
    Word(usize, usize),
    /// It chose a least grade, which made words active or left them out in the lengths of `Notes::turned`. The grade may have
    /// made some active only if it is below the one before.
    Least(bool),
}
