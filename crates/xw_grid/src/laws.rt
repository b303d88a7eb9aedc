//! Laws: what an edit of a grid changes, and what it leaves alone.
ghost use Rattle.xw_grid.specs.EditLaws.{LettersKeepShape, SymmetryKeepsShape, BlocksChangeOrbits, BarsChangeOrbits};

/// Writing or deleting a letter changes no light and no block.
pub fn letters_keep_shape()
    ensures { LettersKeepShape }
{}

/// Setting the symmetry changes no light and no block.
pub fn symmetry_keeps_shape()
    ensures { SymmetryKeepsShape }
{}

/// Toggling a block turns the orbit of an open cell into blocks, and opens the orbit of a block. All
/// other cells stay as they are.
pub fn blocks_change_orbits()
    ensures { BlocksChangeOrbits }
{}

/// Toggling a bar bars the orbit of a free edge, and frees the orbit of a barred edge. All other edges
/// stay as they are.
pub fn bars_change_orbits()
    ensures { BarsChangeOrbits }
{}
