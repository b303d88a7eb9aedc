//! Laws that state consequences of the definitions.
ghost use Rattle.std.specs.Prelude.{◌≡◌, ℕ, List, map, Option, Ok, Err, ◌↔◌};
ghost use Rattle.xw_words.specs.Dictionary.{Dictionary};
ghost use Rattle.xw_grid.specs.declared.cell.Cell.{Cell};
ghost use Rattle.xw_feas.specs.declared.edit.Refusal.{Refusal};
ghost use Rattle.xw_feas.specs.Board.{Board};
ghost use Rattle.xw_feas.specs.Feasible.{Family, IsSupported};
ghost use Rattle.xw_feas.specs.Greatest.{GreatestIsFeasible, StandingIsFeasible, FeasibleFamilyExists};
ghost use Rattle.xw_feas.specs.PlacedWord.{WordsArePlaced};
ghost use Rattle.xw_feas.specs.State.{State, Action, list_written, after, IsAfter};
ghost use Rattle.xw_feas.specs.Laws.{together, WantNothing, write_of, IsRefusedInTurn};

/// The union of two supported families is supported.
pub fn families_join()
    ensures { (board : Board) (words : Dictionary) (one other : Family) → IsSupported board words one → IsSupported board words other → IsSupported board words (together one other) }
{}

/// The greatest supported family, which contains every other one, has exactly the feasible words and letters. The same
/// is true of flags for words and letters, if they are set only for base words and allowed letters, cover every
/// supported family and support one another.
pub fn greatest_family_is_feasible()
    ensures family { GreatestIsFeasible }
    ensures choices { StandingIsFeasible }
{}

/// Some family has exactly the feasible words and letters.
pub fn feasible_family_exists()
    ensures { FeasibleFamilyExists }
{}

/// If no edit of a list allocates, the list leads to exactly one state and one number of refused
/// edits. The edits that allocate are `Block`, `Bar`, and `Add` of a new word.
pub fn edits_lead_to_one_state()
    ensures { (state one other : State) (list : List Action) (m n : ℕ) → WantNothing state list → IsAfter state list m one → IsAfter state list n other → (m ≡ n) × (one ≡ other) }
{}

/// If no cell of a list is refused, writing the list has the result of writing its cells one by one.
/// Otherwise the list is refused, and its refusal is that of the first refused cell.
pub fn cells_are_written_in_turn()
    ensures accepted { (state next : State) (list : List (Cell × Option ℕ)) → (after state (list_written list) ≡ Ok next) ↔ IsAfter state (map write_of list) 0 next }
    ensures refused { (state : State) (list : List (Cell × Option ℕ)) (refusal : Refusal) → after state (list_written list) ≡ Err refusal → IsRefusedInTurn state list refusal }
{}

/// An accepted `Place` writes each letter of its word into the cell of the light at its position, and changes nothing
/// else.
pub fn words_are_placed()
    ensures { WordsArePlaced }
{}
