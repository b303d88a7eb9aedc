//! Laws of the search definitions: they do nothing at run time and give callers proved facts.
ghost use Rattle.std.specs.Prelude.{◌≡◌, ℕ, true, List, Option};
ghost use Rattle.xw_feas.specs.WellFormed.{IsLaidOut};
ghost use Rattle.xw_feas.specs.Feasible.{Answers, AreAnswers};
ghost use Rattle.xw_feas.specs.Queries.{words_of};
ghost use Rattle.xw_search.specs.Position.{Position};
ghost use Rattle.xw_search.specs.FeasibleWords.{feasible_words};
ghost use Rattle.xw_fill.specs.Fill.{IsFill};
ghost use Rattle.xw_search.specs.NamedFill.{IsFillOf, IsInLights};
ghost use Rattle.xw_fill.specs.Reason.{IsReason};
ghost use Rattle.xw_fill.specs.Search.{chosen};
ghost use Rattle.xw_search.specs.Lights.{lacks_words};
ghost use Rattle.xw_fill.specs.Laws.{IsSearched, IsChoice, FillsAreFeasible, FoundIsFill, FillIsFound, AnswerIsOne, EndIsOne};

/// `found`, `due` and `end` of a position follow from those of the positions after one placement.
pub fn search_law()
    ensures { (position : Position) → IsLaidOut position.board → IsSearched position }
{}

/// Of the lights that are not wholly entered, the chosen light is the first with the fewest feasible words.
pub fn choice_law()
    ensures { (position : Position) → IsChoice position (chosen position) }
{}

/// The feasible words of the search definitions are the ones that an engine answers.
pub fn words_law()
    ensures { (position : Position) (answers : Answers) → AreAnswers position.board position.words answers → (light : ℕ) → words_of answers light ≡ feasible_words position light }
{}

/// Every fill uses only feasible words, so a search that tries only these misses no fill.
pub fn feasible_law()
    ensures { FillsAreFeasible }
{}

/// A search that finds something ends at a fill, and it finds one if there is one.
pub fn fill_law()
    ensures end { FoundIsFill }
    ensures found { FillIsFound }
{}

/// The answer of `fill` and the grid it leaves are functions of the position and the limit.
pub fn answer_law()
    ensures answer { AnswerIsOne }
    ensures end { EndIsOne }
{}

/// A fill of all lights is a fill in the sense of `fill`. A fill in this sense that changes only cells of lights is a
/// fill of all lights.
pub fn all_law()
    ensures fill { (position : Position) (entries : List (Option ℕ)) → IsFillOf (λ light. true) position entries → IsFill position entries }
    ensures of_all { (position : Position) (entries : List (Option ℕ)) → IsLaidOut position.board → IsInLights position entries
        → IsFill position entries → IsFillOf (λ light. true) position entries }
{}

/// A light without a feasible word has a reason.
pub fn reason_law()
    ensures { (position : Position) (light : ℕ) → lacks_words position light ≡ true → (entries : List (Option ℕ)) × IsReason position light entries }
{}
