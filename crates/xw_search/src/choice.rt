//! Which cell a search fills next, and with which letter. Proofs depend on which cells and letters are left, and not
//! on their order.
ghost use Rattle.std.specs.Prelude.{◌≡◌, ◌<◌, ℕ, All, Contains, true, length, is_some, IfSome, IfNone, None};
ghost use Rattle.xw_letters.specs.LetterSet.{has};
ghost use Rattle.xw_feas.specs.Board.{board_of, is_open};
ghost use Rattle.xw_search.specs.OfState.{is_feasible_letter, light_count, IsNextLetter, IsOnlyLetter, HasNoLetter};
ghost use Rattle.xw_search.specs.NamedFill.{entry_in};
ghost use Rattle.xw_search.specs.Progress.{entries_of};

use crate::lights::{board, light_count};
use crate::plan::Crossing;
use xw_feas::feasible::Feasible;
use xw_feas::searchable::Searchable;
use xw_letters::letter::Letter;
use xw_letters::letter_set::LetterSet;

/// The feasible letters of an open cell.
pub fn letters_at<E: Feasible>(engine: &E, cell: usize) -> LetterSet
    requires { is_open (board_of (E.state engine.now).grid) cell ≡ true }
    ensures { (letter : ℕ) → has result letter ≡ is_feasible_letter (E.state engine.now) cell letter }
{
    engine.letters_at(cell)
}

/// Whether a letter is the only feasible one of an open cell.
pub fn is_only_letter<E: Feasible>(engine: &E, cell: usize, letter: Letter) -> bool
    requires { is_open (board_of (E.state engine.now).grid) cell ≡ true }
    ensures { result ≡ true → IsOnlyLetter (E.state engine.now) cell letter }
{
    letters_at(engine, cell).is_same(LetterSet::only(letter))
}

/// The tie-break number of a cell, which depends on the seed. Of cells that are otherwise alike, the one with the
/// smallest number comes first. With seed 0 it is 0 for all cells.
fn turn_of(cell: usize, seed: u64) -> u64 {
    if seed == 0 {
        return 0;
    }
    (cell as u64)
        .wrapping_add(1)
        .wrapping_mul(0x9e37_79b9_7f4a_7c15)
        .wrapping_mul(seed.wrapping_mul(2).wrapping_add(1))
        >> 40
}

/// The weight of a light; 0 for `NO_LIGHT`.
fn weight_of(weights: &[u64], light: usize) -> u64 {
    match weights.get(light) {
        Some(weight) => *weight,
        None => 0,
    }
}

/// The rank of a cell. The cell with the fewest letters in proportion to the weight of its lights comes first.
#[derive(Clone, Copy)]
struct Rank {
    letters: u64,
    weight: u64,
    turn: u64,
}

impl Rank {
    /// Whether a cell of this rank comes before one of the other rank.
    fn is_before(&self, other: &Rank) -> bool {
        let own = self.letters.saturating_mul(other.weight);
        let others = other.letters.saturating_mul(self.weight);
        own < others || (own == others && self.turn < other.turn)
    }
}

/// The rank of an open cell with these lights.
fn rank_of<E: Feasible>(
    engine: &E,
    cell: usize,
    lights: Crossing,
    weights: &[u64],
    seed: u64,
) -> Rank
    requires { is_open (board_of (E.state engine.now).grid) cell ≡ true }
{
    Rank {
        letters: letters_at(engine, cell).len() as u64,
        weight: weight_of(weights, lights.across).saturating_add(weight_of(weights, lights.down)),
        turn: turn_of(cell, seed),
    }
}

/// The cell to fill next among some open cells: the empty one whose rank comes first. `crossings` has the lights through
/// each.
pub fn next_cell<E: Feasible>(
    engine: &E,
    targets: &[usize],
    weights: &[u64],
    seed: u64,
    crossings: &[Crossing],
) -> Option<usize>
    requires open { All (λ cell. is_open (board_of (E.state engine.now).grid) cell ≡ true) targets.now }
    requires crossings { length crossings.now ≡ length targets.now }
    ensures some { IfSome result (λ cell. Contains targets.now cell × (entry_in (entries_of (E.state engine.now)) cell ≡ None)) }
    ensures none { IfNone result (All (λ cell. is_some (entry_in (entries_of (E.state engine.now)) cell) ≡ true) targets.now) }
{
    let mut best = None;
    let mut first = Rank {
        letters: 0,
        weight: 0,
        turn: 0,
    };
    let board = board(engine);
    for index in 0..targets.len() {
        let cell = targets[index];
        if board.entry(cell).is_none() {
            let rank = rank_of(engine, cell, crossings[index], weights, seed);
            if best.is_none() || rank.is_before(&first) {
                best = Some(cell);
                first = rank;
            }
        }
    }
    best
}

/// How promising each letter of a set is at a cell for one of its lights; 0 if there is no such light.
fn promises_in<E: Searchable>(
    engine: &E,
    light: Option<usize>,
    cell: usize,
    letters: LetterSet,
    weighted: bool,
) -> [u64; 26]
    requires { IfSome light (λ light. light < light_count (E.state engine.now)) }
{
    let Some(light) = light else {
        return [0; 26];
    };
    let cells = board(engine).light(light);
    for position in 0..cells.len() {
        if cells.at(position) == cell {
            return engine.promises(light, position, letters, weighted);
        }
    }
    [0; 26]
}

/// How promising each letter of a set is at a cell: the product of how many words it leaves to each light, plus one. If
/// `weighted`, words of better grades count for more.
fn promises_at<E: Searchable>(
    engine: &E,
    cell: usize,
    letters: LetterSet,
    weighted: bool,
) -> [u64; 26]
    requires { is_open (board_of (E.state engine.now).grid) cell ≡ true }
{
    let (across, down) = board(engine).lights_at(cell);
    let across = promises_in(engine, across, cell, letters, weighted);
    let down = promises_in(engine, down, cell, letters, weighted);
    let mut promises = [0; 26];
    for index in 0..26usize {
        let across = across[index].saturating_add(1);
        promises[index] = across.saturating_mul(down[index].saturating_add(1));
    }
    promises
}

/// The letters of a set that were not tried.
fn untried(letters: LetterSet, tried: LetterSet) -> LetterSet {
    let mut left = letters;
    for index in 0..26 {
        let letter = Letter::at(index);
        if tried.has(letter) {
            left.remove(letter);
        }
    }
    left
}

/// The most promising feasible letter of an open cell that was not tried. The last one needs no promise.
pub fn next_letter<E: Searchable>(
    engine: &E,
    cell: usize,
    tried: LetterSet,
    weighted: bool,
) -> Option<Letter>
    requires { is_open (board_of (E.state engine.now).grid) cell ≡ true }
    ensures some { IfSome result (IsNextLetter (E.state engine.now) cell tried) }
    ensures none { IfNone result (HasNoLetter (E.state engine.now) cell tried) }
{
    let letters = letters_at(engine, cell);
    let left = untried(letters, tried);
    let mut promises = [0; 26];
    if left.len() > 1 {
        promises = promises_at(engine, cell, left, weighted);
    }
    let mut best = None;
    let mut most = 0;
    for number in 0..26 {
        let letter = Letter::at(number);
        if letters.has(letter) && !tried.has(letter) {
            let promise = promises[number as usize];
            if best.is_none() || promise > most {
                best = Some(letter);
                most = promise;
            }
        }
    }
    best
}
