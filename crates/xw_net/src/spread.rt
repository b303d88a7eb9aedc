//! The revival: puts words and letters back along a chain of lights.
ghost use Rattle.std.specs.Prelude.{◌≡◌, ℕ, ◌+◌, ◌*◌, ◌^◌, ◌<◌, ◌≤◌, Bool, true, false, [], IsTrue, IsFalse, length, slice_set};
ghost use Rattle.xw_letters.specs.Letter.{is_capital};
ghost use Rattle.xw_letters.specs.LetterSet.{has};
ghost use Rattle.xw_feas.specs.Feasible.{may_stand};
ghost use Rattle.xw_feas.specs.Flags.{set_has};
ghost use Rattle.xw_net.specs.Marks.{IsPositionIn, cell_at, AreByCell, AreBySlot, HasFewCells};
ghost use Rattle.xw_net.specs.Room.{KeepRoom};
ghost use Rattle.xw_net.specs.Spread.{RestartsLight, OtherSlotsStay, positions_from, either_position, is_barren as spec_is_barren, barren_positions, bits_in, AreAsLong, HasAll, IsThrough, IsSpread, SpreadsOn, ReachesFrom, Reaches, Brings, lit, IsLit, IsListed, none_waits, OtherRowsStay, IsAsLong};
ghost use Rattle.xw_net.specs.Worklist.{is_marked, HasSeeds, Grows, MarksAll, MarksOnly, HasLights};

use crate::light_position::position_of;
use crate::net::Net;
use crate::worklist::Worklist;
use xw_bits::bit_row::BitRow;
use xw_feas::board::{Board, allowed, has_all_entries};
use xw_letters::letter_set::LetterSet;

/// The letters that a cell allows.
pub(crate) fn letters_allowed(board: &Board<'_>, cell: usize) -> LetterSet
    ensures { (letter : ℕ) → has result letter ≡ may_stand board.now cell letter }
{
    allowed(board.is_open(cell), board.entry(cell))
}

/// Gives a cell the letters `may`. Returns whether one of them is new.
pub(crate) fn raise(letters: &mut [LetterSet], cell: usize, may: LetterSet) -> bool
    requires { cell < length letters.old }
    ensures raised { IsTrue result → letters.new ≡ slice_set letters.old cell may }
    ensures lacked { IsTrue result → ¬ ((letter : ℕ) → has may letter ≡ true → set_has letters.old cell letter ≡ true) }
    ensures same { IsFalse result → letters.new ≡ letters.old }
    ensures stood { IsFalse result → (letter : ℕ) → has may letter ≡ true → set_has letters.old cell letter ≡ true }
{
    if letters[cell].common(may).is_same(may) {
        return false;
    }
    letters[cell] = may;
    true
}

/// Marks the light that crosses another at a position, if there is one.
fn mark_crossing(board: &Board<'_>, light: usize, position: usize, chain: &mut Worklist)
    requires position { IsPositionIn board.now light position }
    requires chain { HasLights board.now chain.old }
    ensures grows { Grows chain.old chain.new }
    ensures marked { is_marked chain.old.marks light ≡ true → MarksAll (IsThrough board.now (cell_at board.now light position)) chain.new }
    ensures within { MarksOnly (IsThrough board.now (cell_at board.now light position)) chain.old chain.new }
{
    if let Some(other) = board.crossing(light, position) {
        chain.insert(other);
    }
}

/// Gives the cell at a position of a light all letters that it allows. If it gets a letter back,
/// marks the crossing light.
fn raise_position(
    board: &Board<'_>,
    light: usize,
    position: usize,
    letters: &mut [LetterSet],
    chain: &mut Worklist,
)
    requires few { HasFewCells board.now }
    requires position { IsPositionIn board.now light position }
    requires letters { AreByCell board.now letters.old }
    requires chain { HasLights board.now chain.old }
    requires marked { is_marked chain.old.marks light ≡ true }
    ensures letters { length letters.new ≡ length letters.old }
    ensures grows { Grows chain.old chain.new }
    ensures all { HasAll board.now (set_has letters.new) (cell_at board.now light position) }
    ensures spread { (start : ℕ → ℕ → Bool) (coming : _) → SpreadsOn board.now start coming letters.old chain.old coming letters.new chain.new }
    ensures within { (start : ℕ → ℕ → Bool) (coming : _) → ReachesFrom board.now start coming letters.old chain.old chain.new }
{
    let cell = position_of(board, light, position).cell;
    if raise(letters, cell, letters_allowed(board, cell)) {
        mark_crossing(board, light, position, chain);
    }
}

/// Gives the cells of a light all letters that they allow, and marks the lights that cross it where
/// a letter comes back.
fn raise_light(board: &Board<'_>, light: usize, letters: &mut [LetterSet], chain: &mut Worklist)
    requires few { HasFewCells board.now }
    requires light { light < length board.now.lights }
    requires letters { AreByCell board.now letters.old }
    requires chain { HasLights board.now chain.old }
    requires marked { is_marked chain.old.marks light ≡ true }
    ensures letters { length letters.new ≡ length letters.old }
    ensures grows { Grows chain.old chain.new }
    ensures spread { (start coming : ℕ → ℕ → Bool) → SpreadsOn board.now start (either_position (positions_from light 0) coming) letters.old chain.old coming letters.new chain.new }
    ensures within { (start coming : ℕ → ℕ → Bool) → ReachesFrom board.now start (either_position (positions_from light 0) coming) letters.old chain.old chain.new }
{
    for position in 0..board.light(light).len() {
        raise_position(board, light, position, letters, chain);
    }
}

/// Whether a light has no base word.
fn is_barren(board: &Board<'_>, base: &[BitRow], light: usize) -> bool
    requires light { light < length board.now.lights }
    requires base { light < length base.now }
    ensures { result ≡ spec_is_barren board.now base.now light }
{
    base[light].count() == 0 && !has_all_entries(board, &board.light(light))
}

/// As `raise_light`, unless the light has no base word: it gets no word back, so its letters need not come back, and its
/// cells are not a way to other lights.
fn raise_if_worded(
    board: &Board<'_>,
    base: &[BitRow],
    light: usize,
    letters: &mut [LetterSet],
    chain: &mut Worklist,
)
    requires few { HasFewCells board.now }
    requires light { light < length board.now.lights }
    requires base { light < length base.now }
    requires letters { AreByCell board.now letters.old }
    requires chain { HasLights board.now chain.old }
    requires marked { is_marked chain.old.marks light ≡ true }
    ensures letters { length letters.new ≡ length letters.old }
    ensures grows { Grows chain.old chain.new }
    ensures spread { (start : ℕ → ℕ → Bool) → SpreadsOn board.now start (either_position (positions_from light 0) (barren_positions board.now base.now)) letters.old chain.old (barren_positions board.now base.now) letters.new chain.new }
    ensures within { (start : ℕ → ℕ → Bool) → ReachesFrom board.now start (either_position (positions_from light 0) (barren_positions board.now base.now)) letters.old chain.old chain.new }
{
    if is_barren(board, base, light) {
        return;
    }
    raise_light(board, light, letters, chain);
}

/// Makes each search for a support in a light start at the first word again.
fn restart_light(board: &Board<'_>, light: usize, restart: &mut [LetterSet])
    requires few { HasFewCells board.now }
    requires light { light < length board.now.lights }
    requires slots { AreBySlot board.now restart.old }
    ensures len { length restart.new ≡ length restart.old }
    ensures on { RestartsLight board.now light restart.new }
    ensures off { OtherSlotsStay board.now light restart.old restart.new }
    ensures more { (slot letter : ℕ) → is_capital letter ≡ true → set_has restart.old slot letter ≡ true → set_has restart.new slot letter ≡ true }
{
    for position in 0..board.light(light).len() {
        let slot = position_of(board, light, position).slot;
        restart[slot] = LetterSet::all();
    }
}

/// Copies the base row of a light to its row of words.
fn bring_row(base: &[BitRow], light: usize, rows: &mut [BitRow])
    requires base { light < length base.now }
    requires rows { light < length rows.old }
    requires bits { IsAsLong light rows.old base.now }
    ensures len { length rows.new ≡ length rows.old }
    ensures here { bits_in rows.new light ≡ bits_in base.now light }
    ensures others { OtherRowsStay light rows.old rows.new }
    ensures row_room { KeepRoom rows.old rows.new }
{
    rows[light].copy_from(&base[light]);
}

/// Puts all base words of a light back, and queues the light.
fn bring_words(
    board: &Board<'_>,
    base: &[BitRow],
    light: usize,
    rows: &mut [BitRow],
    entered: &mut [bool],
    restart: &mut [LetterSet],
    queue: &mut Worklist,
)
    requires few { HasFewCells board.now }
    requires light { light < length board.now.lights }
    requires base { light < length base.now }
    requires rows { light < length rows.old }
    requires bits { IsAsLong light rows.old base.now }
    requires entered { light < length entered.old }
    requires slots { AreBySlot board.now restart.old }
    requires queue { light < length queue.old.marks }
    ensures listed { IsListed queue.old → IsListed queue.new }
    ensures row_room { KeepRoom rows.old rows.new }
    ensures lit { Brings board.now base.now light (lit rows.old entered.old restart.old queue.old) (lit rows.new entered.new restart.new queue.new) }
{
    bring_row(base, light, rows);
    entered[light] = has_all_entries(board, &board.light(light));
    restart_light(board, light, restart);
    queue.insert_urgent(light, rows[light].count() == 0);
}

/// Puts words and letters back along the chain that starts at the marked lights: all base words of
/// each of its lights, and all letters that the cells of a light with a base word allow. The chain reaches a crossing
/// light only if a letter comes back at the shared cell.
pub(crate) fn spread(
    board: &Board<'_>,
    base: &[BitRow],
    rows: &mut [BitRow],
    entered: &mut [bool],
    letters: &mut [LetterSet],
    restart: &mut [LetterSet],
    queue: &mut Worklist,
    chain: &mut Worklist,
)
    requires few { HasFewCells board.now }
    requires base { length board.now.lights ≤ length base.now }
    requires rows { length board.now.lights ≤ length rows.old }
    requires bits { AreAsLong board.now rows.old base.now }
    requires entered { length board.now.lights ≤ length entered.old }
    requires letters { AreByCell board.now letters.old }
    requires slots { AreBySlot board.now restart.old }
    requires queue { HasLights board.now queue.old }
    requires chain { length chain.old.marks ≡ length board.now.lights }
    requires seeds { HasSeeds chain.old }
    ensures letters { length letters.new ≡ length letters.old }
    ensures listed { IsListed queue.old → IsListed queue.new }
    ensures row_room { KeepRoom rows.old rows.new }
    ensures empty { chain.new.lights ≡ [] }
    ensures size { length chain.new.marks ≡ length chain.old.marks }
    ensures more { (light : ℕ) → is_marked chain.old.marks light ≡ true → is_marked chain.new.marks light ≡ true }
    ensures words { IsLit board.now base.now (lit rows.old entered.old restart.old queue.old) (lit rows.new entered.new restart.new queue.new) (is_marked chain.new.marks) none_waits }
    ensures spread { IsSpread board.now (set_has letters.old) (set_has letters.new) (is_marked chain.new.marks) none_waits (barren_positions board.now base.now) }
    ensures within { Reaches board.now (set_has letters.old) chain.old chain.new }
{
    while let Some(light) = chain.take_last() {
        bring_words(board, base, light, rows, entered, restart, queue);
        raise_if_worded(board, base, light, letters, chain);
    }
}

impl Net {
    ghost use Rattle.std.specs.Prelude.{◌≡◌, ℕ, true, false, [], List};
    ghost use Rattle.xw_words.specs.Dictionary.{Entry};
    ghost use Rattle.xw_feas.specs.Board.{Board as SpecBoard};
    ghost use Rattle.xw_net.specs.Brought.{HasBase};
    ghost use Rattle.xw_net.specs.Inner.Chain.{BringsBack, RevivesChain, CoversFeasible, ReadiesChain, StaysInRegion};
    ghost use Rattle.xw_net.specs.Nets.{letter_stands, IsShaped, IsChained, HasBits, IsQueue};
    ghost use Rattle.xw_net.specs.Room.{KeepRoom};
    ghost use Rattle.xw_net.specs.Spread.{Reaches};
    ghost use Rattle.xw_net.specs.Worklist.{is_marked, HasSeeds};

    /// Puts words and letters back along the chain that starts at the marked lights.
    pub(crate) fn bring_back(&mut self, board: &Board<'_>)
        requires shaped { IsShaped board.now self.old }
        requires chained { IsChained board.now self.old }
        requires bits { (entries : ℕ → List Entry) × HasBits board.now entries self.old × HasBase board.now entries self.old.base.items }
        requires seeds { HasSeeds self.old.chain }
        ensures shaped { IsShaped board.now self.new }
        ensures chained { IsChained board.now self.new }
        ensures bits { (entries : ℕ → List Entry) → HasBits board.now entries self.old → HasBits board.now entries self.new }
        ensures queue { IsQueue self.old → IsQueue self.new }
        ensures base { self.new.base ≡ self.old.base }
        ensures spare { self.new.spare ≡ self.old.spare }
        ensures empty { self.new.chain.lights ≡ [] }
        ensures row_room { KeepRoom self.old.rows.items self.new.rows.items }
        ensures seeded { (light : ℕ) → is_marked self.old.chain.marks light ≡ true → is_marked self.new.chain.marks light ≡ true }
        ensures brought { BringsBack board.now self.old self.new }
        ensures within { Reaches board.now (letter_stands self.old) self.old.chain self.new.chain }
        ensures revived { RevivesChain board.now self.old self.new }
        ensures covers { CoversFeasible board.now self.old self.new }
        ensures ready { ReadiesChain board.now self.old self.new }
        ensures region { StaysInRegion board.now self.old self.new }
    {
        spread(
            board,
            &self.base,
            &mut self.rows,
            &mut self.entered,
            &mut self.letters,
            &mut self.restart,
            &mut self.queue,
            &mut self.chain,
        );
    }
    /// Unmarks the lights of a finished chain, so that the next one starts with none.
    pub(crate) fn unmark(&mut self)
        ensures empty { self.new.chain.lights ≡ [] }
        ensures marked { (light : ℕ) → is_marked self.new.chain.marks light ≡ false }
        ensures rest { self.new ≡ record self.old { chain = self.new.chain } }
        ensures shaped { (board : SpecBoard) → IsShaped board self.old → IsShaped board self.new }
        ensures chained { (board : SpecBoard) → IsChained board self.old → IsChained board self.new }
    {
        self.chain.clear();
    }
}
