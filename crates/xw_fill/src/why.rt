//! Why a light has no feasible word: a set of entries that leaves it none, and that is minimal.
pub(crate) mod entries;
mod order;
mod sparing;

ghost use Rattle.std.specs.Prelude.{◌≡◌, ◌<◌, true, IfOk, IfErr};
ghost use Rattle.xw_search.specs.Position.{DiffersInEntries};
ghost use Rattle.xw_search.specs.OfState.{light_count};
ghost use Rattle.xw_fill.specs.OfState.{lacks_words, IsReason};
ghost use Rattle.xw_search.specs.Writing.{entries_of};
ghost use Rattle.xw_fill.specs.Reason.{no_entries, IsReasonOf, IsRefused};
ghost use Rattle.xw_fill.specs.Sparing.{IsListOf, IsRoom};

use crate::why::entries::{emptied, entered_cells, note_entries, room_for_entries, write_from};
use crate::why::order::sort_by_distance;
use crate::why::sparing::spare_all;
use std::alloc::Global;
use xw_feas::feasible::Feasible;
use xw_grid::cell::{Cell, LightName};
use xw_letters::letter::Letter;
use xw_search::lights::{light_at, word_count};
use xw_search::writing::write;

/// How many entries are tried first: those nearest to the light. Each later try has twice as many.
const NEAREST: usize = 4;

/// Why there is no reason.
#[derive(Clone, Copy, Debug, PartialEq, Eq)]
pub enum NoReason {
    /// No light has this name.
    NoLight,
    /// The light has a feasible word.
    Alive,
    /// An allocation failed.
    Memory,
}

/// The memory of a search. `entered` lists the entered cells with their letters, the farthest from the light first;
/// `emptied` lists the same cells without letters. `reason` has room for the entry of each cell of the grid.
#[derive(Drop)]
pub struct Room {
    pub entered: Vec<(Cell, Option<Letter>)>,
    pub emptied: Vec<(Cell, Option<Letter>)>,
    pub reason: Vec<Option<Letter>>,
}

impl Room {
    /// Allocates the room for a search.
    fn new<E: Feasible>(alloc: Global, engine: &E, light: usize) -> Result<Room, NoReason>
        requires { light < light_count (E.state engine.now) }
        ensures ok { IfOk result (λ room. IsRoom (E.state engine.now) room) }
        ensures memory { IfErr result (λ refusal. refusal ≡ NoReason.Memory) }
    {
        let mut entered = entered_cells(alloc, engine)?;
        sort_by_distance(&mut entered, &light_at(engine, light));
        let emptied = emptied(alloc, &entered)?;
        let reason = room_for_entries(alloc, engine)?;
        Ok(Room {
            entered,
            emptied,
            reason,
        })
    }
}

/// Leaves just a reason in the grid. The two lists are those of `Room`. Empties the grid, writes back the nearest
/// entries until they leave the light no feasible word, and then leaves out those that can be spared.
fn leave_reason<E: Feasible>(
    engine: &mut E,
    light: usize,
    entered: &[(Cell, Option<Letter>)],
    emptied: &[(Cell, Option<Letter>)],
)
    requires light { light < light_count (E.state engine.old) }
    requires dead { lacks_words (E.state engine.old) light ≡ true }
    requires entered { IsListOf (E.state engine.old) (entries_of (E.state engine.old)) entered.now }
    requires emptied { IsListOf (E.state engine.old) (no_entries (entries_of (E.state engine.old))) emptied.now }
    ensures reason { IsReason (E.state engine.old) light (entries_of (E.state engine.new)) }
    ensures rest { DiffersInEntries (E.state engine.old) (E.state engine.new) }
{
    write(engine, emptied);
    if word_count(engine, light) == 0 {
        return;
    }
    let mut from = entered.len();
    'nearest: loop {
        from = from.saturating_sub((entered.len() - from).max(NEAREST));
        write_from(engine, entered, from);
        if word_count(engine, light) == 0 {
            break;
        }
    }
    spare_all(engine, light, entered);
}

/// Finds a reason, copies it into the room, and writes all entries back.
fn find<E: Feasible>(engine: &mut E, light: usize, room: &mut Room)
    requires light { light < light_count (E.state engine.old) }
    requires dead { lacks_words (E.state engine.old) light ≡ true }
    requires room { IsRoom (E.state engine.old) room.old }
    ensures reason { IsReason (E.state engine.old) light room.new.reason.items }
    ensures unchanged { E.state engine.new ≡ E.state engine.old }
{
    leave_reason(engine, light, &room.entered, &room.emptied);
    note_entries(engine, &mut room.reason);
    write(engine, &room.entered);
}

/// Returns a reason why a light has no feasible word: for each cell in reading order the entry that it has in the
/// reason, if any. With these entries alone the light has no feasible word, and with any one of them emptied it has
/// some. There is no entry if the light has no feasible word even in the empty grid. The engine is left as it was.
///
/// Entries far from the light are left out first. Returns `NoLight`, then `Alive`, then `Memory`.
pub fn reason<E: Feasible>(
    alloc: Global,
    engine: &mut E,
    name: LightName,
) -> Result<Vec<Option<Letter>>, NoReason>
    ensures ok { IfOk result (λ entries. IsReasonOf (E.state engine.old) name entries.items) }
    ensures refused { IfErr result (IsRefused (E.state engine.old) name) }
    ensures unchanged { E.state engine.new ≡ E.state engine.old }
    ensures answers { E.answers engine.new ≡ E.answers engine.old }
{
    let Some(light) = engine.lights().index(name) else {
        return Err(NoReason::NoLight);
    };
    let count = word_count(engine, light);
    if count > 0 {
        return Err(NoReason::Alive);
    }
    let mut room = Room::new(alloc, engine, light)?;
    find(engine, light, &mut room);
    Ok(room.reason)
}
