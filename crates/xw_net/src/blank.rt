//! Creates an empty net.
use crate::net::Net;
use crate::room::{NOWHERE, make_flags, make_held, make_rows, make_sets};
use crate::worklist::Worklist;
use std::alloc::{AllocError, Global};
use xw_grid::grid::Grid;
use xw_grid::lights::Lights;
use xw_words::bank::Bank;

impl Net {
    ghost use Rattle.std.specs.Prelude.{◌≡◌, length, IfOk};
    ghost use Rattle.xw_words.specs.Dictionary.{known_words};
    ghost use Rattle.xw_net.specs.Inner.Blank.{IsBlank};
    ghost use Rattle.xw_net.specs.Room.{counts_of, HasRoom};

    /// A net for a grid and a dictionary, with no words and no letters.
    pub(crate) fn blank(
        alloc: Global,
        grid: &Grid,
        lights: &Lights,
        bank: &Bank,
    ) -> Result<Net, AllocError>
        ensures blank { IfOk result (λ net. IsBlank lights.now (counts_of (known_words bank.now.words)) (length grid.now.squares) net) }
        ensures room { IfOk result (λ net. HasRoom lights.now (counts_of (known_words bank.now.words)) net) }
    {
        let (cells, count) = (grid.size(), lights.len());
        Ok(Net {
            alloc,
            rows: make_rows(alloc, lights, bank)?,
            base: make_rows(alloc, lights, bank)?,
            entered: make_flags(alloc, count)?,
            letters: make_sets(alloc, cells)?,
            held: make_held(alloc, 52 * cells)?,
            restart: make_sets(alloc, 2 * cells)?,
            pending: make_sets(alloc, 2 * cells)?,
            queue: Worklist::new(alloc, count)?,
            chain: Worklist::new(alloc, count)?,
            spare: None,
            emptied: NOWHERE,
        })
    }
}
