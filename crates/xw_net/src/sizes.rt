//! The sizes of a net's arrays. The patterns name each field, so a new field is an error here until its array is counted.
ghost use Rattle.std.specs.Prelude.{◌≡◌};
ghost use Rattle.xw_net.specs.Sizes.{rows_waiting, lists_waiting, row_lists, other_lists};

use crate::net::Net;
use crate::room::Spare;

/// The lengths of a net's arrays.
#[derive(Clone, Copy, Debug, PartialEq, Eq)]
pub struct Sizes {
    /// The arrays of bit rows.
    pub rows: [usize; 4],
    /// All other arrays.
    pub lists: [usize; 16],
}

fn waiting_rows(spare: &Option<Spare>) -> [usize; 2]
    ensures { result ≡ rows_waiting spare.now }
{
    match spare {
        None => [0; 2],
        Some(
            Spare {
                rows,
                base,
                entered: _,
                queue_marks: _,
                chain_marks: _,
            },
        ) => [rows.len(), base.len()],
    }
}

fn waiting_lists(spare: &Option<Spare>) -> [usize; 3]
    ensures { result ≡ lists_waiting spare.now }
{
    match spare {
        None => [0; 3],
        Some(
            Spare {
                rows: _,
                base: _,
                entered,
                queue_marks,
                chain_marks,
            },
        ) => [entered.len(), queue_marks.len(), chain_marks.len()],
    }
}

impl Net {
    /// The length of each array. If there are no spare arrays, their lengths are 0.
    pub fn sizes(&self) -> Sizes
        ensures rows { result.rows ≡ row_lists self.now }
        ensures lists { result.lists ≡ other_lists self.now }
    {
        let Net {
            alloc: _,
            rows,
            base,
            entered,
            letters,
            held,
            restart,
            pending,
            queue,
            chain,
            spare,
            emptied: _,
        } = self;
        let [queued, queue_marks, queue_places, queue_below] = queue.sizes();
        let [chained, chain_marks, chain_places, chain_below] = chain.sizes();
        let [waiting_rows, waiting_base] = waiting_rows(spare);
        let [waiting_entered, waiting_queued, waiting_marked] = waiting_lists(spare);
        Sizes {
            rows: [rows.len(), base.len(), waiting_rows, waiting_base],
            lists: [
                entered.len(),
                letters.len(),
                held.len(),
                restart.len(),
                pending.len(),
                queued,
                queue_marks,
                queue_places,
                queue_below,
                chained,
                chain_marks,
                chain_places,
                chain_below,
                waiting_entered,
                waiting_queued,
                waiting_marked,
            ],
        }
    }
}
