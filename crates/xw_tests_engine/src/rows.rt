//! Worked examples of rows of bits whose last chunk, or last SIMD block, is one short of full, full, or just begun.
ghost use Rattle.std.specs.Prelude.{◌<◌};

use std::alloc::AllocError;
use std::process::Abort;
use xw_bits::bit_row::BitRow;

/// Numbers of bits at the borders of chunks and blocks.
const BORDERS: [usize; 8] = [0, 1, 63, 64, 65, 511, 512, 513];

/// A row in which each bit whose index is a multiple of `step` is set.
fn multiples(
    rt: &(impl Abort + AllocGlobal),
    bits: usize,
    step: usize,
) -> Result<BitRow, AllocError>
    requires { 0 < step }
{
    let mut row = BitRow::new(rt.alloc());
    for index in 0..bits {
        let len = row.len();
        assert!(rt; len == index && index < 1000);
        row.reserve(len + 1)?;
        row.push(index % step == 0);
    }
    Ok(row)
}

/// Whether a row has exactly the even indices that are multiples of three, or those that are not.
fn has_even(row: &BitRow, bits: usize, threes: bool) -> bool {
    let mut ones = row.ones();
    let mut count: usize = 0;
    for index in 0..bits {
        if index % 2 == 0 && (index % 3 == 0) == threes {
            if ones.next() != Some(index) {
                return false;
            }
            count = count.saturating_add(1);
        }
    }
    ones.next().is_none() && row.count() == count && row.len() == bits
}

/// Keeps or removes the multiples of three in a row of the even indices.
fn narrow(
    rt: &(impl Abort + AllocGlobal),
    bits: usize,
    threes_stay: bool,
) -> Result<BitRow, AllocError> {
    let threes = multiples(rt, bits, 3)?;
    let mut row = multiples(rt, bits, 2)?;
    assert!(rt; row.len() == threes.len());
    if threes_stay {
        row.and(&threes);
    } else {
        row.and_not(&threes);
    }
    Ok(row)
}

#[test]
fn rows_at_chunk_borders(rt: HostRuntime) -> Result<(), AllocError> {
    for bits in BORDERS {
        assert!(rt;
            has_even(&narrow(&rt, bits, true)?, bits, true),
            "wrong bits kept of {bits}"
        );
        assert!(rt;
            has_even(&narrow(&rt, bits, false)?, bits, false),
            "wrong bits struck of {bits}"
        );
    }
    Ok(())
}
