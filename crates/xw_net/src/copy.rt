//! Copies one net into another.
ghost use Rattle.std.specs.Prelude.{◌≡◌, ℕ, ◌<◌, ◌≤◌, false, length, slice_index_or};
ghost use Rattle.xw_net.specs.Copy.{AreFirstAsLong, AreRowsCopied};

use crate::net::Net;
use std::alloc::{AllocError, Global};
use xw_bits::bit_row::BitRow;
use xw_grid::grid::Grid;
use xw_grid::lights::Lights;
use xw_words::bank::Bank;

/// Copies the bits of the first `count` rows.
fn copy_rows(rows: &mut [BitRow], from: &[BitRow], count: usize)
    requires rows { count ≤ length rows.old }
    requires from { count ≤ length from.now }
    requires bits { AreFirstAsLong count rows.old from.now }
    ensures { AreRowsCopied count from.now rows.old rows.new }
{
    for light in 0..count {
        let row = &mut rows[light];
        row.copy_from(&from[light]);
    }
}

/// Copies the first `count` flags.
fn copy_flags(flags: &mut [bool], from: &[bool], count: usize)
    requires flags { count ≤ length flags.old }
    requires from { count ≤ length from.now }
    ensures done { (light : ℕ) → light < count → slice_index_or flags.new light false ≡ slice_index_or from.now light false }
    ensures left { (light : ℕ) → count ≤ light → slice_index_or flags.new light false ≡ slice_index_or flags.old light false }
{
    flags[..count].copy_from_slice(&from[..count]);
}

impl Net {
    ghost use Rattle.std.specs.Prelude.{◌≡◌, false, is_some, IfOk};
    ghost use Rattle.xw_grid.specs.Light.{lights_of};
    ghost use Rattle.xw_net.specs.Copy.{CanCopy, IsCopy};
    ghost use Rattle.xw_net.specs.Net.{IsSettledFor};
    ghost use Rattle.xw_net.specs.Update.{state_of};

    /// Copies the words and letters of `net`, which stands for a grid with these lights. It allocates nothing.
    pub fn copy_from(&mut self, net: &Net, lights: &Lights)
        requires { CanCopy lights.now net.now self.old }
        ensures copied { IsCopy lights.now net.now self.new }
        ensures spare { self.new.spare ≡ self.old.spare }
    {
        let count = lights.len();
        copy_rows(&mut self.rows, &net.rows, count);
        copy_rows(&mut self.base, &net.base, count);
        copy_flags(&mut self.entered, &net.entered, count);
        self.letters.as_mut_slice().copy_from_slice(&net.letters);
        self.held.as_mut_slice().copy_from_slice(&net.held);
        self.restart.as_mut_slice().copy_from_slice(&net.restart);
    }

    /// A copy of the net, which stands for this grid and dictionary.
    pub fn copy(
        &self,
        alloc: Global,
        grid: &Grid,
        lights: &Lights,
        bank: &Bank,
    ) -> Result<Net, AllocError>
        requires lights { lights.now ≡ lights_of grid.now }
        requires settled { ∥ IsSettledFor (state_of grid.now bank.now.words) self.now ∥₁ }
        ensures copied { IfOk result (λ net. IsCopy lights.now self.now net) }
        ensures none_waits { IfOk result (λ net. is_some net.spare ≡ false) }
    {
        let mut net = Net::blank(alloc, grid, lights, bank)?;
        grid.well_formed();
        bank.well_formed();
        net.copy_from(self, lights);
        Ok(net)
    }
}
