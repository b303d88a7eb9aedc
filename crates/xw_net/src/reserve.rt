//! Reserves room for an edit before it is made.
use crate::net::Net;
use crate::room::{Spare, reserve_rows};
use std::alloc::{AllocError, Global};
use xw_feas::edit::Refusal;
use xw_grid::fault::GridFault;
use xw_grid::lights::Lights;
use xw_words::WordFault;
use xw_words::bank::Bank;

impl Net {
    ghost use Rattle.std.specs.Prelude.{◌≡◌, ◌+◌, ◌≤◌, ℕ, length, vec_len, true, false, None, Some, is_some, IfSome, IfOk, IfErr, OnOk, OnErr, if◌then◌else◌};
    ghost use Rattle.xw_words.specs.Dictionary.{known_words};
    ghost use Rattle.xw_feas.specs.Rows.{grows};
    ghost use Rattle.xw_net.specs.Net.{known_counts, HasRoomFor, StandsFor, IsAlike};
    ghost use Rattle.xw_net.specs.Room.{counts_of, with_word, IsRoomier, HasRoom, HasSpare};

    /// Creates spare arrays for these lights, which replace those of the net, and reserves room in
    /// the queue and the chain.
    pub(crate) fn reserve_lights(
        &mut self,
        alloc: Global,
        lights: &Lights,
        bank: &Bank,
    ) -> Result<Spare, AllocError>
        ensures spare { IfOk result (λ spare. HasSpare lights.now (counts_of (known_words bank.now.words)) self.new spare) }
        ensures same { IsRoomier self.old self.new }
    {
        self.queue.reserve(lights.len())?;
        self.chain.reserve(lights.len())?;
        Spare::of(alloc, lights, bank)
    }

    /// Reserves room for one more word of length `len`. The lights are those of the net.
    pub(crate) fn reserve_word(
        &mut self,
        lights: &Lights,
        bank: &Bank,
        len: usize,
    ) -> Result<(), AllocError>
        requires rows { length lights.now ≤ vec_len self.old.rows }
        requires base { length lights.now ≤ vec_len self.old.base }
        ensures room { OnOk result (HasRoom lights.now (with_word len (counts_of (known_words bank.now.words))) self.new) }
        ensures same { IsRoomier self.old self.new }
    {
        reserve_rows(&mut self.rows, lights, bank, len)?;
        reserve_rows(&mut self.base, lights, bank, len)
    }

    /// Reserves spare arrays for these lights. The next `settle` takes them.
    fn reserve_shape(&mut self, lights: &Lights, bank: &Bank) -> Result<(), AllocError>
        ensures room { OnOk result (HasRoomFor lights.now (known_counts bank.now.words) self.new) }
        ensures waits { OnOk result (is_some self.new.spare ≡ true) }
        ensures same { IsAlike self.old self.new }
        ensures spare { OnErr result (self.new.spare ≡ self.old.spare) }
    {
        let alloc = self.alloc;
        let spare = self.reserve_lights(alloc, lights, bank)?;
        self.spare = Some(spare);
        Ok(())
    }

    /// Reserves room for one more word of length `len`, and drops any spare arrays.
    fn reserve_length(&mut self, lights: &Lights, bank: &Bank, len: usize) -> Result<(), AllocError>
        requires { StandsFor lights.now self.old }
        ensures room { OnOk result (HasRoomFor lights.now (with_word len (known_counts bank.now.words)) self.new) }
        ensures none_waits { OnOk result (is_some self.new.spare ≡ false) }
        ensures same { IsAlike self.old self.new }
        ensures spare { OnErr result (self.new.spare ≡ self.old.spare) }
    {
        self.reserve_word(lights, bank, len)?;
        self.spare = None;
        Ok(())
    }

    /// Reserves the memory for an edit, so that `settle` cannot fail. Without `len` it reserves
    /// arrays for these lights. With `len` the lights must be those of the net, and it reserves
    /// room for one more word of that length.
    ///
    /// Returns `Memory` if an allocation fails, as a grid fault without `len`, and as a word fault
    /// with it.
    pub fn reserve(
        &mut self,
        lights: &Lights,
        bank: &Bank,
        len: Option<usize>,
    ) -> Result<(), Refusal>
        requires { IfSome len (λ _. StandsFor lights.now self.old) }
        ensures room { OnOk result (HasRoomFor lights.now (λ word_len. known_counts bank.now.words word_len + (if grows len word_len then 1 else 0)) self.new) }
        ensures waits { len ≡ None → OnOk result (is_some self.new.spare ≡ true) }
        ensures none_waits { (word_len : ℕ) → len ≡ Some word_len → OnOk result (is_some self.new.spare ≡ false) }
        ensures grid_memory { len ≡ None → IfErr result (λ refusal. refusal ≡ Refusal.Grid GridFault.Memory) }
        ensures word_memory { (word_len : ℕ) → len ≡ Some word_len → IfErr result (λ refusal. refusal ≡ Refusal.Word WordFault.Memory) }
        ensures same { IsAlike self.old self.new }
        ensures spare { OnErr result (self.new.spare ≡ self.old.spare) }
    {
        match len {
            None => self.reserve_shape(lights, bank)?,
            Some(word_len) => self
                .reserve_length(lights, bank, word_len)
                .map_err(|_| Refusal::Word(WordFault::Memory))?,
        }
        Ok(())
    }
}
