//! The buffer of the line being read.
use crate::run::LINE_LIMIT;
use std::alloc::{AllocError, Global};
use std::marker::Model;

/// The part of a line read so far, or a mark that the line is too long.
#[derive(Drop)]
pub struct LineBuffer {
    bytes: Vec<u8>,
    is_long: bool,
}

impl Model for LineBuffer {
    ghost use Rattle.std.specs.Prelude.{◌≡◌, ℕ, ◌≤◌, List, Option, Some, None, true, false, if◌then◌else◌, vec_len, vec_capacity};

    ghost Value = { Option (List ℕ) };

    ghost view = { λ p. if p.is_long then None else Some p.bytes.items };

    ghost invariant = { λ p. (vec_len p.bytes ≤ 4096) × (4096 ≤ vec_capacity p.bytes) };
}

impl LineBuffer {
    ghost use Rattle.std.specs.Prelude.{◌≡◌, ℕ, ◌≤◌, ◌↔◌, List, [], ◌∷◌, ◌++◌, Option, Some, None, IfOk, IsTrue};
    ghost use Rattle.std.specs.Option.{option_map};
    ghost use Rattle.xw_lines.specs.Cut.{held};

    pub fn new(alloc: Global) -> Result<LineBuffer, AllocError>
        ensures { IfOk result (λ piece. piece ≡ Some []) }
    {
        let bytes = Vec::with_capacity(alloc, LINE_LIMIT)?;
        Ok(LineBuffer {
            bytes,
            is_long: false,
        })
    }

    /// Appends bytes. If the line gets longer than `LINE_LIMIT`, it is marked as too long.
    pub fn hold(&mut self, bytes: &[u8])
        ensures { (line : List ℕ) → self.old ≡ held line → self.new ≡ held (line ++ bytes.now) }
    {
        if self.is_long || bytes.len() > LINE_LIMIT - self.bytes.len() {
            self.is_long = true;
        } else {
            let _ = self.bytes.extend_from_slice(bytes);
        }
    }

    /// Starts the next line.
    pub fn clear(&mut self)
        ensures { self.new ≡ Some [] }
    {
        self.bytes.clear();
        self.is_long = false;
    }

    pub fn is_empty(&self) -> bool
        ensures { IsTrue result ↔ (self.now ≡ Some []) }
    {
        !self.is_long && self.bytes.is_empty()
    }

    /// Returns the line so far, or `None` if it is too long.
    pub fn line(&self) -> Option<&[u8]>
        ensures { option_map (λ line. line.now) result ≡ self.now }
    {
        if self.is_long {
            None
        } else {
            Some(self.bytes.as_slice())
        }
    }
}
