//! A letter, A to Z.
ghost use Rattle.std.specs.Prelude.{◌≡◌, ℕ, ◌+◌, ◌<◌, ◌≤◌, true, All};
ghost use Rattle.xw_letters.specs.Letter.{IsLetter, letter_of, is_letter, folded};

use std::marker::Model;

/// A letter, A to Z. It is stored as its ASCII capital.
#[derive(Clone, Copy, Debug, PartialEq, Eq, PartialOrd, Ord)]
pub struct Letter {
    code: u8,
}

impl Model for Letter {
    ghost use Rattle.std.specs.Prelude.{ℕ};
    ghost use Rattle.xw_letters.specs.Letter.{IsLetter};

    ghost Value = { ℕ };

    ghost view = { λ letter. letter.code };

    ghost invariant = { λ letter. IsLetter letter.code };

    ghost inverse = { λ code. record { code = code } };
}

impl Letter {
    /// The letter for an ASCII byte of either case; `None` for any other byte.
    pub fn of(byte: u8) -> Option<Letter>
        ensures { result ≡ letter_of byte }
    {
        match byte {
            b'A'..=b'Z' | b'a'..=b'z' => Some(Letter::capital(byte)),
            _ => None,
        }
    }

    /// The letter A.
    pub fn first() -> Letter
        ensures { result ≡ 65 }
    {
        Letter { code: b'A' }
    }

    /// The letter for an ASCII byte of either case. The byte must be a letter.
    pub fn capital(byte: u8) -> Letter
        requires { is_letter byte ≡ true }
        ensures { result ≡ folded byte }
    {
        Letter {
            code: if byte >= b'a' { byte - 32 } else { byte },
        }
    }

    /// The letter at an index in the alphabet; A has index 0.
    pub fn at(index: u32) -> Letter
        requires { index < 26 }
        ensures { result ≡ 65 + index }
    {
        Letter {
            code: b'A' + index as u8,
        }
    }

    /// The ASCII capital, 65 for A to 90 for Z.
    pub fn byte(self) -> u8
        ensures code { result ≡ self }
        ensures letter { IsLetter result }
    {
        self.code
    }
}

/// Gives the prover the invariant of each letter of the slice. It has no effect at run time.
pub fn are_letters(word: &[Letter])
    ensures { All IsLetter word.now }
{
    for letter in word {
        let _ = letter.byte();
    }
}
