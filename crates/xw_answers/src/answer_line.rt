//! A buffer for the lines of answers, so that they are written in few calls.
ghost use Rattle.std.specs.Prelude.{◌≡◌, ◌+◌, ◌<◌, ◌≤◌, true, false, [], ◌∷◌, ◌++◌, decimal, length, map, slice_index_or, IfOk};
ghost use Rattle.xw_letters.specs.LetterSet.{letters_in};
ghost use Rattle.xw_lines.specs.Sends.{Sends, Gathers};
ghost use Rattle.xw_answers.specs.Escape.{spelled_at, escaped_text};
ghost use Rattle.xw_answers.specs.Text.{line_of, word_line, letters_or_dash, two_decimals};
ghost use Rattle.xw_answers.specs.Token.{token_bytes};

use crate::copying;
use crate::escape::{is_end, letter_for};
use itoa::Buffer;
use std::marker::Model;
use xw_feas::word_iter::Entries;
use xw_letters::{Letter, LetterSet};
use xw_lines::device::{self, Sink, WriteFailed};

/// The capacity in bytes. A row of the largest grid has 510 bytes.
const MOST: usize = 512;

/// A word of a line. Lines have a space between their words.
#[derive(Clone, Copy)]
pub enum Token<'a> {
    Name(&'a str),
    Bytes(&'a [u8]),
    /// A number, in decimal.
    Number(u64),
    /// A number of hundredths, with two decimals.
    Hundredths(u64),
    Letters(&'a [Letter]),
    /// The word that the letters of a light spell.
    Entries(&'a Entries<'a>),
    /// The letters of a set in order, or a dash for the empty set.
    Set(LetterSet),
    /// A text with escapes. It can have spaces.
    Text(&'a [u8]),
}

/// A fixed-size buffer for answer lines. It is written when it is full, and by `send`. It allocates nothing.
#[derive(Drop)]
pub struct AnswerLine {
    bytes: [u8; MOST],
    len: usize,
}

impl Model for AnswerLine {
    ghost use Rattle.std.specs.Prelude.{ℕ, List, ◌≤◌, take};

    ghost Value = { List ℕ };

    ghost view = { λ line. take line.len line.bytes };

    ghost invariant = { λ line. line.len ≤ 512 };
}

impl AnswerLine {
    pub fn new() -> AnswerLine
        ensures { result ≡ [] }
    {
        AnswerLine {
            bytes: [0; MOST],
            len: 0,
        }
    }

    /// Empties the buffer.
    pub fn clear(&mut self)
        ensures { self.new ≡ [] }
    {
        self.len = 0;
    }

    /// How many more bytes fit.
    fn room(&self) -> usize
        ensures { result + length self.now ≡ 512 }
    {
        MOST - self.len
    }

    /// Appends bytes if they fit. Returns whether they did.
    pub fn push(&mut self, bytes: &[u8]) -> bool
        ensures fits { result ≡ true → self.new ≡ self.old ++ bytes.now }
        ensures full { result ≡ false → self.new ≡ self.old }
        ensures room { length self.old + length bytes.now ≤ 512 → result ≡ true }
    {
        if bytes.len() > self.room() {
            return false;
        }
        self.push_bytes(bytes);
        true
    }

    /// Appends bytes, which must fit.
    pub fn push_bytes(&mut self, bytes: &[u8])
        requires { length self.old + length bytes.now ≤ 512 }
        ensures { self.new ≡ self.old ++ bytes.now }
    {
        let end = self.len + bytes.len();
        self.bytes[self.len..end].copy_from_slice(bytes);
        self.len = end;
    }

    /// Appends a byte, which must fit.
    pub fn push_byte(&mut self, byte: u8)
        requires { length self.old < 512 }
        ensures { self.new ≡ self.old ++ byte ∷ [] }
    {
        self.bytes[self.len] = byte;
        self.len += 1;
    }

    /// Appends a digit, which must fit.
    fn push_digit(&mut self, digit: u16)
        requires digit { digit < 10 }
        requires room { length self.old < 512 }
        ensures { self.new ≡ self.old ++ decimal digit }
    {
        self.push_byte(b'0' + digit as u8);
    }

    /// Appends a number in decimal, which has at most five digits and must fit.
    pub fn push_number(&mut self, number: u16)
        requires { length self.old + 5 ≤ 512 }
        ensures number { self.new ≡ self.old ++ decimal number }
        ensures short { length (decimal number) ≤ 5 }
    {
        if number < 10 {
            self.push_digit(number);
        } else if number < 100 {
            self.push_digit(number / 10);
            self.push_byte(b'0' + (number % 10) as u8);
        } else {
            let mut digits = Buffer::new();
            self.push_bytes(digits.format(number).as_bytes());
        }
    }

    /// Appends letters, which must fit.
    fn push_letters(&mut self, letters: &[Letter])
        requires { length self.old + length letters.now ≤ 512 }
        ensures { self.new ≡ self.old ++ letters.now }
    {
        let end = self.len + letters.len();
        copying::copy_letters(&mut self.bytes[self.len..end], letters);
        self.len = end;
    }

    pub fn bytes(&self) -> &[u8]
        ensures { result.now ≡ self.now }
    {
        &self.bytes[..self.len]
    }

    /// Writes the buffered bytes and empties the buffer.
    pub fn send<W: Sink>(&mut self, sink: &mut W) -> Result<(), WriteFailed>
        ensures sends { Sends W.transcript W.failures sink.old sink.new result self.old }
        ensures cleared { IfOk result (λ _. self.new ≡ []) }
    {
        device::write_all(sink, self.bytes())?;
        self.clear();
        Ok(())
    }

    /// Writes the buffered bytes if fewer than `count` more fit.
    pub fn make_room<W: Sink>(&mut self, count: usize, sink: &mut W) -> Result<(), WriteFailed>
        requires { count ≤ 512 }
        ensures gathers { Gathers W.transcript W.failures sink.old sink.new self.old self.new result [] }
        ensures room { IfOk result (λ _. length self.new + count ≤ 512) }
    {
        if self.room() < count {
            self.send(sink)
        } else {
            Ok(())
        }
    }

    /// Appends bytes. If they do not fit, writes the buffer and then the bytes.
    fn put<W: Sink>(&mut self, bytes: &[u8], sink: &mut W) -> Result<(), WriteFailed>
        ensures { Gathers W.transcript W.failures sink.old sink.new self.old self.new result bytes.now }
    {
        if self.push(bytes) {
            return Ok(());
        }
        self.send(sink)?;
        device::write_all(sink, bytes)
    }

    fn put_byte<W: Sink>(&mut self, byte: u8, sink: &mut W) -> Result<(), WriteFailed>
        ensures { Gathers W.transcript W.failures sink.old sink.new self.old self.new result (byte ∷ []) }
    {
        self.make_room(1, sink)?;
        self.push_byte(byte);
        Ok(())
    }

    fn put_number<W: Sink>(&mut self, number: u64, sink: &mut W) -> Result<(), WriteFailed>
        ensures { Gathers W.transcript W.failures sink.old sink.new self.old self.new result (decimal number) }
    {
        if number < 100 {
            self.make_room(5, sink)?;
            self.push_number(number as u16);
            return Ok(());
        }
        let mut digits = Buffer::new();
        self.put(digits.format(number).as_bytes(), sink)
    }

    fn put_hundredths<W: Sink>(&mut self, number: u64, sink: &mut W) -> Result<(), WriteFailed>
        ensures { Gathers W.transcript W.failures sink.old sink.new self.old self.new result (two_decimals number) }
    {
        let tenth = b'0' + (number / 10 % 10) as u8;
        let hundredth = b'0' + (number % 10) as u8;
        self.put_number(number / 100, sink)?;
        self.put(&[b'.', tenth, hundredth], sink)
    }

    /// Appends letters, one after another.
    fn put_each<W: Sink>(&mut self, letters: &[Letter], sink: &mut W) -> Result<(), WriteFailed>
        ensures { Gathers W.transcript W.failures sink.old sink.new self.old self.new result letters.now }
    {
        for letter in letters {
            self.put_byte(letter.byte(), sink)?;
        }
        Ok(())
    }

    fn put_letters<W: Sink>(&mut self, letters: &[Letter], sink: &mut W) -> Result<(), WriteFailed>
        ensures { Gathers W.transcript W.failures sink.old sink.new self.old self.new result letters.now }
    {
        if letters.len() > self.room() {
            return self.put_each(letters, sink);
        }
        self.push_letters(letters);
        Ok(())
    }

    fn put_entry<W: Sink>(
        &mut self,
        entries: &Entries<'_>,
        k: usize,
        sink: &mut W,
    ) -> Result<(), WriteFailed>
        requires { k < length entries.now }
        ensures { Gathers W.transcript W.failures sink.old sink.new self.old self.new result (slice_index_or entries.now k 0 ∷ []) }
    {
        match entries.letter(k) {
            Some(letter) => self.put_byte(letter.byte(), sink),
            None => Ok(()),
        }
    }

    fn put_entries<W: Sink>(
        &mut self,
        entries: &Entries<'_>,
        sink: &mut W,
    ) -> Result<(), WriteFailed>
        ensures { Gathers W.transcript W.failures sink.old sink.new self.old self.new result entries.now }
    {
        for k in 0..entries.len() {
            self.put_entry(entries, k, sink)?;
        }
        Ok(())
    }

    fn put_set<W: Sink>(&mut self, set: LetterSet, sink: &mut W) -> Result<(), WriteFailed>
        ensures { Gathers W.transcript W.failures sink.old sink.new self.old self.new result (letters_or_dash (letters_in set)) }
    {
        if set.len() == 0 {
            return self.put_byte(b'-', sink);
        }
        for letter in set.iter() {
            self.put_byte(letter.byte(), sink)?;
        }
        Ok(())
    }

    /// Appends the byte of a text at an index, escaped if needed.
    fn put_at<W: Sink>(
        &mut self,
        text: &[u8],
        index: usize,
        sink: &mut W,
    ) -> Result<(), WriteFailed>
        requires { index < length text.now }
        ensures { Gathers W.transcript W.failures sink.old sink.new self.old self.new result (spelled_at text.now index) }
    {
        let byte = text[index];
        match letter_for(is_end(text, index), byte) {
            Some(letter) => self.put(&[b'\\', letter], sink),
            None => self.put_byte(byte, sink),
        }
    }

    fn put_text<W: Sink>(&mut self, text: &[u8], sink: &mut W) -> Result<(), WriteFailed>
        ensures { Gathers W.transcript W.failures sink.old sink.new self.old self.new result (escaped_text text.now) }
    {
        for index in 0..text.len() {
            self.put_at(text, index, sink)?;
        }
        Ok(())
    }

    fn put_token<W: Sink>(&mut self, token: &Token<'_>, sink: &mut W) -> Result<(), WriteFailed>
        ensures { Gathers W.transcript W.failures sink.old sink.new self.old self.new result (token_bytes token.now) }
    {
        match token {
            Token::Name(name) => self.put(name.as_bytes(), sink),
            Token::Bytes(bytes) => self.put(bytes, sink),
            Token::Number(number) => self.put_number(*number, sink),
            Token::Hundredths(number) => self.put_hundredths(*number, sink),
            Token::Letters(letters) => self.put_letters(letters, sink),
            Token::Entries(entries) => self.put_entries(entries, sink),
            Token::Set(set) => self.put_set(*set, sink),
            Token::Text(text) => self.put_text(text, sink),
        }
    }

    /// Appends a line of these words.
    pub fn put_line<W: Sink>(
        &mut self,
        words: &[Token<'_>],
        sink: &mut W,
    ) -> Result<(), WriteFailed>
        ensures { Gathers W.transcript W.failures sink.old sink.new self.old self.new result (line_of (map token_bytes words.now)) }
    {
        match words {
            [] => self.put_byte(b'\n', sink),
            [word] => {
                self.put_token(word, sink)?;
                self.put_byte(b'\n', sink)
            }
            [word, others @ ..] => {
                self.put_token(word, sink)?;
                self.put_byte(b' ', sink)?;
                self.put_line(others, sink)
            }
        }
    }

    /// Appends a line of these letters.
    pub fn put_word<W: Sink>(&mut self, letters: &[Letter], sink: &mut W) -> Result<(), WriteFailed>
        ensures { Gathers W.transcript W.failures sink.old sink.new self.old self.new result (word_line letters.now) }
    {
        if letters.len() >= self.room() {
            return self.put_line(&[Token::Letters(letters)], sink);
        }
        self.push_letters(letters);
        self.push_byte(b'\n');
        Ok(())
    }
}

/// Writes a line of these words.
pub fn write_line<W: Sink>(sink: &mut W, words: &[Token<'_>]) -> Result<(), WriteFailed>
    ensures { Sends W.transcript W.failures sink.old sink.new result (line_of (map token_bytes words.now)) }
{
    let mut line = AnswerLine::new();
    line.put_line(words, sink)?;
    line.send(sink)
}
