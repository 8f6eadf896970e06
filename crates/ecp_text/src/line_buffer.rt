ghost use Rattle.std.specs.Prelude.{◌≡◌, ℕ, List, ◌+◌, ◌*◌, ◌≤◌, [], ◌∷◌, ◌++◌, decimal, length, map, take};
ghost use Rattle.ecp_text.specs.Words.{spaced};
ghost use Rattle.ecp_text.specs.declared.bytes.TheConstants.{LINE_ROOM};

use crate::bytes::{DIGITS_ROOM, LINE_FEED, LINE_ROOM, NUMBER_ROOM, SPACE};
use itoa::Buffer;
use std::marker::Model;

/// A line that is being written, at most [`LINE_ROOM`] bytes of it. Contracts see the bytes that it holds.
///
/// No call takes memory.
#[derive(Debug, Drop)]
pub struct LineBuffer {
    bytes: [u8; LINE_ROOM],
    len: usize,
}

impl Model for LineBuffer {
    ghost Value = { List ℕ };

    ghost view = { λ line. take line.len line.bytes };

    ghost invariant = { λ line. line.len ≤ LINE_ROOM };
}

impl LineBuffer {
    /// A buffer that holds nothing.
    pub fn new() -> Self
        ensures { result ≡ [] }
    {
        LineBuffer {
            bytes: [0; LINE_ROOM],
            len: 0,
        }
    }

    /// Lets its bytes go, so that the next line begins.
    pub fn clear(&mut self)
        ensures { self.new ≡ [] }
    {
        self.len = 0;
    }

    /// The bytes that it holds.
    pub fn bytes(&self) -> &[u8]
        ensures bytes { result.now ≡ self.now }
        ensures within { length result.now ≤ LINE_ROOM }
    {
        &self.bytes[..self.len]
    }

    /// Copies the bytes that it holds into the front of `out`, and answers how many they are. What stood behind them in
    /// `out` stays.
    pub fn copy_to(&self, out: &mut [u8; LINE_ROOM]) -> usize
        ensures len { result ≡ length self.now }
        ensures bytes { take result out.new ≡ self.now }
    {
        out[..self.len].copy_from_slice(&self.bytes[..self.len]);
        self.len
    }

    /// Puts bytes behind those that it holds.
    pub fn put(&mut self, bytes: &[u8])
        requires { length self.old + length bytes.now ≤ LINE_ROOM }
        ensures bytes { self.new ≡ self.old ++ bytes.now }
        ensures len { length self.new ≡ length self.old + length bytes.now }
    {
        let end = self.len + bytes.len();
        self.bytes[self.len..end].copy_from_slice(bytes);
        self.len = end;
    }

    /// Puts a word, behind a space.
    pub fn put_word(&mut self, word: &[u8])
        requires { length self.old + (length word.now + 1) ≤ LINE_ROOM }
        ensures text { self.new ≡ self.old ++ SPACE ∷ word.now }
        ensures len { length self.new ≡ length self.old + (length word.now + 1) }
    {
        self.put(&[SPACE]);
        self.put(word);
    }

    /// Puts the digits of a number, with no space before them.
    pub fn put_digits(&mut self, number: u32)
        requires { length self.old + DIGITS_ROOM ≤ LINE_ROOM }
        ensures text { self.new ≡ self.old ++ decimal number }
        ensures within { length self.new ≤ length self.old + DIGITS_ROOM }
    {
        let mut digits = Buffer::new();
        self.put(digits.format(number).as_bytes());
    }

    /// Puts a number, behind a space.
    pub fn put_number(&mut self, number: u32)
        requires { length self.old + NUMBER_ROOM ≤ LINE_ROOM }
        ensures text { self.new ≡ self.old ++ SPACE ∷ decimal number }
        ensures within { length self.new ≤ length self.old + NUMBER_ROOM }
    {
        let mut digits = Buffer::new();
        self.put_word(digits.format(number).as_bytes());
    }

    /// Puts numbers, each behind a space.
    pub fn put_numbers(&mut self, numbers: &[u32])
        requires { length self.old + NUMBER_ROOM * length numbers.now ≤ LINE_ROOM }
        ensures text { self.new ≡ self.old ++ spaced (map decimal numbers.now) }
        ensures within { length self.new ≤ length self.old + NUMBER_ROOM * length numbers.now }
    {
        for number in numbers {
            self.put_number(*number);
        }
    }

    /// Ends the line.
    pub fn end_line(&mut self)
        requires { length self.old + 1 ≤ LINE_ROOM }
        ensures text { self.new ≡ self.old ++ LINE_FEED ∷ [] }
        ensures len { length self.new ≡ length self.old + 1 }
    {
        self.put(&[LINE_FEED]);
    }
}
