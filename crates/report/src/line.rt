//! One line of a report.
ghost use Rattle.std.specs.Prelude.{◌≡◌, ◌+◌, ◌<◌, ◌≤◌, [], ◌∷◌, ◌++◌, length, decimal};

use itoa::write_digits;
use std::marker::Model;

/// The room for a line. The longest has four short words and three numbers of at most 20 digits.
const ROOM: usize = 96;

/// One line of a report, with its line feed.
#[derive(Drop)]
pub struct Line {
    bytes: [u8; ROOM],
    start: usize,
}

// A line is written from its end to its start, so that the digits of a number are written where they stay.
impl Model for Line {
    ghost use Rattle.std.specs.Prelude.{ℕ, ◌≤◌, List, drop};

    ghost Value = { List ℕ };

    ghost view = { λ l. drop l.start l.bytes };

    ghost invariant = { λ l. l.start ≤ 96 };
}

impl Line {
    /// The bytes of the line.
    pub fn bytes(&self) -> &[u8]
        ensures { result.now ≡ self.now }
    {
        &self.bytes[self.start..]
    }

    // Nothing yet.
    pub(crate) fn empty() -> Line
        ensures { result ≡ [] }
    {
        Line {
            bytes: [0; ROOM],
            start: ROOM,
        }
    }

    // Puts a byte before the line.
    fn prepend(&mut self, byte: u8)
        requires { length self.old < 96 }
        ensures text { self.new ≡ byte ∷ self.old }
    {
        self.start -= 1;
        self.bytes[self.start] = byte;
    }

    // Puts a text and the byte that ends it before the line.
    pub(crate) fn prepend_text(&mut self, text: &[u8], end: u8)
        requires { length text.now + length self.old < 96 }
        ensures text { self.new ≡ text.now ++ end ∷ self.old }
        ensures length { length self.new ≡ length text.now + length self.old + 1 }
    {
        self.prepend(end);
        let after = self.start;
        self.start -= text.len();
        self.bytes[self.start..after].copy_from_slice(text);
    }

    // Puts a number and the byte that ends it before the line.
    pub(crate) fn prepend_number(&mut self, number: u64, end: u8)
        requires { length self.old + 21 ≤ 96 }
        ensures text { self.new ≡ decimal number ++ end ∷ self.old }
        ensures length { length self.new ≤ length self.old + 21 }
    {
        self.prepend(end);
        self.start = write_digits(number, &mut self.bytes, self.start);
    }
}
