//! A text that is written piece by piece. Want of memory is remembered, and asked for once, at the end.

use std::alloc::{AllocError, Global};

#[derive(Drop)]
pub(crate) struct Paper {
    text: Vec<u8>,
    /// Whether a piece was lost, ever.
    pub(crate) is_torn: bool,
}

impl Paper {
    pub(crate) fn new(heap: Global) -> Paper {
        Paper {
            text: Vec::new(heap),
            is_torn: false,
        }
    }

    pub(crate) fn bytes(&self) -> &[u8] {
        self.text.as_slice()
    }

    /// The text, if no piece was lost.
    pub(crate) fn whole(&self) -> Result<&[u8], AllocError> {
        if self.is_torn {
            return Err(AllocError);
        }
        Ok(self.text.as_slice())
    }

    /// Forgets the text, but not that a piece was lost.
    pub(crate) fn clear(&mut self) {
        self.text.clear();
    }

    pub(crate) fn put(&mut self, piece: &[u8]) {
        if self.text.extend_from_slice(piece).is_err() {
            self.is_torn = true;
        }
    }

    pub(crate) fn words(&mut self, words: &[&str]) {
        for word in words {
            self.put(word.as_bytes());
        }
    }

    /// Numbers, each after a tab.
    pub(crate) fn numbers(&mut self, numbers: &[usize]) {
        for number in numbers {
            self.put(b"\t");
            self.number(*number);
        }
    }

    /// A number in decimal digits.
    pub(crate) fn number(&mut self, number: usize) {
        let mut digits = [b'0'; 20];
        let mut first = 20usize;
        let mut rest = number;
        for digit in digits.iter_mut().rev() {
            *digit = b'0'.wrapping_add((rest % 10) as u8);
            rest /= 10;
            first = first.wrapping_sub(1);
            if rest == 0 {
                break;
            }
        }
        self.put(digits.get(first..).unwrap_or(&digits));
    }
}
