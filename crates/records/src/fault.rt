//! What may be wrong with a text.

/// A field of a text: the number of its line, and its number in the line, both from 1.
#[derive(Clone, Copy, PartialEq, Eq, Debug)]
pub struct Place {
    pub line: u32,
    pub field: u32,
}

/// What is wrong with a text.
#[derive(Clone, Copy, PartialEq, Eq, Debug)]
pub enum TextFault {
    /// The text has more than 65,536 bytes.
    TooLong,
    /// The line has no line feed after at most 80 bytes.
    Unended { line: u32 },
    /// The first field of the line is no word that may stand there.
    Misplaced { line: u32 },
    /// The line has another number of fields than its word wants.
    Miscounted { line: u32 },
    /// The field is no number.
    NotANumber(Place),
}
