//! What is wrong with a text.

/// What is wrong with a text, and in which line, counted from 1.
/// A fault at the end of the text has the number of its lines plus 1.
#[derive(Clone, Copy, Debug, PartialEq, Eq)]
pub struct TextFault {
    pub line: usize,
    pub kind: TextKind,
}

/// What is wrong at a place of a text.
#[derive(Clone, Copy, Debug, PartialEq, Eq)]
pub enum TextKind {
    /// The text ends where a line is wanted, or a line ends where a field is wanted.
    Ended,
    /// A field is not the number that is wanted.
    NotANumber,
    /// A field stands past the last field of its line, or a line past the last line.
    Extra,
    /// A count or a flag has a value that its line does not allow.
    BadCount,
    /// The number of a point is not the one wanted, or a corner is out of range.
    BadIndex,
}
