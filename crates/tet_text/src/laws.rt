//! Printing and reading.

ghost use Rattle.tet_text.specs.Laws.{FieldLaw, PrintedLaw};

/// A decimal of at most 35 decimals is read back from the text that it is printed as.
pub fn law_printed()
    ensures { PrintedLaw }
{}

/// No field of a text has a line feed, a space, a tab or a carriage return in it.
pub fn law_fields()
    ensures { FieldLaw }
{}
