//! The content lines of a text, and their fields.

ghost use Rattle.std.specs.Prelude.{◌≡◌, ◌==◌, ◌<◌, ◌≤◌, ◌^◌, ◌+◌, [], ◌∷◌, length, drop, MatchOption, IfSome, Ok};

use crate::cuts::{cut_content, cut_field, cut_line, skip_blanks};
use crate::plain::plain_field;
use std::marker::Model;

/// The content lines of a text that are left, from the first to the last: those with a field.
/// Lines are counted from 1, those without a field too. A copy goes on by itself.
#[derive(Clone, Copy, Debug)]
pub struct Lines<'a> {
    rest: &'a [u8],
    passed: usize,
    ghost in_range: { passed + length rest.now < 2 ^ 64 },
}

/// The fields of a content line that are left.
#[derive(Debug, Drop)]
pub struct Fields<'a> {
    line: usize,
    rest: &'a [u8],
}

/// A field: its bytes, of which there is at least one, and the number of its line.
#[derive(Clone, Copy, Debug)]
pub struct Field<'a> {
    pub line: usize,
    text: &'a [u8],
}

impl<'a> Model for Fields<'a> {
    ghost use Rattle.std.specs.Prelude.{◌≡◌};
    ghost use Rattle.tet_text.specs.Lines.{ContentLine, fields_of, without_blanks};

    ghost Value = { ContentLine };

    ghost view = { λ f. record { line = f.line; fields = fields_of f.rest.now } };

    ghost invariant = { λ f. without_blanks f.rest.now ≡ f.rest.now };
}

impl<'a> Lines<'a> {
    ghost use Rattle.tet_text.specs.Views.{content_left, line_total};
    ghost use Rattle.tet_text.specs.Lines.{content_lines, line_count_of};

    /// All lines of the text.
    #[tactic(auto, unfolding(crate::specs::Views::content_left, crate::specs::Views::line_total))]
    pub fn new(bytes: &'a [u8]) -> Lines<'a>
        ensures content { content_left result ≡ content_lines bytes.now }
        ensures count { line_total result ≡ line_count_of bytes.now }
        ensures short { line_total result ≤ length bytes.now }
    {
        Lines {
            rest: bytes,
            passed: 0,
        }
    }

    /// The fields of the next content line, or None where the text has no further one.
    pub fn next_fields(&mut self) -> Option<Fields<'a>>
        ensures next { MatchOption result
            ((content_left self.old ≡ []) × (content_left self.new ≡ []))
            (λ fields. content_left self.old ≡ fields ∷ content_left self.new) }
        ensures count { line_total self.new ≡ line_total self.old }
    {
        while !self.rest.is_empty() {
            let (content, rest) = cut_content(self.rest);
            self.rest = rest;
            self.passed += 1;
            let fields = Fields::of(self.passed, content);
            if !fields.is_empty() {
                return Some(fields);
            }
        }
        None
    }

    /// The number of all lines of the text, also of those that have gone by.
    pub fn line_count(&self) -> usize
        ensures { result ≡ line_total self.now }
    {
        let mut count = self.passed;
        let mut rest = self.rest;
        while !rest.is_empty() {
            rest = cut_line(rest).1;
            count += 1;
        }
        count
    }
}

impl<'a> Fields<'a> {
    ghost use Rattle.tet_text.specs.Lines.{fields_of};
    ghost use Rattle.tet_text.specs.Decimals.{lowest, with_sign};
    ghost use Rattle.tet_text.specs.Reading.{decimal_at};

    fn of(number: usize, content: &'a [u8]) -> Fields<'a>
        ensures { result ≡ record { line = number; fields = fields_of content.now } }
    {
        Fields {
            line: number,
            rest: skip_blanks(content),
        }
    }

    /// Whether the line has no further field.
    pub fn is_empty(&self) -> bool
        ensures { result ≡ (length self.now.fields == 0) }
    {
        self.rest.is_empty()
    }

    /// The number of the line.
    pub fn line(&self) -> usize
        ensures { result ≡ self.now.line }
    {
        self.line
    }

    /// The next field, or None where the line has no further one.
    pub fn next(&mut self) -> Option<Field<'a>>
        ensures next { MatchOption result ((self.old.fields ≡ []) × (self.new.fields ≡ []))
            (λ field. self.old.fields ≡ field.text.now ∷ self.new.fields) }
        ensures field_line { IfSome result (λ field. field.line ≡ self.old.line) }
        ensures line { self.new.line ≡ self.old.line }
    {
        if self.rest.is_empty() {
            return None;
        }
        let (text, rest) = cut_field(self.rest);
        self.rest = skip_blanks(rest);
        Some(Field {
            line: self.line,
            text,
        })
    }

    /// The next field, where it is a short decimal with no exponent: its sign, its digits, and how
    /// many of them stand behind the point. Else None, and the fields stay.
    pub(crate) fn next_short(&mut self) -> Option<(bool, u64, u32)>
        ensures next { MatchOption result (self.new ≡ self.old)
            (λ d. decimal_at self.old.line self.old.fields
            ≡ Ok (with_sign d.0 (lowest d.1 d.2), self.new.fields)) }
        ensures passed { IfSome result (λ _. self.new.fields ≡ drop 1 self.old.fields) }
        ensures small { IfSome result (λ d. d.1 < 10 ^ 19) }
        ensures line { self.new.line ≡ self.old.line }
    {
        let (negative, number, decimals, rest) = plain_field(self.rest)?;
        self.rest = skip_blanks(rest);
        Some((negative, number, decimals))
    }
}

impl<'a> Field<'a> {
    /// Its bytes.
    pub fn bytes(&self) -> &'a [u8]
        ensures { result.now ≡ self.now.text.now }
    {
        self.text
    }
}
