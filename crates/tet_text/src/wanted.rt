//! Fields and lines that are wanted, and the first fault where they are not there. Each call passes
//! over the field or line that it asks for, where there is one, also if it refuses it.

ghost use Rattle.std.specs.Prelude.{◌≡◌, ◌<◌, ◌+◌, ◌^◌, drop, IfOk};
ghost use Rattle.tet_text.specs.Reading.{left_after, field_at, count_at, whole_at, decimal_at};
ghost use Rattle.tet_text.specs.Reading.{end_at, line_at, text_end_at};

use crate::decimal::short_decimal;
use crate::{
    Decimal, Field, Fields, Lines, TextFault, TextKind, read_count, read_decimal, read_whole,
};

impl<'a> Fields<'a> {
    /// The next field; Ended where the line has no further one.
    pub fn want_field(&mut self) -> Result<Field<'a>, TextFault>
        ensures value { left_after (λ field. field.text.now) result self.new.fields
            ≡ field_at self.old.line self.old.fields }
        ensures passed { self.new.fields ≡ drop 1 self.old.fields }
        ensures field_line { IfOk result (λ field. field.line ≡ self.old.line) }
        ensures line { self.new.line ≡ self.old.line }
    {
        let line = self.line();
        self.next().ok_or(TextFault {
            line,
            kind: TextKind::Ended,
        })
    }

    /// The next field as a count; Ended or NotANumber where it is none.
    pub fn want_count(&mut self) -> Result<u64, TextFault>
        ensures value { left_after (λ x. x) result self.new.fields
            ≡ count_at self.old.line self.old.fields }
        ensures passed { self.new.fields ≡ drop 1 self.old.fields }
        ensures small { IfOk result (λ n. n < 10 ^ 18) }
        ensures line { self.new.line ≡ self.old.line }
    {
        read_count(&self.want_field()?)
    }

    /// The next field as a whole number; Ended or NotANumber where it is none.
    pub fn want_whole(&mut self) -> Result<i64, TextFault>
        ensures value { left_after (λ x. x) result self.new.fields
            ≡ whole_at self.old.line self.old.fields }
        ensures passed { self.new.fields ≡ drop 1 self.old.fields }
        ensures line { self.new.line ≡ self.old.line }
    {
        read_whole(&self.want_field()?)
    }

    /// The next field as a decimal; Ended or NotANumber where it is none.
    pub fn want_decimal(&mut self) -> Result<Decimal, TextFault>
        ensures value { left_after (λ x. x) result self.new.fields
            ≡ decimal_at self.old.line self.old.fields }
        ensures passed { self.new.fields ≡ drop 1 self.old.fields }
        ensures line { self.new.line ≡ self.old.line }
    {
        if let Some((negative, number, decimals)) = self.next_short() {
            return Ok(short_decimal(negative, number, decimals));
        }
        read_decimal(&self.want_field()?)
    }

    /// The end of the line; Extra where it has a further field.
    pub fn want_end(&mut self) -> Result<(), TextFault>
        ensures value { result ≡ end_at self.old.line self.old.fields }
        ensures passed { self.new.fields ≡ drop 1 self.old.fields }
        ensures line { self.new.line ≡ self.old.line }
    {
        let line = self.line();
        match self.next() {
            None => Ok(()),
            Some(_) => Err(TextFault {
                line,
                kind: TextKind::Extra,
            }),
        }
    }
}

impl<'a> Lines<'a> {
    ghost use Rattle.tet_text.specs.Views.{content_left, line_total};

    /// The next content line; Ended, in the line behind the last, where there is none.
    pub fn want_line(&mut self) -> Result<Fields<'a>, TextFault>
        requires { line_total self.old + 1 < 2 ^ 64 }
        ensures value { left_after (λ x. x) result (content_left self.new)
            ≡ line_at (line_total self.old) (content_left self.old) }
        ensures passed { content_left self.new ≡ drop 1 (content_left self.old) }
        ensures count { line_total self.new ≡ line_total self.old }
    {
        match self.next_fields() {
            Some(fields) => Ok(fields),
            None => Err(TextFault {
                line: self.line_count() + 1,
                kind: TextKind::Ended,
            }),
        }
    }

    /// The end of the text; Extra, in the next content line, where there is one.
    pub fn want_end(&mut self) -> Result<(), TextFault>
        ensures value { result ≡ text_end_at (content_left self.old) }
        ensures passed { content_left self.new ≡ drop 1 (content_left self.old) }
        ensures count { line_total self.new ≡ line_total self.old }
    {
        match self.next_fields() {
            None => Ok(()),
            Some(fields) => Err(TextFault {
                line: fields.line(),
                kind: TextKind::Extra,
            }),
        }
    }
}
