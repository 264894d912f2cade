//! A case: what it asks, the step of it that is done, and the answer to it.

use std::alloc::{AllocError, Global};
use std::fmt::Write;

/// A case. Where a field, a word or a number isn't there, something stands for it, and the case is unread. It is, too,
/// where a field or a word of a step stands behind all that are asked for.
#[derive(Drop)]
pub struct Case<'a> {
    /// Where memory comes from.
    pub alloc: Global,
    /// The text that the case stands in.
    pub cases: &'a str,
    fields: &'a str,
    /// How many fields, from the first on, there are to the last that was asked for.
    fields_asked: usize,
    step: &'a str,
    /// The same of the words of the step.
    words_asked: usize,
    answer: String,
    is_unread: bool,
    is_short: bool,
}

/// The number that digits say, or `0x` and hexadecimal digits. None where it is none below 2^32.
fn plain_number_of(text: &str) -> Option<u32> {
    match text.strip_prefix("0x") {
        Some(digits) => u32::from_str_radix(digits, 16).ok(),
        None => text.parse::<u32>().ok(),
    }
}

/// The number that a text says, or the sum of two with `+` between them. None where it is none below 2^32.
pub fn number_of(text: &str) -> Option<u32> {
    match text.split_once('+') {
        Some((first, second)) => {
            let first = plain_number_of(first)?;
            first.checked_add(plain_number_of(second)?)
        }
        None => plain_number_of(text),
    }
}

/// The field at a place, counted from 0, without blanks around it.
pub fn field_of(fields: &str, index: usize) -> Option<&str> {
    let field = fields.split('|').nth(index)?;
    Some(field.trim())
}

/// What the case asks.
impl<'a> Case<'a> {
    /// A case of a text, without fields and without an answer.
    pub fn new(alloc: Global, cases: &'a str) -> Self {
        Case {
            alloc,
            cases,
            fields: "",
            fields_asked: 0,
            step: "",
            words_asked: 0,
            answer: String::new(alloc),
            is_unread: false,
            is_short: false,
        }
    }

    /// Makes it another case: these fields, and no answer so far. That memory was refused stays.
    pub fn ask(&mut self, fields: &'a str) {
        self.fields = fields;
        self.fields_asked = 0;
        self.step = "";
        self.words_asked = 0;
        self.is_unread = false;
        self.answer.clear();
    }

    /// Ends what is asked of the case: it is unread where something stands behind that.
    pub fn end(&mut self) {
        self.begin("");
        if field_of(self.fields, self.fields_asked).is_some() {
            self.is_unread = true;
        }
    }

    /// Says that the case can't be read.
    pub fn refuse(&mut self) {
        self.is_unread = true;
    }

    /// Keeps whether memory was refused. What there is otherwise.
    pub fn kept<T>(&mut self, made: Result<T, AllocError>) -> Option<T> {
        match made {
            Ok(made) => Some(made),
            Err(_) => {
                self.is_short = true;
                None
            }
        }
    }

    /// Ends what is asked of its fields, and gives it those of the case that a line is.
    pub fn turn_to(&mut self, line: &'a str) {
        self.end();
        let (fields, _) = line.split_once("=>").unwrap_or((line, ""));
        self.fields = fields;
        self.fields_asked = 0;
    }

    /// The field at a place, where there is one.
    fn asked_field(&mut self, index: usize) -> Option<&'a str> {
        self.fields_asked = self.fields_asked.max(index.saturating_add(1));
        field_of(self.fields, index)
    }

    /// The field at a place. Empty where there is none.
    pub fn field_or_empty(&mut self, index: usize) -> &'a str {
        self.asked_field(index).unwrap_or("")
    }

    /// The field at a place, which has to be there.
    pub fn field(&mut self, index: usize) -> &'a str {
        match self.asked_field(index) {
            Some(field) => field,
            None => {
                self.is_unread = true;
                ""
            }
        }
    }

    /// The number that a text has to be.
    pub fn number_in(&mut self, text: &str) -> u32 {
        match number_of(text) {
            Some(number) => number,
            None => {
                self.is_unread = true;
                0
            }
        }
    }

    /// A number that has to have at most 16 bits.
    pub fn half_in(&mut self, number: u32) -> u16 {
        match u16::try_from(number) {
            Ok(half) => half,
            Err(_) => {
                self.is_unread = true;
                0
            }
        }
    }

    /// A number that has to have at most 8 bits.
    pub fn byte_in(&mut self, number: u32) -> u8 {
        match u8::try_from(number) {
            Ok(byte) => byte,
            Err(_) => {
                self.is_unread = true;
                0
            }
        }
    }
}

/// The words of the step that is done.
impl<'a> Case<'a> {
    /// Begins a step. The case is unread where the step before has a word behind all that were asked for.
    pub fn begin(&mut self, step: &'a str) {
        if self.step.split_whitespace().nth(self.words_asked).is_some() {
            self.is_unread = true;
        }
        self.step = step;
        self.words_asked = 0;
    }

    /// What stands behind so many words of the step.
    pub fn behind(&mut self, words: usize) -> &'a str {
        self.words_asked = usize::MAX;
        let mut rest = self.step.trim();
        for _ in 0..words {
            let (_, behind) = rest.split_once(' ').unwrap_or((rest, ""));
            rest = behind.trim();
        }
        rest
    }

    /// The word at a place, which has to be there.
    pub fn word(&mut self, index: usize) -> &'a str {
        self.words_asked = self.words_asked.max(index.saturating_add(1));
        match self.step.split_whitespace().nth(index) {
            Some(word) => word,
            None => {
                self.is_unread = true;
                ""
            }
        }
    }

    /// The number at a place.
    pub fn number(&mut self, index: usize) -> u32 {
        let word = self.word(index);
        self.number_in(word)
    }

    /// The number of at most 16 bits at a place.
    pub fn half(&mut self, index: usize) -> u16 {
        let number = self.number(index);
        self.half_in(number)
    }

    /// The number of at most 8 bits at a place.
    pub fn byte(&mut self, index: usize) -> u8 {
        let number = self.number(index);
        self.byte_in(number)
    }

    /// The answer at a place, 0 for no and 1 for yes.
    pub fn flag(&mut self, index: usize) -> bool {
        let number = self.number(index);
        if number > 1 {
            self.is_unread = true;
        }
        number == 1
    }
}

/// The answer to the case.
impl Case<'_> {
    /// The answer without blanks around it. None where the case can't be read.
    pub fn answer(&self) -> Option<&str> {
        if self.is_unread {
            None
        } else {
            Some(self.answer.as_str().trim())
        }
    }

    /// Keeps whether memory was refused to another case.
    pub fn share(&mut self, other: &Case<'_>) {
        if other.is_short {
            self.is_short = true;
        }
    }

    /// All that was told. An error where memory was refused.
    pub fn text(self) -> Result<String, AllocError> {
        if self.is_short {
            Err(AllocError)
        } else {
            Ok(self.answer)
        }
    }

    /// Tells a text.
    pub fn tell(&mut self, text: &str) {
        if self.answer.push_str(text).is_err() {
            self.is_short = true;
        }
    }

    /// Tells a blank and a text.
    pub fn tell_word(&mut self, text: &str) {
        self.tell(" ");
        self.tell(text);
    }

    /// Tells a number in hexadecimal digits.
    pub fn tell_hex(&mut self, number: u32) {
        if write!(self.answer, "{number:x}").is_err() {
            self.is_short = true;
        }
    }

    /// Tells a number in decimal digits.
    pub fn tell_decimal(&mut self, number: i64) {
        if write!(self.answer, "{number}").is_err() {
            self.is_short = true;
        }
    }

    /// Tells a blank, a name, a blank and a number in hexadecimal digits.
    pub fn tell_value(&mut self, name: &str, value: u32) {
        self.tell_word(name);
        self.tell(" ");
        self.tell_hex(value);
    }

    /// Tells what stands between two parts of an answer, where a first part is told.
    pub fn divide(&mut self, divider: &str) {
        if !self.answer.is_empty() {
            self.tell(divider);
        }
    }

    /// Drops what is told so far.
    pub fn forget(&mut self) {
        self.answer.clear();
    }
}
