//! Files of cases, which become one text with a line for each case: `FILE:LINE: CASE`.

use std::alloc::{AllocError, Global};
use std::fmt::Write;

/// Adds the cases of a file to a text, each behind the place where it begins. Fails for want
/// of memory alone.
pub fn add_file(text: &mut String, name: &str, file: &str) -> Result<(), AllocError> {
    let mut number = 0u32;
    for line in file.lines() {
        number = number.saturating_add(1);
        let words = line.trim();
        if !words.is_empty() && !words.starts_with('#') {
            if line.starts_with(' ') {
                text.push_str(" ")?;
            } else if write!(text, "\n{name}:{number}: ").is_err() {
                return Err(AllocError);
            }
            text.push_str(words)?;
        }
    }
    Ok(())
}

/// The place of the case that a line is, and the case.
pub fn case_of(line: &str) -> (&str, &str) {
    line.split_once(": ").unwrap_or(("", line))
}

/// Appends what `A, B, ..: TEXT` stands for.
fn push_repeated(text: &mut String, rule: &str) -> Result<(), AllocError> {
    let (words, repeated) = rule.split_once(':').unwrap_or(("", rule));
    for word in words.split(',') {
        for (index, piece) in repeated.split('@').enumerate() {
            if index != 0 {
                text.push_str(word.trim())?;
            }
            text.push_str(piece)?;
        }
    }
    Ok(())
}

/// A text with what it repeats.
pub fn repeated(alloc: Global, text: &str) -> Result<String, AllocError> {
    let mut whole = String::new(alloc);
    for (index, part) in text.split('(').enumerate() {
        match part.split_once(')') {
            Some((rule, rest)) if index != 0 => {
                push_repeated(&mut whole, rule)?;
                whole.push_str(rest)?;
            }
            _ => whole.push_str(part)?,
        }
    }
    Ok(whole)
}
