//! Directives.

ghost use Rattle.std.specs.Prelude.{◌≡◌, option_map};
ghost use Rattle.std.specs.Str.{bytes_eq};
ghost use Rattle.tz_asm.specs.Operands.{alignment, expression_of, labelled_value, unsigned};
ghost use Rattle.tz_asm.specs.Statements.{directed, directive_of, equated, with_text};
ghost use Rattle.tz_asm.specs.Views.{expression_view, statement_view, views};

use crate::code::is_label;
use crate::source::number::{Signed, number_of, offset_of};
use crate::source::statement::{Expression, Statement};
use tz_syntax::Token;
use tz_table::Size;

#[derive(Clone, Copy)]
pub enum Directive {
    /// `.org`.
    Org,
    /// `.align`.
    Align,
    /// `.byte`, `.half` or `.word`.
    Data(Size),
    /// `.equ`.
    Equ,
    /// `.space`.
    Space,
    /// `.ascii`, or `.asciz`, which puts a zero byte behind the text.
    Text(bool),
}

/// Whether a word is a name.
fn is_name(word: &[u8], name: &[u8]) -> bool
    ensures { result ≡ bytes_eq word.now name.now }
{
    word == name
}

/// The directive that a word is.
#[tactic(auto, unfolding(crate::specs::Statements::directive_of))]
pub fn directive_of(word: &[u8]) -> Option<Directive>
    ensures { directive_of word.now ≡ result }
{
    if is_name(word, b".org") {
        Some(Directive::Org)
    } else if is_name(word, b".align") {
        Some(Directive::Align)
    } else if is_name(word, b".byte") {
        Some(Directive::Data(Size::Byte))
    } else if is_name(word, b".half") {
        Some(Directive::Data(Size::Half))
    } else if is_name(word, b".word") {
        Some(Directive::Data(Size::Word))
    } else if is_name(word, b".equ") {
        Some(Directive::Equ)
    } else if is_name(word, b".space") {
        Some(Directive::Space)
    } else if is_name(word, b".ascii") {
        Some(Directive::Text(false))
    } else if is_name(word, b".asciz") {
        Some(Directive::Text(true))
    } else {
        None
    }
}

/// The number of an alignment: a power of two.
fn alignment(number: Option<Signed>) -> Option<u32>
    ensures { alignment number ≡ result }
{
    match number {
        Some(number) => {
            if !number.negative && number.size.is_power_of_two() {
                Some(number.size)
            } else {
                None
            }
        }
        None => None,
    }
}

/// The value of a label and what tokens add to it.
#[tactic(auto, unfolding(crate::specs::Operands::labelled_value))]
fn labelled_value<'s>(name: &'s [u8], tokens: &[Token<'s>]) -> Option<Expression<'s>>
    ensures { labelled_value name.now (views tokens.now) ≡ option_map expression_view result }
{
    if !is_label(name) {
        return None;
    }
    match offset_of(tokens) {
        Some(offset) => Some(Expression::Label(name, offset)),
        None => None,
    }
}

/// The value that tokens write: a number, or a label with what is added to it.
#[tactic(auto, unfolding(crate::specs::Operands::expression_of))]
fn expression_of<'s>(tokens: &[Token<'s>]) -> Option<Expression<'s>>
    ensures { expression_of (views tokens.now) ≡ option_map expression_view result }
{
    if let [Token::Word(name), rest @ ..] = tokens {
        return labelled_value(name, rest);
    }
    match number_of(tokens) {
        Some(number) => Some(Expression::Number(number)),
        None => None,
    }
}

/// A number without a sign.
fn unsigned(number: Option<Signed>) -> Option<u32>
    ensures { unsigned number ≡ result }
{
    match number {
        Some(number) => if number.negative {
            None
        } else {
            Some(number.size)
        },
        None => None,
    }
}

/// The label and the value of an `.equ`.
#[tactic(auto, unfolding(crate::specs::Statements::equated))]
fn equated<'t, 's>(operands: &[Token<'s>]) -> Option<Statement<'t, 's>>
    ensures { equated (views operands.now) ≡ option_map statement_view result }
{
    match operands {
        [Token::Word(name), Token::Mark(mark), value @ ..] => {
            if is_label(name) && *mark == b',' {
                match expression_of(value) {
                    Some(value) => Some(Statement::Equ(*name, value)),
                    None => None,
                }
            } else {
                None
            }
        }
        _ => None,
    }
}

/// What a directive says with these operands, or nothing where they aren't its operands.
#[tactic(auto, unfolding(crate::specs::Statements::directed))]
pub fn directed<'t, 's>(directive: Directive, operands: &[Token<'s>]) -> Option<Statement<'t, 's>>
    ensures { directed directive (views operands.now) ≡ option_map statement_view result }
{
    match directive {
        Directive::Org => match number_of(operands) {
            Some(place) => Some(Statement::Org(place)),
            None => None,
        },
        Directive::Align => match alignment(number_of(operands)) {
            Some(multiple) => Some(Statement::Align(multiple)),
            None => None,
        },
        Directive::Data(size) => match expression_of(operands) {
            Some(value) => Some(Statement::Data(size, value)),
            None => None,
        },
        Directive::Equ => equated(operands),
        Directive::Space => match unsigned(number_of(operands)) {
            Some(count) => Some(Statement::Space(count)),
            None => None,
        },
        Directive::Text(_) => None,
    }
}

/// What a directive says with these operands and a text behind them, or nothing where it doesn't take them.
pub fn with_text<'t, 's>(
    directive: Directive,
    operands: &[Token<'s>],
    text: Option<&'t [u8]>,
) -> Option<Statement<'t, 's>>
    ensures { with_text directive (views operands.now) (option_map (λ bytes. bytes.now) text.entry)
        ≡ option_map statement_view result }
{
    match (directive, operands) {
        (Directive::Text(ends), []) => match text {
            Some(bytes) => Some(Statement::Text(bytes, ends)),
            None => None,
        },
        _ => None,
    }
}
