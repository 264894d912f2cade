//! Numbers among the operands of directives.

ghost use Rattle.std.specs.Prelude.{◌≡◌};
ghost use Rattle.tz_asm.specs.Operands.{number_of, offset_of, only_number, with_sign};
ghost use Rattle.tz_asm.specs.Views.{views};

use tz_syntax::Token;

/// A number with its sign.
#[derive(Clone, Copy)]
pub struct Signed {
    /// Whether a `-` stands before the number.
    pub negative: bool,
    /// The number without its sign.
    pub size: u32,
}

/// The number, with a sign, where there is one.
fn with_sign(negative: bool, size: Option<u32>) -> Option<Signed>
    ensures { with_sign negative size ≡ result }
{
    match size {
        Some(size) => Some(Signed { negative, size }),
        None => None,
    }
}

/// The number that tokens are, if they are one number.
#[tactic(auto, unfolding(crate::specs::Operands::only_number))]
fn only_number(tokens: &[Token<'_>]) -> Option<u32>
    ensures { only_number (views tokens.now) ≡ result }
{
    match tokens {
        [Token::Number(size)] => Some(*size),
        _ => None,
    }
}

/// The number that tokens are, if they are one number, or one behind a `-`.
#[tactic(auto, unfolding(crate::specs::Operands::number_of))]
pub fn number_of(tokens: &[Token<'_>]) -> Option<Signed>
    ensures { number_of (views tokens.now) ≡ result }
{
    match tokens {
        [Token::Number(_), ..] => with_sign(false, only_number(tokens)),
        [Token::Mark(mark), rest @ ..] => {
            if *mark == b'-' {
                with_sign(true, only_number(rest))
            } else {
                None
            }
        }
        _ => None,
    }
}

/// What tokens behind a label add to it: nothing, or `+` or `-` and a number.
#[tactic(auto, unfolding(crate::specs::Operands::offset_of))]
pub fn offset_of(tokens: &[Token<'_>]) -> Option<Signed>
    ensures { offset_of (views tokens.now) ≡ result }
{
    match tokens {
        [] => with_sign(false, Some(0)),
        [Token::Mark(mark), rest @ ..] => {
            if *mark == b'+' {
                with_sign(false, only_number(rest))
            } else if *mark == b'-' {
                with_sign(true, only_number(rest))
            } else {
                None
            }
        }
        _ => None,
    }
}
