//! Labels.

ghost use Rattle.std.specs.Prelude.{◌≡◌, option_map};
ghost use Rattle.tz_asm.specs.Labels.{behind_colon, label_at};
ghost use Rattle.tz_asm.specs.Views.{views};

use crate::code::has_dot;
use tz_syntax::Token;

/// The tokens behind a `:` that stands first.
#[tactic(auto, unfolding(crate::specs::Labels::behind_colon))]
fn behind_colon<'t, 's>(tokens: &'t [Token<'s>]) -> Option<&'t [Token<'s>]>
    ensures { behind_colon (views tokens.now) ≡ option_map (λ rest. views rest.now) result }
{
    match tokens {
        [Token::Mark(mark), rest @ ..] => if *mark == b':' { Some(rest) } else { None },
        _ => None,
    }
}

/// The label that tokens begin with, and the tokens behind its `:`.
#[tactic(auto, unfolding(crate::specs::Labels::label_at))]
pub fn label_at<'t, 's>(tokens: &'t [Token<'s>]) -> Option<(&'s [u8], &'t [Token<'s>])>
    ensures { label_at (views tokens.now) ≡ option_map (λ p. (p.0.now, views p.1.now)) result }
{
    match tokens {
        [Token::Word(name), more @ ..] => {
            if has_dot(name) {
                return None;
            }
            match behind_colon(more) {
                Some(rest) => Some((*name, rest)),
                None => None,
            }
        }
        _ => None,
    }
}
