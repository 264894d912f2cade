//! What stands first among tokens, with the tokens behind it; none where something else does.

ghost use Rattle.std.specs.Prelude.{◌≡◌, option_map};
ghost use Rattle.tz_asm.specs.Front.{constant_at, mark_at, leading_number, signed_at, views, word_at};

use tz_syntax::Token;

pub fn mark_at<'t, 's>(tokens: &'t [Token<'s>], mark: u8) -> Option<&'t [Token<'s>]>
    ensures { option_map (λ rest. views rest.now) result ≡ mark_at mark (views tokens.now) }
{
    match tokens {
        [Token::Mark(byte), rest @ ..] => if *byte == mark { Some(rest) } else { None },
        _ => None,
    }
}

pub fn word_at<'t, 's>(tokens: &'t [Token<'s>]) -> Option<(&'s [u8], &'t [Token<'s>])>
    ensures { option_map (λ read. (read.0.now, views read.1.now)) result ≡ word_at (views tokens.now) }
{
    match tokens {
        [Token::Word(word), rest @ ..] => Some((*word, rest)),
        _ => None,
    }
}

/// A number without a sign.
pub fn leading_number<'t, 's>(tokens: &'t [Token<'s>]) -> Option<(u32, &'t [Token<'s>])>
    ensures { option_map (λ read. (read.0, views read.1.now)) result ≡ leading_number (views tokens.now) }
{
    match tokens {
        [Token::Number(number), rest @ ..] => Some((*number, rest)),
        _ => None,
    }
}

/// A number with its sign: whether a minus stands before it, and the number behind that.
#[tactic(auto, unfolding(crate::specs::Front::signed_at))]
pub fn signed_at<'t, 's>(tokens: &'t [Token<'s>]) -> Option<(bool, u32, &'t [Token<'s>])>
    ensures { option_map (λ read. (read.0, read.1, views read.2.now)) result ≡ signed_at (views tokens.now) }
{
    match mark_at(tokens, b'-') {
        None => match leading_number(tokens) {
            None => None,
            Some((number, rest)) => Some((false, number, rest)),
        },
        Some(behind) => match leading_number(behind) {
            None => None,
            Some((number, rest)) => Some((true, number, rest)),
        },
    }
}

/// The same behind `#`.
#[tactic(auto, unfolding(crate::specs::Front::constant_at))]
pub fn constant_at<'t, 's>(tokens: &'t [Token<'s>]) -> Option<(bool, u32, &'t [Token<'s>])>
    ensures { option_map (λ read. (read.0, read.1, views read.2.now)) result ≡ constant_at (views tokens.now) }
{
    match mark_at(tokens, b'#') {
        None => None,
        Some(behind) => signed_at(behind),
    }
}
