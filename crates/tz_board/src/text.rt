//! Texts of bytes, cut at separators.

ghost use Rattle.std.specs.Prelude.{◌≡◌, ◌<◌, ◌++◌, [], ◌∷◌, MatchOption, false, length};
ghost use Rattle.tz_board.specs.Scripts.{number_of, parts_of};
ghost use Rattle.tz_board.specs.Text.{chomp, has};

/// The text before the first separator, and the text after it.
pub fn cut(text: &[u8], separator: u8) -> Option<(&[u8], &[u8])>
    ensures { MatchOption result (has separator text.now ≡ false) (λ p. (text.now ≡ p.0.now ++ separator ∷ p.1.now) × (has separator p.0.now ≡ false)) }
{
    for (index, b) in text.iter().enumerate() {
        if *b == separator {
            return Some((&text[..index], &text[index + 1..]));
        }
    }
    None
}

/// A line without the carriage return at its end.
pub fn chomp(line: &[u8]) -> &[u8]
    ensures { result.now ≡ chomp line.now }
{
    match line.split_last() {
        Some((last, front)) => { if *last == b'\r' { front } else { line } }
        None => line,
    }
}

/// The first part of a line, and what follows it, where there is one.
pub fn first_part(line: &[u8]) -> Option<(&[u8], &[u8])>
    ensures { MatchOption result (parts_of line.now ≡ []) (λ p. (parts_of line.now ≡ p.0.now ∷ parts_of p.1.now) × (0 < length p.0.now)) }
{
    let mut rest = line;
    while let Some((part, back)) = cut(rest, b' ') {
        if !part.is_empty() {
            return Some((part, back));
        }
        rest = back;
    }
    if rest.is_empty() {
        None
    } else {
        Some((rest, &[]))
    }
}

/// The number that 1 to 8 decimal digits make.
pub fn number(part: &[u8]) -> Option<u32>
    ensures { number_of part.now ≡ result }
{
    if part.is_empty() || part.len() > 8 {
        return None;
    }
    let mut number = 0;
    for b in part {
        if !b.is_ascii_digit() {
            return None;
        }
        number = 10 * number + u32::from(*b - b'0');
    }
    Some(number)
}
