//! Runs of bytes at the front of a line.

ghost use Rattle.std.specs.Prelude.{◌≡◌, ◌<◌, [], length, slice_index, true};
ghost use Rattle.tz_syntax.specs.Tokens.{end_run, is_word_byte, tokens_behind, without_comment};

/// Whether a byte is a letter, a digit, `_` or `.`.
pub fn is_word_byte(byte: u8) -> bool
    ensures { result ≡ is_word_byte byte }
{
    byte.is_ascii_alphanumeric() || byte == b'_' || byte == b'.'
}

/// The line before its first `;`, which begins a comment.
pub fn without_comment(line: &[u8]) -> &[u8]
    ensures { result.now ≡ without_comment line.now }
{
    for (place, byte) in line.iter().enumerate() {
        if *byte == b';' {
            return &line[..place];
        }
    }
    line
}

/// The longest run of letters, digits, `_` and `.` at the front of a line, and what follows it.
pub fn first_run(line: &[u8]) -> (&[u8], &[u8])
    requires { is_word_byte (slice_index line.now 0) ≡ true }
    ensures tokens { tokens_behind [] line.now ≡ end_run result.0.now (tokens_behind [] result.1.now) }
    ensures some { 0 < length result.0.now }
    ensures shorter { length result.1.now < length line.now }
{
    for (place, byte) in line.iter().enumerate() {
        if !is_word_byte(*byte) {
            return (&line[..place], &line[place..]);
        }
    }
    (line, &[])
}
