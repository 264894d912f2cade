//! Lines and comments that were told by hand.

use std::test::Fail;
use tz_syntax::{first_line, read_tokens, without_comment};

/// A text, its first line, and what is behind that.
static LINES: [(&[u8], &[u8], &[u8]); 3] = [
    (b"ab\n\nc", b"ab", b"\nc"),
    (b"\nc", b"", b"c"),
    (b"c\r", b"c\r", b""),
];

#[test]
fn first_lines(rt: HostRuntime) {
    for &(text, line, after) in LINES.iter() {
        assert!(rt; !text.is_empty());
        let (found, behind) = first_line(text);
        assert!(rt; found == line && behind == after);
    }
}

/// A comment is no token, and is cut off before.
#[test]
fn comments(rt: HostRuntime) -> Result<(), Fail> {
    let mut tokens = Vec::new(rt.alloc());
    assert!(rt; !read_tokens(b"nop ; \xe9", &mut tokens)?);
    assert!(rt; without_comment(b" nop ; \xe9; x") == b" nop ".as_slice());
    assert!(rt; without_comment(b" nop") == b" nop".as_slice());
    Ok(())
}
