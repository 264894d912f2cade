//! What a step asks: numbers in turn, and words for all else, in any order.

use tz_model::{Side, Size};
use tz_state::Kind;
use tz_testing::{Case, meant, number_of};

/// What a step asks. What no word says is that which stands first here.
#[derive(Clone, Copy)]
pub struct Asked {
    /// The numbers; those behind the last are 0.
    pub numbers: [u32; 8],
    /// How many numbers there are.
    pub count: usize,
    /// `s`, `ns`.
    pub side: Side,
    /// `word`, `half`, `byte`.
    pub size: Size,
    /// `read`, `write`, `fetch`.
    pub kind: Kind,
    /// `privileged`, `user`.
    pub privileged: bool,
    /// Secure code would be privileged, or `secure_user`.
    pub secure_privileged: bool,
    /// The execution priority isn't below 0, or `negative`.
    pub negative: bool,
    /// It may lie anywhere, or `aligned`.
    pub aligned: bool,
    /// It counts as the code that asks, or `unprivileged`.
    pub unprivileged: bool,
    /// It asks for its own side, or `alternate`.
    pub alternate: bool,
}

/// What a step without words asks.
const NOTHING: Asked = Asked {
    numbers: [0; 8],
    count: 0,
    side: Side::Secure,
    size: Size::Word,
    kind: Kind::Read,
    privileged: true,
    secure_privileged: true,
    negative: false,
    aligned: false,
    unprivileged: false,
    alternate: false,
};

/// What a word says: what an access is, who asks and how. A register of an MPU or of the SAU stands for its address.
enum Word {
    Side(Side),
    Size(Size),
    Kind(Kind),
    Privileged(bool),
    SecureUser,
    Negative,
    Aligned,
    Unprivileged,
    Alternate,
    Register(u32),
}

static WORDS: [(&str, Word); 25] = [
    ("s", Word::Side(Side::Secure)),
    ("ns", Word::Side(Side::NonSecure)),
    ("word", Word::Size(Size::Word)),
    ("half", Word::Size(Size::Half)),
    ("byte", Word::Size(Size::Byte)),
    ("read", Word::Kind(Kind::Read)),
    ("write", Word::Kind(Kind::Write)),
    ("fetch", Word::Kind(Kind::Fetch)),
    ("privileged", Word::Privileged(true)),
    ("user", Word::Privileged(false)),
    ("secure_user", Word::SecureUser),
    ("negative", Word::Negative),
    ("aligned", Word::Aligned),
    ("unprivileged", Word::Unprivileged),
    ("alternate", Word::Alternate),
    ("MPU_TYPE", Word::Register(0xe000_ed90)),
    ("MPU_CTRL", Word::Register(0xe000_ed94)),
    ("MPU_RNR", Word::Register(0xe000_ed98)),
    ("MPU_RBAR", Word::Register(0xe000_ed9c)),
    ("MPU_RLAR", Word::Register(0xe000_eda0)),
    ("SAU_CTRL", Word::Register(0xe000_edd0)),
    ("SAU_TYPE", Word::Register(0xe000_edd4)),
    ("SAU_RNR", Word::Register(0xe000_edd8)),
    ("SAU_RBAR", Word::Register(0xe000_eddc)),
    ("SAU_RLAR", Word::Register(0xe000_ede0)),
];

/// Takes a number. The case is unread where it is one too many.
fn take_number(case: &mut Case<'_>, asked: &mut Asked, number: u32) {
    match asked.numbers.get_mut(asked.count) {
        Some(place) => *place = number,
        None => case.refuse(),
    }
    asked.count = asked.count.saturating_add(1);
}

/// Takes a word that is no number. The case is unread where it says nothing.
fn take_name(case: &mut Case<'_>, asked: &mut Asked, word: &str) {
    match meant(&WORDS, word) {
        Some(Word::Side(side)) => asked.side = *side,
        Some(Word::Size(size)) => asked.size = *size,
        Some(Word::Kind(kind)) => asked.kind = *kind,
        Some(Word::Privileged(privileged)) => asked.privileged = *privileged,
        Some(Word::SecureUser) => asked.secure_privileged = false,
        Some(Word::Negative) => asked.negative = true,
        Some(Word::Aligned) => asked.aligned = true,
        Some(Word::Unprivileged) => asked.unprivileged = true,
        Some(Word::Alternate) => asked.alternate = true,
        Some(Word::Register(addr)) => take_number(case, asked, *addr),
        None => case.refuse(),
    }
}

/// What words ask.
pub fn asked_by(case: &mut Case<'_>, words: &str) -> Asked {
    let mut asked = NOTHING;
    for word in words.split_whitespace() {
        match number_of(word) {
            Some(number) => take_number(case, &mut asked, number),
            None => take_name(case, &mut asked, word),
        }
    }
    asked
}
