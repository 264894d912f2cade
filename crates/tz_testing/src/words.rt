//! Words that cases of more than one program have.

use crate::Case;
use tz_model::{Profile, ScriptEvent, Side};

/// What a name means by a table of names. None where it stands in none of its lines. One search takes less proof than a
/// comparison with each name.
pub fn meant<'a, T>(names: &'a [(&str, T)], name: &str) -> Option<&'a T> {
    for (each, meaning) in names.iter() {
        if *each == name {
            return Some(meaning);
        }
    }
    None
}

/// The word of a side.
pub fn side_word(side: Side) -> &'static str {
    match side {
        Side::Secure => "s",
        Side::NonSecure => "ns",
    }
}

/// The profile of a word.
pub fn profile_in(case: &mut Case<'_>, word: &str) -> Profile {
    match word {
        "v80" | "8.0" => Profile::V80,
        "v81" | "8.1" => Profile::V81,
        _ => {
            case.refuse();
            Profile::V80
        }
    }
}

/// The events of words, `nmi` or the number of an interrupt, at most three, and how many there are.
pub fn events_of(case: &mut Case<'_>, words: &str) -> ([ScriptEvent; 3], usize) {
    let mut events = [ScriptEvent::Nmi; 3];
    let mut count = 0usize;
    for word in words.split_whitespace() {
        let event = if word == "nmi" {
            ScriptEvent::Nmi
        } else {
            let number = case.number_in(word);
            ScriptEvent::Irq(case.half_in(number))
        };
        match events.get_mut(count) {
            Some(place) => *place = event,
            None => case.refuse(),
        }
        count = count.saturating_add(1);
    }
    (events, count)
}
