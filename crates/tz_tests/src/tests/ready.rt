//! Ready lists: slots that are linked, moved and taken out, and which comes first.

ghost use Rattle.std.specs.Prelude.{◌≡◌, ◌<◌};

use std::marker::Brand;
use std::sync::ledger::{Blank, Ledger};
use tz_model::Side;
use tz_ready::{Queue, Ready, Steps};

/// The slot that is put, and where: the level of a side, or nowhere.
struct Put(u16, Option<(u8, Side)>);

struct ReadyCase {
    puts: &'static [Put],
    /// What comes first of a side from a level on, in order.
    first: &'static [(Side, u8, Option<u16>)],
}

const S: Side = Side::Secure;

const NS: Side = Side::NonSecure;

static CASES: [ReadyCase; 7] = [
    // Nothing is linked.
    ReadyCase {
        puts: &[],
        first: &[(S, 0, None), (NS, 0, None), (S, 255, None)],
    },
    // The lowest level comes first, of each side by itself.
    ReadyCase {
        puts: &[
            Put(40, Some((0x40, S))),
            Put(35, Some((0x80, S))),
            Put(37, Some((0x20, NS))),
        ],
        first: &[(S, 0, Some(40)), (NS, 0, Some(37)), (NS, 0x21, None)],
    },
    // From a level on, which counts itself, over the ends of words too.
    ReadyCase {
        puts: &[
            Put(1, Some((31, S))),
            Put(2, Some((32, S))),
            Put(3, Some((255, S))),
        ],
        first: &[
            (S, 31, Some(1)),
            (S, 32, Some(2)),
            (S, 33, Some(3)),
            (S, 255, Some(3)),
            (NS, 0, None),
        ],
    },
    // Of one level the lowest number comes first, in whatever order they are put.
    ReadyCase {
        puts: &[
            Put(53, Some((64, S))),
            Put(51, Some((64, S))),
            Put(271, Some((64, S))),
            Put(52, Some((64, S))),
            Put(0, Some((64, S))),
        ],
        first: &[(S, 0, Some(0))],
    },
    // The first and one in the midst are taken out.
    ReadyCase {
        puts: &[
            Put(51, Some((64, NS))),
            Put(52, Some((64, NS))),
            Put(53, Some((64, NS))),
            Put(52, None),
            Put(51, None),
        ],
        first: &[(NS, 0, Some(53))],
    },
    // The only one of a level goes to another, and to the other side.
    ReadyCase {
        puts: &[
            Put(51, Some((64, S))),
            Put(53, Some((96, S))),
            Put(51, Some((128, S))),
            Put(53, Some((0, NS))),
        ],
        first: &[(S, 0, Some(51)), (S, 129, None), (NS, 0, Some(53))],
    },
    // All are taken out, and the level is empty again.
    ReadyCase {
        puts: &[
            Put(51, Some((64, S))),
            Put(53, Some((64, S))),
            Put(51, None),
            Put(53, None),
        ],
        first: &[(S, 0, None)],
    },
];

fn put_slot(ready: &mut Ready, put: &Put) {
    if put.0 < 272 {
        let queue = match put.1 {
            Some((level, side)) => Some(Queue { level, side }),
            None => None,
        };
        ready.put(put.0, queue);
    }
}

/// The same lists, copied over others.
fn copy_of(ready: &Ready) -> Ready {
    let mut copied = Ready::new();
    copied.put(7, Some(Queue { level: 0, side: S }));
    copied.copy_from(ready, 272);
    copied
}

/// What comes first of a side from a level on.
fn first_by<L: Ledger>(blank: Blank, ready: &Ready, side: Side, from: u8) -> Option<u16>
    requires name { blank.name ≡ L.name }
    requires parts { blank.parts ≡ L.parts }
    requires some_part { 0 < blank.parts }
{
    let mut looks = Steps::<L>::start(blank);
    ready.first(side, from, &mut looks)
}

/// The same, with a count of its own.
fn first(ready: &Ready, side: Side, from: u8) -> Option<u16> {
    first_by::<Brand>(Blank::new(1), ready, side, from)
}

#[test]
fn first_of_ready_lists(rt: HostRuntime) {
    for case in &CASES {
        let mut ready = Ready::new();
        for each in case.puts {
            put_slot(&mut ready, each);
        }
        let copied = copy_of(&ready);
        for (side, from, wanted) in case.first {
            assert!(rt; first(&ready, *side, *from) == *wanted);
            assert!(rt; first(&copied, *side, *from) == *wanted);
        }
    }
}
