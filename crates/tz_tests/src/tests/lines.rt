//! A line of each kind and shape of step, of reports that are made here. Each is step 7.

use crate::tests::doubles::hold;
use arrayvec::ArrayVec;
use std::test::Fail;
use tz_model::{Change, Code, Report, Side, Size, StepKind, Store};
use tz_text::{Lines, View, line};

/// What a step was, the registers that it changed, what it stored, and its line in both views.
struct Row {
    kind: StepKind,
    changes: &'static [Change],
    stores: &'static [Store],
    ns: &'static str,
    all: &'static str,
}

/// What ran at an address: a code of one or two halfwords.
macro_rules! ran {
    ($pc:literal, $first:literal, $second:expr) => {
        StepKind::Ran {
            pc: $pc,
            code: Code {
                first: $first,
                second: $second,
            },
        }
    };
}

macro_rules! rows {
    ($($kind:expr, [$($name:literal $value:literal)*] [$($addr:literal $size:ident $stored:literal)*] $ns:literal $all:literal,)*) => {
        [$(Row {
            kind: $kind,
            changes: &[$(Change { name: $name, value: $value },)*],
            stores: &[$(Store { addr: $addr, size: Size::$size, value: $stored },)*],
            ns: $ns,
            all: $all,
        },)*]
    };
}

/// Steps in Non-secure state, which never look at Secure state, with the registers by number and the stores.
static SHOWN: [Row; 15] = rows! {
    ran!(0x00200046, 0x3fff, None), [7 0 15 0x60000000] []
    "7 N 00200046 3fff subs r7, r7, #255 r7=00000000 apsr=60000000\n"
    "7 n N 00200046 3fff subs r7, r7, #255 r7=00000000 apsr=60000000\n",
    ran!(0x00200048, 0x6fda, None), [2 0x89abcdef] []
    "7 N 00200048 6fda ldr r2, [r3, #124] r2=89abcdef\n"
    "7 n N 00200048 6fda ldr r2, [r3, #124] r2=89abcdef\n",
    ran!(0x0020004e, 0xe002, None), [] []
    "7 N 0020004e e002 b 0x00200056\n"
    "7 n N 0020004e e002 b 0x00200056\n",
    ran!(0x00200050, 0x4770, None), [] []
    "7 N 00200050 4770 bx lr\n"
    "7 n N 00200050 4770 bx lr\n",
    ran!(0x00200052, 0x4760, None), [] []
    "7 N 00200052 4760 bx r12\n"
    "7 n N 00200052 4760 bx r12\n",
    ran!(0x00200054, 0xbf00, None), [12 1 13 2 14 3] []
    "7 N 00200054 bf00 nop r12=00000001 sp=00000002 lr=00000003\n"
    "7 n N 00200054 bf00 nop r12=00000001 sp=00000002 lr=00000003\n",
    ran!(0x00200056, 0xf8df, Some(0x1004)), [1 0x20001000] []
    "7 N 00200056 f8df1004 ldr.w r1, [pc, #4] r1=20001000\n"
    "7 n N 00200056 f8df1004 ldr.w r1, [pc, #4] r1=20001000\n",
    // No instructions: skipped in an IT block.
    ran!(0x0020005a, 0xed2d, Some(0x8a01)), [] []
    "7 N 0020005a ed2d8a01 .inst.w 0xed2d8a01\n"
    "7 n N 0020005a ed2d8a01 .inst.w 0xed2d8a01\n",
    ran!(0x0020005e, 0xe800, Some(0x0000)), [] []
    "7 N 0020005e e8000000 .inst.w 0xe8000000\n"
    "7 n N 0020005e e8000000 .inst.w 0xe8000000\n",
    ran!(0x00200062, 0xba80, None), [] []
    "7 N 00200062 ba80 .inst.n 0xba80\n"
    "7 n N 00200062 ba80 .inst.n 0xba80\n",
    ran!(0x0020004a, 0x6008, None), [] [0x20000000 Word 5]
    "7 N 0020004a 6008 str r0, [r1, #0] [20000000].4=00000005\n"
    "7 n N 0020004a 6008 str r0, [r1, #0] [20000000].4=00000005\n",
    ran!(0x0020004c, 0x6048, None), [] [0x20000003 Byte 0xab 0x20000010 Half 0xbeef 0xfffffffc Word 0x01234567]
    "7 N 0020004c 6048 str r0, [r1, #4] [20000003].1=000000ab [20000010].2=0000beef [fffffffc].4=01234567\n"
    "7 n N 0020004c 6048 str r0, [r1, #4] [20000003].1=000000ab [20000010].2=0000beef [fffffffc].4=01234567\n",
    StepKind::Taken { number: 5, lr: 0xffffffb8 }, [] []
    "7 X 5 ffffffb8\n"
    "7 n X 5 ffffffb8\n",
    StepKind::Idle, [] []
    "7 Z\n"
    "7 n Z\n",
    StepKind::Locked, [] []
    "7 L\n"
    "7 n L\n",
};

/// What a step was that looked at Secure state or ended in it, where it started, whether it looked at Secure state,
/// where it ended, and the line in view `all`.
static HIDDEN: [(StepKind, Side, bool, Side, &str); 4] = [
    (
        StepKind::Taken {
            number: 16,
            lr: 0xfffffff8,
        },
        Side::Secure,
        true,
        Side::NonSecure,
        "7 s X 16 fffffff8\n",
    ),
    (
        StepKind::Locked,
        Side::NonSecure,
        false,
        Side::Secure,
        "7 n L\n",
    ),
    (
        StepKind::Locked,
        Side::Secure,
        true,
        Side::Secure,
        "7 s L\n",
    ),
    (StepKind::Idle, Side::Secure, true, Side::Secure, "7 s Z\n"),
];

/// The report of a step that changed and stored nothing.
fn report(kind: StepKind, start: Side, touched: bool, end: Side) -> Report {
    Report {
        start,
        end,
        touched,
        way: None,
        kind,
        changes: ArrayVec::new(),
        stores: ArrayVec::new(),
    }
}

/// They are shown in both views, where the second line has what was kept of the first.
#[test]
fn shown_steps(rt: HostRuntime) -> Result<(), Fail> {
    let mut lines = Lines::new();
    for row in &SHOWN {
        let mut report = report(row.kind, Side::NonSecure, false, Side::NonSecure);
        report.changes.try_extend_from_slice(row.changes)?;
        report.stores.try_extend_from_slice(row.stores)?;
        lines.make(&report, 7, View::Ns);
        hold(&rt, lines.bytes() == row.ns.as_bytes(), row.ns);
        lines.make(&report, 7, View::All);
        hold(&rt, lines.bytes() == row.all.as_bytes(), row.all);
    }
    Ok(())
}

/// They are hidden in view `ns`.
#[test]
fn hidden_steps(rt: HostRuntime) {
    for &(kind, start, touched, end, want) in HIDDEN.iter() {
        let report = report(kind, start, touched, end);
        hold(&rt, line(&report, 7, View::Ns).as_str() == "7 S\n", want);
        hold(&rt, line(&report, 7, View::All).as_str() == want, want);
    }
}
