//! Where the rows of a mnemonic are looked up: by the sum of its letters.

ghost use Rattle.std.specs.Prelude.{◌≡◌, ◌<◌, ◌%◌, MatchOption, [], ◌∷◌, length, map, option_map, slice_get};
ghost use Rattle.tz_asm.specs.Index.{between, letter_sum, named_at, part_in, part_of};
ghost use Rattle.tz_asm.specs.Mnemonics.{is_named, texts_of};
ghost use Rattle.tz_syntax.specs.Rows.{row_view};
ghost use Rattle.tz_syntax.specs.Text.{texts};

use crate::code::mnemonics::{behind, is_named};
use tz_syntax::{TextRow, text_rows};

/// How many sums are told apart.
const SUMS: u32 = 64;

/// The numbers of the rows, those whose mnemonics have the same sum of letters beside each other, and last those of `it`.
static PLACES: [u16; 305] = [
    14, 28, 31, 53, 73, 77, 208, 215, 12, 50, 94, 109, 123, 174, 177, 217, 245, 7, 43, 133, 136,
    141, 162, 163, 164, 165, 166, 247, 276, 113, 206, 207, 65, 69, 80, 23, 63, 3, 38, 39, 82, 98,
    271, 277, 107, 218, 235, 97, 111, 122, 147, 148, 149, 150, 151, 296, 29, 74, 92, 1, 35, 170,
    242, 126, 301, 13, 52, 115, 121, 190, 253, 274, 11, 49, 219, 264, 278, 6, 42, 152, 153, 154,
    155, 156, 200, 16, 56, 171, 62, 226, 292, 293, 2, 37, 229, 231, 260, 291, 209, 290, 139, 275,
    0, 34, 168, 223, 227, 258, 263, 285, 118, 129, 172, 175, 230, 213, 214, 251, 269, 298, 51, 72,
    130, 10, 47, 96, 295, 15, 55, 140, 250, 252, 254, 9, 46, 88, 169, 224, 286, 22, 61, 216, 300,
    93, 182, 183, 184, 185, 257, 36, 19, 59, 204, 205, 234, 262, 30, 76, 84, 255, 134, 137, 304,
    32, 78, 210, 33, 110, 186, 187, 188, 189, 193, 194, 195, 196, 259, 142, 143, 144, 145, 146,
    261, 272, 282, 114, 120, 239, 294, 27, 48, 71, 86, 91, 25, 68, 135, 138, 5, 8, 41, 45, 54, 87,
    90, 106, 283, 21, 60, 108, 127, 266, 112, 246, 18, 58, 128, 191, 83, 220, 225, 256, 105, 119,
    228, 302, 116, 280, 103, 124, 244, 249, 279, 284, 288, 117, 203, 104, 192, 232, 237, 26, 70,
    85, 131, 167, 221, 222, 299, 24, 67, 95, 4, 40, 89, 132, 236, 238, 240, 267, 44, 66, 81, 211,
    212, 287, 20, 125, 99, 100, 173, 176, 233, 243, 270, 157, 158, 159, 160, 161, 281, 17, 57, 101,
    102, 197, 198, 199, 201, 202, 248, 297, 64, 75, 79, 178, 179, 180, 181, 241, 268, 289, 265,
    303, 273,
];

/// Where the numbers of each sum and those of `it` begin among them, and where they end.
static PARTS: [(u16, u16); 65] = [
    (0, 8),
    (8, 17),
    (17, 29),
    (29, 32),
    (32, 35),
    (35, 37),
    (37, 44),
    (44, 47),
    (47, 47),
    (47, 56),
    (56, 59),
    (59, 63),
    (63, 65),
    (65, 72),
    (72, 77),
    (77, 85),
    (85, 87),
    (87, 88),
    (88, 92),
    (92, 98),
    (98, 100),
    (100, 100),
    (100, 100),
    (100, 102),
    (102, 110),
    (110, 115),
    (115, 120),
    (120, 123),
    (123, 127),
    (127, 133),
    (133, 139),
    (139, 143),
    (143, 149),
    (149, 150),
    (150, 156),
    (156, 160),
    (160, 163),
    (163, 166),
    (166, 177),
    (177, 185),
    (185, 189),
    (189, 194),
    (194, 198),
    (198, 207),
    (207, 210),
    (210, 212),
    (212, 214),
    (214, 218),
    (218, 222),
    (222, 226),
    (226, 228),
    (228, 235),
    (235, 237),
    (237, 241),
    (241, 249),
    (249, 252),
    (252, 260),
    (260, 266),
    (266, 268),
    (268, 275),
    (275, 281),
    (281, 292),
    (292, 302),
    (302, 304),
    (304, 305),
];

/// The sum of the letters of a word, as small ones, over what is told apart.
fn sum_of(word: &[u8]) -> u32
    ensures { result ≡ letter_sum word.now % 64 }
{
    let mut sum = 0;
    for byte in word {
        sum = (sum + u32::from(byte.to_ascii_lowercase())) % SUMS;
    }
    sum
}

/// The part in which the rows of a word are.
fn part_of(word: &[u8]) -> usize
    ensures part { result ≡ part_of word.now }
    ensures within { result < 65 }
{
    if behind(b"it", word).is_some() {
        SUMS as usize
    } else {
        sum_of(word) as usize
    }
}

/// The numbers from one place up to another one, where there are as many.
fn between(places: &'static [u16], ends: (u16, u16)) -> &'static [u16]
    ensures { result.now ≡ between places.now ends }
{
    let start = usize::from(ends.0);
    let end = usize::from(ends.1);
    if start <= end && end <= places.len() {
        &places[start..end]
    } else {
        &[]
    }
}

/// A part by its place; past the end it is empty.
fn part_at(places: &'static [u16], parts: &[(u16, u16)], place: usize) -> &'static [u16]
    ensures { result.now ≡ part_in (map (between places.now) parts.now) place }
{
    if place < parts.len() {
        between(places, parts[place])
    } else {
        &[]
    }
}

/// The numbers of some rows, among which are those of a mnemonic.
pub fn rows_of(word: &[u8]) -> &'static [u16]
    ensures { named_at word.now result.now ≡ texts_of word.now }
{
    part_at(&PLACES, &PARTS, part_of(word))
}

/// The row with a number.
fn row_at(place: u16) -> Option<&'static TextRow>
    ensures { option_map (λ row. row_view row.now) result ≡ slice_get texts place }
{
    text_rows().get(usize::from(place))
}

/// The first of some rows that has a mnemonic, and the numbers behind it.
pub fn next_row(places: &'static [u16], word: &[u8]) -> Option<(&'static TextRow, &'static [u16])>
    ensures row { MatchOption result (named_at word.now places.now ≡ []) (λ next. named_at word.now places.now ≡ row_view next.0.now ∷ named_at word.now next.1.now) }
    ensures shorter { MatchOption result (named_at word.now places.now ≡ []) (λ next. length next.1.now < length places.now) }
{
    let mut rest = places;
    while let [place, later @ ..] = rest {
        rest = later;
        if let Some(row) = row_at(*place)
            && is_named(word, row)
        {
            return Some((row, rest));
        }
    }
    None
}
