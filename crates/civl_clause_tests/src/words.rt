// What the operations give, against tables that were worked out from the standard's definitions by bits.
ghost use Rattle.std.specs.Prelude.{◌≡◌, ◌≤◌, ◌⊎◌};

use civl_bits::{Row, Word};
use std::test::Fail;

/// The sixteen results of two words of one width, in the order of the tables.
fn results(a: Word, b: Word) -> [u32; 16]
    requires { a.0 ≡ b.0 }
{
    [
        a.add(b).value(),
        a.sub(b).value(),
        a.mul(b).value(),
        a.and(b).value(),
        a.or(b).value(),
        a.xor(b).value(),
        a.shl(b).value(),
        a.shr(b).value(),
        a.sar(b).value(),
        a.udiv(b).value(),
        a.urem(b).value(),
        u32::from(a.ult(b)),
        u32::from(a.ule(b)),
        u32::from(a.slt(b)),
        u32::from(a.sle(b)),
        u32::from(a.eq(b)),
    ]
}

/// A line for each pair of words of 1 bit, the second running faster: a digit for each result.
const PAIRS_AT_1: &str = "\
0000000001001011
1100110000011000
1100111111100110
0011100011001011";

/// A line for each pair of words of 3 bits, the second running faster: a digit for each result.
const PAIRS_AT_3: &str = "\
0000000007001011
1700110000011110
2600220000011110
3500330000011110
4400440000011000
5300550000011000
6200660000011000
7100770000011000
1100111117100000
2011102001001011
3720334000111110
4631320000111110
5540550000111000
6451540000111000
7360770000111000
0271760000111000
2200222227200000
3120334112000000
4042200001001011
5762310000211110
6600660000211000
7520770000211000
0442640000211000
1362750000211000
3300333337300000
4231326113000000
5162314001100000
6013300001001011
7740770000311000
0671760000311000
1522750000311000
2453740000311000
4400444447400110
5340550264000110
6200660172000110
7140770071100110
0004400071001011
1744510070411110
2604620070411110
3544730070411110
5500555557500110
6451542265000110
7320774172100110
0271760071200110
1144510071100000
2015500071001011
3764730070511110
4635720070511110
6600666667600110
7560774376000110
0442640173000110
1322750072000110
2204620071200000
3164730071100000
4046600071001011
5726710070611110
7700777777700110
0671766377000110
1562754173100110
2453740072100110
3344730071300000
4235720071200000
5126710071100000
6017700071001011";

/// Pairs of words of 32 bits, and their results.
const PAIRS_AT_32: [(u32, u32, [u32; 16]); 12] = [
    (
        0xFFFFFFFF,
        1,
        [
            0, 0xFFFFFFFE, 0xFFFFFFFF, 1, 0xFFFFFFFF, 0xFFFFFFFE, 0xFFFFFFFE, 0x7FFFFFFF,
            0xFFFFFFFF, 0xFFFFFFFF, 0, 0, 0, 1, 1, 0,
        ],
    ),
    (
        0,
        1,
        [1, 0xFFFFFFFF, 0, 0, 1, 1, 0, 0, 0, 0, 0, 1, 1, 1, 1, 0],
    ),
    (
        0x80000000,
        0xFFFFFFFF,
        [
            0x7FFFFFFF, 0x80000001, 0x80000000, 0x80000000, 0xFFFFFFFF, 0x7FFFFFFF, 0, 0,
            0xFFFFFFFF, 0, 0x80000000, 1, 1, 1, 1, 0,
        ],
    ),
    (
        0x7FFFFFFF,
        0x80000000,
        [
            0xFFFFFFFF, 0xFFFFFFFF, 0x80000000, 0, 0xFFFFFFFF, 0xFFFFFFFF, 0, 0, 0, 0, 0x7FFFFFFF,
            1, 1, 0, 0, 0,
        ],
    ),
    (
        0xDEADBEEF,
        0x1F,
        [
            0xDEADBF0E, 0xDEADBED0, 0xF70A1EF1, 0xF, 0xDEADBEFF, 0xDEADBEF0, 0x80000000, 1,
            0xFFFFFFFF, 0x72EE520, 0xF, 0, 0, 1, 1, 0,
        ],
    ),
    (
        0xDEADBEEF,
        0x20,
        [
            0xDEADBF0F, 0xDEADBECF, 0xD5B7DDE0, 0x20, 0xDEADBEEF, 0xDEADBECF, 0, 0, 0xFFFFFFFF,
            0x6F56DF7, 0xF, 0, 0, 1, 1, 0,
        ],
    ),
    (
        0x12345678,
        0x100,
        [
            0x12345778, 0x12345578, 0x34567800, 0, 0x12345778, 0x12345778, 0, 0, 0, 0x123456, 0x78,
            0, 0, 0, 0, 0,
        ],
    ),
    (
        0x87654321,
        0,
        [
            0x87654321, 0x87654321, 0, 0, 0x87654321, 0x87654321, 0x87654321, 0x87654321,
            0x87654321, 0xFFFFFFFF, 0x87654321, 0, 0, 1, 1, 0,
        ],
    ),
    (
        0xFFFFFFFF,
        0xFFFFFFFF,
        [
            0xFFFFFFFE, 0, 1, 0xFFFFFFFF, 0xFFFFFFFF, 0, 0, 0, 0xFFFFFFFF, 1, 0, 0, 1, 0, 1, 1,
        ],
    ),
    (
        0xFFFF,
        0x10001,
        [
            0x20000, 0xFFFFFFFE, 0xFFFFFFFF, 1, 0x1FFFF, 0x1FFFE, 0, 0, 0, 0, 0xFFFF, 1, 1, 1, 1, 0,
        ],
    ),
    (
        5,
        0xFFFFFFFE,
        [
            3, 7, 0xFFFFFFF6, 4, 0xFFFFFFFF, 0xFFFFFFFB, 0, 0, 0, 0, 5, 1, 1, 0, 0, 0,
        ],
    ),
    (
        0x80000000,
        0x80000000,
        [
            0, 0, 0, 0x80000000, 0x80000000, 0, 0, 0, 0xFFFFFFFF, 1, 0, 0, 1, 0, 1, 1,
        ],
    ),
];

/// A width, a value, its negative and its complement.
const SINGLE: [(u32, u32, u32, u32); 16] = [
    (1, 0, 0, 1),
    (1, 1, 1, 0),
    (3, 0, 0, 7),
    (3, 1, 7, 6),
    (3, 2, 6, 5),
    (3, 3, 5, 4),
    (3, 4, 4, 3),
    (3, 5, 3, 2),
    (3, 6, 2, 1),
    (3, 7, 1, 0),
    (32, 0, 0, 0xFFFFFFFF),
    (32, 1, 0xFFFFFFFF, 0xFFFFFFFE),
    (32, 0x7FFFFFFF, 0x80000001, 0x80000000),
    (32, 0x80000000, 0x80000000, 0x7FFFFFFF),
    (32, 0xFFFFFFFF, 1, 0),
    (32, 0xDEADBEEF, 0x21524111, 0x21524110),
];

/// A width, a value, two places of bits, and the bits between.
const SLICES: [(u32, u32, u32, u32, u32); 24] = [
    (1, 1, 0, 0, 1),
    (3, 2, 0, 0, 0),
    (3, 2, 1, 0, 2),
    (3, 2, 1, 1, 1),
    (3, 2, 2, 0, 2),
    (3, 2, 2, 1, 1),
    (3, 2, 2, 2, 0),
    (3, 5, 0, 0, 1),
    (3, 5, 1, 0, 1),
    (3, 5, 1, 1, 0),
    (3, 5, 2, 0, 5),
    (3, 5, 2, 1, 2),
    (3, 5, 2, 2, 1),
    (3, 6, 0, 0, 0),
    (3, 6, 1, 0, 2),
    (3, 6, 1, 1, 1),
    (3, 6, 2, 0, 6),
    (3, 6, 2, 1, 3),
    (3, 6, 2, 2, 1),
    (32, 0xDEADBEEF, 31, 0, 0xDEADBEEF),
    (32, 0xDEADBEEF, 31, 31, 1),
    (32, 0xDEADBEEF, 15, 4, 0xBEE),
    (32, 0xDEADBEEF, 30, 1, 0x2F56DF77),
    (32, 0x80000000, 31, 16, 0x8000),
];

/// Two words, each as its width and value, and the value of the first above the second.
const JOINS: [(u32, u32, u32, u32, u32); 8] = [
    (1, 1, 1, 0, 2),
    (1, 0, 1, 1, 1),
    (3, 5, 1, 1, 0xB),
    (1, 1, 3, 2, 0xA),
    (3, 6, 3, 3, 0x33),
    (16, 0xDEAD, 16, 0xBEEF, 0xDEADBEEF),
    (31, 0x7FFFFFFF, 1, 0, 0xFFFFFFFE),
    (1, 1, 31, 5, 0x80000005),
];

/// The results of two words of this width.
fn results_at(width: u32, first: u32, second: u32) -> Option<[u32; 16]> {
    let a = Word::new(width, first)?;
    let b = Word::new(width, second)?;
    Some(results(a, b))
}

/// Whether these are the digits of a line.
fn agree(got: &[u32; 16], want: &[u8]) -> bool {
    if want.len() != 16 {
        return false;
    }
    for at in 0..16 {
        if got[at] != u32::from(want[at] & 7) {
            return false;
        }
    }
    true
}

/// How many pairs of words of this width, of so many values, have the results of their lines, up to the first that hasn't.
fn right_pairs(width: u32, values: u32, lines: &str) -> u32
    requires { values ≡ 2 ⊎ values ≡ 8 }
{
    let mut place: u32 = 0;
    for line in lines.split("\n") {
        match results_at(width, place / values, place % values) {
            Some(got) if agree(&got, line.as_bytes()) => place = place.saturating_add(1),
            _ => return place,
        }
    }
    place
}

#[test]
fn every_pair_of_one_bit_and_of_three(rt: HostRuntime) -> Result<(), Fail> {
    assert_eq!(rt; right_pairs(1, 2, PAIRS_AT_1), 4);
    assert_eq!(rt; right_pairs(3, 8, PAIRS_AT_3), 64);
    Ok(())
}

/// The place of the first pair of words of 32 bits that hasn't the results of its row.
fn first_edge(rows: &[(u32, u32, [u32; 16])]) -> Option<usize> {
    for at in 0..rows.len() {
        if results_at(32, rows[at].0, rows[at].1) != Some(rows[at].2) {
            return Some(at);
        }
    }
    None
}

#[test]
fn edges_of_32_bits(rt: HostRuntime) -> Result<(), Fail> {
    assert_eq!(rt; first_edge(&PAIRS_AT_32), None);
    Ok(())
}

/// The place of the first word whose negative or complement isn't that of its row.
fn first_single(rows: &[(u32, u32, u32, u32)]) -> Option<usize> {
    for at in 0..rows.len() {
        let (width, value, negative, complement) = rows[at];
        let Some(word) = Word::new(width, value) else {
            return Some(at);
        };
        if word.neg().value() != negative || word.not().value() != complement {
            return Some(at);
        }
    }
    None
}

#[test]
fn single_words(rt: HostRuntime) -> Result<(), Fail> {
    assert_eq!(rt; first_single(&SINGLE), None);
    Ok(())
}

/// The bits of a word between two places.
fn part(width: u32, value: u32, high: u32, low: u32) -> Option<u32> {
    if low > high || high >= width {
        return None;
    }
    let word = Word::new(width, value)?;
    Some(word.slice(high, low).value())
}

/// The place of the first part that isn't that of its row.
fn first_part(rows: &[(u32, u32, u32, u32, u32)]) -> Option<usize> {
    for at in 0..rows.len() {
        let (width, value, high, low, want) = rows[at];
        if part(width, value, high, low) != Some(want) {
            return Some(at);
        }
    }
    None
}

/// One word above another.
fn both(width: u32, value: u32, low_width: u32, low_value: u32) -> Option<u32> {
    if width > 32 || low_width > 32 - width {
        return None;
    }
    let high = Word::new(width, value)?;
    let low = Word::new(low_width, low_value)?;
    Some(high.join(low).value())
}

/// The place of the first join that isn't that of its row.
fn first_join(rows: &[(u32, u32, u32, u32, u32)]) -> Option<usize> {
    for at in 0..rows.len() {
        let (width, value, low_width, low_value, want) = rows[at];
        if both(width, value, low_width, low_value) != Some(want) {
            return Some(at);
        }
    }
    None
}

#[test]
fn parts_of_words(rt: HostRuntime) -> Result<(), Fail> {
    assert_eq!(rt; first_part(&SLICES), None);
    assert_eq!(rt; first_join(&JOINS), None);
    Ok(())
}

/// The place of the first word that fits.
fn first_fitting(words: &[(u32, u32)]) -> Option<usize> {
    for at in 0..words.len() {
        if Word::new(words[at].0, words[at].1).is_some() {
            return Some(at);
        }
    }
    None
}

const UNFIT: [(u32, u32); 6] = [
    (0, 0),
    (33, 0),
    (1, 2),
    (3, 8),
    (31, 0x80000000),
    (0xFFFFFFFF, 0),
];

#[test]
fn words_that_do_not_fit(rt: HostRuntime) -> Result<(), Fail> {
    assert_eq!(rt; first_fitting(&UNFIT), None);
    Ok(())
}

/// Whether a row of 9s of 5 bits, whose last cell is 31, has these cells.
fn has_cells(index: u32) -> Option<bool>
    requires some { 1 ≤ index }
    requires few { index ≤ 6 }
{
    let first = Word::new(5, 9)?;
    let last = Word::new(5, 31)?;
    let ones = Word::new(index, 0)?.not();
    let row = Row::fill(index, first).set(ones, last);
    for at in 0..row.size() {
        let want = if at == row.size() - 1 { 31 } else { 9 };
        if row.cell(at).value() != want {
            return Some(false);
        }
    }
    Some(row.get(ones).value() == 31 && row.set(ones, first) == Row::fill(index, first))
}

#[test]
fn cells_of_rows(rt: HostRuntime) -> Result<(), Fail> {
    assert_eq!(rt; has_cells(1), Some(true));
    assert_eq!(rt; has_cells(6), Some(true));
    Ok(())
}

#[test]
fn words_of_two_widths_differ(rt: HostRuntime) -> Result<(), Fail> {
    let both = (Word::new(7, 1), Word::new(8, 1));
    assert!(rt; both.0 != both.1);
    Ok(())
}
