//! Damages: small edits of a text, of every sort that a reader has to notice or to bear.

use crate::random::Random;
use crate::reference::paper::Paper;

// What is put in, mostly in place of a number or beside one.
static PIECES: [&[u8]; 39] = [
    b"0",
    b"1",
    b"00",
    b"16",
    b"255",
    b"256",
    b"1000",
    b"1001",
    b"65535",
    b"65536",
    b"100000",
    b"4294967296",
    b"4294967297",
    b"4294967299",
    b"1234567890",
    b"18446744073709551616",
    b"",
    b"-0",
    b"+1",
    b"1e3",
    b"\t",
    b"\n",
    b"\r",
    b" ",
    b"t",
    b"w",
    b"\x00",
    b"\xff",
    b"weights\t0\t0\t0\t0\t0\n",
    b"ref\t9\t9\n",
    b"ref\t256\t1\n",
    b"read\t0\t256\n",
    b"read\t0\t255\n",
    b"fetch\t0\t\n",
    b"resume\t65536\n",
    b"\t\n",
    b"\r\n",
    b"reads\t0\t0\n",
    b"00000000000000000000000000000000000000000000000000000000000000000000000000",
];

// The line of a place of the text, or its field: from where to where, without the byte that ends it.
fn around(text: &[u8], place: usize, is_field: bool) -> (usize, usize) {
    let mut start = 0usize;
    for (number, byte) in text.iter().enumerate() {
        if *byte == b'\n' || is_field && *byte == b'\t' {
            if number >= place {
                return (start, number);
            }
            start = number.wrapping_add(1);
        }
    }
    (start, text.len())
}

// From where to where a damage of a sort lies, by the place, its line, its field and the text's length.
fn span(
    sort: usize,
    place: usize,
    line: (usize, usize),
    field: (usize, usize),
    length: usize,
) -> (usize, usize) {
    match sort {
        0 => (place, place.saturating_add(1)),
        1 => (place, place),
        2 | 6 => (line.0, line.0),
        3 => (line.1, line.1),
        4 => (field.0, field.0),
        5 => (field.1, field.1),
        7 => (line.0, line.1.saturating_add(1)),
        8 => (0, 0),
        9 => (length, length),
        10 => (place, length),
        _ => field,
    }
}

/// Writes the text with one damage: a piece is put in, or in some sorts the line once more.
pub(crate) fn damage(edited: &mut Paper, random: &mut Random, text: &[u8]) {
    let place = random.below(text.len());
    let line = around(text, place, false);
    let field = around(text, place, true);
    let piece = PIECES[random.below(39) % 39];
    let sort = random.below(13);
    let (start, end) = span(sort, place, line, field, text.len());
    edited.put(text.get(..start).unwrap_or(text));
    if let 6 | 8 | 9 = sort {
        edited.put(text.get(line.0..line.1.saturating_add(1)).unwrap_or(b""));
    } else {
        edited.put(piece);
    }
    edited.put(text.get(end..).unwrap_or(b""));
}
