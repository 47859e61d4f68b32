//! Texts at the edges of the format, written out or made to measure.

use crate::reference::paper::Paper;
use crate::script::write_weights;

/// Whole texts, each at some edge: what may stand first, how many fields, what a number is, which references are placed.
pub(crate) static TEXTS: [&[u8]; 50] = [
    b"weights\t0\t10\t10\t10\t100\nref\t1\t3\nread\t0\t1\nfetch\t0\nresume\t0\nwrite\t0\t1\nread\t1\t1\nfetch\t1\nflush\t0\t1\nfetch\t1\nresume\t1\n",
    b"",
    b"\n",
    b"\t\n",
    b"\x00",
    b"weights",
    b"weights\n",
    b"weights\t0\t0\t0\t0\t0",
    b"weights\t0\t0\t0\t0\t0\n",
    b"weights\t0\t0\t0\t0\t0\r\n",
    b"weights\t0\t0\t0\t0\t0\t\n",
    b"weights\t0\t0\t0\t0\n",
    b"weights\t0\t0\t0\t0\t\n",
    b"weights\t0\t0\t0\t0\t00\n",
    b"weights\t0\t0\t+1\t0\t0\n",
    b"weights\t0\t 1\t0\t0\t0\n",
    b"weights\t0\t1\t0\t0\t0 \n",
    b"weights\t0\t0\t0\t65535\t0\n",
    b"weights\t0\t0\t0\t65536\t0\n",
    b"weights\t18446744073709551616\t0\t0\t0\t0\n",
    b"Weights\t0\t0\t0\t0\t0\n",
    b" weights\t0\t0\t0\t0\t0\n",
    b"ref\t0\t0\n",
    b"read\t0\t0\n",
    b"weights\t0\t0\t0\t0\t0\nweights\t0\t0\t0\t0\t0\n",
    b"weights\t0\t0\t0\t0\t0\n\n",
    b"weights\t0\t0\t0\t0\t0\nref\t0\t0",
    b"weights\t0\t0\t0\t0\t0\nref\t255\t65535\nread\t0\t255\n",
    b"weights\t0\t0\t0\t0\t0\nref\t256\t0\n",
    b"weights\t0\t0\t0\t0\t0\nref\t256\t65536\n",
    b"weights\t0\t0\t0\t0\t0\nref\t65536\t0\n",
    b"weights\t0\t0\t0\t0\t0\nref\t7\t1\nref\t7\t1\n",
    b"weights\t0\t0\t0\t0\t0\nref\t7\t1\nref\t8\t1\nwrite\t0\t7\nfetch\t0\nresume\t0\nread\t0\t8\n",
    b"weights\t0\t0\t0\t0\t0\nref\t7\t1\nread\t0\t8\n",
    b"weights\t0\t0\t0\t0\t0\nref\t7\t1\nread\t0\t256\n",
    b"weights\t0\t0\t0\t0\t0\nref\t7\t1\nflush\t65535\t7\n",
    b"weights\t0\t0\t0\t0\t0\nref\t7\t1\nflush\t65536\t7\n",
    b"weights\t0\t0\t0\t0\t0\nref\t7\t1\nfetch\t0\nref\t8\t1\n",
    b"weights\t0\t0\t0\t0\t0\nref\t7\t1\nfetch\t0\nweights\t0\t0\t0\t0\t0\n",
    b"weights\t0\t0\t0\t0\t0\nref\t7\t16\nread\t2\t7\nread\t0\t7\nread\t1\t7\n",
    b"weights\t0\t0\t0\t0\t0\nfetch\t0\nresume\t1\nfetch\t2\nresume\t65535\n",
    b"weights\t0\t0\t0\t0\t0\nfetch\t0\t0\n",
    b"weights\t0\t0\t0\t0\t0\ncommit\t0\t0\t0\n",
    b"weights\t2000\t0\t0\t0\t0\nref\t1\t1\nread\t0\t1\nref\t2\t2\nread\t0\tx\n",
    b"weights\t0\t0\t0\t0\t0\nwrites\t0\t0\n",
    b"weights\t0\t0\t0\t0\t0\nfetch\t00\n",
    b"weights\t0\t0\t0\t0\t0\nread\t01\t02\n",
    b"weights\t0\t0\t0\t0\t0\nfetch\t\xff\n",
    b"weights\t1\t1\t1\t1\t1\nref\t1\t15\nref\t2\t16\nwrite\t0\t1\nfetch\t0\nresume\t0\nread\t0\t2\nread\t1\t1\nflush\t0\t2\nflush\t0\t1\ncommit\t0\t2\ncommit\t0\t1\n",
    b"weights\t1\t1\t1\t1\t1\nref\t1\t4095\nref\t2\t4096\nref\t3\t7995\nref\t4\t7996\nwrite\t0\t2\nfetch\t0\nresume\t0\nread\t0\t1\nfetch\t0\nresume\t0\nread\t0\t3\nread\t1\t4\n",
];

// A text that repeats a piece between its head and its end.
fn fill(text: &mut Paper, head: &[u8], piece: &[u8], count: usize, end: &[u8]) {
    text.put(head);
    for _ in 0..count {
        text.put(piece);
    }
    text.put(end);
}

/// A good scenario of just so many bytes, from 100 on.
pub(crate) fn measured(text: &mut Paper, bytes: usize) {
    let head = b"weights\t1\t2\t3\t4\t5\nref\t9\t4\n";
    let longer = b"resume\t0\nresume\t0\nresume\t0\nresume\t0\nresume\t0\nresume\t0\nresume\t0\n";
    let rest = bytes.saturating_sub(head.len());
    // steps of eight bytes, and so many of nine as are left over
    let end = longer.get(..rest % 8 * 9).unwrap_or(b"");
    let count = rest.saturating_sub(end.len()) / 8;
    fill(text, head, b"fetch\t1\n", count, end);
}

/// A scenario with a line of so many bytes before its line feed, all but six of them digits.
pub(crate) fn long_line(text: &mut Paper, bytes: usize) {
    let head = b"weights\t0\t0\t0\t0\t0\nfetch\t";
    fill(text, head, b"1", bytes.saturating_sub(6), b"\n");
}

/// A scenario with one weight exchanged.
pub(crate) fn weighed(text: &mut Paper, place: usize, weight: usize) {
    let mut weights = [1_000; 5];
    weights[place % 5] = weight;
    write_weights(text, weights);
    text.put(b"ref\t3\t3\nwrite\t0\t3\nfetch\t0\nresume\t0\nread\t0\t3\n");
}
