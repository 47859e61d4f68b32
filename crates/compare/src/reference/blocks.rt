//! A memory made of parts, over the cells of all tables.

use crate::reference::plain::Part;
use memory::cell::Cell;

const MOST_BLOCKS: usize = 65_536;

const MOST_CELLS: usize = 4_096;

// No machine here has a memory of more parts.
const MOST_PARTS: usize = 5;

// A part with its size, and the place of its first cell if it is flat.
#[derive(Clone, Copy)]
struct Piece {
    part: Part,
    size: usize,
    first: usize,
}

const NOTHING: Piece = Piece {
    part: Part::Flat(0),
    size: 0,
    first: 0,
};

#[derive(Drop)]
pub(crate) struct Memory<'a> {
    pieces: [Piece; MOST_PARTS],
    count: usize,
    cells: &'a mut [Cell],
}

fn size_of(pieces: &[Piece], number: usize) -> usize {
    match pieces.get(number) {
        Some(piece) => piece.size,
        None => 0,
    }
}

// The size of a part over the pieces before it.
fn measure(pieces: &[Piece], part: Part) -> usize {
    match part {
        Part::Flat(count) => { if count <= MOST_CELLS { count } else { 0 } }
        Part::Interleaved(even, odd) => {
            let least = size_of(pieces, even).min(size_of(pieces, odd));
            least.wrapping_mul(2).min(MOST_BLOCKS)
        }
        Part::Window(start, length, below) => {
            size_of(pieces, below).saturating_sub(start).min(length)
        }
    }
}

impl<'a> Memory<'a> {
    /// A table of too many cells makes a memory without blocks.
    pub(crate) fn new(parts: &[Part], cells: &'a mut [Cell]) -> Memory<'a> {
        let mut pieces = [NOTHING; MOST_PARTS];
        let mut taken = 0usize;
        for (number, part) in parts.iter().enumerate() {
            let piece = Piece {
                part: *part,
                size: measure(&pieces, *part),
                first: taken,
            };
            if let Part::Flat(count) = *part {
                taken = taken.wrapping_add(count);
            }
            if let Some(place) = pieces.get_mut(number) {
                *place = piece;
            }
        }
        Memory {
            pieces,
            count: parts.len(),
            cells,
        }
    }

    pub(crate) fn size(&self) -> usize {
        size_of(&self.pieces, self.count.wrapping_sub(1))
    }

    /// The cell of a block, if the memory has it.
    pub(crate) fn cell(&mut self, block: usize) -> Option<&mut Cell> {
        let mut number = self.count.wrapping_sub(1);
        let mut block = block;
        for _ in 0..self.count {
            let piece = *self.pieces.get(number)?;
            if block >= piece.size {
                break;
            }
            match piece.part {
                Part::Flat(_) => return self.cells.get_mut(piece.first.wrapping_add(block)),
                Part::Interleaved(even, odd) => {
                    number = if block % 2 == 0 { even } else { odd };
                    block /= 2;
                }
                Part::Window(start, _, below) => {
                    number = below;
                    block = block.wrapping_add(start);
                }
            }
        }
        None
    }
}
