//! Reading: one pass over the bytes of a text, which checks each line as it ends.

use crate::reference::steps::{Call, Kind};
use std::alloc::Global;

/// What a layout table says of a reference that is not placed.
pub(crate) const UNPLACED: u32 = 65_536;

pub(crate) const REFERENCES: usize = 256;

const MOST_BYTES: usize = 65_536;

const MOST_LINE: usize = 80;

const MOST_NUMBER: u32 = 65_535;

/// Whether a text may have references, and whether it has weights and may have steps; and how a fault in it is told, with a tab.
#[derive(Clone, Copy)]
pub(crate) struct Form {
    pub(crate) file: &'static str,
    references: bool,
    steps: bool,
}

pub(crate) const SCENARIO: Form = Form {
    file: "",
    references: true,
    steps: true,
};

pub(crate) const PLACEMENT: Form = Form {
    file: "placement\t",
    references: true,
    steps: false,
};

pub(crate) const SCHEDULE: Form = Form {
    file: "schedule\t",
    references: false,
    steps: true,
};

/// What was read: weights and steps.
#[derive(Drop)]
pub(crate) struct Script {
    pub(crate) weights: [u32; 5],
    pub(crate) calls: Vec<Call>,
    /// Whether memory was wanting for a step.
    pub(crate) is_torn: bool,
}

/// Where a text fails, and by which number; 0 if it does not.
#[derive(Clone, Copy)]
pub(crate) struct Fault {
    pub(crate) line: usize,
    pub(crate) field: usize,
    pub(crate) number: u64,
}

fn fault_at(line: usize, field: usize, number: u64) -> Fault {
    Fault {
        line,
        field,
        number,
    }
}

#[derive(Clone, Copy)]
enum Word {
    Weights,
    Reference,
    Step(Kind),
    Unknown,
}

// The words, each with how many numbers follow it.
static WORDS: [(&[u8], Word, usize); 8] = [
    (b"weights", Word::Weights, 5),
    (b"ref", Word::Reference, 2),
    (b"read", Word::Step(Kind::Read), 2),
    (b"write", Word::Step(Kind::Write), 2),
    (b"commit", Word::Step(Kind::Commit), 2),
    (b"flush", Word::Step(Kind::Flush), 2),
    (b"fetch", Word::Step(Kind::Fetch), 1),
    (b"resume", Word::Step(Kind::Resume), 1),
];

// A line as far as it was read: its word with how many numbers that wants, how many fields there were, the first five numbers,
// and the field of the first that is none, or 0.
#[derive(Clone, Copy)]
struct Line {
    word: Word,
    wanted: usize,
    fields: usize,
    numbers: [u32; 5],
    wrong: usize,
}

const NO_LINE: Line = Line {
    word: Word::Unknown,
    wanted: 0,
    fields: 0,
    numbers: [0; 5],
    wrong: 0,
};

// A number, if the field is one: 0 to 65,535 in decimal digits, without a leading zero.
fn number_in(field: &[u8]) -> Option<u32> {
    let mut number = 0u32;
    for digit in field {
        if !digit.is_ascii_digit() {
            return None;
        }
        number = number
            .wrapping_mul(10)
            .wrapping_add(u32::from(digit.wrapping_sub(b'0')));
    }
    match field {
        [] | [b'0', _, ..] => None,
        _ if field.len() > 5 || number > MOST_NUMBER => None,
        _ => Some(number),
    }
}

impl Line {
    // Takes the next field.
    fn take(&mut self, field: &[u8]) {
        if self.fields == 0 {
            for (spelling, word, wanted) in &WORDS {
                if field == *spelling {
                    self.word = *word;
                    self.wanted = *wanted;
                }
            }
        } else if let Some(number) = number_in(field) {
            if let Some(entry) = self.numbers.get_mut(self.fields.wrapping_sub(1)) {
                *entry = number;
            }
        } else if self.wrong == 0 {
            self.wrong = self.fields.wrapping_add(1);
        }
        self.fields = self.fields.wrapping_add(1);
    }

    // Whether the line may stand where it does.
    fn stands(&self, form: Form, is_first: bool, stepped: bool) -> bool {
        let is_later = form.steps && !is_first;
        match self.word {
            Word::Weights => form.steps && is_first,
            Word::Reference => form.references && !stepped && (is_later || !form.steps),
            Word::Step(_) => is_later,
            Word::Unknown => false,
        }
    }

    // The field and the number of a fault in a line that may stand there, or twice 0. A good reference is placed.
    fn check(&self, layout: &mut [u32]) -> (usize, u64) {
        if self.fields != self.wanted.wrapping_add(1) {
            return (0, 18);
        }
        if self.wrong > 0 {
            return (self.wrong, 19);
        }
        let [one, two, ..] = self.numbers;
        match self.word {
            Word::Reference => match layout.get_mut(one as usize) {
                Some(entry) if *entry == UNPLACED => *entry = two,
                _ => return (2, 20),
            },
            Word::Step(_) if self.wanted == 2 && block_of(layout, two) == UNPLACED => {
                return (3, 21);
            }
            _ => {}
        }
        (0, 0)
    }
}

fn block_of(layout: &[u32], reference: u32) -> u32 {
    layout.get(reference as usize).copied().unwrap_or(UNPLACED)
}

impl Script {
    pub(crate) fn new(heap: Global) -> Script {
        Script {
            weights: [0; 5],
            calls: Vec::new(heap),
            is_torn: false,
        }
    }

    pub(crate) fn clear(&mut self) {
        self.weights = [0; 5];
        self.calls.clear();
    }

    // Takes a good line.
    fn keep(&mut self, line: Line, layout: &[u32]) {
        let [core, reference, ..] = line.numbers;
        match line.word {
            Word::Weights => self.weights = line.numbers,
            Word::Step(kind) => {
                let call = Call {
                    kind,
                    core: core as usize,
                    block: block_of(layout, reference) as usize,
                };
                if self.calls.push(call).is_err() {
                    self.is_torn = true;
                }
            }
            _ => {}
        }
    }

    // Checks a line as it ends, and takes it if it is good.
    fn end(&mut self, line: Line, layout: &mut [u32], form: Form, fault: &mut Fault) {
        let (field, number) = if line.stands(form, fault.line == 1, !self.calls.is_empty()) {
            line.check(layout)
        } else {
            (1, 17)
        };
        fault.field = field;
        fault.number = number;
        if number == 0 {
            self.keep(line, layout);
            fault.line = fault.line.wrapping_add(1);
        }
    }

    /// Reads a text to its end, or to its first fault, and places its references.
    pub(crate) fn read(&mut self, layout: &mut [u32], form: Form, text: &[u8]) -> Fault {
        if text.len() > MOST_BYTES {
            fault_at(0, 0, 15)
        } else if text.is_empty() && form.steps {
            fault_at(1, 1, 17)
        } else {
            self.scan(layout, form, text)
        }
    }

    // The same, for a text of a length that may be.
    fn scan(&mut self, layout: &mut [u32], form: Form, text: &[u8]) -> Fault {
        let mut fault = fault_at(1, 0, 0);
        let mut line = NO_LINE;
        let mut start = 0usize;
        let mut field_start = 0usize;
        for (place, byte) in text.iter().enumerate() {
            if *byte != b'\t' && *byte != b'\n' {
                continue;
            }
            line.take(text.get(field_start..place).unwrap_or(b""));
            field_start = place.wrapping_add(1);
            if *byte == b'\n' {
                if place.wrapping_sub(start) > MOST_LINE {
                    break;
                }
                self.end(line, layout, form, &mut fault);
                if fault.number > 0 {
                    return fault;
                }
                line = NO_LINE;
                start = field_start;
            }
        }
        if start < text.len() {
            fault.number = 16;
        }
        fault
    }
}
