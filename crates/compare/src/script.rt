//! Scenarios that are drawn: placements, and steps that follow one another so that runs go deep.

use crate::random::Random;
use crate::reference::paper::Paper;
use crate::trial::Sort;

// The words of the steps, those with a reference first.
static STEPS: [&str; 6] = ["read", "write", "commit", "flush", "fetch", "resume"];

// The number of a reference, by its place among those that a script has.
fn reference(place: usize) -> usize {
    place.wrapping_mul(29).wrapping_add(3) % 256
}

/// A line of weights.
pub(crate) fn write_weights(text: &mut Paper, weights: [usize; 5]) {
    text.put(b"weights");
    text.numbers(&weights);
    text.put(b"\n");
}

fn drawn_weights(random: &mut Random) -> [usize; 5] {
    let most = if random.once_in(4) { 10 } else { 1_000 };
    let mut weights = [0; 5];
    for weight in weights.iter_mut() {
        *weight = random.among(0, most);
    }
    weights
}

// Places so many references, each in a block of the memory or now and then in one beyond it.
fn write_places(text: &mut Paper, random: &mut Random, count: usize) {
    let blocks = random.among(2, 20);
    for place in 0..count {
        let number = reference(place);
        let limit = if random.once_in(30) { 65_536 } else { blocks };
        let block = random.below(limit);
        text.put(b"ref");
        text.numbers(&[number, block]);
        text.put(b"\n");
    }
}

// What the steps so far were about: for each core how far it is with its access and to which reference, and for each reference
// the core that last asked to write it.
#[derive(Drop)]
struct Plot {
    stages: [(usize, usize); 9],
    writers: [usize; 12],
}

impl Plot {
    // The next step: its word, its core and its reference. A core asks for a block; then its last writer flushes it, and the core
    // fetches and resumes. Among these come steps of any sort.
    fn next(
        &mut self,
        random: &mut Random,
        cores: usize,
        references: usize,
    ) -> (usize, usize, usize) {
        let core = random.below(cores);
        let place = random.low(references);
        if random.once_in(9) {
            let any = random.below(cores.saturating_add(1));
            return (random.below(6), any, place);
        }
        let stage = &mut self.stages[core % 9];
        let (passed, wanted) = *stage;
        let place = if passed > 0 { wanted } else { place };
        *stage = (passed.wrapping_add(1) % 4, place);
        let writer = &mut self.writers[place % 12];
        match passed {
            0 => {
                let word = random.below(2);
                if word == 1 {
                    *writer = core;
                }
                (word, core, place)
            }
            1 => (3, *writer, place),
            2 => (4, core, place),
            _ => (5, core, place),
        }
    }
}

// Steps of so many cores on so many references.
fn write_steps(
    text: &mut Paper,
    random: &mut Random,
    cores: usize,
    references: usize,
    count: usize,
) {
    let mut plot = Plot {
        stages: [(0, 0); 9],
        writers: [0; 12],
    };
    for _ in 0..count {
        let (word, core, place) = plot.next(random, cores, references);
        text.words(&[STEPS[word % 6]]);
        text.numbers(&[core]);
        if word < 4 {
            text.numbers(&[reference(place)]);
        }
        text.put(b"\n");
    }
}

/// Draws a whole scenario with at most so many steps, or two placements under a schedule.
pub(crate) fn draw(
    texts: &mut [Paper; 3],
    random: &mut Random,
    cores: usize,
    steps: usize,
    sort: Sort,
) {
    let references = random.among(1, 12);
    let count = random.among(0, steps);
    write_weights(&mut texts[0], drawn_weights(random));
    if let Sort::Pair = sort {
        write_places(&mut texts[1], random, references);
        write_places(&mut texts[2], random, references);
    } else {
        write_places(&mut texts[0], random, references);
    }
    write_steps(&mut texts[0], random, cores, references, count);
}
