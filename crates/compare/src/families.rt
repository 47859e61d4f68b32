//! The families of cases, and how many cases each has.

use crate::damage::damage;
use crate::edges::{TEXTS, long_line, measured, weighed};
use crate::machines::{KINDS, Kind};
use crate::random::Random;
use crate::reference::paper::Paper;
use crate::score::{Score, Setting};
use crate::script::draw;
use crate::trial::Sort;
use std::io::Error;

// A kind of machine, what it is called, and how many cores it has.
type Named = (Kind, &'static str, usize);

// A family that is drawn for each machine: scenarios or pairs of at most so many steps, good ones or damaged ones.
#[derive(Clone, Copy)]
struct Family {
    title: &'static str,
    sort: Sort,
    is_damaged: bool,
    steps: usize,
    cases: u64,
}

static DRAWN: [Family; 4] = [
    Family {
        title: "good scenarios on ",
        sort: Sort::Scenario,
        is_damaged: false,
        steps: 400,
        cases: 1_000,
    },
    Family {
        title: "damaged scenarios on ",
        sort: Sort::Scenario,
        is_damaged: true,
        steps: 12,
        cases: 2_000,
    },
    Family {
        title: "paired studies on ",
        sort: Sort::Pair,
        is_damaged: false,
        steps: 200,
        cases: 500,
    },
    Family {
        title: "damaged paired studies on ",
        sort: Sort::Pair,
        is_damaged: true,
        steps: 12,
        cases: 1_000,
    },
];

// A kind of machine, what it is called over so many cells, and with a layout table of so many entries.
static TABLES: [(Kind, &str, usize, usize); 16] = [
    (
        Kind::Mcsim,
        "mcsim's machine of 16 cells and a layout of 0",
        16,
        0,
    ),
    (
        Kind::Mcsim,
        "mcsim's machine of 16 cells and a layout of 1",
        16,
        1,
    ),
    (
        Kind::Mcsim,
        "mcsim's machine of 16 cells and a layout of 255",
        16,
        255,
    ),
    (
        Kind::Mcsim,
        "mcsim's machine of 16 cells and a layout of 257",
        16,
        257,
    ),
    (
        Kind::Mcsim,
        "mcsim's machine of 16 cells and a layout of 512",
        16,
        512,
    ),
    (Kind::Mcsim, "mcsim's machine of 0 cells", 0, 256),
    (Kind::Mcsim, "mcsim's machine of 1 cell", 1, 256),
    (Kind::Mcsim, "mcsim's machine of 4,095 cells", 4_095, 256),
    (Kind::Mcsim, "mcsim's machine of 4,096 cells", 4_096, 256),
    (Kind::Mcsim, "mcsim's machine of 4,097 cells", 4_097, 256),
    (
        Kind::Mcsim,
        "mcsim's machine of 0 cells and a layout of 255",
        0,
        255,
    ),
    (
        Kind::Mcsim,
        "mcsim's machine of 4,097 cells and a layout of 257",
        4_097,
        257,
    ),
    (Kind::Nine, "nine cores of 0 cells", 0, 256),
    (
        Kind::Nine,
        "nine cores of 0 cells and a layout of 255",
        0,
        255,
    ),
    (Kind::Mixed, "three mixed cores of 8,000 cells", 8_000, 256),
    (Kind::Mixed, "three mixed cores of 8,192 cells", 8_192, 256),
];

// One to three damages of what is asked, each written on a spare paper first.
fn spoil(texts: &mut [Paper; 3], spare: &mut Paper, random: &mut Random, sort: Sort) {
    let count = if let Sort::Pair = sort { 3 } else { 1 };
    for _ in 0..=random.below(3) {
        let text = &mut texts[random.below(count) % 3];
        spare.clear();
        damage(spare, random, text.bytes());
        text.clear();
        text.put(spare.bytes());
    }
}

fn drawn_on(rt: &HostRuntime, score: &mut Score, named: Named, family: Family) {
    let (kind, name, cores) = named;
    for seed in 0..family.cases {
        let mut random = Random::new(seed);
        let trial = &mut score.trial;
        trial.ask(family.sort);
        draw(
            &mut trial.texts,
            &mut random,
            cores,
            family.steps,
            family.sort,
        );
        if family.is_damaged {
            spoil(&mut trial.texts, &mut trial.spare, &mut random, family.sort);
        }
        score.judge(rt, Setting::new(kind, seed));
    }
    score.close(rt, family.title, name);
}

// A case of these texts.
fn case(rt: &HostRuntime, score: &mut Score, setting: Setting, sort: Sort, texts: [&[u8]; 3]) {
    let [first, a, b] = texts;
    score.trial.ask(sort);
    score.trial.texts[0].put(first);
    score.trial.texts[1].put(a);
    score.trial.texts[2].put(b);
    score.judge(rt, setting);
}

// A text as a scenario, as a schedule and a placement, or without its first line as a placement.
fn in_each_form(rt: &HostRuntime, score: &mut Score, setting: Setting, text: &[u8]) {
    let rest = text.get(18..).unwrap_or(b"");
    let placed = b"ref\t7\t1\nref\t8\t1\n";
    let costly = b"weights\t1\t1\t1\t1\t1001\n";
    case(rt, score, setting, Sort::Scenario, [text, b"", b""]);
    case(rt, score, setting, Sort::Pair, [text, placed, text]);
    case(rt, score, setting, Sort::Pair, [costly, rest, b""]);
}

fn edges(rt: &HostRuntime, score: &mut Score, setting: Setting, name: &str) {
    for text in &TEXTS {
        in_each_form(rt, score, setting, text);
    }
    score.close(rt, "texts at the edges of the format on ", name);
}

// The text of a case at a limit: of about 65,536 bytes, or with a line of about 80, or with a weight of about 1,000.
fn limit(text: &mut Paper, case: usize) {
    const WEIGHTS: [usize; 5] = [0, 999, 1_000, 1_001, 65_535];
    match case {
        0..5 => measured(text, case.saturating_add(65_534)),
        5..15 => long_line(text, case.saturating_add(70)),
        _ => weighed(text, case / 5, WEIGHTS[case % 5]),
    }
}

fn limits(rt: &HostRuntime, score: &mut Score, setting: Setting, name: &str) {
    let mut text = Paper::new(rt.alloc());
    for case in 0..40 {
        text.clear();
        limit(&mut text, case);
        match text.whole() {
            Ok(text) => in_each_form(rt, score, setting, text),
            Err(error) => score.fail(Error::from(error)),
        }
    }
    score.close(rt, "lengths and weights at their limits on ", name);
}

fn on_machine(rt: &HostRuntime, score: &mut Score, named: Named) {
    for family in &DRAWN {
        drawn_on(rt, score, named, *family);
    }
    let (kind, name, _) = named;
    let setting = Setting::new(kind, 5);
    edges(rt, score, setting, name);
    limits(rt, score, setting, name);
}

/// Runs every family.
pub(crate) fn run(rt: &HostRuntime, score: &mut Score) {
    for named in &KINDS {
        on_machine(rt, score, *named);
    }
    for (kind, name, cells, entries) in &TABLES {
        let setting = Setting {
            kind: *kind,
            cells: *cells,
            entries: *entries,
            seed: 9,
        };
        edges(rt, score, setting, name);
    }
    score.trial.ask(Sort::Million);
    score.judge(rt, Setting::new(Kind::OneLine, 0));
    score.close(rt, "a million accepted steps, and the next ones", "");
}
