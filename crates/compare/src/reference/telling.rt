//! Telling: what a study comes to, as the lines of a report.

use crate::reference::paper::Paper;
use crate::reference::plain::Machine;
use crate::reference::reading::{Fault, Form, PLACEMENT, REFERENCES, SCHEDULE, Script, UNPLACED};
use crate::reference::steps::{Study, Turn};
use std::alloc::Global;

/// A report, and the script that it is about.
#[derive(Drop)]
pub(crate) struct Teller {
    pub(crate) report: Paper,
    script: Script,
}

// Reports that a file fails.
fn tell_fault(out: &mut Paper, side: &str, file: &str, fault: Fault) {
    let Fault {
        line,
        field,
        number,
    } = fault;
    let layer = match number {
        20 | 21 => "layout",
        15..=19 => "text",
        _ => "study",
    };
    out.words(&[side, "fault\t", file, layer]);
    out.numbers(&[line, field, number as usize]);
    out.put(b"\n");
}

/// The line of a step. Of a side only refused ones are told.
pub(crate) fn tell_turn(out: &mut Paper, side: &str, number: usize, turn: Turn) {
    if side.is_empty() {
        out.number(number);
        out.words(&["\t", turn.word]);
        out.numbers(&[turn.value as usize, turn.total as usize]);
        out.put(b"\n");
    } else if turn.refused {
        out.words(&[side, "refused"]);
        out.numbers(&[number, turn.value as usize]);
        out.put(b"\n");
    }
}

/// The line of a quote.
pub(crate) fn tell_quote(out: &mut Paper, side: &str, study: &Study) {
    out.words(&[side, "quote"]);
    out.numbers(&[study.accesses as usize, study.total as usize]);
    match study.figure() {
        Some(figure) => out.numbers(&[figure as usize]),
        None => out.put(b"\t-"),
    }
    out.put(b"\n");
}

// The last line of a paired study, from the figures of its sides.
fn tell_difference(out: &mut Paper, a: Option<u64>, b: Option<u64>) {
    out.put(b"difference");
    let (Some(a), Some(b)) = (a, b) else {
        out.put(b"\t-\t-\n");
        return;
    };
    out.numbers(&[a.abs_diff(b) as usize]);
    let cheaper: &[u8] = if a < b {
        b"\ta\n"
    } else if b < a {
        b"\tb\n"
    } else {
        b"\tequal\n"
    };
    out.put(cheaper);
}

impl Teller {
    /// An empty report.
    pub(crate) fn new(heap: Global) -> Teller {
        Teller {
            report: Paper::new(heap),
            script: Script::new(heap),
        }
    }

    /// Whether memory was wanting.
    pub(crate) fn is_torn(&self) -> bool {
        self.report.is_torn || self.script.is_torn
    }

    // Reads texts, each by its form, and opens the study. Tells the fault, and in which file it is.
    fn begin(
        &mut self,
        study: &mut Study,
        layout: &mut [u32],
        texts: &[(Form, &[u8])],
    ) -> (&'static str, Fault) {
        let mut file = "";
        self.script.clear();
        for (form, text) in texts {
            file = form.file;
            let fault = self.script.read(layout, *form, text);
            if fault.number > 0 {
                return (file, fault);
            }
        }
        let number = study.open(self.script.weights);
        let fault = Fault {
            line: 1,
            field: 0,
            number,
        };
        (file, fault)
    }

    fn play(&mut self, side: &str, study: &mut Study) {
        for (place, call) in self.script.calls.iter().enumerate() {
            let turn = study.step(*call);
            tell_turn(&mut self.report, side, place.wrapping_add(1), turn);
        }
        tell_quote(&mut self.report, side, study);
    }

    /// Reads texts, each by its form, leaves their placements in the layout table, plays the steps, and tells the report: of a
    /// scenario in full, and of a side, whose name is given with a tab, only what a paired study tells. A table of another
    /// length is left as it was. Gives back the figure, if there is one.
    pub(crate) fn tell(
        &mut self,
        side: &str,
        machine: Machine,
        layout: &mut [u32],
        texts: &[(Form, &[u8])],
    ) -> Option<u64> {
        if layout.len() != REFERENCES {
            self.report.put(b"fault\tlayout\t0\t0\t14\n");
            return None;
        }
        let mut study = Study::new(machine);
        layout.fill(UNPLACED);
        let (file, fault) = self.begin(&mut study, layout, texts);
        if fault.number > 0 {
            layout.fill(UNPLACED);
            tell_fault(&mut self.report, side, file, fault);
        } else {
            self.play(side, &mut study);
        }
        study.figure()
    }

    /// Tells two placements under a schedule, which comes last, each on a machine of its own.
    pub(crate) fn tell_pair(&mut self, first: Machine, second: Machine, texts: [&[u8]; 3]) {
        let [a, b, schedule] = texts;
        let mut layout = [0; REFERENCES];
        let schedule = (SCHEDULE, schedule);
        let a = self.tell("a\t", first, &mut layout, &[(PLACEMENT, a), schedule]);
        let b = self.tell("b\t", second, &mut layout, &[(PLACEMENT, b), schedule]);
        tell_difference(&mut self.report, a, b);
    }
}
