//! The lines of a report: what became of a step, a quote, a fault.
ghost use Rattle.std.specs.Prelude.{◌≡◌, ◌+◌, ◌^◌, ◌<◌, ◌≤◌, [], ◌∷◌, ◌++◌, length, IfSome};
ghost use Rattle.scenario.specs.Faults.{told_of};
ghost use Rattle.report.specs.Lines.{written, line_of, step_fields, figure_field, quote_fields, told_fields, fault_fields};
ghost use Rattle.report.specs.Reading.{ReadsAs};

use crate::line::Line;
use fields::{LINE_FEED, TAB};
use protocol::answer::{Word, value_of};
use scenario::fault::{Fault, Told};
use study::quote::Quote;
use study::turn::Played;

impl Line {
    /// What became of a step: its number, the word, the value, and the total after it.
    #[tactic(auto, using(crate::proofs::Readings::step))]
    pub fn of_step(number: u32, played: &Played) -> Line
        ensures text { result ≡ line_of (step_fields number played.now) }
        ensures reads_back { ReadsAs result (step_fields number played.now ∷ []) }
    {
        let mut line = Line::empty();
        line.prepend_number(played.total, LINE_FEED);
        line.prepend_number(u64::from(value_of(played.answer)), TAB);
        line.prepend_text(Word::from(played.answer).bytes(), TAB);
        line.prepend_number(u64::from(number), TAB);
        line
    }

    /// A quote: accesses, total, and the figure, or `-` where there is none.
    #[tactic(auto, using(crate::proofs::Readings::quote))]
    pub fn of_quote(quote: &Quote) -> Line
        ensures text { result ≡ line_of (quote_fields quote.now) }
        ensures reads_back { ReadsAs result (quote_fields quote.now ∷ []) }
        ensures short { length result ≤ 69 }
    {
        let mut line = Line::empty();
        line.prepend_figure(quote.figure, LINE_FEED);
        line.prepend_number(quote.total, TAB);
        line.prepend_number(u64::from(quote.accesses), TAB);
        line.prepend_text(b"quote", TAB);
        line
    }

    /// A fault: its layer, line, field and number.
    #[tactic(auto, using(crate::proofs::Readings::fault))]
    pub fn of_fault(fault: Fault) -> Line
        ensures text { result ≡ line_of (fault_fields fault) }
        ensures reads_back { ReadsAs result (fault_fields fault ∷ []) }
    {
        let mut line = Line::of_told(fault);
        line.prepend_text(b"fault", TAB);
        line
    }

    // Puts a figure, or `-` where there is none, and the byte that ends it before the line.
    fn prepend_figure(&mut self, figure: Option<u64>, end: u8)
        requires { length self.old + 21 ≤ 96 }
        ensures text { self.new ≡ written (figure_field figure) ++ end ∷ self.old }
        ensures length { length self.new ≤ length self.old + 21 }
        ensures fits { IfSome figure (λ f. f < 2 ^ 64) }
    {
        match figure {
            Some(figure) => self.prepend_number(figure, end),
            None => self.prepend_text(b"-", end),
        }
    }

    // The fields of a fault without the word before them.
    #[tactic(auto, using(crate::proofs::Readings::told))]
    pub(crate) fn of_told(fault: Fault) -> Line
        ensures text { result ≡ line_of (told_fields (told_of fault)) }
        ensures reads_back { ReadsAs result (told_fields (told_of fault) ∷ []) }
        ensures short { length result ≤ 70 }
    {
        let told = Told::from(fault);
        let mut line = Line::empty();
        line.prepend_number(u64::from(told.number), LINE_FEED);
        line.prepend_number(u64::from(told.field), TAB);
        line.prepend_number(u64::from(told.line), TAB);
        line.prepend_text(told.layer.bytes(), TAB);
        line
    }
}
