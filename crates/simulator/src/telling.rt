//! How a study is told.
ghost use Rattle.std.specs.Prelude.{◌≡◌, IfSome, option_map, [], ◌∷◌};
ghost use Rattle.report.specs.Lines.{line_of};
ghost use Rattle.report.specs.Reading.{ReadsAs};
ghost use Rattle.simulator.specs.Report.{Form, in_full, by_side};

use report::line::Line;
use report::paired_lines::Side;
use scenario::fault::{Fault, File};
use study::quote::Quote;
use study::turn::Played;

/// A way to tell a study, line by line.
pub trait Telling {
    // the lines of each step, of the quote and of a fault
    ghost form: { Self → Form };

    /// The line of a step, if it has one.
    fn turn(&self, number: u32, played: &Played) -> Option<Line>
        ensures text { result ≡ option_map line_of ((form self.now).turn number played.now) }
        ensures reads_back { IfSome ((form self.now).turn number played.now) (λ fs. ReadsAs (line_of fs) (fs ∷ [])) };

    /// The line of the quote.
    fn quote(&self, quote: &Quote) -> Line
        ensures text { result ≡ line_of ((form self.now).quote quote.now) }
        ensures reads_back { ReadsAs result ((form self.now).quote quote.now ∷ []) };

    /// The line of a fault, in place of all others.
    fn fault(&self, fault: Fault) -> Line
        ensures text { result ≡ line_of ((form self.now).fault fault) }
        ensures reads_back { ReadsAs result ((form self.now).fault fault ∷ []) };
}

/// The telling of a report: a line for each step.
#[derive(Clone, Copy)]
pub struct InFull;

impl Telling for InFull {
    ghost form = { λ _. in_full };

    fn turn(&self, number: u32, played: &Played) -> Option<Line> {
        Some(Line::of_step(number, played))
    }

    fn quote(&self, quote: &Quote) -> Line {
        Line::of_quote(quote)
    }

    fn fault(&self, fault: Fault) -> Line {
        Line::of_fault(fault)
    }
}

/// The telling of one side of a paired study: a line for each step that was refused.
impl Telling for Side {
    ghost form = { by_side };

    fn turn(&self, number: u32, played: &Played) -> Option<Line> {
        match played.answer {
            Ok(_) => None,
            Err(refusal) => Some(Line::of_refused(*self, number, refusal)),
        }
    }

    fn quote(&self, quote: &Quote) -> Line {
        Line::of_side_quote(*self, quote)
    }

    fn fault(&self, fault: Fault) -> Line {
        Line::of_side_fault(*self, File::Schedule, fault)
    }
}
