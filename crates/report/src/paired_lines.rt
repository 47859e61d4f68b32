//! The lines of a paired study.
ghost use Rattle.std.specs.Prelude.{◌≡◌, ◌≤◌, [], ◌∷◌, length, Some, None};
ghost use Rattle.report.specs.Lines.{line_of};
ghost use Rattle.report.specs.Pairs.{side_spelling, refusal_fields, refused_fields, side_quote_fields, side_fault_fields, cheaper, difference_fields};
ghost use Rattle.report.specs.Reading.{ReadsAs};

use crate::line::Line;
use fields::{LINE_FEED, TAB};
use protocol::refusal::Refusal;
use scenario::fault::{Fault, File};
use study::quote::Quote;

/// One of the two studies.
#[derive(Clone, Copy)]
pub enum Side {
    A,
    B,
}

impl Side {
    // The side as a line spells it.
    fn bytes(self) -> &'static [u8]
        ensures { result.now ≡ side_spelling self }
    {
        match self {
            Side::A => b"a",
            Side::B => b"b",
        }
    }
}

impl Line {
    /// A refused step of a side, by its number among the steps, and the number of the refusal.
    #[tactic(auto, using(crate::proofs::Readings::side_line))]
    pub fn of_refused(side: Side, step: u32, refusal: Refusal) -> Line
        ensures text { result ≡ line_of (refused_fields side step refusal) }
        ensures reads_back { ReadsAs result (refused_fields side step refusal ∷ []) }
    {
        let mut line = Line::of_refusal(step, refusal);
        line.prepend_text(side.bytes(), TAB);
        line
    }

    // The line of a refused step without its side.
    #[tactic(auto, using(crate::proofs::Readings::refusal))]
    fn of_refusal(step: u32, refusal: Refusal) -> Line
        ensures text { result ≡ line_of (refusal_fields step refusal) }
        ensures reads_back { ReadsAs result (refusal_fields step refusal ∷ []) }
        ensures short { length result ≤ 50 }
    {
        let mut line = Line::empty();
        line.prepend_number(u64::from(u8::from(refusal)), LINE_FEED);
        line.prepend_number(u64::from(step), TAB);
        line.prepend_text(b"refused", TAB);
        line
    }

    /// The quote of a side.
    #[tactic(auto, using(crate::proofs::Readings::side_line))]
    pub fn of_side_quote(side: Side, quote: &Quote) -> Line
        ensures text { result ≡ line_of (side_quote_fields side quote.now) }
        ensures reads_back { ReadsAs result (side_quote_fields side quote.now ∷ []) }
    {
        let mut line = Line::of_quote(quote);
        line.prepend_text(side.bytes(), TAB);
        line
    }

    /// The fault of a side, and which of its files has it.
    #[tactic(auto, using(crate::proofs::Readings::side_fault))]
    pub fn of_side_fault(side: Side, file: File, fault: Fault) -> Line
        ensures text { result ≡ line_of (side_fault_fields side file fault) }
        ensures reads_back { ReadsAs result (side_fault_fields side file fault ∷ []) }
    {
        let mut line = Line::of_told(fault);
        line.prepend_text(file.bytes(), TAB);
        line.prepend_text(b"fault", TAB);
        line.prepend_text(side.bytes(), TAB);
        line
    }

    /// The difference of the figures of the sides, and which of them is cheaper; none where a side has no figure.
    pub fn of_difference(a: Option<u64>, b: Option<u64>) -> Line
        ensures text { result ≡ line_of (difference_fields a b) }
        ensures reads_back { ReadsAs result (difference_fields a b ∷ []) }
    {
        match (a, b) {
            (Some(a), Some(b)) => Line::of_figures(a, b),
            _ => Line::of_no_figure(),
        }
    }

    #[tactic(auto, using(crate::proofs::Readings::difference))]
    fn of_figures(a: u64, b: u64) -> Line
        ensures text { result ≡ line_of (difference_fields (Some a) (Some b)) }
        ensures reads_back { ReadsAs result (difference_fields (Some a) (Some b) ∷ []) }
    {
        let mut line = Line::empty();
        line.prepend_text(cheaper(a, b), LINE_FEED);
        line.prepend_number(a.abs_diff(b), TAB);
        line.prepend_text(b"difference", TAB);
        line
    }

    #[tactic(auto, using(crate::proofs::Readings::no_difference))]
    fn of_no_figure() -> Line
        ensures text { result ≡ line_of (difference_fields None None) }
        ensures reads_back { ReadsAs result (difference_fields None None ∷ []) }
    {
        let mut line = Line::empty();
        line.prepend_text(b"-", LINE_FEED);
        line.prepend_text(b"-", TAB);
        line.prepend_text(b"difference", TAB);
        line
    }
}

// The side with the smaller figure.
fn cheaper(a: u64, b: u64) -> &'static [u8]
    ensures text { result.now ≡ cheaper a b }
{
    if a < b {
        b"a"
    } else if b < a {
        b"b"
    } else {
        b"equal"
    }
}
