//! Texts: read line by line, without a heap.
ghost use Rattle.std.specs.Prelude.{◌≡◌, ◌≤◌, length};
ghost use Rattle.scenario.specs.Changes.{as_text};
ghost use Rattle.scenario.specs.Scan.{ended, after_weights};
ghost use Rattle.scenario.specs.Reading.{read_as, section_of};

use crate::change::{Change, line_change};
use crate::fault::Fault;
use crate::layout::{REFERENCES, lay};
use crate::text::Text;
use fields::{LINE_FEED, cut};
use protocol::weights::Prices;
use records::fault::TextFault;
use records::keyword::Section;

/// The most bytes of a text.
pub const MOST_TEXT: usize = 65_536;

// The section after the weights: a schedule has no placements.
fn after_weights(section: Section) -> Section
    ensures { result ≡ after_weights section }
{
    match section {
        Section::Schedule => Section::Steps,
        _ => Section::Refs,
    }
}

// What follows the last line feed is nothing, and the text has begun with its weights, unless it is a placement.
fn ended(rest: &[u8], line: u32, section: Section) -> Result<(), TextFault>
    ensures { as_text result ≡ ended section line rest.now }
{
    if !rest.is_empty() {
        return Err(TextFault::Unended { line });
    }
    match section {
        Section::Scenario | Section::Schedule => Err(TextFault::Misplaced { line }),
        _ => Ok(()),
    }
}

// The lines of a text that is not too long.
fn lines<'t>(text: &'t [u8], placed: [u32; REFERENCES], first: Section) -> Result<Text<'t>, Fault>
    requires { length text.now ≤ 65536 }
    ensures { read_as result ≡ section_of first placed text.now }
{
    let mut prices = Prices::default();
    let mut placements = placed;
    let mut section = first;
    let mut line: u32 = 1;
    let mut rest = text;
    let mut steps = text;
    while let Some((bytes, more)) = cut(rest, LINE_FEED) {
        match line_change(bytes, line, section, &placements)? {
            Change::Weigh(given) => {
                prices = given;
                section = after_weights(section);
                steps = more;
            }
            Change::Lay { reference, block } => {
                lay(&mut placements, reference, block);
                steps = more;
            }
            Change::Make(_) => section = Section::Steps,
        }
        rest = more;
        line += 1;
    }
    ended(rest, line, section)?;
    Ok(Text {
        prices,
        placements,
        rest: steps,
    })
}

// Reads a text that begins in this section, where these references are placed already.
#[tactic(auto, unfolding(crate::specs::Reading::section_of))]
pub(crate) fn read<'t>(
    text: &'t [u8],
    placed: [u32; REFERENCES],
    first: Section,
) -> Result<Text<'t>, Fault>
    ensures { read_as result ≡ section_of first placed text.now }
{
    if text.len() > MOST_TEXT {
        return Err(Fault::from(TextFault::TooLong));
    }
    lines(text, placed, first)
}
