//! Lines, as records.
ghost use Rattle.std.specs.Prelude.{◌≡◌, ◌≢◌, MatchOption, option_map, length, [], ◌∷◌};
ghost use Rattle.fields.specs.Parts.{parts};
ghost use Rattle.records.specs.Lines.{located, places, number_in, record_as, recorded, counted, line_of};

use crate::fault::{Place, TextFault};
use crate::keyword::{Keyword, Section, Verb};
use fields::{TAB, cut, five, one, two};

/// The most bytes of a line, without its line feed.
pub const MOST_LINE: usize = 80;

/// A field: a part of the text, with its place.
#[derive(Clone, Copy)]
pub struct Field<'t> {
    pub bytes: &'t [u8],
    pub place: Place,
}

/// A line that was read.
#[derive(Clone, Copy)]
pub enum Record<'t> {
    Weights {
        w1: Field<'t>,
        w2: Field<'t>,
        w3: Field<'t>,
        w4: Field<'t>,
        wm: Field<'t>,
    },
    Ref {
        reference: Field<'t>,
        block: Field<'t>,
    },
    Read {
        core: Field<'t>,
        reference: Field<'t>,
    },
    Write {
        core: Field<'t>,
        reference: Field<'t>,
    },
    Commit {
        core: Field<'t>,
        reference: Field<'t>,
    },
    Flush {
        core: Field<'t>,
        reference: Field<'t>,
    },
    Fetch {
        core: Field<'t>,
    },
    Resume {
        core: Field<'t>,
    },
}

impl<'t> Field<'t> {
    fn at(bytes: &'t [u8], line: u32, field: u32) -> Field<'t>
        ensures { located result ≡ (bytes.now, record { line = line; field = field }) }
    {
        let place = Place { line, field };
        Field { bytes, place }
    }

    /// The number that the field writes.
    pub fn number(self) -> Result<u16, TextFault>
        ensures { result ≡ number_in (located self.entry) }
    {
        let Field { bytes, place } = self;
        numeral::number(bytes).map_err(|_| TextFault::NotANumber(place))
    }
}

// The fields of a line after its word, of which there are two.
fn pair<'t>(rest: &'t [u8], line: u32) -> Option<(Field<'t>, Field<'t>)>
    ensures { MatchOption result (length (parts 9 rest.now) ≢ 2) (λ x. (length (parts 9 rest.now) ≡ 2) × (places line 2 (parts 9 rest.now) ≡ located x.0 ∷ located x.1 ∷ [])) }
{
    let (a, b) = two(rest)?;
    Some((Field::at(a, line, 2), Field::at(b, line, 3)))
}

// The record of a line with this word, whose other fields are `rest`.
fn following<'t>(keyword: Keyword, rest: &'t [u8], line: u32) -> Option<Record<'t>>
    ensures { option_map record_as result ≡ counted keyword line (parts 9 rest.now) }
{
    match keyword {
        Keyword::Weights => {
            let (a, b, c, d, e) = five(rest)?;
            Some(Record::Weights {
                w1: Field::at(a, line, 2),
                w2: Field::at(b, line, 3),
                w3: Field::at(c, line, 4),
                w4: Field::at(d, line, 5),
                wm: Field::at(e, line, 6),
            })
        }
        Keyword::Ref => {
            let (reference, block) = pair(rest, line)?;
            Some(Record::Ref { reference, block })
        }
        Keyword::Step(Verb::Read) => {
            let (core, reference) = pair(rest, line)?;
            Some(Record::Read { core, reference })
        }
        Keyword::Step(Verb::Write) => {
            let (core, reference) = pair(rest, line)?;
            Some(Record::Write { core, reference })
        }
        Keyword::Step(Verb::Commit) => {
            let (core, reference) = pair(rest, line)?;
            Some(Record::Commit { core, reference })
        }
        Keyword::Step(Verb::Flush) => {
            let (core, reference) = pair(rest, line)?;
            Some(Record::Flush { core, reference })
        }
        Keyword::Step(Verb::Fetch) => {
            let core = Field::at(one(rest)?, line, 2);
            Some(Record::Fetch { core })
        }
        Keyword::Step(Verb::Resume) => {
            let core = Field::at(one(rest)?, line, 2);
            Some(Record::Resume { core })
        }
    }
}

impl<'t> Record<'t> {
    /// The record of a line, which is given without its line feed.
    pub fn read(bytes: &'t [u8], line: u32, section: Section) -> Result<Record<'t>, TextFault>
        ensures { recorded result ≡ line_of section line bytes.now }
    {
        if bytes.len() > MOST_LINE {
            return Err(TextFault::Unended { line });
        }
        let (word, rest) = match cut(bytes, TAB) {
            Some((word, rest)) => (word, Some(rest)),
            None => (bytes, None),
        };
        let keyword = Keyword::spelt(word).ok_or(TextFault::Misplaced { line })?;
        if !section.allows(keyword) {
            return Err(TextFault::Misplaced { line });
        }
        rest.and_then(|rest| following(keyword, rest, line))
            .ok_or(TextFault::Miscounted { line })
    }
}
