//! Bytes, parted at a separator.
#![tactic(auto)]

ghost use Rattle.std.specs.Prelude.{◌≡◌, ◌<◌, ◌≢◌, MatchOption, length, [], ◌∷◌};
ghost use Rattle.fields.specs.Parts.{parts};

/// What ends a line.
pub const LINE_FEED: u8 = b'\n';
/// What parts the fields of a line.
pub const TAB: u8 = b'\t';

/// The part before the first separator, and all that follows it; none where there is no separator.
#[tactic(auto, using(crate::proofs::Cuts::ended, crate::proofs::Cuts::whole))]
pub fn cut<'t>(bytes: &'t [u8], sep: u8) -> Option<(&'t [u8], &'t [u8])>
    ensures { MatchOption result (parts sep bytes.now ≡ bytes.now ∷ []) (λ x. (parts sep bytes.now ≡ x.0.now ∷ parts sep x.1.now) × (length x.1.now < length bytes.now)) }
{
    for (i, byte) in bytes.iter().enumerate() {
        if *byte == sep {
            return Some((&bytes[..i], &bytes[i + 1..]));
        }
    }
    None
}

/// The whole, if no tab parts it; else none.
#[tactic(auto, using(crate::proofs::Cuts::some))]
pub fn one<'t>(line: &'t [u8]) -> Option<&'t [u8]>
    ensures { MatchOption result (length (parts 9 line.now) ≢ 1) (λ x. parts 9 line.now ≡ x.now ∷ []) }
{
    match cut(line, TAB) {
        None => Some(line),
        Some(_) => None,
    }
}

/// The parts between tabs, if there are just two; else none.
#[tactic(auto, using(crate::proofs::Cuts::some))]
pub fn two<'t>(line: &'t [u8]) -> Option<(&'t [u8], &'t [u8])>
    ensures { MatchOption result (length (parts 9 line.now) ≢ 2) (λ x. parts 9 line.now ≡ x.0.now ∷ x.1.now ∷ []) }
{
    let (a, rest) = cut(line, TAB)?;
    Some((a, one(rest)?))
}

/// Five parts.
pub type Five<'t> = (&'t [u8], &'t [u8], &'t [u8], &'t [u8], &'t [u8]);

/// The parts between tabs, if there are just five; else none.
#[tactic(auto, using(crate::proofs::Cuts::some))]
pub fn five<'t>(line: &'t [u8]) -> Option<Five<'t>>
    ensures { MatchOption result (length (parts 9 line.now) ≢ 5) (λ (a, b, c, d, e). parts 9 line.now ≡ a.now ∷ b.now ∷ c.now ∷ d.now ∷ e.now ∷ []) }
{
    let (a, rest) = cut(line, TAB)?;
    let (b, rest) = cut(rest, TAB)?;
    let (c, rest) = cut(rest, TAB)?;
    let (d, e) = two(rest)?;
    Some((a, b, c, d, e))
}
