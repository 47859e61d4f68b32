//! The words that lines begin with, and where they may stand.
ghost use Rattle.std.specs.Prelude.{◌≡◌};
ghost use Rattle.records.specs.Keywords.{keyword_of, allows};

/// The word of a line that is a step.
#[derive(Clone, Copy)]
pub enum Verb {
    Read,
    Write,
    Commit,
    Flush,
    Fetch,
    Resume,
}

/// The word that a line begins with.
#[derive(Clone, Copy)]
pub enum Keyword {
    Weights,
    Ref,
    Step(Verb),
}

/// Which lines may come next.
#[derive(Clone, Copy)]
pub enum Section {
    /// The weights, with which a scenario begins.
    Scenario,
    /// More placements, or the first step of a scenario.
    Refs,
    /// Steps alone.
    Steps,
    /// Placements alone: the text is a placement.
    Placement,
    /// The weights, with which a schedule begins.
    Schedule,
}

impl Keyword {
    /// The word that the bytes spell.
    pub fn spelt(bytes: &[u8]) -> Option<Keyword>
        ensures { result ≡ keyword_of bytes.now }
    {
        if bytes == b"weights".as_slice() {
            Some(Keyword::Weights)
        } else if bytes == b"ref".as_slice() {
            Some(Keyword::Ref)
        } else if bytes == b"read".as_slice() {
            Some(Keyword::Step(Verb::Read))
        } else if bytes == b"write".as_slice() {
            Some(Keyword::Step(Verb::Write))
        } else if bytes == b"commit".as_slice() {
            Some(Keyword::Step(Verb::Commit))
        } else if bytes == b"flush".as_slice() {
            Some(Keyword::Step(Verb::Flush))
        } else if bytes == b"fetch".as_slice() {
            Some(Keyword::Step(Verb::Fetch))
        } else if bytes == b"resume".as_slice() {
            Some(Keyword::Step(Verb::Resume))
        } else {
            None
        }
    }
}

impl Section {
    /// Whether a line with this word may come next.
    pub fn allows(self, keyword: Keyword) -> bool
        ensures { result ≡ allows self keyword }
    {
        match self {
            Section::Scenario | Section::Schedule => matches!(keyword, Keyword::Weights),
            Section::Refs => !matches!(keyword, Keyword::Weights),
            Section::Steps => matches!(keyword, Keyword::Step(_)),
            Section::Placement => matches!(keyword, Keyword::Ref),
        }
    }
}
