//! What a study comes to.
use std::fmt;

/// What a buyer is told of a study.
#[derive(Clone, Copy, PartialEq, Eq, Debug)]
pub struct Quote {
    pub accesses: u32,
    pub total: u64,
    /// The mean penalty per access in hundredths, rounded down; none without accesses.
    pub figure: Option<u64>,
}

/// Accesses, total and figure parted by tabs; `-` for no figure.
impl fmt::Display for Quote {
    ghost use Rattle.std.specs.Prelude.{Some};
    ghost use Rattle.study.specs.Quotes.{quote_text};

    ghost output = { λ q. Some (quote_text q) };

    fn fmt<W: fmt::Write>(&self, f: &mut fmt::Formatter<W>) -> fmt::Result {
        write!(f, "{}\t{}\t", self.accesses, self.total)?;
        match self.figure {
            Some(figure) => write!(f, "{figure}"),
            None => write!(f, "-"),
        }
    }
}
