//! Numbers in input text: 0 to 65,535 in decimal digits, without a leading zero.
#![tactic(auto)]

ghost use Rattle.std.specs.Prelude.{◌≡◌};
ghost use Rattle.numeral.specs.Number.{number_of, ReadsDecimals};

use std::fmt;
use thiserror::Error;

/// Why bytes are no number.
#[derive(Clone, Copy, PartialEq, Eq, Debug, Error)]
pub enum BadNumber {
    /// There are no bytes.
    Empty,
    /// A byte is no digit, or a zero leads.
    NotDecimal,
    /// The number is above 65,535.
    TooLarge,
}

impl fmt::Display for BadNumber {
    ghost use Rattle.std.specs.Prelude.{Some};
    ghost use Rattle.numeral.specs.Messages.{message};

    ghost output = { λ bad. Some (message bad) };

    fn fmt<W: fmt::Write>(&self, f: &mut fmt::Formatter<W>) -> fmt::Result {
        match self {
            BadNumber::Empty => f.write_str("there is no number"),
            BadNumber::NotDecimal => f.write_str("not a decimal number without leading zeros"),
            BadNumber::TooLarge => f.write_str("numbers end at 65535"),
        }
    }
}

/// The number that the bytes write. It is read just where the bytes are what that number is written as.
pub fn number(bytes: &[u8]) -> Result<u16, BadNumber>
    ensures value { result ≡ number_of bytes.now }
    ensures law { ReadsDecimals bytes.now result }
{
    read(bytes)
}

// The code apart from the law, which is proved once of whatever is answered.
fn read(bytes: &[u8]) -> Result<u16, BadNumber>
    ensures { result ≡ number_of bytes.now }
{
    match bytes {
        [] => return Err(BadNumber::Empty),
        [b'0', _, ..] => return Err(BadNumber::NotDecimal),
        _ => {}
    }
    let mut n: u16 = 0;
    for b in bytes {
        if !b.is_ascii_digit() {
            return Err(BadNumber::NotDecimal);
        }
        let next = 10 * u32::from(n) + u32::from(*b - b'0');
        n = u16::try_from(next).map_err(|_| BadNumber::TooLarge)?;
    }
    Ok(n)
}
