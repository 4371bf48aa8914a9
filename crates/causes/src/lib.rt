// Why a call is refused.
#![tactic(auto)]

ghost use Rattle.std.specs.Prelude.{◌≡◌};
ghost use Rattle.causes.specs.Number.{refused};

use std::error::Error;
use std::fmt;

// The causes, each with the number that callers in C and the patch program print. A call gives the lowest of 1 to 9 that applies; of a record 10, 11 and 12 come first.
#[derive(Clone, Copy, Debug, PartialEq, Eq)]
pub enum Refusal {
    // p is not a prime from 2 to 929.
    NoModulus = 1,
    // n, k, s or τ is outside its range.
    OutOfRange = 2,
    // U ≤ C: τ is too large.
    TooFewTerms = 3,
    // ℓ > 24: τ is too small.
    ListTooLong = 4,
    // Points or word not n long, message not k, or curve not (ℓ+1)·W.
    WrongLength = 5,
    // A symbol in any of these is not below p.
    NoSymbol = 6,
    // Two points are equal.
    EqualPoints = 7,
    // Output under ℓ·k, curve buffer under (ℓ+1)·W, or work under R. Of encode: output under n.
    TooLittleRoom = 8,
    // The proposed curve does not pass.
    CurveFails = 9,
    // In a patch file: the input ends inside a record, or a record's length is none that it may have.
    BrokenRecord = 10,
    // In a patch file: a record of another kind.
    OtherKind = 11,
    // In a patch file: points with no setting held, or a word with no points held.
    NothingHeld = 12,
}

// The refusal number.
impl From<Refusal> for u16 {
    ghost use Rattle.std.specs.Prelude.{◌≡◌};
    ghost use Rattle.causes.specs.Number.{number};

    ghost from_gives = { λ cause n. n ≡ number cause };

    fn from(cause: Refusal) -> u16 {
        cause as u16
    }
}

impl fmt::Display for Refusal {
    fn fmt<W: fmt::Write>(&self, f: &mut fmt::Formatter<W>) -> fmt::Result {
        f.write_str(match self {
            Refusal::NoModulus => "p is not a prime from 2 to 929",
            Refusal::OutOfRange => "n, k, s or τ is outside its range",
            Refusal::TooFewTerms => "U ≤ C: τ is too large",
            Refusal::ListTooLong => "ℓ > 24: τ is too small",
            Refusal::WrongLength =>
                "points or word not n long, message not k, or curve not (ℓ+1)·W",
            Refusal::NoSymbol => "a symbol is not below p",
            Refusal::EqualPoints => "two equal points",
            Refusal::TooLittleRoom =>
                "output under ℓ·k, curve buffer under (ℓ+1)·W, or work under R (encode: output under n)",
            Refusal::CurveFails => "the proposed curve does not pass",
            Refusal::BrokenRecord =>
                "the input ends inside a record, or its length is none of a record",
            Refusal::OtherKind => "a record of another kind",
            Refusal::NothingHeld => "no setting or no points are held",
        })
    }
}

impl Error for Refusal {}

// The number that an outcome is refused with, 0 where it is accepted.
pub fn number_of<T: Drop>(outcome: Result<T, Refusal>) -> u16
    ensures { result ≡ refused outcome }
{
    match outcome {
        Ok(_) => 0,
        Err(cause) => cause.into(),
    }
}
