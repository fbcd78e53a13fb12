// What a call answers: a number, or a refusal of the paper's table with its place.
#![tactic(auto)]

ghost use Rattle.std.specs.Prelude.{◌≡◌, ◌≤◌, ◌<◌};
ghost use Rattle.answers.specs.Answers.{fault_number, number_of, place_of, told, packed};

use std::fmt;

// The faults of the table. A fault's number in the table is its number here.
#[derive(Clone, Copy, Debug, PartialEq, Eq, Hash)]
pub enum Fault {
    CutShort = 1,
    WrongKind = 2,
    OutOfRange = 3,
    NotRising = 4,
    BytesAfter = 5,
    NoOpposite = 6,
    WrongSum = 7,
    OnLoop = 8,
    TooShort = 9,
    NotWaiting = 10,
    ListEnds = 11,
    NoSuchLink = 12,
}

impl Fault {
    // Its number in the table.
    pub fn number(self) -> u64
        ensures number { result ≡ fault_number self }
        ensures small { result ≤ 12 }
    {
        self as u64
    }
}

// What is wrong, and where.
#[derive(Clone, Copy, Debug, PartialEq, Eq, Hash)]
pub struct Refusal {
    pub fault: Fault,
    pub place: usize,
}

pub type Answer = Result<usize, Refusal>;

impl fmt::Display for Refusal {
    fn fmt<W: fmt::Write>(&self, f: &mut fmt::Formatter<W>) -> fmt::Result {
        write!(f, "refused {} at {}", self.fault.number(), self.place)
    }
}

impl std::error::Error for Refusal {}

pub fn number_of(r: Refusal) -> u64
    ensures number { result ≡ number_of r }
    ensures small { result ≤ 12 }
{
    r.fault.number()
}

pub fn place_of(r: Refusal) -> u64
    ensures { result ≡ place_of r }
{
    r.place as u64
}

// As one number, for C: number × 2^32 + value. The value fits its half.
pub fn packed_of(a: Answer) -> u64
    requires { (told a).value < 4294967296 }
    ensures { result ≡ packed (told a) }
{
    match a {
        Ok(n) => n as u64,
        Err(r) => number_of(r) * 4294967296 + place_of(r),
    }
}
