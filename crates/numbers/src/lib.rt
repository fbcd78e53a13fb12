// The kinds of number: a fraction, a delay, a traffic figure and a step, each a type of its own with its bound.
#![tactic(auto)]

ghost use Rattle.std.specs.Prelude.{◌≡◌, ◌+◌, ◌-◌, ◌^◌, ◌≤◌, ◌<◌, length};
ghost use Rattle.rules.specs.Sheet.{line_delay};
ghost use Rattle.numbers.specs.Kinds.{fraction_of, step_of, delay_of};
ghost use Rattle.numbers.specs.Lines.{LinesOf};

use std::ops::{Add, AddAssign, Sub};

// A share of a node's traffic, in units of 1 / 65,536.
#[derive(Clone, Copy, Debug, Default, PartialEq, Eq, PartialOrd, Ord)]
pub struct Fraction(pub u32);

// A marginal delay.
#[derive(Clone, Copy, Debug, Default, PartialEq, Eq, PartialOrd, Ord)]
pub struct Delay(pub u32);

// A node's traffic. Every value is allowed.
#[derive(Clone, Copy, Debug, Default, PartialEq, Eq, PartialOrd, Ord)]
pub struct Traffic(pub u32);

// The step of a round. 0 is no step, so it has no default. Its bound is asked in clauses: a head's step is read before it is judged.
#[derive(Clone, Copy, Debug, PartialEq, Eq, PartialOrd, Ord)]
pub struct Step(pub u32);

// The three `new` differ in their type and their bounds; a trait for them would have as many lines.
impl Fraction {
    pub const WHOLE: Fraction = Fraction(65536);

    pub fn new(x: u32) -> Option<Fraction>
        ensures { result ≡ fraction_of x }
    {
        let f = Fraction(x);
        (f <= Fraction::WHOLE).then_some(f)
    }
}

impl Add for Fraction {
    type Output = Fraction;

    ghost can_add = { λ a b. a.0 + b.0 < 2 ^ 32 };

    ghost add_gives = { λ a b r. r.0 ≡ a.0 + b.0 };

    fn add(self, more: Fraction) -> Fraction {
        Fraction(self.0 + more.0)
    }
}

impl AddAssign for Fraction {
    ghost can_add_assign = { λ a b. a.0 + b.0 < 2 ^ 32 };

    ghost add_assign_gives = { λ a b r. r.0 ≡ a.0 + b.0 };

    fn add_assign(&mut self, more: Fraction) {
        *self = *self + more;
    }
}

impl Sub for Fraction {
    type Output = Fraction;

    ghost can_sub = { λ a b. b.0 ≤ a.0 };

    ghost sub_gives = { λ a b r. r.0 ≡ a.0 - b.0 };

    fn sub(self, part: Fraction) -> Fraction {
        Fraction(self.0 - part.0)
    }
}

impl Step {
    pub const LARGEST: Step = Step(1048576);

    pub fn new(x: u32) -> Option<Step>
        ensures { result ≡ step_of x }
    {
        let s = Step(x);
        (Step(1) <= s && s <= Step::LARGEST).then_some(s)
    }
}

impl Delay {
    pub const LARGEST: Delay = Delay(67108864);

    pub fn new(x: u32) -> Option<Delay>
        ensures { result ≡ delay_of x }
    {
        let d = Delay(x);
        (d <= Delay::LARGEST).then_some(d)
    }
}

impl Add for Delay {
    type Output = Delay;

    ghost can_add = { λ a b. a.0 + b.0 < 2 ^ 32 };

    ghost add_gives = { λ a b r. r.0 ≡ a.0 + b.0 };

    fn add(self, more: Delay) -> Delay {
        Delay(self.0 + more.0)
    }
}

static LINE_DELAYS: [u32; 256] = [
    16, 16, 16, 16, 16, 16, 16, 16, 17, 17, 17, 17, 17, 17, 17, 18, 18, 18, 18, 18, 18, 18, 19, 19,
    19, 19, 19, 19, 20, 20, 20, 20, 20, 21, 21, 21, 21, 21, 22, 22, 22, 22, 22, 23, 23, 23, 23, 24,
    24, 24, 24, 24, 25, 25, 25, 25, 26, 26, 26, 27, 27, 27, 27, 28, 28, 28, 29, 29, 29, 29, 30, 30,
    30, 31, 31, 32, 32, 32, 33, 33, 33, 34, 34, 35, 35, 35, 36, 36, 37, 37, 38, 38, 38, 39, 39, 40,
    40, 41, 42, 42, 43, 43, 44, 44, 45, 45, 46, 47, 47, 48, 49, 49, 50, 51, 52, 52, 53, 54, 55, 55,
    56, 57, 58, 59, 60, 61, 62, 63, 64, 65, 66, 67, 68, 69, 70, 71, 72, 74, 75, 76, 77, 79, 80, 82,
    83, 85, 86, 88, 89, 91, 93, 95, 96, 98, 100, 102, 104, 106, 109, 111, 113, 116, 118, 121, 123,
    126, 129, 132, 135, 138, 141, 145, 148, 152, 155, 159, 163, 168, 172, 176, 181, 186, 191, 196,
    202, 208, 213, 220, 226, 233, 240, 248, 256, 264, 272, 281, 291, 301, 311, 322, 334, 346, 359,
    373, 387, 403, 419, 436, 455, 474, 495, 517, 541, 567, 594, 623, 655, 689, 726, 765, 809, 855,
    907, 962, 1024, 1091, 1165, 1246, 1337, 1438, 1551, 1677, 1820, 1982, 2166, 2377, 2621, 2904,
    3236, 3628, 4096, 4660, 5349, 6204, 7281, 8665, 10485, 12945, 16384, 21399, 29127, 41943,
    65536, 116508, 262144, 1048576,
];

// D' at a load step.
pub fn line_delay(load: u8) -> Delay
    ensures { result.0 ≡ line_delay load }
{
    // `as`, which is proved to lose nothing: with `From` the proof didn't close.
    Delay(LINE_DELAYS[load as usize])
}

// The delay of each line, from its load step.
pub fn write_line_delays(loads: &[u8], lines: &mut [u32])
    requires { length loads.now ≤ length lines.old }
    ensures { LinesOf loads.now lines.old lines.new }
{
    for (j, &load) in loads.iter().enumerate() {
        lines[j] = line_delay(load).0;
    }
}
