// A link out, as its node sees it: what it costs, whether it blocks its node, and what is cut from it.
ghost use Rattle.std.specs.Prelude.{◌≡◌, ◌+◌, ◌-◌, ◌*◌, ◌/◌, ◌^◌, ◌≤◌, ◌<◌, leb};
ghost use Rattle.rules.specs.Sheet.{whole, largest_step, largest_delay, largest_stored};
ghost use Rattle.rules.specs.Desk.{cost, weighed, blocks, cut_by};

use crate::{Told, delay_told, is_marked};
use numbers::{Delay, Fraction, Step, Traffic};
use std::ops::AddAssign;

// More than any candidate costs; for what is none, so that `lower` compares two costs and no cases.
pub const BEYOND: Delay = Delay(Delay::LARGEST.0 * 2);

// A link's line and fraction, and the word of its far node, each within what the rules allow.
#[derive(Clone, Copy)]
pub struct WayHeld {
    pub line: Delay,
    pub fraction: Fraction,
    pub word: Told,
    ghost line_small: { line.0 ≤ 1048576 },
    ghost fraction_small: { fraction.0 ≤ whole },
    ghost told_small: { word.0 / 4 ≤ largest_stored },
}

// A sum of delays, each counted by a fraction.
#[derive(Clone, Copy)]
pub struct DelaySum(pub u64);

impl AddAssign for DelaySum {
    ghost can_add_assign = { λ a b. a.0 + b.0 < 2 ^ 64 };

    ghost add_assign_gives = { λ a b r. r.0 ≡ a.0 + b.0 };

    fn add_assign(&mut self, more: DelaySum) {
        self.0 += more.0;
    }
}

impl DelaySum {
    pub fn floored(self) -> Delay
        requires { self.0 ≤ whole * largest_delay }
        ensures value { result.0 ≡ self.0 / whole }
        ensures small { result.0 ≤ largest_delay }
    {
        Delay((self.0 / u64::from(Fraction::WHOLE.0)) as u32)
    }
}

// How much one delay lies above another; 0 where it does not.
fn excess(c: Delay, least: Delay) -> Delay
    ensures { result.0 ≡ c.0 - least.0 }
{
    Delay(c.0.saturating_sub(least.0))
}

// Is as much or more sent that way, by the fraction, as the step allows at a rise of d?
fn heavy(s: Step, t: Traffic, d: Delay, f: Fraction) -> bool
    requires step { s.0 ≤ largest_step }
    requires rise { d.0 ≤ largest_delay }
    requires part { f.0 ≤ whole }
    ensures { result ≡ leb (s.0 * d.0) (f.0 * t.0) }
{
    u64::from(s.0) * u64::from(d.0) <= u64::from(f.0) * u64::from(t.0)
}

// What is cut from a fraction whose link costs d more than the best.
fn cut_by(s: Step, t: Traffic, d: Delay, f: Fraction) -> Fraction
    requires step { s.0 ≤ largest_step }
    requires rise { d.0 ≤ largest_delay }
    ensures value { result.0 ≡ cut_by s.0 t.0 d.0 f.0 }
    ensures part { result.0 ≤ f.0 }
{
    if t.0 == 0 {
        return f;
    }
    let q = u64::from(s.0) * u64::from(d.0) / u64::from(t.0);
    let all = u64::from(f.0);
    if q < all { Fraction(q as u32) } else { f }
}

impl WayHeld {
    ghost use Rattle.desk.specs.Work.{way_said, barrier, beyond};

    // c: the line and the delay at its far end.
    pub fn cost(self) -> Delay
        ensures value { result.0 ≡ cost (way_said self) }
        ensures small { result.0 ≤ largest_delay }
    {
        self.line + delay_told(self.word)
    }

    pub fn weighed(self) -> DelaySum
        ensures { result.0 ≡ weighed (way_said self) }
    {
        DelaySum(u64::from(self.fraction.0) * u64::from(self.cost().0))
    }

    // Does a flowing way block its node, whose own delay is m?
    pub fn is_blocking(self, s: Step, t: Traffic, m: Delay) -> bool
        requires step { s.0 ≤ largest_step }
        requires flows { 0 < self.fraction.0 }
        ensures { result ≡ blocks s.0 t.0 m.0 (way_said self) }
    {
        let much = heavy(s, t, excess(self.cost(), m), self.fraction);
        ((m <= delay_told(self.word)) & much) | is_marked(self.word)
    }

    // 0 for a candidate, and for another so much that its cost lies beyond every candidate's.
    fn barrier(self) -> Delay
        ensures value { result.0 ≡ barrier (way_said self) }
        ensures small { result.0 ≤ beyond }
    {
        if (self.fraction.0 == 0) & is_marked(self.word) {
            BEYOND
        } else {
            Delay(0)
        }
    }

    pub fn barred_cost(self) -> Delay
        ensures { result.0 ≡ cost (way_said self) + barrier (way_said self) }
    {
        self.cost() + self.barrier()
    }

    // What is cut from the way, where the best costs least.
    pub fn cut(self, s: Step, t: Traffic, least: Delay) -> Fraction
        requires { s.0 ≤ largest_step }
        ensures value { result.0 ≡ cut_by s.0 t.0 (cost (way_said self) - least.0) self.fraction.0 }
        ensures part { result.0 ≤ self.fraction.0 }
    {
        cut_by(s, t, excess(self.cost(), least), self.fraction)
    }
}
