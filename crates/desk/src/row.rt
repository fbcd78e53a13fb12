// A node's row, lent to its desk: its delay, whether it is blocked, its best way, and what is cut from it.
ghost use Rattle.std.specs.Prelude.{◌≡◌, ℕ, ◌/◌, ◌≤◌, ◌<◌, length};
ghost use Rattle.rules.specs.Lists.{total, exists, below};
ghost use Rattle.rules.specs.Sheet.{whole, largest_step, largest_delay};
ghost use Rattle.rules.specs.Desk.{weighed, blocks};
ghost use Rattle.desk.specs.Ways.{Row};
ghost use Rattle.desk.specs.Work.{way_said, way_at, Held, choice, choice_at, lower, lowest, cut_at, Shorn};

use crate::Told;
use crate::way::{BEYOND, DelaySum, WayHeld};
use numbers::{Delay, Fraction, Step, Traffic};

// Slices of one length, and the places of the links that flow.
#[derive(Clone, Copy)]
pub struct RowLent<'a> {
    pub line: &'a [u32],
    pub fraction: &'a [u32],
    pub inbox: &'a [u32],
    pub flow: &'a [u16],
    ghost row: { Row line.now fraction.now inbox.now flow.now },
}

// The way at place p. The one reader of a row's slices; on slices, since while a row is cut its fractions are not a row's.
fn way_at(line: &[u32], fraction: &[u32], inbox: &[u32], p: usize) -> WayHeld
    requires { Held line.now fraction.now inbox.now p }
    ensures { way_said result ≡ way_at line.now fraction.now inbox.now p }
{
    WayHeld {
        line: Delay(line[p]),
        fraction: Fraction(fraction[p]),
        word: Told(inbox[p]),
    }
}

// A link that may be the best: its cost, with its barrier, and its place.
#[derive(Clone, Copy)]
pub struct Choice {
    pub cost: Delay,
    pub place: usize,
}

impl Choice {
    // Place p at cost c, or what was chosen behind it: of equal costs the lower place.
    // Cost and place come apart: a choice between two whole structs would go through memory.
    fn or_better(self, c: Delay, p: usize) -> Choice
        ensures { result ≡ lower (choice c.0 p) self }
    {
        if c <= self.cost {
            Choice { cost: c, place: p }
        } else {
            self
        }
    }
}

impl RowLent<'_> {
    fn way_at(&self, p: usize) -> WayHeld
        requires { p < length self.now.fraction.now }
        ensures { way_said result ≡ way_at self.now.line.now self.now.fraction.now self.now.inbox.now p }
    {
        way_at(self.line, self.fraction, self.inbox, p)
    }

    // The node's own delay, MD.
    pub fn delay(&self) -> Delay
        ensures value { result.0 ≡ total (λ p. weighed (way_at self.now.line.now self.now.fraction.now self.now.inbox.now p)) self.now.flow.now / whole }
        ensures small { result.0 ≤ largest_delay }
    {
        let mut sum = DelaySum(0);
        // `as` here and below, which is proved to lose nothing: with `From` the proof didn't close.
        for &p in self.flow {
            sum += self.way_at(p as usize).weighed();
        }
        sum.floored()
    }

    // Is the node blocked? m is its own delay. Every way is looked at: to stop at the first that blocks would be a branch for each.
    pub fn is_blocked(&self, s: Step, t: Traffic, m: Delay) -> bool
        requires { s.0 ≤ largest_step }
        ensures { result ≡ exists (λ p. blocks s.0 t.0 m.0 (way_at self.now.line.now self.now.fraction.now self.now.inbox.now p)) self.now.flow.now }
    {
        let mut r = false;
        for &p in self.flow {
            r |= self.way_at(p as usize).is_blocking(s, t, m);
        }
        r
    }

    // The row's best way. Two numbers: their least as one is worked out in vectors, which is slower for a row's few links.
    pub fn best(&self) -> Choice
        ensures { result ≡ lowest (choice_at self.now.line.now self.now.fraction.now self.now.inbox.now) (below (length self.now.fraction.now)) }
    {
        let mut b = Choice {
            cost: BEYOND,
            place: 0,
        };
        for i in (0..self.fraction.len()).rev() {
            b = b.or_better(self.way_at(i).barred_cost(), i);
        }
        b
    }
}

// Cuts every flowing link of the row, the best too, and answers all that was cut.
// On slices: while it runs, the fractions are no longer those of a row.
pub fn cut_row(
    s: Step,
    t: Traffic,
    least: Delay,
    line: &[u32],
    inbox: &[u32],
    flow: &[u16],
    fraction: &mut [u32],
) -> Fraction
    requires keeps { Row line.now fraction.old inbox.now flow.now }
    requires step { s.0 ≤ largest_step }
    ensures { Shorn (cut_at s.0 t.0 least.0 line.now fraction.old inbox.now) fraction.old flow.now fraction.new result.0 }
{
    let mut all = Fraction(0);
    for &p in flow {
        let i = p as usize;
        let way = way_at(line, fraction, inbox, i);
        let cut = way.cut(s, t, least);
        let left = way.fraction - cut;
        fraction[i] = left.0;
        all += cut;
    }
    all
}
