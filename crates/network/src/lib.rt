// What a sheet's links say of its nodes: the rows, and what flows in them.
#![tactic(auto)]

ghost use Rattle.std.specs.Prelude.{◌≡◌, cond, ◌≤◌, eqb};
ghost use Rattle.rules.specs.Sheet.{whole};
ghost use Rattle.sheet.specs.Held.{found_said};
ghost use Rattle.network.specs.Rows.{no_rows, Sorted};
ghost use Rattle.network.specs.Answers.{RowSurveyed, wrong_sum, SurveyedIn};

use numbers::Fraction;
use sheet::{Columns, SheetHeld};

// A sum of fractions. Desk has one of delays: two types, so that neither is taken for the other.
#[derive(Clone, Copy)]
pub struct FractionSum(pub u64);

// Where each node's row begins, where its part of the flow does, and the places that flow. Node i's end where node i + 1's begin.
#[derive(Drop)]
pub struct RowsHeld {
    pub starts: [u16; 65],
    pub flow_starts: [u16; 65],
    pub flow: [u16; 512],
}

impl RowsHeld {
    #[tactic(auto, unfolding(crate::specs::Rows::no_rows))]
    pub fn new() -> RowsHeld
        ensures { result ≡ no_rows }
    {
        RowsHeld {
            starts: [0; 65],
            flow_starts: [0; 65],
            flow: [0; 512],
        }
    }
}

// The rows as they are lent. The places that flow may stand in a list of any length that holds them.
#[derive(Clone, Copy)]
pub struct RowsLent<'a> {
    pub starts: &'a [u16; 65],
    pub flow_starts: &'a [u16; 65],
    pub flow: &'a [u16],
}

// Where a row and its part of the flow end, and what its fractions add up to.
#[derive(Clone, Copy)]
struct RowHeld {
    end: usize,
    filled: usize,
    sum: FractionSum,
}

// Node i's row: adds its fractions up and writes the places that flow.
// A dry place is written too, and the next one takes its room: a branch on what flows would be foretold wrongly half the time.
fn survey_row(
    i: u8,
    start: usize,
    filled: usize,
    count: usize,
    from: &[u8; 512],
    fraction: &[u32; 512],
    flow: &mut [u16; 512],
) -> RowHeld
    requires begins { start ≤ count }
    requires few { count ≤ 512 }
    requires room { filled ≤ start }
    ensures { RowSurveyed result i start filled count from.now fraction.now flow.old flow.new }
{
    let mut k = start;
    let mut m = filled;
    let mut sum: u64 = 0;
    // A `while`: the row ends where a higher node begins, which is found on the way.
    while k < count && from[k] == i {
        let x = fraction[k];
        sum += u64::from(x);
        flow[m] = (k - start) as u16;
        m += usize::from(0 < x);
        k += 1;
    }
    RowHeld {
        end: k,
        filled: m,
        sum: FractionSum(sum),
    }
}

// Is it what is due of node i's row?
fn is_due(s: FractionSum, i: u8, destination: u8) -> bool
    ensures { result ≡ eqb s.0 (cond (eqb i destination) 0 whole) }
{
    if i == destination {
        s.0 == 0
    } else {
        s.0 == u64::from(Fraction::WHOLE.0)
    }
}

// Node i, where the sum of its row is wrong.
fn wrong_sum(s: FractionSum, i: u8, destination: u8) -> Option<usize>
    ensures { found_said result ≡ wrong_sum s.0 i destination }
{
    if is_due(s, i, destination) {
        None
    } else {
        Some(usize::from(i))
    }
}

// Writes where each node's row and flow begin, and the places that flow; answers the lowest node whose row has a wrong sum (7).
pub fn survey(h: SheetHeld, columns: &Columns, rows: &mut RowsHeld) -> Option<usize>
    requires nodes { h.head.nodes ≤ 64 }
    requires few { h.links ≤ 512 }
    requires sorted { Sorted h.head.nodes h.links columns.now.from }
    ensures { SurveyedIn result h columns.now rows.new }
{
    let mut wrong = None;
    let mut k: usize = 0;
    let mut m: usize = 0;
    rows.starts[0] = 0;
    rows.flow_starts[0] = 0;
    for i in 0..h.head.nodes {
        let row = survey_row(
            i,
            k,
            m,
            h.links,
            &columns.from,
            &columns.fraction,
            &mut rows.flow,
        );
        wrong = wrong.or(wrong_sum(row.sum, i, h.head.destination));
        k = row.end;
        m = row.filled;
        let next = usize::from(i) + 1;
        rows.starts[next] = k as u16;
        rows.flow_starts[next] = m as u16;
    }
    wrong
}
