// A node at its desk: its row is lent to crates/desk as parts of the columns that hold the sheet, and nothing else of them.
// The calculation and the messages both go through these functions.
#![tactic(auto)]

ghost use Rattle.std.specs.Prelude.{◌≡◌, List, ℕ, ◌+◌, ◌≤◌, ◌<◌, length, get_or};
ghost use Rattle.rules.specs.Sheet.{largest_step, largest_delay};
ghost use Rattle.rules.specs.Desk.{message, new_row};
ghost use Rattle.desk.specs.Ways.{message_said};
ghost use Rattle.node.specs.Net.{row_desk, RowAt, Tells, RowsRise, RowTaken, Lendable, Renewed, net_of, unordered, no_net};

use desk::Message;
use network::{RowsHeld, RowsLent};
use numbers::{Step, Traffic};
use order::OrderHeld;
use sheet::{Columns, SheetHeld};

// An accepted sheet, with all that its calls work out of it once.
#[derive(Drop)]
pub struct NetHeld {
    pub columns: Columns,
    pub rows: RowsHeld,
    pub opposite: [u16; 512],
    pub order: OrderHeld,
}

impl NetHeld {
    #[tactic(auto, unfolding(crate::specs::Net::no_net))]
    pub fn new() -> NetHeld
        ensures { result ≡ no_net }
    {
        NetHeld {
            columns: Columns::new(),
            rows: RowsHeld::new(),
            opposite: [0; 512],
            order: OrderHeld::new(),
        }
    }
}

// The same as it is lent to a round, with its lines' delays.
#[derive(Clone, Copy)]
pub struct NetLent<'a> {
    pub columns: &'a Columns,
    pub rows: RowsLent<'a>,
    pub opposite: &'a [u16; 512],
    pub line: &'a [u32],
}

impl NetHeld {
    // Lent to a round, with these lines' delays.
    pub fn lend<'a>(&'a self, line: &'a [u32]) -> NetLent<'a>
        ensures net { net_of result ≡ unordered self.now }
        ensures line { result.line.now ≡ line.now }
    {
        let RowsHeld {
            starts,
            flow_starts,
            flow,
        } = &self.rows;
        NetLent {
            columns: &self.columns,
            rows: RowsLent {
                starts,
                flow_starts,
                flow,
            },
            opposite: &self.opposite,
            line,
        }
    }
}

// A part of a column: a row's places in the links, or its flowing places. Not a `Range`, which is not `Copy`: a part cuts three slices.
// Other crates want others of a row's four ends, and read them themselves.
#[derive(Clone, Copy)]
struct Part {
    start: usize,
    end: usize,
}

// Node i's part, where the next node's begins as its own ends.
fn part_at(starts: &[u16; 65], i: u8) -> Part
    requires { i < 64 }
    ensures start { result.start ≡ get_or starts.now i 0 }
    ensures end { result.end ≡ get_or starts.now (i + 1) 0 }
{
    let k = usize::from(i);
    Part {
        start: usize::from(starts[k]),
        end: usize::from(starts[k + 1]),
    }
}

// What node i tells: its delay and its mark.
pub fn message_of(
    s: Step,
    t: Traffic,
    i: u8,
    rows: &RowsLent<'_>,
    line: &[u32],
    fraction: &[u32],
    inbox: &[u32],
) -> Message
    requires row { RowAt i rows.now.starts.now rows.now.flow_starts.now rows.now.flow.now line.now fraction.now inbox.now }
    requires step { s.0 ≤ largest_step }
    ensures { Tells result s.0 t.0 rows.now.starts.now line.now fraction.now inbox.now i }
{
    let p = part_at(rows.starts, i);
    let f = part_at(rows.flow_starts, i);
    desk::row_message(
        s,
        t,
        &line[p.start..p.end],
        &fraction[p.start..p.end],
        &inbox[p.start..p.end],
        &rows.flow[f.start..f.end],
    )
}

// Node i's new row, in place of the old.
fn take_row(
    s: Step,
    t: Traffic,
    i: u8,
    rows: &RowsLent<'_>,
    line: &[u32],
    inbox: &[u32],
    fraction: &mut [u32],
)
    requires row { RowAt i rows.now.starts.now rows.now.flow_starts.now rows.now.flow.now line.now fraction.old inbox.now }
    requires step { s.0 ≤ largest_step }
    ensures { (ts : List ℕ) → RowsRise i rows.now.starts.now ts
        → RowTaken rows.now.starts.now i fraction.old (new_row (row_desk s.0 t.0 rows.now.starts.now ts line.now fraction.old inbox.now i)) fraction.new }
{
    let p = part_at(rows.starts, i);
    let f = part_at(rows.flow_starts, i);
    desk::new_row(
        s,
        t,
        &line[p.start..p.end],
        &inbox[p.start..p.end],
        &rows.flow[f.start..f.end],
        &mut fraction[p.start..p.end],
    );
}

// Every node's new row.
pub fn take_rows(
    h: SheetHeld,
    traffic: &[u32; 64],
    rows: &RowsLent<'_>,
    line: &[u32],
    inbox: &[u32],
    fraction: &mut [u32],
)
    requires rows { Lendable h.head.nodes rows.now.starts.now rows.now.flow_starts.now rows.now.flow.now line.now fraction.old inbox.now }
    requires step { h.head.step.0 ≤ largest_step }
    ensures { (ts : List ℕ) → ((i : ℕ) → i < h.head.nodes → RowsRise i rows.now.starts.now ts)
        → Renewed h.head.step.0 h.head.nodes traffic.now rows.now.starts.now ts line.now fraction.old inbox.now fraction.new }
{
    for i in 0..h.head.nodes {
        let t = Traffic(traffic[usize::from(i)]);
        take_row(h.head.step, t, i, rows, line, inbox, fraction);
    }
}
