// One node's desk: what it works out from its own records and from what its neighbours told it.
// A row is slices of one length: the lines' delays, the fractions, and the words of the far nodes; and the places of the links that flow.
// No far node is looked at: the links of a row rise by it, so the lower place is the lower far node.
#![tactic(auto)]

ghost use Rattle.std.specs.Prelude.{◌≡◌, ℕ, ◌/◌, ◌≤◌, ◌<◌, List, length};
ghost use Rattle.rules.specs.Sheet.{largest_step, largest_delay};
ghost use Rattle.rules.specs.Desk.{delay_told, mark_told, heard, message, new_row};
ghost use Rattle.desk.specs.Ways.{told_of, message_said, ways_of, desk_with, Row, Rises};

use numbers::{Delay, Fraction, Step, Traffic};
use row::RowLent;

mod row;
mod way;

// What a far node told, as one number: 0 while it is silent; else four times its delay, and 1, and 2 more with the blocked mark.
// A number, not an Option of a message: a row is lent its inbox as a row of numbers (`row_message`, `new_row`).
#[derive(Clone, Copy, Debug, Default, PartialEq, Eq)]
pub struct Told(pub u32);

// What a node tells.
#[derive(Clone, Copy, Debug, PartialEq, Eq)]
pub struct Message {
    pub delay: Delay,
    pub blocked: bool,
}

// What a node tells, as its word.
pub fn told_by(m: Message) -> Told
    requires { m.delay.0 ≤ largest_delay }
    ensures said { told_of result.0 ≡ message_said m }
    ensures kept { result.0 / 4 ≡ m.delay.0 }
    ensures told { 0 < result.0 }
{
    Told(m.delay.0 * 4 + if m.blocked { 3 } else { 1 })
}

// Was the far node heard?
pub fn is_heard(w: Told) -> bool
    ensures { result ≡ heard (told_of w.0) }
{
    w.0 != 0
}

// The delay that was told, 0 while the far node is silent.
fn delay_told(w: Told) -> Delay
    ensures said { result.0 ≡ delay_told (told_of w.0) }
    ensures kept { result.0 ≡ w.0 / 4 }
{
    Delay(w.0 / 4)
}

fn is_marked(w: Told) -> bool
    ensures { result ≡ mark_told (told_of w.0) }
{
    w.0 / 2 % 2 == 1
}

// What the node tells: its delay and its mark.
pub fn row_message(
    s: Step,
    t: Traffic,
    line: &[u32],
    fraction: &[u32],
    inbox: &[u32],
    flow: &[u16],
) -> Message
    requires keeps { Row line.now fraction.now inbox.now flow.now }
    requires step { s.0 ≤ largest_step }
    ensures said { (fs : List ℕ) → length fs ≡ length fraction.now → message_said result ≡ message (desk_with s.0 t.0 (ways_of fs line.now fraction.now inbox.now)) }
    ensures small { result.delay.0 ≤ largest_delay }
{
    let row = RowLent {
        line,
        fraction,
        inbox,
        flow,
    };
    let delay = row.delay();
    Message {
        delay,
        blocked: row.is_blocked(s, t, delay),
    }
}

// The row's new fractions in place of the old: the best gains all that was cut, what was cut from itself included.
pub fn new_row(s: Step, t: Traffic, line: &[u32], inbox: &[u32], flow: &[u16], row: &mut [u32])
    requires keeps { Row line.now row.old inbox.now flow.now }
    requires step { s.0 ≤ largest_step }
    ensures { (fs : List ℕ) → length fs ≡ length row.old → Rises fs → row.new ≡ new_row (desk_with s.0 t.0 (ways_of fs line.now row.old inbox.now)) }
{
    if row.is_empty() {
        return;
    }
    let best = RowLent {
        line,
        fraction: row,
        inbox,
        flow,
    }
    .best();
    let cut = row::cut_row(s, t, best.cost, line, inbox, flow, row);
    let own = &mut row[best.place];
    *own = (Fraction(*own) + cut).0;
}
