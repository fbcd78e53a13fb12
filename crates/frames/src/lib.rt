// What Frame writes of a state: six bytes a node, taken by the same rules as a message.
#![tactic(auto)]

ghost use Rattle.std.specs.Prelude.{◌≡◌, ◌+◌, ◌*◌, ◌≤◌, length};
ghost use Rattle.rules.specs.Sheet.{largest_step};
ghost use Rattle.sheet.specs.Held.{patched};
ghost use Rattle.node.specs.Net.{RowAt, Lendable};
ghost use Rattle.frames.specs.Frames.{Shows, FramesWritten};

use messages::{Quiet, Status};
use network::RowsLent;
use numbers::{Step, Traffic};
use sheet::SheetHeld;

// What node i shows, with the counts q: its status, its mark and its delay. With status 0 it knows no delay yet, so none is worked out.
#[tactic(auto, using(crate::proofs::Framing::shows_nothing))]
fn show_node(
    s: Step,
    t: Traffic,
    i: u8,
    q: Quiet,
    rows: &RowsLent<'_>,
    line: &[u32],
    fraction: &[u32],
    inbox: &[u32],
) -> [u8; 6]
    requires row { RowAt i rows.now.starts.now rows.now.flow_starts.now rows.now.flow.now line.now fraction.now inbox.now }
    requires step { s.0 ≤ largest_step }
    ensures { Shows result s.0 t.0 q.0 rows.now.starts.now line.now fraction.now inbox.now i }
{
    let status = messages::status_of(q);
    if status == Status::Waiting {
        return [0; 6];
    }
    let m = node::message_of(s, t, i, rows, line, fraction, inbox);
    let [a, b, c, d] = m.delay.0.to_be_bytes();
    [status.number(), u8::from(m.blocked), a, b, c, d]
}

// Six bytes at offset o.
fn put_frame(out: &mut [u8], o: usize, frame: [u8; 6])
    requires { o + 6 ≤ length out.old }
    ensures { out.new ≡ patched o frame out.old }
{
    out[o..o + 6].copy_from_slice(&frame);
}

// Writes every node's frame into the front of out.
pub fn write_frames(
    h: SheetHeld,
    traffic: &[u32; 64],
    rows: &RowsLent<'_>,
    line: &[u32],
    fraction: &[u32],
    inbox: &[u32],
    quiet: &[u32; 64],
    out: &mut [u8],
)
    requires rows { Lendable h.head.nodes rows.now.starts.now rows.now.flow_starts.now rows.now.flow.now line.now fraction.now inbox.now }
    requires step { h.head.step.0 ≤ largest_step }
    requires room { 6 * h.head.nodes ≤ length out.old }
    ensures { FramesWritten h.head.nodes h traffic.now rows.now.starts.now rows.now.flow_starts.now rows.now.flow.now line.now fraction.now inbox.now quiet.now out.old out.new }
{
    for i in 0..h.head.nodes {
        let k = usize::from(i);
        let frame = show_node(
            h.head.step,
            Traffic(traffic[k]),
            i,
            Quiet(quiet[k]),
            rows,
            line,
            fraction,
            inbox,
        );
        put_frame(out, 6 * k, frame);
    }
}
