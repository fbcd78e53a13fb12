// Play and Frame once their sheet is accepted and there is room: the list is run first, and nothing is written before it is through.
#![tactic(auto)]

ghost use Rattle.std.specs.Prelude.{◌≡◌, ◌*◌, ◌≤◌, length};
ghost use Rattle.rules.specs.Sheet.{largest_step};
ghost use Rattle.sheet.specs.Held.{WriteAsked};
ghost use Rattle.node.specs.Net.{Lendable};
ghost use Rattle.play.specs.Played.{Accepted, AnyAccepted, Ended, Played, Framed};

use answers::{Answer, Fault, Refusal};
use messages::StateHeld;
use node::{NetHeld, NetLent};
use sheet::SheetHeld;

// The list is through: 11 where it ended early, else every node takes its new row, in place of a copy of the old, from what it has heard,
// and the sheet is written.
fn end_play(
    b: &[u8],
    js: &[u16],
    h: SheetHeld,
    net: &NetLent<'_>,
    inbox: &[u32; 512],
    fraction: &mut [u32; 512],
    out: &mut [u8],
) -> Answer
    requires rows { Lendable h.head.nodes net.now.rows.starts.now net.now.rows.flow_starts.now net.now.rows.flow.now net.now.line.now fraction.old inbox.now }
    requires step { h.head.step.0 ≤ largest_step }
    requires room { WriteAsked h b.now out.old }
    ensures { Ended result h b.now js.now net.now.columns.now.traffic net.now.rows.starts.now net.now.rows.flow_starts.now net.now.rows.flow.now net.now.line.now inbox.now fraction.old out.old out.new }
{
    if js.len() < h.links {
        return Err(Refusal {
            fault: Fault::ListEnds,
            place: js.len(),
        });
    }
    let traffic = &net.columns.traffic;
    node::take_rows(h, traffic, &net.rows, net.line, inbox, fraction);
    sheet::write_fractions(b, h, fraction, out);
    Ok(b.len())
}

// Play: 12 and 10 in the list, then its end.
pub fn play_accepted(b: &[u8], js: &[u16], h: SheetHeld, net: &NetHeld, out: &mut [u8]) -> Answer
    requires ready { Accepted h b.now net.now }
    requires room { length b.now ≤ length out.old }
    ensures { Played result h b.now js.now net.now out.old out.new }
{
    let mut line = [0u32; 512];
    numbers::write_line_delays(&net.columns.load[..h.links], &mut line);
    let lent = net.lend(&line);
    let mut state = StateHeld::new();
    messages::run_list(h, js, &lent, &mut state)?;
    let mut fraction = net.columns.fraction;
    end_play(b, js, h, &lent, &state.inbox, &mut fraction, out)
}

// Frame: its list may stop early, and six bytes a node are written of the state that it leaves. It begins as Play does; a function for
// that would take both arrays to lend from, and be no shorter.
pub fn frame_accepted(js: &[u16], h: SheetHeld, net: &NetHeld, out: &mut [u8]) -> Answer
    requires accepted { AnyAccepted h net.now }
    requires room { 6 * h.head.nodes ≤ length out.old }
    ensures { Framed result h js.now net.now out.old out.new }
{
    let mut line = [0u32; 512];
    numbers::write_line_delays(&net.columns.load[..h.links], &mut line);
    let lent = net.lend(&line);
    let mut state = StateHeld::new();
    messages::run_list(h, js, &lent, &mut state)?;
    frames::write_frames(
        h,
        &net.columns.traffic,
        &lent.rows,
        lent.line,
        &net.columns.fraction,
        &state.inbox,
        &state.quiet,
        out,
    );
    Ok(6 * usize::from(h.head.nodes))
}
