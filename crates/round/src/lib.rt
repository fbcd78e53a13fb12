// The round as a calculation: the nodes, in an order in which every flowing link leads to an earlier one, each tell their word
// to all their neighbours at once; then each takes its new row. The work is that of the messages, at the same desks.
#![tactic(auto)]

ghost use Rattle.std.specs.Prelude.{◌≡◌, ℕ, ◌+◌, ◌<◌, ◌≤◌, length, get_or};
ghost use Rattle.node.specs.Net.{Empty};
ghost use Rattle.round.specs.Calculated.{Tellable, Noted, Given, ToldFor, CalculatedFor, with_fractions};

use desk::Told;
use network::RowsLent;
use node::NetHeld;
use numbers::Traffic;
use sheet::SheetHeld;

// Node i's word is noted for each of its neighbours: at the link that leads back to it.
fn tell(i: u8, w: Told, starts: &[u16; 65], opposite: &[u16; 512], inbox: &mut [u32; 512])
    requires { Tellable i starts.now opposite.now }
    ensures { Noted (get_or starts.now i 0) (get_or starts.now (i + 1) 0) opposite.now w.0 inbox.old inbox.new }
{
    let k = usize::from(i);
    for l in usize::from(starts[k])..usize::from(starts[k + 1]) {
        let p = usize::from(opposite[l]);
        inbox[p] = w.0;
    }
}

// The n nodes, in their order.
fn nodes_of(order: &[u8; 64], n: u8) -> &[u8]
    requires { n ≤ 64 }
    ensures long { length result.now ≡ n }
    ensures same { (k : ℕ) → k < n → get_or result.now k 0 ≡ get_or order.now k 0 }
{
    &order[..usize::from(n)]
}

// All nodes in their order: when a node's turn comes it has heard every node that it has a flowing link to.
pub fn tell_all(h: SheetHeld, net: &NetHeld, line: &[u32; 512], inbox: &mut [u32; 512])
    requires given { Given h net.now line.now }
    requires quiet { Empty inbox.old }
    ensures { ToldFor h net.now line.now inbox.new }
{
    // Written out, so that the proof sees the rows themselves.
    let rows = RowsLent {
        starts: &net.rows.starts,
        flow_starts: &net.rows.flow_starts,
        flow: &net.rows.flow,
    };
    let nodes = nodes_of(&net.order.order, h.head.nodes);
    for &i in nodes {
        let t = Traffic(net.columns.traffic[usize::from(i)]);
        let m = node::message_of(h.head.step, t, i, &rows, line, &net.columns.fraction, inbox);
        tell(i, desk::told_by(m), &net.rows.starts, &net.opposite, inbox);
    }
}

// Every node's new row in place of the old.
pub fn next_fractions(h: SheetHeld, net: &mut NetHeld, line: &[u32; 512], inbox: &mut [u32; 512])
    requires given { Given h net.old line.now }
    requires quiet { Empty inbox.old }
    ensures next { CalculatedFor h net.old line.now net.new.columns.fraction }
    ensures long { length net.new.columns.fraction ≡ 512 }
    ensures rest { net.new ≡ with_fractions net.old net.new.columns.fraction }
{
    tell_all(h, net, line, inbox);
    let rows = RowsLent {
        starts: &net.rows.starts,
        flow_starts: &net.rows.flow_starts,
        flow: &net.rows.flow,
    };
    node::take_rows(
        h,
        &net.columns.traffic,
        &rows,
        line,
        inbox,
        &mut net.columns.fraction,
    );
}
