// The order of the nodes in which every flowing link leads to an earlier one, or the lowest node on a loop (8).
// An order is guessed and tested; only where the test fails is it looked for exactly.
#![tactic(auto)]

ghost use Rattle.std.specs.Prelude.{◌≡◌, ◌↔◌, IsTrue, true, ◌&&◌, ◌||◌, not, List, ℕ, ◌≤◌, ◌<◌, length, get_or, ltb, leb, eqb};
ghost use Rattle.rules.specs.Lists.{below, first};
ghost use Rattle.rules.specs.Loop.{on_loop};
ghost use Rattle.sheet.specs.Held.{found_said};
ghost use Rattle.order.specs.Order.{no_order, Links, Graph, Inverse, sheet_of, OrderGiven};
ghost use Rattle.order.specs.Inside.{RowFlow, RowAt, flow_row, to_row, Rowed, RowFalls, RowsFall, Tested, BareBelow, NextBare, Swapped, PeeledOut, Spread};

use network::RowsHeld;
use sheet::{Columns, SheetHeld};

// The nodes in their order, and each node's turn in it.
#[derive(Drop)]
pub struct OrderHeld {
    pub order: [u8; 64],
    pub turn: [u8; 64],
}

impl OrderHeld {
    #[tactic(auto, unfolding(crate::specs::Order::no_order))]
    pub fn new() -> OrderHeld
        ensures { result ≡ no_order }
    {
        OrderHeld {
            order: [0; 64],
            turn: [0; 64],
        }
    }

    // Says of the arrays what their types say, where a call has hidden it.
    fn size_up(&self)
        ensures order { length self.now.order ≡ 64 }
        ensures turn { length self.now.turn ≡ 64 }
    {
        let _order = self.order.len();
        let _turn = self.turn.len();
    }
}

// ---- A guess. Nothing is promised of it: it is tested.

// The nodes that a row's flowing places lead to, a bit for each.
fn far_nodes(flow: &[u16], to: &[u8]) -> u64
    requires { RowFlow flow.now to.now }
{
    let mut far = 0;
    for p in flow {
        far |= 1u64 << to[usize::from(*p)];
    }
    far
}

// Node i's part of the flow, and the far ends of its row.
fn row_of<'a>(i: usize, columns: &'a Columns, rows: &'a RowsHeld) -> (&'a [u16], &'a [u8])
    requires low { i < 64 }
    requires row { RowAt columns.now rows.now i }
    ensures flow { result.0.now ≡ flow_row rows.now i }
    ensures to { result.1.now ≡ to_row columns.now rows.now i }
    ensures leads { RowFlow (flow_row rows.now i) (to_row columns.now rows.now i) }
{
    let a = usize::from(rows.starts[i]);
    let e = usize::from(rows.starts[i + 1]);
    let f = usize::from(rows.flow_starts[i]);
    let g = usize::from(rows.flow_starts[i + 1]);
    (&rows.flow[f..g], &columns.to[a..e])
}

// Writes them for each node; and in place 64 all nodes, as if one more node had a link to each.
fn gather(n: usize, columns: &Columns, rows: &RowsHeld, far: &mut [u64; 65])
    requires { Rowed n columns.now rows.now }
{
    let mut all = 0;
    for i in 0..n {
        let (flow, to) = row_of(i, columns, rows);
        far[i] = far_nodes(flow, to);
        all |= 1u64 << i;
    }
    far[64] = all;
}

// The lowest node of a set, 64 of the empty one, as the library counts zeros.
fn lowest(nodes: u64) -> usize
    ensures { result ≤ 64 }
{
    nodes.trailing_zeros() as usize
}

// Walks from node 64 to nodes that were not met yet, and back where none is ahead; a node is noted as it is left.
// So the nodes that its links lead to are noted before it. There are two steps for each node: to it, and back.
fn descend(n: usize, far: &[u64; 65], order: &mut OrderHeld)
    requires { n ≤ 64 }
{
    // A stack of fixed size: nothing is taken from the heap.
    let mut path = [0u8; 128];
    let mut deep: usize = 0;
    let mut b: usize = 64;
    let mut unmet = u64::MAX;
    let mut done: usize = 0;
    for _ in 0..2 * n {
        let ahead = far[b] & unmet;
        if ahead == 0 {
            // Neither is ever so: two tests that are foretold cost less than the proof of it.
            if n <= b || deep == 0 {
                return;
            }
            order.order[done] = b as u8;
            order.turn[b] = done as u8;
            done += 1;
            deep -= 1;
            b = usize::from(path[deep]);
        } else {
            path[deep] = b as u8;
            deep += 1;
            b = lowest(ahead);
            unmet ^= ahead ^ (ahead & (ahead - 1));
        }
    }
}

fn guess(n: usize, columns: &Columns, rows: &RowsHeld, order: &mut OrderHeld)
    requires { Rowed n columns.now rows.now }
{
    let mut far = [0u64; 65];
    gather(n, columns, rows, &mut far);
    descend(n, &far, order);
}

// ---- The test of an order.

// Has each k below n its place below n, at which k itself is named?
fn is_inverse(n: usize, places: &[u8; 64], names: &[u8; 64]) -> bool
    requires { n ≤ 64 }
    ensures { IsTrue result → Inverse n places.now names.now }
{
    (0..n).all(|k| {
        let p = usize::from(places[k]);
        p < n && usize::from(names[p]) == k
    })
}

// Do a row's flowing places all lead to nodes before this turn? There is no branch on the turns: they could not be foreseen.
fn row_falls(near: u8, flow: &[u16], to: &[u8], turn: &[u8; 64]) -> bool
    requires { RowFlow flow.now to.now }
    ensures { IsTrue result → RowFalls near (length flow.now) flow.now to.now turn.now }
{
    let mut good = true;
    for p in flow {
        good &= turn[usize::from(to[usize::from(*p)])] < near;
    }
    good
}

// Do those of all rows lead to nodes before the row's own?
fn all_fall(n: usize, columns: &Columns, rows: &RowsHeld, turn: &[u8; 64]) -> bool
    requires { Rowed n columns.now rows.now }
    ensures { IsTrue result → RowsFall n columns.now rows.now turn.now }
{
    let mut good = true;
    for i in 0..n {
        let (flow, to) = row_of(i, columns, rows);
        good &= row_falls(turn[i], flow, to, turn);
    }
    good
}

fn is_order(n: usize, columns: &Columns, rows: &RowsHeld, order: &OrderHeld) -> bool
    requires { Rowed n columns.now rows.now }
    ensures { IsTrue result → Tested n columns.now rows.now order.now }
{
    is_inverse(n, &order.order, &order.turn)
        && is_inverse(n, &order.turn, &order.order)
        && all_fall(n, columns, rows, &order.turn)
}

// ---- An exact order: the nodes stand in some order throughout, and those in the first places are taken.

// Does the link flow from node i to a node that is not taken?
fn waits(fraction: u32, from: u8, i: u8, far: u8, tail: usize) -> bool
    ensures { result ≡ (ltb 0 fraction && (eqb from i && leb tail far)) }
{
    (0 < fraction) & ((from == i) & (tail <= usize::from(far)))
}

// Do all flowing links of node i lead to nodes that are taken?
fn is_bare(i: u8, tail: usize, count: usize, columns: &Columns, turn: &[u8; 64]) -> bool
    requires { Links 64 count columns.now }
    ensures { IsTrue result ↔ BareBelow count columns.now turn.now tail i }
{
    (0..count).all(|j| {
        let far = turn[usize::from(columns.to[j])];
        !waits(columns.fraction[j], columns.from[j], i, far, tail)
    })
}

// The place of the first node that can be taken.
fn next_bare(h: SheetHeld, tail: usize, columns: &Columns, order: &OrderHeld) -> Option<usize>
    requires { Links h.head.nodes h.links columns.now }
    ensures { NextBare result h.head.nodes h.links columns.now order.now tail }
{
    let n = usize::from(h.head.nodes);
    (tail..n).find(|k| is_bare(order.order[*k], tail, h.links, columns, &order.turn))
}

// The nodes at two places change places.
fn swap(k: usize, tail: usize, order: &mut OrderHeld)
    requires place { k < 64 }
    requires other_place { tail < 64 }
    requires node { get_or order.old.order k 0 < 64 }
    requires other_node { get_or order.old.order tail 0 < 64 }
    ensures { Swapped k tail order.old order.new }
{
    let i = order.order[k];
    let other = order.order[tail];
    order.order.swap(k, tail);
    order.turn[usize::from(other)] = k as u8;
    order.turn[usize::from(i)] = tail as u8;
}

// Any order to begin with.
fn set_out(n: usize, order: &mut OrderHeld)
    requires { n ≤ 64 }
    ensures node { Inverse n order.new.order order.new.turn }
    ensures turn_of { Inverse n order.new.turn order.new.order }
{
    for k in 0..n {
        order.order[k] = k as u8;
        order.turn[k] = k as u8;
    }
}

// Takes nodes as long as there is one that can be taken; answers how many were.
fn peel(h: SheetHeld, columns: &Columns, order: &mut OrderHeld) -> usize
    requires { Links h.head.nodes h.links columns.now }
    ensures { PeeledOut result h.head.nodes h.links columns.now order.new }
{
    let n = usize::from(h.head.nodes);
    set_out(n, order);
    for tail in 0..n {
        match next_bare(h, tail, columns, order) {
            Some(k) => swap(k, tail, order),
            None => return tail,
        }
    }
    n
}

// ---- The lowest node on a loop.

// Does a flowing link lead on, from the node itself or from a mark, to a node without a mark?
fn leads_on(fraction: u32, here: bool, near: bool, far: bool) -> bool
    ensures { result ≡ (ltb 0 fraction && ((here || near) && not far)) }
{
    (0 < fraction) & ((here | near) & !far)
}

// Marks the nodes to which a link leads on; answers whether there was one.
fn spread(i: u8, count: usize, columns: &Columns, marks: &mut [bool; 64]) -> bool
    requires { Links 64 count columns.now }
    ensures { Spread result count count columns.now i marks.old marks.new }
{
    let mut grew = false;
    for j in 0..count {
        let a = columns.from[j];
        let z = usize::from(columns.to[j]);
        if leads_on(columns.fraction[j], a == i, marks[usize::from(a)], marks[z]) {
            marks[z] = true;
            grew = true;
        }
    }
    grew
}

// Does a way lead from node i back to it? The node itself has no mark before a link leads to it.
fn is_on_loop(h: SheetHeld, i: u8, columns: &Columns) -> bool
    requires links { Links h.head.nodes h.links columns.now }
    requires node { i < h.head.nodes }
    ensures { (traffic ls : List ℕ) → result ≡ on_loop (sheet_of h columns.now traffic ls) i }
{
    let mut marks = [false; 64];
    let mut grew = true;
    // A `while`: as long as something is marked anew.
    while grew {
        grew = spread(i, h.links, columns, &mut marks);
    }
    marks[usize::from(i)]
}

fn find_loop(h: SheetHeld, columns: &Columns) -> Option<usize>
    requires { Links h.head.nodes h.links columns.now }
    ensures { (traffic ls : List ℕ) → found_said result ≡ first (on_loop (sheet_of h columns.now traffic ls)) (below h.head.nodes) }
{
    (0..h.head.nodes)
        .find(|i| is_on_loop(h, *i, columns))
        .map(usize::from)
}

// Answers the lowest node on a loop; where there is none, `order` holds an order.
pub fn find_order(
    h: SheetHeld,
    columns: &Columns,
    rows: &RowsHeld,
    order: &mut OrderHeld,
) -> Option<usize>
    requires { Graph h columns.now rows.now }
    ensures { OrderGiven result h columns.now order.new }
{
    let n = usize::from(h.head.nodes);
    guess(n, columns, rows, order);
    order.size_up();
    if is_order(n, columns, rows, order) {
        return None;
    }
    let taken = peel(h, columns, order);
    order.size_up();
    if taken == n {
        return None;
    }
    find_loop(h, columns)
}
