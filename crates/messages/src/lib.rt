// The round as messages: the state, which the caller lends, the one delivery function, and a list of deliveries.
#![tactic(auto)]

ghost use Rattle.std.specs.Prelude.{◌≡◌, ℕ, ◌+◌, ◌≤◌, ◌<◌, ltb, length, replicate, get_or};
ghost use Rattle.rules.specs.Lists.{bit};
ghost use Rattle.links.specs.List.{froms, fractions};
ghost use Rattle.node.specs.Net.{Empty, net_of};
ghost use Rattle.messages.specs.State.{AlikeAt, status_number, status_by, waits_by, fewer, change_of, step_of, LinkAt, LinkIn, waiting_in, refusal_at, Spare, CountedAt, CountedIn, StoredAt, StoredIn, row_quiet, RowsAt, Begun};
ghost use Rattle.messages.specs.Round.{linked, DeliverableIn, DeliveredIn, HeldIn, ListRunIn};

use answers::{Fault, Refusal};
use desk::Told;
use links::Link;
use node::{NetHeld, NetLent};
use numbers::{Fraction, Traffic};
use sheet::SheetHeld;

// How many neighbours a node has still to hear, times 1,024, and how many of them it has a flowing link to. One word a node: a status is
// a test of it, and a delivery one subtraction.
#[derive(Clone, Copy)]
pub struct Quiet(pub u32);

// The state of a round: by link the word that its far node told, 0 while it is silent; and by node whom it has still to hear.
#[derive(Drop)]
pub struct StateHeld {
    pub inbox: [u32; 512],
    pub quiet: [u32; 64],
}

impl StateHeld {
    // Nobody was told a word, and no node has a neighbour to hear until a round begins.
    #[tactic(auto, using(crate::proofs::Zeros::empty_zeros))]
    pub fn new() -> StateHeld
        ensures inbox { Empty result.inbox }
        ensures quiet { result.quiet ≡ replicate 64 0 }
    {
        StateHeld {
            inbox: [0; 512],
            quiet: [0; 64],
        }
    }
}

// Deliveries made, nodes finished. A round has one, which each delivery amends where it stands.
#[derive(Clone, Copy, Debug, PartialEq, Eq)]
pub struct Tally {
    pub deliveries: usize,
    pub finished: usize,
}

// How far a node is: a flowing neighbour is to be heard, another one is, or none. A status's number in the paper is its number here.
#[derive(Clone, Copy, Debug, PartialEq, Eq)]
pub enum Status {
    Waiting = 0,
    Ready = 1,
    Finished = 2,
}

impl Status {
    // Its number in the paper.
    pub fn number(self) -> u8
        ensures { result ≡ status_number self }
    {
        self as u8
    }
}

pub fn status_of(q: Quiet) -> Status
    ensures { status_number result ≡ status_by q.0 }
{
    if q.0 < 1024 {
        return Status::Finished;
    }
    if q.0 % 1024 == 0 {
        return Status::Ready;
    }
    Status::Waiting
}

// Does a message wait, whose node has the counts q, on a link with fraction x that carried w?
fn may_send(q: Quiet, x: Fraction, w: Told) -> bool
    ensures { result ≡ waits_by q.0 x.0 w.0 }
{
    let stat = status_of(q);
    let flows = 0 < x.0;
    !desk::is_heard(w) & ((stat == Status::Finished) | (stat == Status::Ready) & !flows)
}

// Does the message on link j wait?
pub fn is_waiting(j: usize, net: &NetHeld, state: &StateHeld) -> bool
    requires { LinkIn j net.now }
    ensures { result ≡ waiting_in j net.now state.now }
{
    let i = usize::from(net.columns.from[j]);
    let p = usize::from(net.opposite[j]);
    may_send(
        Quiet(state.quiet[i]),
        Fraction(net.columns.fraction[j]),
        Told(state.inbox[p]),
    )
}

// One neighbour fewer to hear, over a link with fraction x.
fn hear_one(q: Quiet, x: Fraction) -> Quiet
    requires { 1024 + bit (ltb 0 x.0) ≤ q.0 }
    ensures { result.0 ≡ fewer q.0 x.0 }
{
    if 0 < x.0 {
        Quiet(q.0 - 1025)
    } else {
        Quiet(q.0 - 1024)
    }
}

// What a stored word changes of the tally: nothing where one stood there already; else it is a delivery, and its far node may finish with it.
#[derive(Clone, Copy, Debug, PartialEq, Eq)]
pub enum Change {
    Again,
    Heard,
    Finished,
}

// A first word leaves its far node with the counts q.
fn change_of(q: Quiet) -> Change
    ensures { result ≡ change_of q.0 }
{
    let stat = status_of(q);
    if stat == Status::Finished {
        return Change::Finished;
    }
    Change::Heard
}

// The tally after a change.
pub fn stepped(t: Tally, change: Change) -> Tally
    requires { Spare t }
    ensures { result ≡ step_of t change }
{
    let deliveries = t.deliveries + 1;
    match change {
        Change::Again => t,
        Change::Heard => Tally { deliveries, ..t },
        Change::Finished => Tally {
            deliveries,
            finished: t.finished + 1,
        },
    }
}

// Amends the tally where it stands. This function, and those that lend it the tally, only pass it on.
fn amend(t: &mut Tally, change: Change)
    requires { Spare t.old }
    ensures { t.new ≡ step_of t.old change }
{
    *t = stepped(*t, change);
}

// Stores a word at place p of the inbox, which node b reads by its link with fraction x. Only the first word there counts as a delivery.
fn store_at(p: usize, b: u8, x: Fraction, w: Told, state: &mut StateHeld) -> Change
    requires place { p < 512 }
    requires node { b < 64 }
    requires counted { CountedAt p b x.0 state.old.inbox state.old.quiet }
    ensures { StoredAt p b x.0 w.0 state.old state.new result }
{
    let before = Told(state.inbox[p]);
    state.inbox[p] = w.0;
    if desk::is_heard(before) {
        return Change::Again;
    }
    let i = usize::from(b);
    let q = hear_one(Quiet(state.quiet[i]), x);
    state.quiet[i] = q.0;
    change_of(q)
}

// Stores a word on link j, where its far node hears it. Only the first word on a link counts as a delivery.
pub fn store(j: usize, w: Told, net: &NetHeld, state: &mut StateHeld) -> Change
    requires link { LinkIn j net.now }
    requires counted { CountedIn j net.now state.old }
    requires word { 0 < w.0 }
    ensures { StoredIn j w.0 net.now state.old state.new result }
{
    let p = usize::from(net.opposite[j]);
    let x = Fraction(net.columns.fraction[p]);
    store_at(p, net.columns.from[p], x, w, state)
}

// Node i's counts while it has heard nobody.
fn row_quiet(i: usize, starts: &[u16; 65], flow_starts: &[u16; 65]) -> Quiet
    requires low { i < 64 }
    requires rise { get_or starts.now i 0 ≤ get_or starts.now (i + 1) 0 }
    requires flow_rise { get_or flow_starts.now i 0 ≤ get_or flow_starts.now (i + 1) 0 }
    ensures { result.0 ≡ row_quiet starts.now flow_starts.now i }
{
    let all = u32::from(starts[i + 1]) - u32::from(starts[i]);
    let flowing = u32::from(flow_starts[i + 1]) - u32::from(flow_starts[i]);
    Quiet(all * 1024 + flowing)
}

// The counts where nothing was delivered. A node with no links has finished.
pub fn begin(n: u8, starts: &[u16; 65], flow_starts: &[u16; 65], quiet: &mut [u32; 64]) -> Tally
    requires { RowsAt n starts.now flow_starts.now }
    ensures { Begun n starts.now flow_starts.now quiet.new result }
{
    let mut finished = 0;
    for i in 0..usize::from(n) {
        let q = row_quiet(i, starts, flow_starts);
        quiet[i] = q.0;
        finished += usize::from(status_of(q) == Status::Finished);
    }
    Tally {
        deliveries: 0,
        finished,
    }
}

// The one delivery function: link j's node works its message out from its own records and what it has heard, it is stored, and the
// round's tally is amended where it stands. The nodes are read from the list of the links, whose fractions must agree with the column's.
pub fn deliver(
    h: SheetHeld,
    j: usize,
    t: &mut Tally,
    links: &[Link],
    net: &NetLent<'_>,
    state: &mut StateHeld,
)
    requires size { length links.now ≡ 512 }
    requires deliverable { DeliverableIn h.head.step.0 j (linked links.now (net_of net.now)) net.now.line.now state.old t.old }
    requires alike { AlikeAt (get_or net.now.opposite.now j 0) (fractions links.now) net.now.columns.now.fraction }
    ensures { DeliveredIn h j (linked links.now (net_of net.now)) net.now.line.now state.old state.new t.old t.new }
{
    let i = links::from_of(links::link_at(links, j));
    let m = node::message_of(
        h.head.step,
        Traffic(net.columns.traffic[usize::from(i)]),
        i,
        &net.rows,
        net.line,
        &net.columns.fraction,
        &state.inbox,
    );
    let p = usize::from(net.opposite[j]);
    let back = links::link_at(links, p);
    let change = store_at(
        p,
        links::from_of(back),
        links::fraction_of(back),
        desk::told_by(m),
        state,
    );
    amend(t, change);
}

// One delivery, for a caller that holds the tally by value and the links in columns.
pub fn deliver_once(
    h: SheetHeld,
    j: usize,
    t: Tally,
    net: &NetLent<'_>,
    state: &mut StateHeld,
) -> Tally
    requires deliverable { DeliverableIn h.head.step.0 j (net_of net.now) net.now.line.now state.old t }
    requires few { h.links ≤ 512 }
    requires inside { j < h.links }
    requires back { get_or net.now.opposite.now j 0 < h.links }
    ensures { DeliveredIn h j (net_of net.now) net.now.line.now state.old state.new t result }
{
    let mut links = [Link::NONE; 512];
    links::put_list(h.links, net.columns, &mut links);
    let mut tally = t;
    deliver(h, j, &mut tally, &links, net, state);
    tally
}

// What a number j of a list is refused with: NoSuchLink where it is no link's, then NotWaiting where no message waits there.
fn refusal_at(
    count: usize,
    j: usize,
    links: &[Link],
    opposite: &[u16; 512],
    state: &StateHeld,
) -> Option<Fault>
    requires size { length links.now ≡ 512 }
    requires link { j < count → LinkAt j (froms links.now) opposite.now }
    ensures { result ≡ refusal_at count j (froms links.now) (fractions links.now) opposite.now state.now.inbox state.now.quiet }
{
    if count <= j {
        return Some(Fault::NoSuchLink);
    }
    let l = links::link_at(links, j);
    let i = usize::from(links::from_of(l));
    let p = usize::from(opposite[j]);
    if may_send(
        Quiet(state.quiet[i]),
        links::fraction_of(l),
        Told(state.inbox[p]),
    ) {
        return None;
    }
    Some(Fault::NotWaiting)
}

// The deliveries of a list, from the beginning, over the list of the links.
fn run_links(
    h: SheetHeld,
    order: &[u16],
    links: &[Link],
    net: &NetLent<'_>,
    state: &mut StateHeld,
) -> Result<Tally, Refusal>
    requires held { HeldIn h (linked links.now (net_of net.now)) net.now.line.now }
    requires empty { Empty state.old.inbox }
    requires alike { (k : ℕ) → k < h.links → AlikeAt k (fractions links.now) net.now.columns.now.fraction }
    ensures { ListRunIn result h order.now (linked links.now (net_of net.now)) net.now.line.now state.new }
{
    let mut t = begin(
        h.head.nodes,
        net.rows.starts,
        net.rows.flow_starts,
        &mut state.quiet,
    );
    for (k, number) in order.iter().enumerate() {
        let j = usize::from(*number);
        if let Some(fault) = refusal_at(h.links, j, links, net.opposite, state) {
            return Err(Refusal { fault, place: k });
        }
        deliver(h, j, &mut t, links, net, state);
    }
    Ok(t)
}

// The deliveries of a list, from the beginning. The links, which come in any order then, are put into one list of records first.
pub fn run_list(
    h: SheetHeld,
    order: &[u16],
    net: &NetLent<'_>,
    state: &mut StateHeld,
) -> Result<Tally, Refusal>
    requires held { HeldIn h (net_of net.now) net.now.line.now }
    requires empty { Empty state.old.inbox }
    ensures { ListRunIn result h order.now (net_of net.now) net.now.line.now state.new }
{
    let mut links = [Link::NONE; 512];
    links::put_list(h.links, net.columns, &mut links);
    run_links(h, order, &links, net, state)
}
