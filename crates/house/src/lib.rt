// House order: each time the lowest link whose message waits. What waits depends only on who has been heard, so one fixed word is stored for every message.
#![tactic(auto)]

ghost use Rattle.std.specs.Prelude.{◌≡◌, ◌≤◌, ◌<◌, length, slice_set};
ghost use Rattle.node.specs.Net.{Empty};
ghost use Rattle.house.specs.Nodes.{With, Without, FirstIn};
ghost use Rattle.messages.specs.State.{LinkIn, CountedIn};
ghost use Rattle.house.specs.House.{LinksIn, NextFrom, Searchable, Found, ChosenStored, Fresh, GraphIn, HouseIn};

use desk::Told;
use messages::{Quiet, StateHeld};
use node::NetHeld;
use sheet::SheetHeld;

// How far a search has come: by node, the place before which no link of its row waits; and the nodes that may have a message waiting, a
// bit for each.
#[derive(Drop)]
struct Search {
    cursor: [u16; 64],
    live: u64,
}

impl Search {
    // Nothing is passed yet.
    fn new() -> Search
        ensures { Fresh result }
    {
        Search {
            cursor: [0; 64],
            live: u64::MAX,
        }
    }

    // The lowest node that is live, or 64, as the library counts zeros: a test against the nodes ends the walk in either case.
    fn first_live(&self) -> usize
        ensures { FirstIn self.now.live result }
    {
        self.live.trailing_zeros() as usize
    }

    // Node i, where nothing waits, is live no more.
    fn shut(&mut self, i: usize)
        requires { i < 64 }
        ensures same { self.new.cursor ≡ self.old.cursor }
        ensures less { Without self.old.live i self.new.live }
    {
        // Not `&=`: a read by itself tells the proof that the word has 64 bits.
        self.live = self.live & !(1 << i);
    }

    // Node i's row is searched from its start again.
    fn open(&mut self, i: usize)
        requires { i < 64 }
        ensures back { self.new.cursor ≡ slice_set self.old.cursor i 0 }
        ensures more { With self.old.live i self.new.live }
    {
        self.cursor[i] = 0;
        self.live |= 1 << i;
    }
}

// The first link from start on, and below end, whose message waits; end where none does, which is where the cursor then goes.
fn next_in_row(start: usize, end: usize, net: &NetHeld, state: &StateHeld) -> usize
    requires { LinksIn end net.now }
    ensures { NextFrom start end result net.now state.now }
{
    (start..end)
        .find(|&j| messages::is_waiting(j, net, state))
        .unwrap_or(end)
}

// The lowest link whose message waits; one does, so the loop ends at it. A row is searched from where its last search stopped, and a node
// where nothing waits is live no more.
fn find_lowest(h: SheetHeld, net: &NetHeld, state: &StateHeld, search: &mut Search) -> usize
    requires { Searchable h net.now state.now search.old }
    ensures { Found h result net.now state.now search.new }
{
    let nodes = usize::from(h.head.nodes);
    let mut i = search.first_live();
    // A `while`: it walks a set that shrinks under it, and counts nothing.
    while i < nodes {
        let start = net.rows.starts[i].max(search.cursor[i]);
        let end = usize::from(net.rows.starts[i + 1]);
        let j = next_in_row(usize::from(start), end, net, state);
        search.cursor[i] = j as u16;
        if j < end {
            return j;
        }
        search.shut(i);
        i = search.first_live();
    }
    h.links
}

// Stores the word on link j. Only its far node's status can change; where it does, that node's row is searched from its start again.
// No message is delivered, so there is no tally to amend.
fn store_chosen(j: usize, net: &NetHeld, state: &mut StateHeld, search: &mut Search)
    requires link { LinkIn j net.now }
    requires counted { CountedIn j net.now state.old }
    ensures { ChosenStored j net.now state.old search.old state.new search.new }
{
    let p = usize::from(net.opposite[j]);
    let far = usize::from(net.columns.from[p]);
    let before = messages::status_of(Quiet(state.quiet[far]));
    messages::store(j, Told(1), net, state);
    let after = messages::status_of(Quiet(state.quiet[far]));
    if before != after {
        search.open(far);
    }
}

// Writes the house order into the front of out: a number for each link.
pub fn write_house(h: SheetHeld, net: &NetHeld, state: &mut StateHeld, out: &mut [u16])
    requires graph { GraphIn h net.now }
    requires empty { Empty state.old.inbox }
    requires room { h.links ≤ length out.old }
    ensures { HouseIn h net.now out.old out.new }
{
    messages::begin(
        h.head.nodes,
        &net.rows.starts,
        &net.rows.flow_starts,
        &mut state.quiet,
    );
    let mut search = Search::new();
    for k in 0..h.links {
        let j = find_lowest(h, net, state, &mut search);
        out[k] = j as u16;
        store_chosen(j, net, state, &mut search);
    }
}
