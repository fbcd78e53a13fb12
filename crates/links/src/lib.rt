// The links of a sheet as one list of records, and each link's opposite.
#![tactic(auto)]

ghost use Rattle.std.specs.Prelude.{◌≡◌, true, ◌&&◌, ℕ, ◌≤◌, ◌<◌, length, get_or, eqb};
ghost use Rattle.rules.specs.Lists.{below, first};
ghost use Rattle.rules.specs.Sheet.{opposite};
ghost use Rattle.sheet.specs.Held.{found_said};
ghost use Rattle.links.specs.List.{link_said, link_at, froms, row_start, row_range, turns_at, ListedIn};
ghost use Rattle.links.specs.Opposites.{RisesTo, Paired};

use numbers::Fraction;
use sheet::{Columns, SheetHeld};

// A link's record. Its kind, which is 3, makes it eight whole bytes: a list with a byte to spare in each is cleared slowly.
#[derive(Clone, Copy, PartialEq, Eq, Debug)]
pub struct Link {
    pub kind: u8,
    pub from: u8,
    pub to: u8,
    pub load: u8,
    pub fraction: Fraction,
}

impl Link {
    // What stands where there is no link.
    pub const NONE: Link = Link {
        kind: 0,
        from: 0,
        to: 0,
        load: 0,
        fraction: Fraction(0),
    };
}

// ---- What the crates above read of a link: the list is read by a few thin functions (docs/DECISIONS.md).

pub fn from_of(l: Link) -> u8
    ensures { result ≡ l.from }
{
    l.from
}

pub fn fraction_of(l: Link) -> Fraction
    ensures { result ≡ l.fraction }
{
    l.fraction
}

pub fn link_at(links: &[Link], j: usize) -> Link
    requires { j < length links.now }
    ensures { result ≡ link_at links.now j }
{
    links[j]
}

// Does a link that runs from one node to another run from node a to node z?
fn is_between(from: u8, to: u8, a: u8, z: u8) -> bool
    ensures { result ≡ (eqb from a && eqb to z) }
{
    from == a && to == z
}

// Is m the opposite of l?
fn is_opposite(l: Link, m: Link) -> bool
    ensures { result ≡ opposite (link_said l) (link_said m) }
{
    is_between(m.from, m.to, l.to, l.from)
}

// ---- The list.

// The first place of a link from node i or a higher one; the list's length where there is none. Walked from the front: nothing is asked of
// the list's order, as a search would.
fn row_start(links: &[Link], i: u16) -> usize
    ensures { result ≡ row_start i links.now }
{
    links.iter().take_while(|l| u16::from(l.from) < i).count()
}

// Where a node's row begins, and where the next node's does. Not the library's `Range`, which is not `Copy`.
#[derive(Clone, Copy, PartialEq, Eq, Debug)]
pub struct RowRange {
    pub start: usize,
    pub end: usize,
}

// Node i's row.
pub fn row_of(links: &[Link], i: u8) -> RowRange
    ensures { result ≡ row_range i links.now }
{
    let n = u16::from(i);
    RowRange {
        start: row_start(links, n),
        end: row_start(links, n + 1),
    }
}

// The place of link j's opposite, where it is present: it is looked for in the row of the far node.
pub fn opposite_of(links: &[Link], j: usize) -> Option<usize>
    requires inside { j < length links.now }
    requires rising { RisesTo (length links.now) (froms links.now) }
    ensures { found_said result ≡ first (turns_at links.now j) (below (length links.now)) }
{
    let l = links[j];
    let row = row_of(links, l.to);
    for k in row.start..row.end {
        if is_opposite(l, links[k]) {
            return Some(k);
        }
    }
    None
}

// Puts the links that stand in the columns into a list that the caller lends: 4 KB, which `list` hands on by copying.
pub fn put_list(count: usize, columns: &Columns, links: &mut [Link; 512])
    requires { count ≤ 512 }
    ensures { ListedIn count columns.now links.new }
{
    for j in 0..count {
        links[j] = Link {
            kind: 3,
            from: columns.from[j],
            to: columns.to[j],
            load: columns.load[j],
            fraction: Fraction(columns.fraction[j]),
        };
    }
}

// The list of the links that stand in the columns.
pub fn list(count: usize, columns: &Columns) -> [Link; 512]
    requires { count ≤ 512 }
    ensures { ListedIn count columns.now result }
{
    let mut links = [Link::NONE; 512];
    put_list(count, columns, &mut links);
    links
}

// ---- Opposites.

// Since links rise by (from, to), the links into a node come in the order of the links out of it.
// So a cursor in each row, which starts where the row does, guesses the opposite, and what is guessed is tested.
fn meet_opposites(
    count: usize,
    starts: &[u16; 65],
    columns: &Columns,
    opposite: &mut [u16; 512],
) -> bool
    requires few { count ≤ 512 }
    requires nodes { (j : ℕ) → j < count → get_or columns.now.to j 0 < 64 }
    ensures { result ≡ true → Paired None count columns.now.from columns.now.to opposite.new }
{
    let Columns { from, to, .. } = columns;
    let mut cursor = *starts;
    for j in 0..count {
        let b = usize::from(to[j]);
        let c = usize::from(cursor[b]);
        if count <= c || !is_between(from[c], to[c], to[j], from[j]) {
            return false;
        }
        opposite[j] = c as u16;
        cursor[b] = (c + 1) as u16;
    }
    true
}

// Looks every opposite up in the list: slow, and exact for sheets that the cursors do not get through.
fn search_opposites(count: usize, columns: &Columns, opposite: &mut [u16; 512]) -> Option<usize>
    requires few { count ≤ 512 }
    requires rising { RisesTo count columns.now.from }
    ensures { Paired result count columns.now.from columns.now.to opposite.new }
{
    let links = list(count, columns);
    for j in 0..count {
        match opposite_of(&links[..count], j) {
            None => return Some(j),
            Some(k) => opposite[j] = k as u16,
        }
    }
    None
}

// Writes for each link the number of its opposite; answers the first link that has none (6).
pub fn pair_links(
    h: SheetHeld,
    starts: &[u16; 65],
    columns: &Columns,
    opposite: &mut [u16; 512],
) -> Option<usize>
    requires few { h.links ≤ 512 }
    requires nodes { h.head.nodes ≤ 64 }
    requires ends { (j : ℕ) → j < h.links → get_or columns.now.to j 0 < h.head.nodes }
    requires rising { RisesTo h.links columns.now.from }
    ensures { Paired result h.links columns.now.from columns.now.to opposite.new }
{
    if meet_opposites(h.links, starts, columns, opposite) {
        return None;
    }
    search_opposites(h.links, columns, opposite)
}
