// A sheet's records, read from its bytes into columns that the caller lends.
#![tactic(auto)]

ghost use Rattle.std.specs.Prelude.{◌≡◌, ◌&&◌, ◌+◌, ◌*◌, ◌≤◌, ◌<◌, ◌++◌, length, get_or, leb, eqb, take, drop, IfOk, Err};
ghost use Rattle.rules.specs.Bytes.{four};
ghost use Rattle.rules.specs.Check.{word_at, read, record_at, head_right, head_fields, head_at, node_at, nodes_from, in_range, link_fields, item_at, sheet_at, sheet_alone};
ghost use Rattle.sheet.specs.Held.{no_columns, read_said, kind_number, head_said, link_said, item_said, key_of, LinkRoom, TakenHeld, LinksHeld, Lent, SheetGiven, patched, Filled, WriteAsked, FractionsWritten};

use answers::{Fault, Refusal};
use numbers::{Fraction, Step, Traffic};

// A record's kind is its first byte.
#[derive(Clone, Copy, PartialEq, Eq, Debug)]
enum Kind {
    Head = 1,
    Node = 2,
    Link = 3,
    End = 9,
}

#[derive(Clone, Copy, PartialEq, Eq, Debug)]
pub struct HeadHeld {
    pub nodes: u8,
    pub destination: u8,
    pub step: Step,
}

// A link as it is read. Not `links::Link`: one struct for both made Check slower (docs/DECISIONS.md).
#[derive(Clone, Copy, PartialEq, Eq, Debug)]
pub struct LinkHeld {
    pub from: u8,
    pub to: u8,
    pub load: u8,
    pub fraction: Fraction,
}

// A sheet's columns: the traffic by node, and what stands in the links by link. Columns, since a desk is lent a row of numbers, and
// since a list of records made Check slower (docs/DECISIONS.md). Nothing is taken from the heap, so a count stands beside them (`SheetHeld`).
#[derive(Drop)]
pub struct Columns {
    pub traffic: [u32; 64],
    pub from: [u8; 512],
    pub to: [u8; 512],
    pub load: [u8; 512],
    pub fraction: [u32; 512],
}

impl Columns {
    #[tactic(auto, unfolding(crate::specs::Held::no_columns))]
    pub fn new() -> Columns
        ensures { result ≡ no_columns }
    {
        Columns {
            traffic: [0; 64],
            from: [0; 512],
            to: [0; 512],
            load: [0; 512],
            fraction: [0; 512],
        }
    }
}

// How many links stand in the columns, and the offset behind the last record read.
#[derive(Clone, Copy, PartialEq, Eq, Debug)]
struct LinksTaken {
    count: usize,
    behind: usize,
}

// The head, and how many links stand in the columns. Beside them, since it is the answer of who reads a sheet.
#[derive(Clone, Copy, PartialEq, Eq, Debug)]
pub struct SheetHeld {
    pub head: HeadHeld,
    pub links: usize,
}

fn refused<T>(fault: Fault, place: usize) -> Result<T, Refusal>
    ensures { result ≡ Err (record { fault = fault; place = place }) }
{
    Err(Refusal { fault, place })
}

// Four bytes, the high byte first.
fn word_at(b: &[u8], o: usize) -> u32
    requires { o + 4 ≤ length b.now }
    ensures { result ≡ word_at b.now o }
{
    u32::from_be_bytes([b[o], b[o + 1], b[o + 2], b[o + 3]])
}

// What is wrong with a record before its fields are looked at.
fn check_record(b: &[u8], o: usize, kind: Kind, body: usize) -> Result<(), Refusal>
    ensures said { read_said (λ u. read u o) result
        ≡ record_at b.now o (kind_number kind) body (read tt o) }
    ensures fits { IfOk result (λ _. o + 1 + body ≤ length b.now) }
{
    if b.len() <= o {
        return refused(Fault::CutShort, o);
    }
    let is = b[o];
    let left = b.len() - o;
    if is != kind as u8 {
        return refused(Fault::WrongKind, o);
    }
    if left <= body {
        refused(Fault::CutShort, o)
    } else {
        Ok(())
    }
}

fn head_fields(b: &[u8], o: usize) -> HeadHeld
    requires { o + 7 ≤ length b.now }
    ensures { head_said result ≡ head_fields b.now o }
{
    HeadHeld {
        nodes: b[o + 1],
        destination: b[o + 2],
        step: Step(word_at(b, o + 3)),
    }
}

fn is_head_right(h: HeadHeld) -> bool
    ensures { result ≡ head_right (head_said h) }
{
    2 <= h.nodes
        && h.nodes <= 64
        && h.destination < h.nodes
        && 1 <= h.step.0
        && h.step.0 <= Step::LARGEST.0
}

// The head, and the offset behind it.
fn head_at(b: &[u8], o: usize) -> Result<(HeadHeld, usize), Refusal>
    ensures { read_said (λ p. read (head_said p.0) p.1) result ≡ head_at b.now o }
{
    check_record(b, o, Kind::Head, 6)?;
    let h = head_fields(b, o);
    if is_head_right(h) {
        Ok((h, o + 7))
    } else {
        refused(Fault::OutOfRange, o)
    }
}

// The traffic of node i, and the offset behind it.
fn node_at(b: &[u8], o: usize, i: u8) -> Result<(Traffic, usize), Refusal>
    ensures { read_said (λ p. read p.0.0 p.1) result ≡ node_at b.now o i }
{
    check_record(b, o, Kind::Node, 5)?;
    if b[o + 1] == i {
        Ok((Traffic(word_at(b, o + 2)), o + 6))
    } else {
        refused(Fault::OutOfRange, o)
    }
}

fn link_fields(b: &[u8], o: usize) -> LinkHeld
    requires { o + 8 ≤ length b.now }
    ensures { link_said result ≡ link_fields b.now o }
{
    LinkHeld {
        from: b[o + 1],
        to: b[o + 2],
        load: b[o + 3],
        fraction: Fraction(word_at(b, o + 4)),
    }
}

fn is_in_range(n: u8, l: LinkHeld) -> bool
    ensures { result ≡ in_range n (link_said l) }
{
    l.from < n && l.to < n && l.from != l.to && l.fraction.0 <= Fraction::WHOLE.0
}

// A link or, as None, the end record; and the offset behind it.
fn item_at(b: &[u8], o: usize, n: u8) -> Result<(Option<LinkHeld>, usize), Refusal>
    ensures { read_said (λ p. read (item_said p.0) p.1) result ≡ item_at b.now o n }
{
    if o < b.len() && b[o] == Kind::End as u8 {
        return Ok((None, o + 1));
    }
    check_record(b, o, Kind::Link, 7)?;
    let l = link_fields(b, o);
    if is_in_range(n, l) {
        Ok((Some(l), o + 8))
    } else {
        refused(Fault::OutOfRange, o)
    }
}

// Reads n node records into the traffic, up to the offset that it answers.
fn read_nodes(b: &[u8], start: usize, n: u8, traffic: &mut [u32; 64]) -> Result<usize, Refusal>
    requires { n ≤ 64 }
    ensures { read_said (λ e. read (take n traffic.new) e) result ≡ nodes_from n b.now start 0 }
{
    let mut o = start;
    for i in 0..n {
        let (t, behind) = node_at(b, o, i)?;
        traffic[usize::from(i)] = t.0;
        o = behind;
    }
    Ok(o)
}

// A link's place in the order of (from, to), as one number.
fn key_of(from: u8, to: u8) -> u32
    ensures key { result ≡ key_of from to }
    ensures small { result < 65536 }
{
    u32::from(from) * 256 + u32::from(to)
}

// Is it a link record, in range and not below the least key that may come? The kind is the byte that was read.
fn is_next(least: u32, kind: u8, n: u8, l: LinkHeld) -> bool
    ensures { result ≡ (leb least (key_of l.from l.to) && (eqb kind 3 && in_range n (link_said l))) }
{
    least <= key_of(l.from, l.to) && kind == Kind::Link as u8 && is_in_range(n, l)
}

// For how many link records there is room, at most 512: one test a link for both.
fn link_room(b: &[u8], start: usize) -> usize
    ensures { LinkRoom result b.now start }
{
    (b.len().saturating_sub(start) / 8).min(512)
}

// Takes the links as long as they are right: no test here says what is wrong, so their order is free.
// What stands behind the links taken is left to be judged.
fn take_links(b: &[u8], start: usize, n: u8, columns: &mut Columns) -> LinksTaken
    ensures links { TakenHeld result b.now start n columns.new }
    ensures traffic { columns.new.traffic ≡ columns.old.traffic }
    ensures lent { Lent columns.new }
{
    let room = link_room(b, start);
    let mut o = start;
    let mut least: u32 = 0;
    for k in 0..room {
        let l = link_fields(b, o);
        if !is_next(least, b[o], n, l) {
            return LinksTaken {
                count: k,
                behind: o,
            };
        }
        columns.from[k] = l.from;
        columns.to[k] = l.to;
        columns.load[k] = l.load;
        columns.fraction[k] = l.fraction.0;
        least = key_of(l.from, l.to) + 1;
        o += 8;
    }
    LinksTaken {
        count: room,
        behind: o,
    }
}

// Reads the link records and the end record. A link that was not taken is out of order or one too many.
fn read_links(b: &[u8], start: usize, n: u8, columns: &mut Columns) -> Result<LinksTaken, Refusal>
    ensures links { LinksHeld result b.now start n columns.new }
    ensures traffic { columns.new.traffic ≡ columns.old.traffic }
    ensures lent { Lent columns.new }
{
    let taken = take_links(b, start, n, columns);
    let (item, behind) = item_at(b, taken.behind, n)?;
    match item {
        Some(_) => refused(Fault::NotRising, taken.behind),
        None => Ok(LinksTaken { behind, ..taken }),
    }
}

// Reads a sheet that starts at an offset, up to its end record and the offset behind it.
pub fn read_sheet(
    b: &[u8],
    start: usize,
    columns: &mut Columns,
) -> Result<(SheetHeld, usize), Refusal>
    ensures given { SheetGiven result (sheet_at b.now start) columns.new }
    ensures lent { Lent columns.new }
{
    let (head, e) = head_at(b, start)?;
    let f = read_nodes(b, e, head.nodes, &mut columns.traffic)?;
    let taken = read_links(b, f, head.nodes, columns)?;
    let links = taken.count;
    Ok((SheetHeld { head, links }, taken.behind))
}

// Reads the one sheet that the bytes hold: refusals 1 to 5.
pub fn read_alone(b: &[u8], columns: &mut Columns) -> Result<(SheetHeld, usize), Refusal>
    ensures given { SheetGiven result (sheet_alone b.now) columns.new }
    ensures lent { Lent columns.new }
{
    let (h, behind) = read_sheet(b, 0, columns)?;
    if behind < b.len() {
        refused(Fault::BytesAfter, behind)
    } else {
        Ok((h, behind))
    }
}

// ---- The sheet written again, with other fractions.

// Writes four bytes, the high byte first.
pub fn put_word(out: &mut [u8], o: usize, x: u32)
    requires { o + 4 ≤ length out.old }
    ensures { out.new ≡ patched o (four x) out.old }
{
    out[o..o + 4].copy_from_slice(&x.to_be_bytes());
}

// Writes the fractions into the link records, the first of which stands at start.
fn put_fractions(start: usize, count: usize, fraction: &[u32; 512], out: &mut [u8])
    requires few { count ≤ 512 }
    requires room { start + 8 * count ≤ length out.old }
    ensures { Filled start count fraction.now out.old out.new }
{
    for j in 0..count {
        put_word(out, start + 8 * j + 4, fraction[j]);
    }
}

// Copies b over the front of out. A loop, since `copy_from_slice` calls memmove: the archive for C would need one more name from outside.
fn copy_front(b: &[u8], out: &mut [u8])
    requires { length b.now ≤ length out.old }
    ensures { out.new ≡ b.now ++ drop (length b.now) out.old }
{
    for (i, &x) in b.iter().enumerate() {
        out[i] = x;
    }
}

// Writes the sheet of b with these fractions in the place of its own; what lies behind it in out stays.
pub fn write_fractions(b: &[u8], h: SheetHeld, fraction: &[u32; 512], out: &mut [u8])
    requires { WriteAsked h b.now out.old }
    ensures { FractionsWritten h b.now fraction.now out.old out.new }
{
    copy_front(b, out);
    let start = 7 + 6 * usize::from(h.head.nodes);
    put_fractions(start, h.links, fraction, out);
}
