// What follows where a word is stored that its node would not have sent, through the code that plays a round.
// With nothing on standard input it shows the two false states of document 01, and beside each the same with the true word.
// Otherwise standard input is a case: byte 0 is the question, 1 or 2; bytes 1 and 2 the link that the word is stored on, 3 to 6 its delay,
// 7 its mark; 8 and 9 the link that is then delivered on, for question 1; the sheet comes behind. A number has its high byte first. The
// answer to question 1 is what that link carries, to question 2 every link's new fraction, on a line each.
#![tactic(auto)]

mod plate_a;

ghost use Rattle.std.specs.Prelude.{◌≡◌, [], ◌∷◌, ◌≤◌, ◌<◌, get_or};
ghost use Rattle.rules.specs.Sheet.{largest_stored};
ghost use Rattle.rules.specs.Plates.{plate_a};
ghost use Rattle.desk.specs.Ways.{told_of, message_said};
ghost use Rattle.node.specs.Net.{net_sheet};
ghost use Rattle.admit.specs.Opened.{Admitted};
ghost use Rattle.false_states.specs.False.{carried_by, Placed, SentAsked, Sent, RowsAsked, RowsTaken, TakenWith, Followed, word_said, sent_by, row_by, everything};

use answers::Refusal;
use desk::{Message, Told};
use messages::StateHeld;
use node::NetHeld;
use numbers::{Delay, Fraction};
use sheet::SheetHeld;
use std::io;

// The largest delay of a stored word that the statements of one delivery speak of.
const LARGEST_STORED: u32 = 63 * 1_048_576;

// What is asked: the word that the delivery on a link then stores, with nothing else delivered; or every node's new row, with everything
// delivered.
#[derive(Clone, Copy)]
enum Question {
    Carries(usize),
    Rows,
}

// The answer: a word; or how many links have new fractions, which stand in an array that the caller lends. Nothing is the answer for a
// sheet that is refused, and for a number that is no link's: one of three cases, since `Followed` speaks of all three.
#[derive(Clone, Copy)]
enum Follows {
    Nothing,
    Carried(Told),
    Taken(usize),
}

// Node 1's row on plate A: what it sends to 0 directly, and over 2.
#[derive(Clone, Copy)]
struct RowHeld {
    direct: Fraction,
    over: Fraction,
}

// The word on link j, which stands where its far node hears it.
fn word_on(j: usize, opposite: &[u16; 512], inbox: &[u32; 512]) -> Told
    requires { Placed j opposite.now inbox.now }
    ensures { result.0 ≡ get_or inbox.now (get_or opposite.now j 0) 0 }
{
    let p = usize::from(opposite[j]);
    Told(inbox[p])
}

// The word that the delivery on link k stores, where only link j was delivered and w is stored there.
fn sent_after(j: usize, w: Told, k: usize, h: SheetHeld, net: &NetHeld, line: &[u32]) -> Told
    requires { SentAsked j w.0 k h net.now line.now }
    ensures { Sent result.0 j w.0 k h net.now line.now }
{
    let mut state = StateHeld::new();
    let begun = messages::begin(
        h.head.nodes,
        &net.rows.starts,
        &net.rows.flow_starts,
        &mut state.quiet,
    );
    let change = messages::store(j, w, net, &mut state);
    let stored = messages::stepped(begun, change);
    let lent = net.lend(line);
    messages::deliver_once(h, k, stored, &lent, &mut state);
    word_on(k, &net.opposite, &state.inbox)
}

// Every node's new row, where the list was delivered and then w stored on link j.
fn take_after(
    list: &[u16],
    j: usize,
    w: Told,
    h: SheetHeld,
    net: &NetHeld,
    line: &[u32],
    fraction: &mut [u32; 512],
) -> Result<(), Refusal>
    requires { RowsAsked j w.0 h net.now line.now }
    ensures { RowsTaken result list.now j w.0 h net.now line.now fraction.new }
{
    let lent = net.lend(line);
    let mut state = StateHeld::new();
    messages::run_list(h, list, &lent, &mut state)?;
    messages::store(j, w, net, &mut state);
    *fraction = net.columns.fraction;
    node::take_rows(
        h,
        &net.columns.traffic,
        &lent.rows,
        line,
        &state.inbox,
        fraction,
    );
    Ok(())
}

// Over an accepted sheet: m is stored on link j, and link k then carries this.
fn sent_with(j: usize, m: Message, k: usize, h: SheetHeld, net: &NetHeld) -> Told
    requires accepted { Admitted h net.now }
    requires stored { j < h.links }
    requires sent { k < h.links }
    requires small { m.delay.0 ≤ largest_stored }
    ensures { told_of result.0 ≡ carried_by (net_sheet h net.now) j (message_said m) k }
{
    let mut line = [0u32; 512];
    numbers::write_line_delays(&net.columns.load[..h.links], &mut line);
    sent_after(j, desk::told_by(m), k, h, net, &line)
}

// Over an accepted sheet: its house order is delivered, m is stored on link j, and every node takes its new row.
fn taken_with(
    j: usize,
    m: Message,
    h: SheetHeld,
    net: &NetHeld,
    fraction: &mut [u32; 512],
) -> Result<(), Refusal>
    requires accepted { Admitted h net.now }
    requires stored { j < h.links }
    requires small { m.delay.0 ≤ largest_stored }
    ensures { TakenWith result j m h net.now fraction.new }
{
    let mut line = [0u32; 512];
    let mut list = [0u16; 512];
    let mut state = StateHeld::new();
    numbers::write_line_delays(&net.columns.load[..h.links], &mut line);
    house::write_house(h, net, &mut state, &mut list);
    take_after(
        &list[..h.links],
        j,
        desk::told_by(m),
        h,
        net,
        &line,
        fraction,
    )
}

// What follows where m is stored on link j of a sheet.
fn work_out(
    question: Question,
    sheet: &[u8],
    j: usize,
    m: Message,
    fraction: &mut [u32; 512],
) -> Follows
    requires { m.delay.0 ≤ largest_stored }
    ensures { Followed question sheet.now j m result fraction.new }
{
    let mut net = NetHeld::new();
    let Ok(h) = admit::open(sheet, &mut net) else {
        return Follows::Nothing;
    };
    let count = h.links;
    if count <= j {
        return Follows::Nothing;
    }
    match question {
        Question::Carries(k) => {
            if count <= k {
                return Follows::Nothing;
            }
            Follows::Carried(sent_with(j, m, k, h, &net))
        }
        Question::Rows => match taken_with(j, m, h, &net, fraction) {
            Ok(()) => Follows::Taken(count),
            Err(_) => Follows::Nothing,
        },
    }
}

fn word_in(f: Follows) -> Told
    ensures { told_of result.0 ≡ word_said f }
{
    match f {
        Follows::Carried(w) => w,
        Follows::Nothing | Follows::Taken(_) => Told(0),
    }
}

// Plate A, with the delay stored on (0,1), unmarked, and nothing else delivered: what goes on (1,2).
fn word_on_plate_a(delay: Delay) -> Told
    requires { delay.0 ≤ largest_stored }
    ensures { told_of result.0 ≡ sent_by plate_a delay.0 }
{
    let sheet = plate_a::BYTES;
    let mut fraction = [0u32; 512];
    let f = work_out(
        Question::Carries(plate_a::LINK_12),
        &sheet,
        plate_a::LINK_01,
        Message {
            delay,
            blocked: false,
        },
        &mut fraction,
    );
    word_in(f)
}

// Plate A, with everything delivered and the delay stored on (2,1), unmarked: node 1's new row.
fn row_on_plate_a(delay: Delay) -> RowHeld
    requires { delay.0 ≤ largest_stored }
    ensures { (result.direct.0 ∷ result.over.0 ∷ []) ≡ row_by plate_a (everything plate_a) delay.0 }
{
    let sheet = plate_a::BYTES;
    let mut fraction = [0u32; 512];
    work_out(
        Question::Rows,
        &sheet,
        plate_a::LINK_21,
        Message {
            delay,
            blocked: false,
        },
        &mut fraction,
    );
    RowHeld {
        direct: Fraction(fraction[plate_a::LINK_10]),
        over: Fraction(fraction[plate_a::LINK_12]),
    }
}

// A word is four times its delay, and 1, and 2 more with the blocked mark. Desk's own readers are private, and typed.
fn delay_in(w: Told) -> u32 {
    w.0 / 4
}

fn mark_in(w: Told) -> u32 {
    w.0 / 2 % 2
}

fn show_word(rt: &impl Print, kind: &str, delay: Delay) -> io::Result<()>
    requires { delay.0 ≤ largest_stored }
{
    let stored = delay.0;
    let w = word_on_plate_a(delay);
    let carried = delay_in(w);
    let mark = if mark_in(w) == 1 {
        "marked"
    } else {
        "unmarked"
    };
    println!(rt;
        "{kind} word {stored} on (0,1), nothing else delivered: (1,2) carries {carried}, {mark}"
    )
}

fn show_row(rt: &impl Print, kind: &str, delay: Delay) -> io::Result<()>
    requires { delay.0 ≤ largest_stored }
{
    let stored = delay.0;
    let row = row_on_plate_a(delay);
    let direct = row.direct.0;
    let over = row.over.0;
    println!(rt;
        "{kind} word {stored} on (2,1), everything delivered: node 1's row {direct} {over}"
    )
}

fn show_plate_a(rt: &impl Print) -> io::Result<()> {
    show_word(rt, "true", Delay(0))?;
    show_word(rt, "false", Delay(100))?;
    show_row(rt, "true", Delay(16))?;
    show_row(rt, "false", Delay(100))
}

// A line for each link.
fn print_fractions(rt: &impl Print, fraction: &[u32]) -> io::Result<()> {
    for x in fraction {
        println!(rt; "{x}")?;
    }
    Ok(())
}

fn print_follows(rt: &impl Print, f: Follows, fraction: &[u32]) -> io::Result<()> {
    match f {
        Follows::Nothing => println!(rt; "no such case"),
        Follows::Carried(w) => println!(rt; "carries {} {}", delay_in(w), mark_in(w)),
        Follows::Taken(count) => print_fractions(rt, fraction.get(..count).unwrap_or(fraction)),
    }
}

// What follows in the case that these bytes are.
fn follow_case(b: &[u8], fraction: &mut [u32; 512]) -> Follows {
    let Some((case, sheet)) = b.split_first_chunk::<10>() else {
        return Follows::Nothing;
    };
    let [question, j0, j1, d0, d1, d2, d3, mark, k0, k1] = *case;
    let delay = u32::from_be_bytes([d0, d1, d2, d3]);
    if LARGEST_STORED < delay || 1 < mark {
        return Follows::Nothing;
    }
    // The input says the question by a byte, here and nowhere else.
    let asked = match question {
        1 => Question::Carries(usize::from(u16::from_be_bytes([k0, k1]))),
        2 => Question::Rows,
        _ => return Follows::Nothing,
    };
    let j = usize::from(u16::from_be_bytes([j0, j1]));
    let m = Message {
        delay: Delay(delay),
        blocked: mark == 1,
    };
    work_out(asked, sheet, j, m, fraction)
}

fn answer(rt: &impl Print, b: &[u8]) -> io::Result<()> {
    let mut fraction = [0u32; 512];
    let f = follow_case(b, &mut fraction);
    print_follows(rt, f, &fraction)
}

fn main(rt: HostRuntime) -> io::Result<()> {
    let mut input = [0u8; 8192];
    let n = printing::read_full(&rt, &mut input)?;
    if n == 0 {
        show_plate_a(&rt)
    } else {
        answer(&rt, &input[..n])
    }
}
