// The five calls, worked out: each opens its sheet, judges its room, and writes nothing before all is decided.
#![tactic(auto)]

ghost use Rattle.std.specs.Prelude.{◌≡◌, ◌≤◌, length};
ghost use Rattle.rules.specs.Calls.{check_reply, next_reply, play_reply, frame_reply, house_reply};
ghost use Rattle.answers.specs.Answers.{told, numbers, Answered};
ghost use Rattle.admit.specs.Opened.{Ready};
ghost use Rattle.calls.specs.Written.{roomy, NextWritten};

use answers::{Answer, Fault, Refusal};
use messages::StateHeld;
use node::NetHeld;
use sheet::SheetHeld;

// Check a sheet: answers its number of links.
pub fn check(sheet: &[u8]) -> Answer
    ensures { told result ≡ numbers (check_reply sheet.now) }
{
    let mut net = NetHeld::new();
    let h = admit::open(sheet, &mut net)?;
    Ok(h.links)
}

// The output buffer has to hold what is written (9).
fn judge_room(have: usize, need: usize) -> Result<(), Refusal>
    ensures { result ≡ roomy have need }
{
    if have < need {
        return Err(Refusal {
            fault: Fault::TooShort,
            place: need,
        });
    }
    Ok(())
}

// What Next writes of an accepted sheet: the round as a calculation, then the new fractions over a copy of the bytes.
fn write_next(b: &[u8], h: SheetHeld, net: &mut NetHeld, out: &mut [u8])
    requires ready { Ready h b.now net.old }
    requires room { length b.now ≤ length out.old }
    ensures { NextWritten h b.now net.old out.old out.new }
{
    let mut line = [0u32; 512];
    numbers::write_line_delays(&net.columns.load[..h.links], &mut line);
    let mut inbox = [0u32; 512];
    round::next_fractions(h, net, &line, &mut inbox);
    sheet::write_fractions(b, h, &net.columns.fraction, out);
}

// Writes the sheet with new fractions and nothing else changed; answers the bytes written.
pub fn next(sheet: &[u8], out: &mut [u8]) -> Answer
    ensures { Answered result (next_reply sheet.now (length out.old)) out.old out.new }
{
    let mut net = NetHeld::new();
    let h = admit::open(sheet, &mut net)?;
    judge_room(out.len(), sheet.len())?;
    write_next(sheet, h, &mut net, out);
    Ok(sheet.len())
}

// House order: each time the lowest link whose message waits; answers how many.
pub fn house(sheet: &[u8], out: &mut [u16]) -> Answer
    ensures { Answered result (house_reply sheet.now (length out.old)) out.old out.new }
{
    let mut net = NetHeld::new();
    let h = admit::open(sheet, &mut net)?;
    judge_room(out.len(), h.links)?;
    let mut state = StateHeld::new();
    house::write_house(h, &net, &mut state, out);
    Ok(h.links)
}

// Delivers the messages of the list in its order; writes the same as Next.
pub fn play(sheet: &[u8], list: &[u16], out: &mut [u8]) -> Answer
    ensures { Answered result (play_reply sheet.now list.now (length out.old)) out.old out.new }
{
    let mut net = NetHeld::new();
    let h = admit::open(sheet, &mut net)?;
    judge_room(out.len(), sheet.len())?;
    play::play_accepted(sheet, list, h, &net, out)
}

// Delivers the messages of a list, which may stop early; writes six bytes a node: status, blocked, delay.
pub fn frame(sheet: &[u8], list: &[u16], out: &mut [u8]) -> Answer
    ensures { Answered result (frame_reply sheet.now list.now (length out.old)) out.old out.new }
{
    let mut net = NetHeld::new();
    let h = admit::open(sheet, &mut net)?;
    judge_room(out.len(), 6 * usize::from(h.head.nodes))?;
    play::frame_accepted(list, h, &net, out)
}
