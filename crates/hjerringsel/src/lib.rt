// The public calls. Each answers for every input. The work is in crates/calls; the C interface is crates/hjerringsel_c.
#![tactic(auto)]

ghost use Rattle.std.specs.Prelude.{◌≡◌, length};
ghost use Rattle.rules.specs.Calls.{check_reply, next_reply, play_reply, frame_reply, house_reply};
ghost use Rattle.answers.specs.Answers.{told, numbers, Answered};

use answers::Answer;

// Check a sheet: answers its number of links.
pub fn check(sheet: &[u8]) -> Answer
    ensures { told result ≡ numbers (check_reply sheet.now) }
{
    calls::check(sheet)
}

// Writes the sheet with new fractions and nothing else changed; answers the bytes written.
pub fn next(sheet: &[u8], out: &mut [u8]) -> Answer
    ensures { Answered result (next_reply sheet.now (length out.old)) out.old out.new }
{
    calls::next(sheet, out)
}

// House order: each time the lowest link whose message waits; answers how many.
pub fn house(sheet: &[u8], out: &mut [u16]) -> Answer
    ensures { Answered result (house_reply sheet.now (length out.old)) out.old out.new }
{
    calls::house(sheet, out)
}

// Delivers the messages of the list in its order; writes the same as Next.
pub fn play(sheet: &[u8], list: &[u16], out: &mut [u8]) -> Answer
    ensures { Answered result (play_reply sheet.now list.now (length out.old)) out.old out.new }
{
    calls::play(sheet, list, out)
}

// Delivers the messages of a list, which may stop early; writes six bytes a node: status, blocked, delay.
pub fn frame(sheet: &[u8], list: &[u16], out: &mut [u8]) -> Answer
    ensures { Answered result (frame_reply sheet.now list.now (length out.old)) out.old out.new }
{
    calls::frame(sheet, list, out)
}
