// The C interface over the public calls: a slice is a pointer and a length, the answer is number × 2^32 + value.
#![tactic(auto)]

ghost use Rattle.std.specs.Prelude.{◌≡◌, length};
ghost use Rattle.rules.specs.Calls.{check_reply, next_reply, play_reply, frame_reply, house_reply};
ghost use Rattle.answers.specs.Answers.{numbers, packed, Exported};

#[unsafe(no_mangle)]
pub extern "C" fn hjerringsel_check(sheet: &[u8]) -> u64
    ensures { result ≡ packed (numbers (check_reply sheet.now)) }
{
    answers::packed_of(hjerringsel::check(sheet))
}

#[unsafe(no_mangle)]
pub extern "C" fn hjerringsel_next(sheet: &[u8], out: &mut [u8]) -> u64
    ensures { Exported result (next_reply sheet.now (length out.old)) out.old out.new }
{
    answers::packed_of(hjerringsel::next(sheet, out))
}

#[unsafe(no_mangle)]
pub extern "C" fn hjerringsel_house(sheet: &[u8], out: &mut [u16]) -> u64
    ensures { Exported result (house_reply sheet.now (length out.old)) out.old out.new }
{
    answers::packed_of(hjerringsel::house(sheet, out))
}

#[unsafe(no_mangle)]
pub extern "C" fn hjerringsel_play(sheet: &[u8], list: &[u16], out: &mut [u8]) -> u64
    ensures { Exported result (play_reply sheet.now list.now (length out.old)) out.old out.new }
{
    answers::packed_of(hjerringsel::play(sheet, list, out))
}

#[unsafe(no_mangle)]
pub extern "C" fn hjerringsel_frame(sheet: &[u8], list: &[u16], out: &mut [u8]) -> u64
    ensures { Exported result (frame_reply sheet.now list.now (length out.old)) out.old out.new }
{
    answers::packed_of(hjerringsel::frame(sheet, list, out))
}
