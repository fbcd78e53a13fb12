// What the programs share: standard input as bytes, and the records of a sheet.
#![tactic(auto)]

ghost use Rattle.std.specs.Prelude.{◌≡◌, ◌+◌, ◌*◌, ◌≤◌, ◌<◌, length, take, drop, get_or, IfOk};
ghost use Rattle.printing.specs.Records.{records};
ghost use Rattle.std.specs.Io.KnownBytes.{Consumes, IsAtEnd};

use std::io;
use std::io::Read;

// Fills the buffer, as far as what is read goes; answers how many bytes there were. The library has no such read: `read_exact` refuses a
// shorter input, and `read_to_end` takes memory from the heap.
pub fn fill<R: Read>(reader: &mut R, buf: &mut [u8]) -> io::Result<usize>
    ensures bound { IfOk result (λ n. n ≤ length buf.new) }
    ensures bytes { IfOk result (λ n. Consumes (R.remaining reader.old) (R.remaining reader.new) (take n buf.new)) }
    ensures short_at_the_end { IfOk result (λ n. n < length buf.new → IsAtEnd (R.remaining reader.new)) }
{
    let mut n: usize = 0;
    while n < buf.len() {
        let more = reader.read(&mut buf[n..])?;
        if more == 0 {
            return Ok(n);
        }
        n += more;
    }
    Ok(n)
}

// Fills the buffer from standard input.
pub fn read_full<R: Input>(rt: &R, buf: &mut [u8]) -> io::Result<usize>
    ensures { IfOk result (λ n. n ≤ length buf.new) }
{
    fill(&mut rt.reader(), buf)
}

// How many nodes a sheet says that it has; 0 where it ends before that, since no node is printed then either.
pub fn nodes(sheet: &[u8]) -> usize
    ensures { result ≡ get_or sheet.now 1 0 }
{
    usize::from(sheet.get(1).copied().unwrap_or(0))
}

// The whole link records of a sheet, 8 bytes each: they stand behind the head, 7 bytes, and the nodes, 6 bytes each.
pub fn links(sheet: &[u8]) -> &[[u8; 8]]
    ensures { result.now ≡ records 8 (drop (7 + 6 * get_or sheet.now 1 0) sheet.now) }
{
    let first = 7 + 6 * nodes(sheet);
    let rest = sheet.get(first..).unwrap_or(&[]);
    rest.as_chunks().0
}
