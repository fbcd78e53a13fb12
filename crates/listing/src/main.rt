// Prints what one round makes of the sheet on standard input: each link's fraction before and after.
#![tactic(auto)]

use std::io;

// The ends of the link, and its fraction, the last four bytes of its record.
fn print_link(rt: &impl Print, before: [u8; 8], after: [u8; 8]) -> io::Result<()> {
    let [_, from, to, _, a, b, c, d] = before;
    let old = u32::from_be_bytes([a, b, c, d]);
    let [_, _, _, _, a, b, c, d] = after;
    let new = u32::from_be_bytes([a, b, c, d]);
    println!(rt; "{from} {to} {old} {new}")
}

// What is written has the sheet's length; behind it the buffer goes on.
fn print_links(rt: &impl Print, before: &[u8], after: &[u8]) -> io::Result<()> {
    println!(rt; "from to before after")?;
    for (old, new) in printing::links(before).iter().zip(printing::links(after)) {
        print_link(rt, *old, *new)?;
    }
    Ok(())
}

// The round of one sheet, or why it is refused.
fn list(rt: &impl Print, sheet: &[u8]) -> io::Result<()> {
    let mut after = [0u8; 8192];
    match hjerringsel::next(sheet, &mut after) {
        Ok(_) => print_links(rt, sheet, &after),
        Err(r) => println!(rt; "{r}"),
    }
}

fn main(rt: HostRuntime) -> io::Result<()> {
    let mut sheet = [0u8; 8192];
    let n = printing::read_full(&rt, &mut sheet)?;
    list(&rt, &sheet[..n])
}
