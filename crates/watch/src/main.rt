// Shows the round as messages: for each delivery of house order its link, then each node's status, delay and mark.
#![tactic(auto)]

use std::io;

// A node's six bytes: status, mark, delay. `!` stands for the mark (blocked); a delay is shown only where there is one.
fn print_node(rt: &impl Print, i: usize, node: [u8; 6]) -> io::Result<()> {
    let [status, mark, a, b, c, d] = node;
    print!(rt; "  {i}: {status}")?;
    if status > 0 {
        print!(rt; " {}", u32::from_be_bytes([a, b, c, d]))?;
    }
    if mark > 0 {
        print!(rt; "!")?;
    }
    Ok(())
}

// Every node on one line.
fn print_nodes(rt: &impl Print, nodes: usize, frame: &[u8]) -> io::Result<()> {
    for (i, node) in frame.as_chunks().0.iter().take(nodes).enumerate() {
        print_node(rt, i, *node)?;
    }
    println!(rt)
}

// The link's number and its ends.
fn print_link(rt: &impl Print, sheet: &[u8], link: u16) -> io::Result<()> {
    let j = usize::from(link);
    let [_, from, to, ..] = printing::links(sheet).get(j).copied().unwrap_or_default();
    print!(rt; "{j} {from}>{to}")
}

// The state that a list leaves, on the rest of the line. A frame has six bytes a node, of at most 64.
fn print_state(rt: &impl Print, sheet: &[u8], list: &[u16]) -> io::Result<()> {
    let mut frame = [0u8; 384];
    match hjerringsel::frame(sheet, list, &mut frame) {
        Ok(_) => print_nodes(rt, printing::nodes(sheet), &frame),
        Err(r) => println!(rt; "{r}"),
    }
}

// The state before any delivery, then each of the list with the state after it.
fn watch(rt: &impl Print, sheet: &[u8], list: &[u16]) -> io::Result<()> {
    print!(rt; "start")?;
    print_state(rt, sheet, &[])?;
    for (k, link) in list.iter().enumerate() {
        print_link(rt, sheet, *link)?;
        print_state(rt, sheet, &list[..=k])?;
    }
    Ok(())
}

// A house order has a delivery for each link, at most 512, so `get` finds all of it; with it the proof need not know that.
fn take_house(rt: &impl Print, sheet: &[u8]) -> io::Result<()> {
    let mut list = [0u16; 512];
    match hjerringsel::house(sheet, &mut list) {
        Ok(n) => watch(rt, sheet, list.get(..n).unwrap_or(&list)),
        Err(r) => println!(rt; "{r}"),
    }
}

// The sheet is on standard input, at most 8,192 bytes.
fn main(rt: HostRuntime) -> io::Result<()> {
    let mut sheet = [0u8; 8192];
    let n = printing::read_full(&rt, &mut sheet)?;
    take_house(&rt, &sheet[..n])
}
