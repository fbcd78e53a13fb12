// Writes the class's plates as files, and their bytes in the same order to standard output, where a check compares them.
#![tactic(auto)]

use std::io::Write;
use std::rt::Files;
use std::{fs, io};

// Where the plates differ. All have 3 nodes, destination 0, all six links, and traffic 5 at node 0.
#[derive(Clone, Copy)]
struct Plate {
    step: u32,
    traffic_1: u32,
    traffic_2: u32,
    load_10: u8,
    load_20: u8,
    fraction_10: u32,
    fraction_12: u32,
    fraction_20: u32,
    fraction_21: u32,
}

const PLATE_A: Plate = Plate {
    step: 64,
    traffic_1: 2,
    traffic_2: 5,
    load_10: 192,
    load_20: 0,
    fraction_10: 65536,
    fraction_12: 0,
    fraction_20: 65536,
    fraction_21: 0,
};

const PLATE_B: Plate = Plate {
    step: 256,
    traffic_1: 1,
    traffic_2: 100,
    load_10: 0,
    load_20: 192,
    fraction_10: 32768,
    fraction_12: 32768,
    ..PLATE_A
};

// The records' kinds stand as bytes: this crate stands on no other.
// A number of four bytes has the high byte first.
fn put_head<W: Write>(out: &mut W, step: u32) -> io::Result<()> {
    out.write_all(&[1, 3, 0])?;
    out.write_all(&step.to_be_bytes())
}

fn put_node<W: Write>(out: &mut W, node: u8, traffic: u32) -> io::Result<()> {
    out.write_all(&[2, node])?;
    out.write_all(&traffic.to_be_bytes())
}

fn put_link<W: Write>(out: &mut W, from: u8, to: u8, load: u8, fraction: u32) -> io::Result<()> {
    out.write_all(&[3, from, to, load])?;
    out.write_all(&fraction.to_be_bytes())
}

fn put_plate<W: Write>(out: &mut W, p: Plate) -> io::Result<()> {
    put_head(out, p.step)?;
    put_node(out, 0, 5)?;
    put_node(out, 1, p.traffic_1)?;
    put_node(out, 2, p.traffic_2)?;
    put_link(out, 0, 1, 0, 0)?;
    put_link(out, 0, 2, 0, 0)?;
    put_link(out, 1, 0, p.load_10, p.fraction_10)?;
    put_link(out, 1, 2, 0, p.fraction_12)?;
    put_link(out, 2, 0, p.load_20, p.fraction_20)?;
    put_link(out, 2, 1, 0, p.fraction_21)?;
    out.write_all(&[9])
}

// A file that can't be made is named, and the next plate follows.
fn save<R: Files + Print + Eprint>(rt: &R, path: &str, p: Plate) -> io::Result<()> {
    put_plate(&mut io::writer(rt), p)?;
    match fs::create(rt, path) {
        Ok(mut file) => put_plate(&mut file, p),
        Err(error) => eprintln!(rt; "{path}: {error}"),
    }
}

// A still plate, a step too many, and nodes 1 and 2 sending all to each other, which Check refuses: 8 at 1.
fn main(rt: HostRuntime) -> io::Result<()> {
    let still = Plate {
        traffic_1: 0,
        ..PLATE_A
    };
    let too_long = Plate {
        step: 257,
        ..PLATE_B
    };
    let looped = Plate {
        fraction_10: 0,
        fraction_12: 65536,
        fraction_20: 0,
        fraction_21: 65536,
        ..PLATE_A
    };
    save(&rt, "plate_a.sheet", PLATE_A)?;
    save(&rt, "plate_a_still.sheet", still)?;
    save(&rt, "plate_b.sheet", PLATE_B)?;
    save(&rt, "plate_b_257.sheet", too_long)?;
    save(&rt, "plate_a_looped.sheet", looped)
}
