// Compares the plate read back from a box with the order: prints the rows of each, and whether they are the same.
#![tactic(auto)]

use anyhow::{anyhow, bail};
use kinds::{Entry, FrameRow, FrameTable, MissCountedRow, MissCountedTable, TableRow};
use plan::load::load;
use plate::frame::Frame;
use plate::same::{first_difference, same};
use std::{env, fmt, fs, io};

// An entry of a table, with the number of its task.
#[derive(Drop)]
struct Task<'a, R: TableRow> {
    number: usize,
    entry: &'a Entry<R>,
}

// One for each kind of row: they have other fields, and other words.
impl fmt::Display for Task<'_, MissCountedRow> {
    fn fmt<W: fmt::Write>(&self, f: &mut fmt::Formatter<W>) -> fmt::Result {
        let MissCountedRow { gap, budget, .. } = self.entry.row;
        writeln!(f, "task {} miss-counted gap {gap}", self.number)?;
        for (i, rank) in self.entry.ranks().iter().enumerate() {
            writeln!(f, "  class {} rank {rank} budget {budget}", i + 1)?;
        }
        Ok(())
    }
}

impl fmt::Display for Task<'_, FrameRow> {
    fn fmt<W: fmt::Write>(&self, f: &mut fmt::Formatter<W>) -> fmt::Result {
        writeln!(f, "task {} frames gap {}", self.number, self.entry.row.gap)?;
        for (i, frame) in self.entry.frames().iter().enumerate() {
            let Frame { budget, rank } = frame;
            writeln!(f, "  frame {} rank {rank} budget {budget}", i + 1)?;
        }
        Ok(())
    }
}

// The rows of both tables, numbered as tasks.
#[derive(Drop)]
struct Rows {
    counted: MissCountedTable,
    frames: FrameTable,
}

impl fmt::Display for Rows {
    fn fmt<W: fmt::Write>(&self, f: &mut fmt::Formatter<W>) -> fmt::Result {
        let counted = self.counted.entries();
        for (number, entry) in counted.iter().enumerate() {
            write!(f, "{}", Task { number, entry })?;
        }
        for (i, entry) in self.frames.entries().iter().enumerate() {
            let number = counted.len().saturating_add(i);
            write!(f, "{}", Task { number, entry })?;
        }
        Ok(())
    }
}

// A plate's rows, or its first fault.
fn print_plate(rt: &impl Print, name: &str, plate: &[u8]) -> io::Result<()> {
    println!(rt; "{name}: {} bytes", plate.len())?;
    let mut rows = Rows {
        counted: MissCountedTable::new(),
        frames: FrameTable::new(),
    };
    match load(plate, &mut rows.counted, &mut rows.frames) {
        Ok(()) => print!(rt; "{rows}"),
        Err(denial) => println!(rt; "{denial}"),
    }
}

fn print_verdict(rt: &impl Print, plate: &[u8], order: &[u8]) -> io::Result<()> {
    if same(plate, order) {
        return println!(rt; "same");
    }
    let (a, b) = (plate.len(), order.len());
    if a != b {
        // Before the bytes are gone over: of other lengths no byte is named.
        return println!(rt; "different: {a} bytes and {b} bytes");
    }
    match first_difference(plate, order) {
        Some(i) if i < a && i < b => {
            let (x, y) = (plate[i], order[i]);
            println!(rt; "different: byte {i} is {x:02X} and {y:02X}")
        }
        _ => println!(rt; "different"),
    }
}

// A file's bytes, or a message that names it.
fn read(rt: &HostRuntime, name: &str) -> anyhow::Result<Vec<u8>> {
    fs::read(rt, name).map_err(|error| anyhow!("cannot read {name}: {error}"))
}

fn run(rt: &HostRuntime) -> anyhow::Result<()> {
    let mut args = env::args(rt)?.skip(1);
    let (Some(plate), Some(order), None) = (args.next(), args.next(), args.next()) else {
        bail!("usage: compare PLATE ORDER (the plate read back from the box, and the order)");
    };
    let a = read(rt, plate.as_str())?;
    let b = read(rt, order.as_str())?;
    print_plate(rt, plate.as_str(), a.as_slice())?;
    print_plate(rt, order.as_str(), b.as_slice())?;
    print_verdict(rt, a.as_slice(), b.as_slice())?;
    Ok(())
}

fn main(rt: HostRuntime) -> anyhow::Result<()> {
    run(&rt)
}
