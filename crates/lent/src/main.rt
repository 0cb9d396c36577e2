// Prints what the calls over a lent record answer, and the reader that gives a part of the file, to be held against
// tests/lent_reference.py.
#![tactic(auto)]

use pairs::Pair;
use reply::Refusal;
use std::fmt::Display;
use std::io;
use walk::Walk;

// This and the next two print inside a line what the program edges prints at the end of one.
fn numbers<T: Display>(rt: &impl Print, list: &[T]) -> io::Result<()> {
    for number in list {
        print!(rt; " {number}")?;
    }
    Ok(())
}

fn refused(rt: &impl Print, refusal: Refusal) -> io::Result<()> {
    print!(rt; " refused {}", refusal.number())
}

fn next(rt: &impl Print, answer: Result<Option<Pair>, Refusal>) -> io::Result<()> {
    match answer {
        Ok(Some(pair)) => print!(rt; " {} {}", pair.f, pair.g),
        Ok(None) => print!(rt; " spent"),
        Err(refusal) => refused(rt, refusal),
    }
}

// A look and a draw over one lent record, and the record after them.
fn turn(rt: &impl Print, walk: &mut Walk, bonder: u32) -> io::Result<()> {
    print!(rt; "look:")?;
    next(rt, walk.look())?;
    print!(rt; " draw:")?;
    next(rt, walk.draw(bonder))?;
    print!(rt; " record: {} {}", walk.degree, walk.position)?;
    numbers(rt, &walk.marks)?;
    numbers(rt, &walk.counts)?;
    println!(rt; " {} {}", walk.f, walk.g)
}

// A record whose mark 5 is `mark` and whose count 6 is `given`, the others 0, and which holds a pair that is in no list.
fn lent(degree: u32, position: u64, mark: u64, given: u64) -> Walk {
    let mut marks = [0u64; 8];
    marks[5] = mark;
    let mut counts = [0u64; 8];
    counts[6] = given;
    Walk {
        degree,
        position,
        marks,
        counts,
        f: 6,
        g: 12,
    }
}

// Turns over it, each of which draws for the bonder.
fn turns(rt: &impl Print, record: Walk, bonder: u32, times: u32) -> io::Result<()> {
    let mut walk = record;
    for _ in 0..times {
        turn(rt, &mut walk, bonder)?;
    }
    Ok(())
}

fn open(rt: &impl Print, file: &[u8]) -> io::Result<()> {
    let mut powers = [9u16; 64];
    let mut forces = [9u16; 64];
    let mut times = [9u16; 64];
    let opened = trial_reader::open(file, &mut powers, &mut forces, &mut times);
    print!(rt; "open:")?;
    let answer = opened.answer;
    match answer {
        Ok(trial) => {
            print!(rt;
                " {} {} {} {}",
                trial.degree, trial.f, trial.g, trial.name_at
            )?;
            print!(rt; " {} {} {}", trial.size, trial.version, trial.h)?;
        }
        Err(refusal) => refused(rt, refusal)?,
    }
    print!(rt; " name:")?;
    numbers(rt, opened.name)?;
    print!(rt; " levels:")?;
    // By their index, since three slices are printed in turn.
    for i in 0..9usize {
        print!(rt; " {} {} {}", powers[i], forces[i], times[i])?;
    }
    println!(rt; "")
}

fn main(rt: HostRuntime) -> io::Result<()> {
    turns(&rt, lent(3, 0, 0, 0), 6, 12)?;
    turns(&rt, lent(3, 0, 11, 5), 0, 1)?;
    turns(&rt, lent(3, 0, 12, 0), 0, 1)?;
    turns(&rt, lent(3, 0, 0, 999999999999999999), 6, 3)?;
    turns(&rt, lent(3, 0, 0, 1000000000000000000), 7, 1)?;
    turns(&rt, lent(3, 10, 0, 1000000000000000000), 6, 1)?;
    turns(&rt, lent(3, 0, 0, 1000000000000000001), 7, 1)?;
    turns(&rt, lent(3, 0, 0, 18446744073709551615), 8, 1)?;
    turns(&rt, lent(3, 0, 0, 0), 8, 1)?;
    turns(&rt, lent(3, 10, 0, 0), 4294967295, 1)?;
    turns(&rt, lent(1, 0, 1, 0), 7, 2)?;
    turns(
        &rt,
        lent(31, 768614336404564648, 768614336404564651, 0),
        6,
        4,
    )?;
    turns(
        &rt,
        lent(31, 768614336404564650, 18446744073709551615, 0),
        0,
        1,
    )?;
    turns(&rt, lent(31, 768614336404564651, 0, 0), 0, 1)?;
    turns(&rt, lent(0, 0, 0, 0), 0, 1)?;
    turns(&rt, lent(32, 0, 0, 0), 0, 1)?;
    let file = b"\x01\x02\x07\x05\x64\x6E\x78\x82\x01\xC8\x01\xDC\x01\xF0\x01\x84\x02\x03A~ \x00";
    open(&rt, &file[..21])?;
    open(&rt, &file[..20])?;
    open(&rt, file)?;
    open(&rt, &file[..0])?;
    let three =
        b"\x02\x03\x09\x0B\x0D\x01\x02\x03\x04\x05\x06\x07\x08\x10\x0F\x0E\x0D\x0C\x0B\x0A\x09Z_dinsx}\x02S~\x00";
    open(&rt, &three[..32])?;
    open(&rt, &three[..31])?;
    open(&rt, three)
}
