// Prints what the compiled library answers to document 01's entries on the edges, in the order of the table in specs/Table.antt.
#![tactic(auto)]

use pairs::Pair;
use poly::Degree;
use reply::Refusal;
use std::fmt::Display;
use std::io;
use walk::Walk;

// The refusal that stands in the place of an answer's values, at the end of a line.
fn refused(rt: &impl Print, refusal: Refusal) -> io::Result<()> {
    println!(rt; " refused {}", refusal.number())
}

fn answer(rt: &impl Print, answer: Result<u64, Refusal>) -> io::Result<()> {
    match answer {
        Ok(value) => println!(rt; " {value}"),
        Err(refusal) => refused(rt, refusal),
    }
}

// A list at the end of a line.
fn numbers<T: Display>(rt: &impl Print, list: &[T]) -> io::Result<()> {
    for number in list {
        print!(rt; " {number}")?;
    }
    println!(rt; "")
}

fn length(rt: &impl Print, n: u32) -> io::Result<()> {
    print!(rt; "length {n}:")?;
    answer(rt, (Degree { n }).list_length())
}

fn order(rt: &impl Print, n: u32) -> io::Result<()> {
    print!(rt; "order {n}:")?;
    answer(rt, (Degree { n }).order())
}

fn pair(rt: &impl Print, n: u32, position: u64) -> io::Result<()> {
    print!(rt; "pair {n} {position}:")?;
    match pairs::pair_at(n, position) {
        Ok(pair) => println!(rt; " {} {}", pair.f, pair.g),
        Err(refusal) => refused(rt, refusal),
    }
}

fn pairs_from(rt: &impl Print, n: u32) -> io::Result<()> {
    let mut out = [9u32; 2];
    print!(rt; "pairs from {n} 0:")?;
    match listing::pairs_from(n, 0, &mut out) {
        Ok(count) => print!(rt; " {count}")?,
        Err(refusal) => print!(rt; " refused {}", refusal.number())?,
    }
    numbers(rt, &out)
}

fn position(rt: &impl Print, n: u32) -> io::Result<()> {
    print!(rt; "position {n}:")?;
    answer(rt, positions::position_of(n, 7, 5))
}

fn record(rt: &impl Print, walk: &Walk) -> io::Result<()> {
    println!(rt;
        " {} {} {} {} {}",
        walk.degree, walk.position, walk.counts[0], walk.f, walk.g
    )
}

fn start(rt: &impl Print, n: u32) -> io::Result<()> {
    print!(rt; "start {n}:")?;
    match walk::start(n) {
        Ok(walk) => record(rt, &walk),
        Err(refusal) => refused(rt, refusal),
    }
}

fn next(rt: &impl Print, answer: Result<Option<Pair>, Refusal>) -> io::Result<()> {
    match answer {
        Ok(Some(pair)) => println!(rt; " {} {}", pair.f, pair.g),
        Ok(None) => println!(rt; " spent"),
        Err(refusal) => refused(rt, refusal),
    }
}

// A look, a draw for bonder 0, and the record after them.
fn walk(rt: &impl Print, n: u32) -> io::Result<()> {
    let Ok(mut walk) = walk::start(n) else {
        return Ok(());
    };
    print!(rt; "look:")?;
    next(rt, walk.look())?;
    print!(rt; "draw:")?;
    next(rt, walk.draw(0))?;
    print!(rt; "record:")?;
    record(rt, &walk)
}

fn chain(rt: &impl Print, n: u32, f: u32, g: u32) -> io::Result<()> {
    let mut out = [9u32; 32];
    print!(rt; "chain {n} {f} {g}:")?;
    match euclid::quotients(n, f, g, &mut out) {
        Ok(chain) => println!(rt; " {} {}", chain.count, chain.divisor)?,
        Err(refusal) => refused(rt, refusal)?,
    }
    print!(rt; "quotients:")?;
    numbers(rt, &out)
}

fn site(rt: &impl Print, n: u32, row: u32, col: u32) -> io::Result<()> {
    print!(rt; "site {n} {row} {col}:")?;
    match squares::site(n, 7, 5, row, col) {
        Ok(symbols) => println!(rt; " {} {}", symbols.first, symbols.second),
        Err(refusal) => refused(rt, refusal),
    }
}

fn sheet(rt: &impl Print) -> io::Result<()> {
    let mut out = [9u8; 34];
    print!(rt; "sheet:")?;
    match squares::sheet(2, 7, 5, &mut out) {
        Ok(()) => println!(rt; " done")?,
        Err(refusal) => refused(rt, refusal)?,
    }
    print!(rt; "bytes:")?;
    numbers(rt, &out)
}

fn read(rt: &impl Print, file: &[u8]) -> io::Result<()> {
    let mut powers = [9u16; 64];
    let mut forces = [9u16; 64];
    let mut times = [9u16; 64];
    let answer = trial_reader::read(file, &mut powers, &mut forces, &mut times);
    print!(rt; "read:")?;
    match answer {
        Ok(trial) => println!(rt;
            " {} {} {} {} {} {}",
            trial.degree, trial.f, trial.g, trial.name_at, trial.size, trial.version
        )?,
        Err(refusal) => refused(rt, refusal)?,
    }
    print!(rt; "name:")?;
    numbers(rt, trial_reader::name_part(file, answer))?;
    print!(rt; "powers:")?;
    numbers(rt, &powers)?;
    print!(rt; "forces:")?;
    numbers(rt, &forces)?;
    print!(rt; "times:")?;
    numbers(rt, &times)
}

fn write(rt: &impl Print) -> io::Result<()> {
    let powers = [100u16, 110, 120, 130];
    let forces = [200u16, 220, 240, 260];
    let mut out = [9u8; 19];
    print!(rt; "write:")?;
    match trial_writer::write(1, 2, 7, 5, 0, &powers, &forces, &[], b"A", &mut out) {
        Ok(size) => println!(rt; " {size}")?,
        Err(refusal) => refused(rt, refusal)?,
    }
    print!(rt; "file:")?;
    numbers(rt, &out)
}

fn lists(rt: &impl Print) -> io::Result<()> {
    for n in 1..5 {
        length(rt, n)?;
    }
    for position in 0..10 {
        pair(rt, 3, position)?;
    }
    for position in [0, 41, 42] {
        pair(rt, 4, position)?;
    }
    Ok(())
}

fn chains(rt: &impl Print) -> io::Result<()> {
    chain(rt, 3, 15, 11)?;
    chain(rt, 3, 15, 9)?;
    chain(rt, 3, 9, 9)
}

fn squares_of_7_5(rt: &impl Print) -> io::Result<()> {
    for row in 0..4 {
        for col in 0..4 {
            site(rt, 2, row, col)?;
        }
    }
    Ok(())
}

// A degree that every call refuses.
fn outside(rt: &impl Print, n: u32) -> io::Result<()> {
    order(rt, n)?;
    length(rt, n)?;
    pair(rt, n, 0)?;
    pairs_from(rt, n)?;
    position(rt, n)?;
    chain(rt, n, 7, 5)?;
    site(rt, n, 0, 0)?;
    start(rt, n)
}

// The bytes of document 01's trial file, and one more.
const FILE: [u8; 20] = [
    0x01, 0x02, 0x07, 0x05, 0x64, 0x6E, 0x78, 0x82, 0x01, 0xC8, 0x01, 0xDC, 0x01, 0xF0, 0x01, 0x84,
    0x02, 0x01, 0x41, 0x00,
];

fn files(rt: &impl Print) -> io::Result<()> {
    let file = FILE;
    read(rt, &file[..19])?;
    read(rt, &file)?;
    read(rt, &file[..18])?;
    write(rt)
}

fn main(rt: HostRuntime) -> io::Result<()> {
    lists(&rt)?;
    chains(&rt)?;
    squares_of_7_5(&rt)?;
    sheet(&rt)?;
    start(&rt, 1)?;
    walk(&rt, 1)?;
    outside(&rt, 0)?;
    outside(&rt, 32)?;
    files(&rt)
}
