// Prints what the library computes, to be held against the values of tests/reference.py, which knows nothing of it.
#![tactic(auto)]

mod checks;
mod files;
mod lists;
mod made;
mod random;
mod saves;
mod sum;
mod walks;

use std::io;

// Degree, length and checksum of a list, and how many positions were found back.
fn list_lines(rt: &impl Print) -> io::Result<()> {
    for n in 2..13 {
        let found = if n <= 8 { lists::found_back(n) } else { 0 };
        println!(rt; "{n} {} {} {found}", lists::length(n), lists::list_sum(n))?;
    }
    Ok(())
}

// Degree, a checksum of all chains' lengths where the list is short, and how many positions reach the longest chains, with the first of
// them.
fn longest_line(rt: &impl Print, n: u32) -> io::Result<()> {
    let sum = if n <= 8 {
        lists::chain_lengths_sum(n)
    } else {
        sum::Sum::new()
    };
    print!(rt; "longest {n} {sum} ")?;
    match longest::longest_chains(n) {
        Ok(Some(reach)) => println!(rt; "{} {}", reach.count, reach.first),
        Ok(None) => println!(rt; "none"),
        Err(refusal) => println!(rt; "{}", refusal.number()),
    }
}

fn longest_lines(rt: &impl Print) -> io::Result<()> {
    for n in 0..33 {
        longest_line(rt, n)?;
    }
    Ok(())
}

// Degree, number of entries and checksum of a second list.
fn unordered_lines(rt: &impl Print) -> io::Result<()> {
    for n in 2..11 {
        println!(rt;
            "unordered {n} {} {}",
            lists::length(n) / 2,
            lists::unordered_sum(n)
        )?;
    }
    println!(rt; "unordered ends {}", lists::unordered_ends_sum())
}

// Degree and checksum of a list of triples; degrees 1 and 7 are refused throughout.
fn triples_lines(rt: &impl Print) -> io::Result<()> {
    for n in 1..8 {
        println!(rt; "triples {n} {}", lists::triple_sum(n))?;
    }
    Ok(())
}

// Degree, position and what stands there.
fn triple_line(rt: &impl Print, n: u32, position: u64) -> io::Result<()> {
    print!(rt; "triple {n} {position} ")?;
    match triples::triple_at(n, position) {
        Ok(Some(triple)) => println!(rt; "{} {} {}", triple.f, triple.g, triple.h),
        Ok(None) => println!(rt; "spent"),
        Err(refusal) => println!(rt; "{}", refusal.number()),
    }
}

// The last triples of all degrees but 3 and what is said behind them; the first one of degree 6; positions far behind; degrees 1 and 7.
const TRIPLE_ENDS: [(u32, u64); 13] = [
    (1, 0),
    (2, 0),
    (4, 149),
    (4, 150),
    (5, 1379),
    (5, 1380),
    (6, 0),
    (6, 11573),
    (6, 11574),
    (6, 4294967296),
    (6, 18446744073709551615),
    (7, 0),
    (7, 18446744073709551615),
];

// All triples of degree 3, and what is said behind them. Then the others.
fn triple_lines(rt: &impl Print) -> io::Result<()> {
    for position in 0..13 {
        triple_line(rt, 3, position)?;
    }
    for (n, position) in TRIPLE_ENDS {
        triple_line(rt, n, position)?;
    }
    Ok(())
}

// Degree and checksum of twelve sheets of three codes; degrees 1 and 7 are refused, and degree 2 has no triple.
fn sheet3_lines(rt: &impl Print) -> io::Result<()> {
    for n in 1..8 {
        println!(rt; "sheet3 {n} {}", checks::sheet3_sum(n))?;
    }
    println!(rt; "sheet3 refused {}", checks::refused3_sum())
}

// Order and checksum of the replies to sheets of that order; orders below 3 and above 64 are refused throughout.
fn made_lines(rt: &impl Print) -> io::Result<()> {
    for order in 0..67 {
        println!(rt; "made {order} {}", made::made_sum(order))?;
    }
    println!(rt; "made far {}", made::far_sum())?;
    println!(rt; "made written {}", made::written_sum())
}

// Degree and checksum of a walk with marks and bonders; degrees 0 and 32 are refused throughout.
fn walk_lines(rt: &impl Print) -> io::Result<()> {
    for n in [0, 1, 2, 3, 4, 5, 6, 7, 8, 32] {
        println!(rt; "walk {n} {}", walks::walk_sum(n))?;
    }
    Ok(())
}

// Degree, length of the file of a walk, and checksums of its bytes, of the walk that is read back, and of damaged files.
fn saved_line(rt: &impl Print, n: u32, position: u64) -> io::Result<()> {
    let file = saves::walk_file(n, position);
    print!(rt; "saved {n} {} {} ", file.size, saves::file_sum(&file))?;
    println!(rt; "{} {}", saves::back_sum(&file), saves::damaged_sum(&file))
}

// At the end of the list of degree 1, which has no pairs; from the start; from the middle; up to the end; far inside.
const SAVED: [(u32, u64); 5] = [
    (1, 0),
    (2, 0),
    (4, 20),
    (17, 2863311490),
    (31, 123456789012345678),
];

fn saved_lines(rt: &impl Print) -> io::Result<()> {
    for (n, position) in SAVED {
        saved_line(rt, n, position)?;
    }
    println!(rt; "saved long {}", saves::long_sum())?;
    println!(rt;
        "saved limits {} {}",
        saves::saving_sum(),
        saves::widths_sum()
    )
}

// Degree and checksum of walks from files of kind 1; degrees 0 and 32 are refused throughout.
fn old_lines(rt: &impl Print) -> io::Result<()> {
    for n in 0..33 {
        println!(rt; "kind 1 {n} {}", saves::old_sum(n))?;
    }
    let short = saves::damaged_old_sum(4, 42);
    println!(rt;
        "kind 1 damaged {short} {}",
        saves::damaged_old_sum(31, 768614336404564650)
    )
}

fn main(rt: HostRuntime) -> io::Result<()> {
    println!(rt; "{}", checks::arithmetic_sum())?;
    println!(rt; "{}", checks::chain_sum())?;
    println!(rt; "{}", checks::site_sum())?;
    println!(rt; "{}", checks::sheet_sum())?;
    list_lines(&rt)?;
    longest_lines(&rt)?;
    unordered_lines(&rt)?;
    triples_lines(&rt)?;
    triple_lines(&rt)?;
    sheet3_lines(&rt)?;
    made_lines(&rt)?;
    walk_lines(&rt)?;
    saved_lines(&rt)?;
    old_lines(&rt)?;
    println!(rt; "{} {}", lists::spread_sum(), lists::spread_found())?;
    println!(rt; "{}", files::damaged_sum())?;
    println!(rt; "{}", files::entries_sum())?;
    println!(rt;
        "version 2 {} {}",
        files::damaged3_sum(),
        files::coded_sum()
    )?;
    println!(rt; "long {}", files::long_sum())
}
