// Checksums of the arithmetic, the chain call, the site call and the sheet calls.
ghost use Rattle.std.specs.Prelude.{◌<◌};

use crate::random::Numbers;
use crate::sum::Sum;
use triples::Triple;

// The arithmetic of two codes.
fn arithmetic(sum: &mut Sum, a: u32, b: u32) {
    let d = poly::divide(a, b);
    sum.add(poly::product(a, b));
    sum.add(d.quotient);
    sum.add(d.remainder);
    sum.add(poly::degree_of(a));
    sum.add_status(poly::check(b % 33, a));
}

pub fn arithmetic_sum() -> Sum {
    let mut numbers = Numbers::from(1);
    let mut sum = Sum::new();
    for _ in 0..20000 {
        let a = numbers.code();
        let b = numbers.code();
        arithmetic(&mut sum, a, b);
    }
    sum
}

fn chain(sum: &mut Sum, n: u32, f: u32, g: u32) {
    let mut quotients = [0u32; 32];
    match euclid::quotients(n, f, g, &mut quotients) {
        Ok(chain) => {
            sum.add(chain.count as u64);
            sum.add(chain.divisor);
            for quotient in quotients.iter().take(chain.count) {
                sum.add(*quotient);
            }
        }
        Err(refusal) => sum.add(refusal.number()),
    }
}

pub fn chain_sum() -> Sum {
    let mut numbers = Numbers::from(7);
    let mut sum = Sum::new();
    for i in 0..5000 {
        let n = i % 31 + 1;
        let f = numbers.odd_code(n);
        let g = numbers.odd_code(n);
        chain(&mut sum, n, f, g);
    }
    sum
}

fn site(sum: &mut Sum, numbers: &mut Numbers, n: u32) {
    let f = numbers.odd_code(n);
    let g = numbers.odd_code(n);
    let row = numbers.low_bits(n);
    let col = numbers.low_bits(n);
    sum.add_answer(squares::site(n, f, g, row, col), |sum, symbols| {
        sum.add(symbols.first);
        sum.add(symbols.second);
    });
}

pub fn site_sum() -> Sum {
    let mut numbers = Numbers::from(11);
    let mut sum = Sum::new();
    for i in 0..3000 {
        site(&mut sum, &mut numbers, i % 31 + 1);
    }
    sum
}

// Degree, f and g of pairs of which a sheet is made.
pub const SHEETS: [(u32, u32, u32); 5] = [
    (2, 7, 5),
    (3, 15, 13),
    (4, 19, 17),
    (5, 37, 59),
    (6, 67, 97),
];

// The first bytes of a slice, as many as a sheet has.
fn laid(sum: &mut Sum, bytes: &[u8], size: usize) {
    for symbol in bytes.iter().take(size) {
        sum.add(*symbol);
    }
}

pub fn sheet_sum() -> Sum {
    let mut sum = Sum::new();
    for (n, f, g) in SHEETS {
        let mut sheet = [0u8; 8192];
        let answer = squares::sheet(n, f, g, &mut sheet);
        sum.add_answer(answer, |sum, _| laid(sum, &sheet, 2usize << (2 * (n % 7))));
    }
    sum
}

fn sheet3(sum: &mut Sum, n: u32, triple: Triple) {
    let mut sheet = [0u8; 12288];
    let answer = squares::sheet3(n, triple.f, triple.g, triple.h, &mut sheet);
    sum.add_answer(answer, |sum, _| laid(sum, &sheet, 3usize << (2 * (n % 7))));
}

// The i-th of twelve positions spread over a list of triples.
fn spread(n: u32, i: u64) -> u64
    requires { i < 12 }
{
    match n {
        4 => i * 13,
        5 => i * 115,
        6 => i * 964,
        _ => i,
    }
}

// The sheets of the triples there, or what is said in their place.
pub fn sheet3_sum(n: u32) -> Sum {
    let mut sum = Sum::new();
    for i in 0..12 {
        let answer = triples::triple_at(n, spread(n, i));
        sum.add_next(answer, |sum, triple| sheet3(sum, n, triple));
    }
    sum
}

// Codes that make no sheet: degrees 1 and 7; f and g of another degree or even, and h where f and g share a factor; each two of three
// that share one, 9 and 15; degree 2, which has no triple.
const REFUSED: [(u32, u32, u32, u32); 12] = [
    (1, 3, 3, 3),
    (7, 131, 137, 143),
    (3, 19, 11, 13),
    (3, 8, 11, 13),
    (3, 9, 5, 13),
    (3, 9, 10, 13),
    (3, 9, 15, 5),
    (3, 9, 15, 12),
    (3, 9, 15, 11),
    (3, 9, 11, 15),
    (3, 11, 9, 15),
    (2, 7, 5, 7),
];

pub fn refused3_sum() -> Sum {
    let mut sum = Sum::new();
    for (n, f, g, h) in REFUSED {
        sheet3(&mut sum, n, Triple { f, g, h });
    }
    sum
}
