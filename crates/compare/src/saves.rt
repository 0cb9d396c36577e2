// Checksums of walks saved and read back, of what draws from them give, and of what the reader makes of files damaged or of kind 1.
ghost use Rattle.std.specs.Prelude.{◌<◌, ◌^◌};

use crate::files::{long_end, long_file};
use crate::lists::length;
use crate::sum::Sum;
use crate::walks::{begun, calls};
use walk::Walk;

// A file at the front of bytes that are 170 at first: there is room for the longest file and some bytes behind it, which are compared too.
#[derive(Clone, Copy)]
pub struct File {
    pub bytes: [u8; 160],
    pub size: usize,
}

// Counts of one to nine bytes, up to the highest.
const COUNTS: [u64; 8] = [
    0,
    127,
    128,
    16383,
    4294967295,
    999999999999999995,
    1000000000000000000,
    5,
];

// Kind 2, degree 4, at the end, with numbers of one byte: marks empty, at the start, inside and at the end.
const SMALL: [u8; 19] = [
    2, 4, 42, 0, 1, 21, 42, 43, 0, 7, 2, 0, 1, 2, 3, 64, 127, 5, 9,
];

fn record(sum: &mut Sum, walk: &Walk) {
    sum.add(walk.degree);
    sum.add(walk.position);
    sum.add_all(&walk.marks);
    sum.add_all(&walk.counts);
    sum.add(walk.f);
    sum.add(walk.g);
}

// What reading a part from the front answers, and the record. A part that is not there is the whole.
fn read(sum: &mut Sum, bytes: &[u8], size: usize) -> Walk {
    let part = bytes.get(..size).unwrap_or(bytes);
    let walk = begun(sum, saved::load(part));
    record(sum, &walk);
    walk
}

// A file of kind 1.
fn old_file(n: u32, position: u64) -> File {
    let mut bytes = [170u8; 160];
    let at = leb128::put_number(&mut bytes, 0, 1);
    let at = leb128::put_number(&mut bytes, at, u64::from(n));
    let size = leb128::put_number(&mut bytes, at, position);
    File { bytes, size }
}

// A walk read from a file of kind 1.
fn old_walk(sum: &mut Sum, n: u32, position: u64) -> Walk {
    let file = old_file(n, position);
    read(sum, &file.bytes, file.size)
}

// The same with ten calls, and the record after them.
fn resumed(sum: &mut Sum, n: u32, position: u64) {
    let mut walk = old_walk(sum, n, position);
    calls(sum, &mut walk, 10);
    record(sum, &walk);
}

// Positions of a list with this end: at the start, inside the list, near its end, at it, and behind it.
fn places(end: u64) -> [u64; 10] {
    [
        0,
        end / 9,
        end / 5,
        end / 3,
        end / 2,
        end - end / 3,
        end - end / 7,
        end - end % 7,
        end,
        end.wrapping_add(1),
    ]
}

// Files of kind 1 there.
pub fn old_sum(n: u32) -> Sum {
    let mut sum = Sum::new();
    for position in places(length(n)) {
        resumed(&mut sum, n, position);
    }
    sum
}

// A walk with marks and counts: from a position of the list, where a file of kind 1 puts it, it has made 100 calls.
fn walked(n: u32, position: u64) -> Walk {
    let mut sum = Sum::new();
    let mut walk = old_walk(&mut sum, n, position);
    walk.counts = COUNTS;
    calls(&mut sum, &mut walk, 100);
    walk
}

// The file of such a walk; no bytes if it is refused.
pub fn walk_file(n: u32, position: u64) -> File {
    let mut bytes = [170u8; 160];
    let size = saved::save(&walked(n, position), &mut bytes).unwrap_or(0);
    File { bytes, size }
}

// All bytes, those behind the file too.
pub fn file_sum(file: &File) -> Sum {
    let mut sum = Sum::new();
    sum.add_all(&file.bytes);
    sum
}

// The record that is read back, 40 calls on it, and the record after them.
pub fn back_sum(file: &File) -> Sum {
    let mut sum = Sum::new();
    let mut walk = read(&mut sum, &file.bytes, file.size);
    calls(&mut sum, &mut walk, 40);
    record(&mut sum, &walk);
    sum
}

// The file with every value at one place.
fn values(sum: &mut Sum, file: &File, at: usize) {
    for value in 0..=255u8 {
        let mut bytes = file.bytes;
        if let Some(byte) = bytes.get_mut(at) {
            *byte = value;
        }
        read(sum, &bytes, file.size);
    }
}

// Every change of one byte. Then every length: parts from the front, the whole file, and bytes behind it.
pub fn damaged_sum(file: &File) -> Sum {
    let mut sum = Sum::new();
    for at in 0..file.size {
        values(&mut sum, file, at);
    }
    for size in 0..=160 {
        read(&mut sum, &file.bytes, size);
    }
    sum
}

// The same for a file of kind 1.
pub fn damaged_old_sum(n: u32, position: u64) -> Sum {
    damaged_sum(&old_file(n, position))
}

// The small file with a longer number, cut before the number's last byte, cut behind it, whole, and with a byte behind it.
fn long(sum: &mut Sum, at: usize, form: u32) {
    let bytes = long_file(&SMALL, at, form);
    let end = long_end(form);
    for size in [at % 64 + end, at % 64 + end + 1, 19 + end, 20 + end] {
        read(sum, &bytes, size);
    }
}

// The file with every number written longer.
pub fn long_sum() -> Sum {
    let mut sum = Sum::new();
    for at in 0..19 {
        for form in 0..98 {
            long(&mut sum, at, form);
        }
    }
    sum
}

// What saving with so much room answers, and all bytes after it.
fn saving<const ROOM: usize>(sum: &mut Sum, walk: &Walk)
    requires { ROOM < 2 ^ 63 }
{
    let mut out = [170u8; ROOM];
    sum.add_answer(
        saved::save(walk, &mut out),
        |sum, size| sum.add(size as u64),
    );
    sum.add_all(&out);
}

// A record with these numbers in the last places and a pair that is not the next one, saved in much room and in little.
fn saving_each(sum: &mut Sum, degree: u32, position: u64, mark: u64, count: u64) {
    let walk = Walk {
        degree,
        position,
        marks: [0, 1, 2, 3, 4, 5, 6, mark],
        counts: [7, 8, 9, 10, 11, 12, 13, count],
        f: 6,
        g: 12,
    };
    saving::<160>(sum, &walk);
    saving::<28>(sum, &walk);
    saving::<27>(sum, &walk);
}

// A record that takes 83 bytes, with the least and the greatest numbers of each width.
const WIDTHS: Walk = Walk {
    degree: 31,
    position: 0,
    marks: [
        127, 128, 16383, 16384, 2097151, 2097152, 268435455, 268435456,
    ],
    counts: [
        34359738367,
        34359738368,
        4398046511103,
        4398046511104,
        562949953421311,
        562949953421312,
        72057594037927935,
        72057594037927936,
    ],
    f: 6,
    g: 12,
};

pub fn widths_sum() -> Sum {
    let mut sum = Sum::new();
    saving::<160>(&mut sum, &WIDTHS);
    saving::<83>(&mut sum, &WIDTHS);
    saving::<82>(&mut sum, &WIDTHS);
    sum
}

// Records at the limits and above them. The three that are good take 27, 28 and 29 bytes, and the last three, of which each is bad in
// another number, take 29 too.
pub fn saving_sum() -> Sum {
    let mut sum = Sum::new();
    saving_each(&mut sum, 0, 0, 0, 0);
    saving_each(&mut sum, 32, 0, 0, 0);
    saving_each(&mut sum, 4, 42, 43, 1000000000000000000);
    saving_each(&mut sum, 5, 170, 127, 1000000000000000000);
    saving_each(&mut sum, 5, 170, 171, 1000000000000000000);
    saving_each(&mut sum, 5, 171, 171, 1000000000000000000);
    saving_each(&mut sum, 5, 170, 172, 1000000000000000000);
    saving_each(&mut sum, 5, 170, 171, 1000000000000000001);
    sum
}
