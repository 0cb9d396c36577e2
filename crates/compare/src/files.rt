// Checksums of what the reader makes of damaged trial files.
ghost use Rattle.std.specs.Prelude.{◌≤◌};

use crate::sum::Sum;
use trial_reader::Content;

// Document 01's file.
const PLAIN: [u8; 19] = [
    1, 2, 7, 5, 100, 110, 120, 130, 1, 200, 1, 220, 1, 240, 1, 132, 2, 1, 65,
];

// Degree 3, with levels of one to three bytes up to 65535.
const WIDE: [u8; 44] = [
    1, 3, 15, 11, 0, 1, 127, 128, 1, 255, 127, 128, 128, 1, 129, 128, 1, 255, 255, 3, 5, 9, 70,
    172, 2, 173, 2, 132, 7, 160, 156, 1, 254, 255, 3, 8, 76, 105, 110, 101, 32, 51, 32, 126,
];

// Degree 2, without a name.
const NAMELESS: [u8; 17] = [1, 2, 5, 7, 1, 2, 3, 4, 9, 192, 62, 193, 62, 224, 212, 3, 0];

// Degree 3, with levels in no order; some have the same remainder by 1024.
const SHUFFLED: [u8; 32] = [
    1, 3, 11, 13, 172, 2, 0, 255, 255, 3, 1, 128, 8, 127, 2, 128, 1, 5, 3, 255, 255, 3, 0, 131, 24,
    4, 128, 8, 6, 2, 83, 126,
];

// Version 2, degree 3, with levels of one byte and without a name.
const THREE: [u8; 30] = [
    2, 3, 9, 11, 13, 1, 2, 3, 4, 5, 6, 7, 8, 16, 15, 14, 13, 12, 11, 10, 9, 90, 95, 100, 105, 110,
    115, 120, 125, 0,
];

// Version 2, with levels of one to three bytes, in no order.
const WIDE_THREE: [u8; 48] = [
    2, 3, 13, 15, 11, 172, 2, 0, 255, 255, 3, 1, 128, 8, 127, 2, 128, 1, 5, 3, 255, 255, 3, 0, 131,
    24, 4, 128, 8, 6, 0, 129, 128, 1, 127, 128, 1, 255, 255, 3, 1, 129, 8, 129, 16, 2, 83, 126,
];

// The reader's answer behind the three slices.
fn reading(sum: &mut Sum, file: &[u8]) {
    let mut powers = [7u16; 64];
    let mut forces = [8u16; 64];
    let mut times = [9u16; 64];
    let answer = trial_reader::read(file, &mut powers, &mut forces, &mut times);
    sum.add_all(&powers);
    sum.add_all(&forces);
    sum.add_all(&times);
    sum.add_answer(answer, add_trial);
}

fn add_trial(sum: &mut Sum, trial: Content) {
    sum.add(trial.degree);
    sum.add(trial.f);
    sum.add(trial.g);
    sum.add(trial.name_at as u64);
    sum.add(trial.size as u64);
    sum.add(trial.version);
    sum.add(trial.h);
}

// A part from the front, if there is one so long.
fn front(sum: &mut Sum, file: &[u8], size: usize) {
    if let Some(part) = file.get(..size) {
        reading(sum, part);
    }
}

// The file with other bytes behind it, which are 0.
fn padded(file: &[u8]) -> [u8; 64] {
    let mut bytes = [0u8; 64];
    for (byte, from) in bytes.iter_mut().zip(file) {
        *byte = *from;
    }
    bytes
}

// The file with every value at one place.
fn values(sum: &mut Sum, file: &[u8], at: usize) {
    let mut bytes = padded(file);
    for value in 0..=255u8 {
        if let Some(byte) = bytes.get_mut(at) {
            *byte = value;
        }
        front(sum, &bytes, file.len());
    }
}

// Every change of one byte. Then every part from the front, the whole file last.
fn damaged(sum: &mut Sum, file: &[u8]) {
    for at in 0..file.len() {
        values(sum, file, at);
    }
    for size in 0..=file.len() {
        front(sum, file, size);
    }
}

pub fn damaged_sum() -> Sum {
    let mut sum = Sum::new();
    damaged(&mut sum, &PLAIN);
    damaged(&mut sum, &WIDE);
    damaged(&mut sum, &NAMELESS);
    damaged(&mut sum, &SHUFFLED);
    sum
}

// The same for files of version 2.
pub fn damaged3_sum() -> Sum {
    let mut sum = Sum::new();
    damaged(&mut sum, &THREE);
    damaged(&mut sum, &WIDE_THREE);
    sum
}

// The first file of version 2 with every three of the codes from 7 to 16.
pub fn coded_sum() -> Sum {
    let mut sum = Sum::new();
    let mut bytes = THREE;
    for f in 7..17 {
        for g in 7..17 {
            for h in 7..17 {
                bytes[2] = f;
                bytes[3] = g;
                bytes[4] = h;
                reading(&mut sum, &bytes);
            }
        }
    }
    sum
}

// Document 01's file with a name of `size` letters, as far as 64 bytes go.
fn named(sum: &mut Sum, size: u8) {
    let mut bytes = [b'A'; 64];
    bytes[..17].copy_from_slice(&PLAIN[..17]);
    bytes[17] = size;
    front(sum, &bytes, 18 + size as usize);
}

// Document 01's entries on files without the mark: names of 40 and 41 bytes, 82 00 for a version. Then a version of 33 bits.
pub fn entries_sum() -> Sum {
    let mut sum = Sum::new();
    named(&mut sum, 40);
    named(&mut sum, 41);
    reading(&mut sum, b"\x82\x00");
    reading(&mut sum, b"\xff\xff\xff\xff\x1f");
    sum
}

// Where the last byte of a number stands that is written in the form-th of 98 longer ways: there are five to eleven bytes.
pub fn long_end(form: u32) -> usize
    ensures { result ≤ 10 }
{
    (form / 14 % 7) as usize + 4
}

// The last byte in each of seven forms.
const LONG_LAST: [u8; 7] = [0, 1, 2, 13, 15, 16, 127];

// A byte before the last one: all are 255, or they have the groups of the number that stood there.
fn long_part(form: u32, old: u8, k: usize) -> u8 {
    if form / 7 % 2 == 1 {
        return 255;
    }
    if k == 0 { old % 128 + 128 } else { 128 }
}

// A byte of the file; 0 behind its end.
fn file_byte(file: &[u8], i: usize) -> u8 {
    file.get(i).copied().unwrap_or(0)
}

// A byte of the file with the number at one place, which has one byte, written longer.
fn long_byte(file: &[u8], at: usize, form: u32, i: usize) -> u8 {
    if i < at {
        return file_byte(file, i);
    }
    let k = i - at;
    let end = long_end(form);
    if k < end {
        return long_part(form, file_byte(file, at), k);
    }
    if k == end {
        return LONG_LAST[(form % 7) as usize];
    }
    file_byte(file, i - end)
}

pub fn long_file(file: &[u8], at: usize, form: u32) -> [u8; 64] {
    let mut bytes = [0u8; 64];
    for (i, byte) in bytes.iter_mut().enumerate() {
        *byte = long_byte(file, at, form, i);
    }
    bytes
}

// The first file of version 2, whose numbers have one byte each, with a longer number: cut before the number's last byte, cut behind it,
// and whole.
fn long(sum: &mut Sum, at: usize, form: u32) {
    let bytes = long_file(&THREE, at, form);
    let end = long_end(form);
    for size in [at % 64 + end, at % 64 + end + 1, 30 + end] {
        front(sum, &bytes, size);
    }
}

// The file with every number written longer.
pub fn long_sum() -> Sum {
    let mut sum = Sum::new();
    for at in 0..30 {
        for form in 0..98 {
            long(&mut sum, at, form);
        }
    }
    sum
}
