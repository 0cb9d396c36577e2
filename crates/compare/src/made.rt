// Checksums of what the check of a sheet says of sheets that are filled in here, and of sheets that the library writes, whole and changed.
use crate::checks::SHEETS;
use crate::sum::Sum;

// Room for the greatest sheet and some bytes behind it.
const ROOM: usize = 8200;

type Bytes = [u8; ROOM];

// Row and column added in two parts: their last digits to the base 4 bit by bit, as in the field of four elements, and the rest modulo a
// quarter of the order.
fn product(order: u32, row: u32, col: u32) -> u32 {
    let quarter = order / 4;
    if quarter == 0 {
        return 0;
    }
    4 * ((row / 4 + col / 4) % quarter % 64) + ((row % 4) ^ (col % 4)) % 4
}

// A column multiplied in both parts, for a square orthogonal to the sums: the rest by 2, and the digit by the field's element 2, which
// takes 1 to 2, 2 to 3 and 3 to 1.
fn doubled(col: u32) -> u32 {
    let low = col % 4;
    8 * (col / 4 % 64) + ((2 * low) ^ (low / 2 * 7)) % 4
}

// The symbol of one of seven squares, not yet taken modulo the order.
fn symbol(order: u32, square: u32, row: u32, col: u32) -> u32 {
    let i = row % 128;
    let j = col % 128;
    match square {
        0 => i,
        1 => j,
        2 => i + j,
        3 => i + 2 * j,
        4 => 2 * i + j,
        5 => product(order, i, j),
        _ => product(order, i, doubled(j)),
    }
}

// The byte at a place of the sheet of two of them; 255 behind it.
fn byte(order: u32, first: u32, second: u32, at: u32) -> u8 {
    if order == 0 {
        return 255;
    }
    let row = at / 2 / order;
    if order <= row {
        return 255;
    }
    let square = if at % 2 == 0 { first } else { second };
    (symbol(order, square, row, at / 2 % order) % order % 256) as u8
}

fn filled(order: u32, first: u32, second: u32) -> Bytes {
    let mut bytes = [255u8; ROOM];
    // By the index, which the byte is made of, and whose bound shows that it fits 32 bits.
    for at in 0..ROOM {
        bytes[at] = byte(order, first, second, at as u32);
    }
    bytes
}

// What is said where all bytes are lent.
fn given(sum: &mut Sum, order: u32, bytes: &[u8]) {
    sum.add_status(sheets::check_sheet(order, bytes));
}

// What is said of a part from the front.
fn lent(sum: &mut Sum, order: u32, bytes: &[u8], size: usize) {
    if let Some(part) = bytes.get(..size) {
        given(sum, order, part);
    }
}

// How many bytes a sheet has; 0 at orders above 64.
fn size(order: u32) -> usize {
    if 64 < order {
        return 0;
    }
    let side = order as usize;
    2 * (side * side)
}

// The sheet with another byte at a place.
fn put(bytes: &Bytes, place: usize, value: u32) -> Bytes {
    let mut sheet = *bytes;
    if let Some(byte) = sheet.get_mut(place) {
        *byte = (value % 256) as u8;
    }
    sheet
}

fn raised(order: u32, byte: u8) -> u32 {
    if order == 0 {
        return 0;
    }
    (u32::from(byte) + 1) % order
}

// The byte at a place raised by one modulo the order, set to the order, set to 255.
fn place_sum(sum: &mut Sum, order: u32, bytes: &Bytes, place: usize) {
    let Some(byte) = bytes.get(place) else {
        return;
    };
    for value in [raised(order, *byte), order, 255] {
        given(sum, order, &put(bytes, place, value));
    }
}

// The same at places spread over the sheet. They are an odd number apart, so that both symbols are met.
fn places_sum(sum: &mut Sum, order: u32, bytes: &Bytes, size: usize) {
    for place in (0..size).step_by(size / 14 * 2 + 1) {
        place_sum(sum, order, bytes, place);
    }
}

// The sheet with two runs of bytes exchanged.
fn exchanged(bytes: &Bytes, one: u32, other: u32, run: u32) -> Bytes {
    let mut sheet = *bytes;
    // By their indices, since the runs may reach past the end, and only what is there is exchanged.
    for k in 0..run as usize {
        let p = one as usize + k;
        let q = other as usize + k;
        if p < ROOM && q < ROOM {
            sheet.swap(p, q);
        }
    }
    sheet
}

// Two sites of a row exchanged; their second symbols alone; two sites of a column; two rows, so that a good sheet stays good; the first
// symbols of two sites in two rows, which leaves both squares Latin where digits are added bit by bit.
fn exchanges_sum(sum: &mut Sum, order: u32, bytes: &Bytes) {
    let row = 2 * (order % 128);
    for (one, other, run) in [(0, 2, 2), (1, 3, 1), (0, row, 2), (0, row, row)] {
        given(sum, order, &exchanged(bytes, one, other, run));
    }
    let first = exchanged(bytes, 0, 2, 1);
    given(sum, order, &exchanged(&first, row, row + 2, 1));
}

// A sheet with bytes behind it. Of the orders 1 to 64 also alone; one byte short; so with a byte that is no symbol; with no bytes; changed.
fn examined(sum: &mut Sum, order: u32, bytes: &Bytes) {
    given(sum, order, bytes);
    let size = size(order);
    if size == 0 {
        return;
    }
    lent(sum, order, bytes, size);
    lent(sum, order, bytes, size - 1);
    lent(sum, order, &put(bytes, 0, 255), size - 1);
    lent(sum, order, bytes, 0);
    place_sum(sum, order, bytes, size - 1);
    places_sum(sum, order, bytes, size);
    exchanges_sum(sum, order, bytes);
}

// The sheets of every two of the first five squares. Then one sheet with its changes; it is good at odd orders from 3 on, and at 4 times an
// odd number.
pub fn made_sum(order: u32) -> Sum {
    let mut sum = Sum::new();
    for first in 0..5 {
        for second in 0..5 {
            given(&mut sum, order, &filled(order, first, second));
        }
    }
    let (first, second) = if order % 4 == 0 { (5, 6) } else { (2, 3) };
    examined(&mut sum, order, &filled(order, first, second));
    sum
}

// A sheet of order 5 as one of orders whose lowest byte is 5.
pub fn far_sum() -> Sum {
    let mut sum = Sum::new();
    let sheet = filled(5, 2, 3);
    for order in [261, 65541, 4294967045] {
        given(&mut sum, order, &sheet);
    }
    sum
}

// Sheets that the library writes, with the same changes.
pub fn written_sum() -> Sum {
    let mut sum = Sum::new();
    for (n, f, g) in SHEETS {
        let mut bytes = [255u8; ROOM];
        let answer = squares::sheet(n, f, g, &mut bytes);
        sum.add_answer(answer, |sum, _| examined(sum, 1 << (n % 8), &bytes));
    }
    sum
}
