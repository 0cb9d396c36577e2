// The square of a polynomial: the symbols at a site, and the sheets that lay two squares or three together.
#![tactic(auto)]

ghost use Rattle.std.specs.Prelude.{◌≡◌, ◌+◌, ◌-◌, ◌*◌, ◌/◌, ◌%◌, ◌^◌, ◌≤◌, ◌<◌, [], ◌∷◌, ◌++◌, length, get_or, drop};
ghost use Rattle.std.specs.Int.{w64, to_le_bytes};
ghost use Rattle.reply.specs.Reply.{after};
ghost use Rattle.squares.specs.Replies.{symbols_reply, site_reply, laid_reply, sheet_of};
ghost use Rattle.squares.specs.Replies.{sheet_reply, sheet_bytes, sheet3_reply, sheet3_bytes};
ghost use Rattle.squares.specs.Doubling.{room_reply, unit_symbols, by_turns, Repeated, Put, Whole, Fillable, Added};
ghost use Rattle.squares.specs.Symbols.{from_digits};
ghost use Rattle.squares.specs.Lines.{parity, Moved, exchanged, Lower};

use poly::Degree;
use reply::Refusal;

// The symbols of f and of g at a site.
#[derive(Clone, Copy)]
pub struct Symbols {
    pub first: u32,
    pub second: u32,
}

// The site call: both symbols at a row and a column.
pub fn site(n: u32, f: u32, g: u32, row: u32, col: u32) -> Result<Symbols, Refusal>
    ensures { symbols_reply result ≡ site_reply n f g row col }
{
    let order = (Degree { n }).order()?;
    poly::check_pair(n, f, g)?;
    let row = u64::from(row);
    let col = u64::from(col);
    if order <= row || order <= col {
        return Err(Refusal::SiteRange);
    }
    let place = row * order + col;
    let line = reversed(place) >> (64 - 2 * n);
    Ok(symbols_of(n, f, g, line))
}

// The one place where symbols are made from a line: those of f and g, with cell i as bit i. Each output cell is a count of ones modulo 2.
// The window has cells i to i + 31; a code of degree n keeps those up to cell i + n. One loop for both codes takes less than one for each.
fn symbols_of(n: u32, f: u32, g: u32, line: u64) -> Symbols
    requires { n < 32 }
    ensures { (result.first ≡ from_digits 2 n (parity f line)) × (result.second ≡ from_digits 2 n (parity g line)) }
{
    let mut rest = line;
    let mut first = 0;
    let mut second = 0;
    for _ in 0..n {
        let window = (rest % 4294967296) as u32;
        first = first * 2 + (f & window).count_ones() % 2;
        second = second * 2 + (g & window).count_ones() % 2;
        rest /= 2;
    }
    Symbols { first, second }
}

// The 64 bits in reverse, by exchanges of ever wider groups, which the compiler knows as a bit reversal. It does not know u64's own
// reverse_bits, which goes bit by bit and takes five times as long.
fn reversed(bits: u64) -> u64
    ensures { Moved (λ i. 63 - i) bits result }
{
    let x = swapped(bits, 1, 0x5555555555555555);
    let x = swapped(x, 2, 0x3333333333333333);
    let x = swapped(x, 4, 0x0f0f0f0f0f0f0f0f);
    let x = swapped(x, 8, 0x00ff00ff00ff00ff);
    let x = swapped(x, 16, 0x0000ffff0000ffff);
    swapped(x, 32, 0x00000000ffffffff)
}

// The groups of `width` bits exchanged two by two; low has ones in the lower group of each two.
fn swapped(x: u64, width: u32, low: u64) -> u64
    requires { Lower width low }
    ensures { Moved (exchanged width) x result }
{
    ((x >> width) & low) | ((x & low) << width)
}

// The sheet call: writes the two squares, laid together, to the front of out.
pub fn sheet(n: u32, f: u32, g: u32, out: &mut [u8]) -> Result<(), Refusal>
    ensures result_value { laid_reply result ≡ sheet_reply n f g (length out.old) }
    ensures out_after { out.new ≡ sheet_bytes n f g out.old }
{
    if (Degree { n }).outside_sheets() {
        return Err(Refusal::SheetDegree);
    }
    euclid::check_coprime(n, f, g)?;
    lay(n, &[f, g], out)
}

// The sheet call of three codes: writes the three squares, laid together, to the front of out.
pub fn sheet3(n: u32, f: u32, g: u32, h: u32, out: &mut [u8]) -> Result<(), Refusal>
    ensures result_value { laid_reply result ≡ sheet3_reply n f g h (length out.old) }
    ensures out_after { out.new ≡ sheet3_bytes n f g h out.old }
{
    codes::check_three(n, f, g, h)?;
    lay(n, &[f, g, h], out)
}

// The sheet of two or three codes that have passed, if there is room for it.
// The degree and the codes are passed apart, here and below: behind one struct the compiler does not see how many codes there are, and a
// sheet of two of low degree takes a quarter longer. With each step inlined by a hint, one of three still takes 2 to 5 % longer.
fn lay(n: u32, codes: &[u32], out: &mut [u8]) -> Result<(), Refusal>
    requires { Fillable n codes.now }
    ensures result_value { laid_reply result ≡ room_reply (length codes.now) n (length out.old) }
    ensures out_after { out.new ≡ after (room_reply (length codes.now) n (length out.old))
        (sheet_of n codes.now ++ drop (length codes.now * 4 ^ n) out.old) out.old }
{
    if out.len() < codes.len() << (2 * n) {
        return Err(Refusal::SliceLength);
    }
    fill(n, codes, out);
    Ok(())
}

// The sheet, site by site: a symbol is linear in the site's number row * 2^n + col, so that the sites from 2^m to 2^(m+1) - 1 are those
// before them, each exclusive or the symbols at site 2^m.
fn fill(n: u32, codes: &[u32], out: &mut [u8])
    requires { Fillable n codes.now × (length codes.now * 4 ^ n ≤ length out.old) }
    ensures { out.new ≡ sheet_of n codes.now ++ drop (length codes.now * 4 ^ n) out.old }
{
    // Site 0 shows no ones.
    out[..codes.len()].fill(0);
    for m in 0..2 * n {
        double(n, codes, m, out);
    }
}

// Behind the first 2^m sites, the same exclusive or the symbols at site 2^m.
fn double(n: u32, codes: &[u32], m: u32, out: &mut [u8])
    requires { Fillable n codes.now × (m < 2 * n) × (2 * (length codes.now * 2 ^ m) ≤ length out.old) }
    ensures { Added out.old 0 (length codes.now * 2 ^ m) (length codes.now * 2 ^ m)
        (by_turns (unit_symbols n m codes.now)) out.new }
{
    let mut pattern = [0u8; 192];
    put_pattern(n, codes, m, &mut pattern);
    add(out, codes.len() << m, &pattern[..64 * codes.len()]);
}

// The symbols at site 2^m by turns, for 64 sites. Patterns are put where they are wanted: one that is returned would be copied.
fn put_pattern(n: u32, codes: &[u32], m: u32, pattern: &mut [u8; 192])
    requires { Fillable n codes.now × (m < 2 * n) }
    ensures { Repeated (unit_symbols n m codes.now) pattern.new }
{
    // The line of site 2^m has a single one.
    let line = 1u64 << (2 * n - 1 - m);
    let unit = symbols_of(n, codes[0], codes[1], line);
    if codes.len() == 2 {
        put_twos(unit.first as u8, unit.second as u8, pattern);
        return;
    }
    let third = symbols_of(n, codes[2], codes[2], line);
    put_threes(
        unit.first as u8,
        unit.second as u8,
        third.first as u8,
        pattern,
    );
}

// f, g, f, g, ..
fn put_twos(f: u8, g: u8, pattern: &mut [u8; 192])
    ensures { Repeated (f ∷ g ∷ []) pattern.new }
{
    for i in 0..64 {
        pattern[2 * i] = f;
        pattern[2 * i + 1] = g;
    }
}

// f, g, h, f, g, h, .. A function of its own, by words, whose eight bytes the compiler stores at once: from a loop over the sites as in
// `put_twos` it makes single bytes, which take ten times as long.
fn put_threes(f: u8, g: u8, h: u8, pattern: &mut [u8; 192])
    ensures { Repeated (f ∷ g ∷ h ∷ []) pattern.new }
{
    let first = u64::from_le_bytes([f, g, h, f, g, h, f, g]);
    let second = u64::from_le_bytes([h, f, g, h, f, g, h, f]);
    let third = u64::from_le_bytes([g, h, f, g, h, f, g, h]);
    for i in 0..8 {
        put_word(first, 24 * i, pattern);
        put_word(second, 24 * i + 8, pattern);
        put_word(third, 24 * i + 16, pattern);
    }
}

// The eight bytes of a word, from `at` on. std's copy_from_slice would ask at each word whether the two overlap.
fn put_word(word: u64, at: usize, pattern: &mut [u8; 192])
    requires { at + 8 ≤ 192 }
    ensures { Put pattern.old at 8 (to_le_bytes w64 word) pattern.new }
{
    let bytes = word.to_le_bytes();
    for k in 0..8 {
        pattern[at + k] = bytes[k];
    }
}

// Behind the first `size` bytes, the same exclusive or the pattern, which is repeated. The place is counted by hand: from a loop over the
// blocks by their number the compiler does not see how short they are, and a sheet of degree 6 takes half as long again.
fn add(out: &mut [u8], size: usize, pattern: &[u8])
    requires { (size ≤ 6144) × (2 * size ≤ length out.old) × (0 < length pattern.now) × (length pattern.now ≤ 192)
        × Whole (length pattern.now) size }
    ensures { Added out.old 0 size size (by_turns pattern.now) out.new }
{
    let count = size.min(pattern.len());
    let mut at = 0;
    while at < size {
        add_block(out, at, size + at, &pattern[..count]);
        at += count;
    }
}

// As many bytes as the pattern has, from `to` on: those from `from` on, exclusive or the pattern. A loop of its own, so that the compiler
// takes several bytes at once.
fn add_block(out: &mut [u8], from: usize, to: usize, pattern: &[u8])
    requires { (length pattern.now ≤ 192) × (from + length pattern.now ≤ to) × (to ≤ 12288)
        × (to + length pattern.now ≤ length out.old) }
    ensures { Added out.old from to (length pattern.now) (λ i. get_or pattern.now i 0) out.new }
{
    for (i, symbol) in pattern.iter().enumerate() {
        out[to + i] = out[from + i] ^ *symbol;
    }
}
