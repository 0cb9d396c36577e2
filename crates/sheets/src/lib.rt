// Sheets that were made elsewhere: whether one is a Graeco-Latin square, that is, two orthogonal Latin squares laid together.
#![tactic(auto)]

ghost use Rattle.std.specs.Prelude.{◌≡◌, ◌&&◌, ◌+◌, ◌-◌, ◌*◌, ◌/◌, ◌^◌, ◌≤◌, ◌<◌, min, ltb, eqb, length, get_or};
ghost use Rattle.poly.specs.Replies.{checked_reply};
ghost use Rattle.squares.specs.Sheets.{shown};
ghost use Rattle.sheets.specs.Counting.{all_below, is_graeco_latin};
ghost use Rattle.sheets.specs.Replies.{check_sheet_reply};
ghost use Rattle.sheets.specs.Inner.{InRange, Singles, row_permutes, by_turns, all_full, added, pairs_put};

use reply::Refusal;

// The check of a sheet of an order from 3 to 64, two bytes a site, row by row. Bytes behind it are not looked at.
pub fn check_sheet(order: u32, sheet: &[u8]) -> Result<(), Refusal>
    ensures { checked_reply result ≡ check_sheet_reply order sheet.now }
{
    if !(3..=64).contains(&order) {
        return Err(Refusal::OrderRange);
    }
    let side = order as usize;
    let size = 2 * (side * side);
    if sheet.len() < size {
        return Err(Refusal::SliceLength);
    }
    let sheet = &sheet[..size];
    if !all_symbols(order as u8, sheet) {
        return Err(Refusal::SymbolRange);
    }
    if !graeco_latin(side, sheet) {
        return Err(Refusal::NotGraecoLatin);
    }
    Ok(())
}

// Whether all bytes are symbols. It goes on behind one that is not, so that several can be compared at once.
fn all_symbols(order: u8, bytes: &[u8]) -> bool
    ensures { result ≡ all_below (length bytes.now) (λ i. ltb (get_or bytes.now i 0) order) }
{
    let mut good = true;
    for byte in bytes {
        good &= *byte < order;
    }
    good
}

// The symbols of sheets of one order, no more than a set of 64 bits has room for. They are handed along: with the order among the fields of
// `Met`, the compiler reads it anew for each two rows, and a check takes up to a twelfth longer.
#[derive(Clone, Copy)]
struct Symbols {
    order: usize,
    ghost some: { 1 ≤ order },
    ghost few: { order ≤ 64 },
}

// The symbols met, as sets with a bit for each: of each column those of the first square and those of the second, and those that the second
// square has beside each symbol of the first.
#[derive(Drop)]
struct Met {
    firsts: [u64; 64],
    seconds: [u64; 64],
    pairs: [u64; 64],
}

// Whether both squares are Latin and the two are orthogonal. N symbols below N are a permutation where none is missing from their set, and
// N × N sites show each pair once where no pair is missing. Of an odd order the last row is put twice, which no set shows.
fn graeco_latin(order: usize, sheet: &[u8]) -> bool
    requires { InRange order sheet.now }
    ensures { result ≡ is_graeco_latin order (shown 2 order 0 sheet.now) (shown 2 order 1 sheet.now) }
{
    let symbols = Symbols { order };
    let single = symbols.singles();
    let mut met = Met {
        firsts: [0; 64],
        seconds: [0; 64],
        pairs: [0; 64],
    };
    for two in 0..order.div_ceil(2) {
        let row = 2 * two;
        let next = (row + 1).min(order - 1);
        if !met.put_rows(symbols, sheet, row, next, &single) {
            return false;
        }
    }
    met.is_full(symbols)
}

impl Symbols {
    // The sets of one symbol each: a load from memory takes less than a shift.
    fn singles(self) -> [u64; 64]
        ensures { Singles self.order result }
    {
        let mut one = [0u64; 64];
        for symbol in 0..self.order {
            one[symbol] = 1 << symbol;
        }
        one
    }

    // The set of all of them.
    fn full(self) -> u64
        ensures { result ≡ 2 ^ self.order - 1 }
    {
        u64::MAX >> (64 - self.order)
    }

    // Whether two sets both have all symbols.
    fn both_full(self, first: u64, second: u64) -> bool
        ensures { result ≡ (eqb first (2 ^ self.order - 1) && eqb second (2 ^ self.order - 1)) }
    {
        let all = self.full();
        first == all && second == all
    }

    // Whether the first sets of a table, as many as the order, have all symbols. It goes on behind one that has not, as `all_symbols` does.
    fn all_full(self, table: &[u64; 64]) -> bool
        ensures { result ≡ all_full self.order table.now }
    {
        let all = self.full();
        let mut good = true;
        for a in 0..self.order {
            good &= table[a] == all;
        }
        good
    }
}

impl Met {
    // Whether two rows are permutations of the symbols, in both squares; and their symbols are put into the sets, whatever the answer. Two
    // at once: of a column both symbols go into the same set, which the compiler then reads and writes once.
    fn put_rows(
        &mut self,
        symbols: Symbols,
        sheet: &[u8],
        row: usize,
        next: usize,
        single: &[u64; 64],
    ) -> bool
        requires { InRange symbols.order sheet.now × (row < symbols.order) × (next < symbols.order)
            × Singles symbols.order single.now }
        ensures value { result ≡ (row_permutes symbols.order sheet.now row
            && row_permutes symbols.order sheet.now next) }
        ensures firsts { self.new.firsts ≡ pairs_put self.old.firsts (2 * symbols.order) (λ j. j / 2)
            (by_turns symbols.order sheet.now 0 row next) }
        ensures seconds { self.new.seconds ≡ pairs_put self.old.seconds (2 * symbols.order) (λ j. j / 2)
            (by_turns symbols.order sheet.now 1 row next) }
        ensures pairs { self.new.pairs ≡ pairs_put self.old.pairs (2 * symbols.order)
            (by_turns symbols.order sheet.now 0 row next) (by_turns symbols.order sheet.now 1 row next) }
    {
        let order = symbols.order;
        let start = row * order;
        let start_next = next * order;
        // The sets of the first and the second symbols of the one row, and of the next.
        let mut first = 0;
        let mut second = 0;
        let mut first_next = 0;
        let mut second_next = 0;
        for col in 0..order {
            let at = 2 * (start + col);
            let at_next = 2 * (start_next + col);
            let a = sheet[at] as usize;
            let b = sheet[at + 1] as usize;
            let c = sheet[at_next] as usize;
            let d = sheet[at_next + 1] as usize;
            let of_a = single[a];
            let of_b = single[b];
            let of_c = single[c];
            let of_d = single[d];
            first |= of_a;
            second |= of_b;
            first_next |= of_c;
            second_next |= of_d;
            put_two(&mut self.firsts, col, of_a, col, of_c);
            put_two(&mut self.seconds, col, of_b, col, of_d);
            put_two(&mut self.pairs, a, of_b, c, of_d);
        }
        symbols.both_full(first, second) && symbols.both_full(first_next, second_next)
    }

    // Whether no symbol is missing from any set.
    fn is_full(&self, symbols: Symbols) -> bool
        ensures { result ≡ (all_full symbols.order self.now.firsts && all_full symbols.order self.now.seconds
            && all_full symbols.order self.now.pairs) }
    {
        symbols.all_full(&self.firsts)
            && symbols.all_full(&self.seconds)
            && symbols.all_full(&self.pairs)
    }
}

// Adds x to set number a of a table, then y to set number b.
fn put_two(table: &mut [u64; 64], a: usize, x: u64, b: usize, y: u64)
    requires { (a < 64) × (b < 64) }
    ensures { table.new ≡ added (added table.old a x) b y }
{
    table[a] |= x;
    table[b] |= y;
}
