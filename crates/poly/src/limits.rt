// The degree of polynomials, which knows its own limits, its order and the length of its list.
ghost use Rattle.std.specs.Prelude.{◌≡◌};
ghost use Rattle.poly.specs.Limits.{outside};
ghost use Rattle.poly.specs.Replies.{count_reply, order_reply, length_reply};

use reply::Refusal;

// Any number may stand in it: a call at a degree outside the limits answers that it is outside. So a private function that is only asked at a
// degree inside says so by itself.
#[derive(Clone, Copy)]
pub struct Degree {
    pub n: u32,
}

impl Degree {
    // The least degree and the greatest.
    pub const LEAST: u32 = 1;

    pub const GREATEST: u32 = 31;
    // A sheet, a trial file and a list of triples have degree 2 to this.
    pub const GREATEST_SHEET: u32 = 6;

    // Whether the degree is outside its limits.
    pub fn outside(self) -> bool
        ensures { result ≡ outside 1 31 self.n }
    {
        off(Degree::LEAST, Degree::GREATEST, self.n)
    }

    // Whether there are no sheets, no trial files and no list of triples of this degree.
    pub fn outside_sheets(self) -> bool
        ensures { result ≡ outside 2 6 self.n }
    {
        off(2, Degree::GREATEST_SHEET, self.n)
    }

    // The order of the squares, 2^n.
    pub fn order(self) -> Result<u64, Refusal>
        ensures { count_reply result ≡ order_reply self.n }
    {
        if self.outside() {
            return Err(Refusal::DegreeRange);
        }
        let n = self.n;
        Ok(1u64 << n)
    }

    // The length of the list of coprime pairs, 2(4^(n-1) - 1)/3.
    pub fn list_length(self) -> Result<u64, Refusal>
        ensures { count_reply result ≡ length_reply self.n }
    {
        if self.outside() {
            return Err(Refusal::DegreeRange);
        }
        let n = self.n;
        Ok(2 * ((1u64 << (2 * (n - 1))) - 1) / 3)
    }
}

// Whether n is not one of low to high.
fn off(low: u32, high: u32, n: u32) -> bool
    ensures { result ≡ outside low high n }
{
    n < low || high < n
}
