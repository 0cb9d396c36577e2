// Arithmetic of codes.
ghost use Rattle.std.specs.Prelude.{◌≡◌, ◌*◌, ◌%◌};
ghost use Rattle.poly.specs.Code.{degree, mul};
ghost use Rattle.poly.specs.Replies.{checked_reply, check_reply, check_pair_reply, division_of};
ghost use Rattle.poly.specs.Division.{divide};

use reply::Refusal;

// The degree, from the leading zeros. Code 0, which has no degree, gives 0.
pub fn degree_of(code: u32) -> u32
    ensures { result ≡ degree 2 code }
{
    if code == 0 {
        return 0;
    }
    31 - u32::leading_zeros(code)
}

// Whether a code may stand at degree n. The degree itself is not judged here: at 0 the code 1 passes, above 31 every code gets 6.
pub fn check(n: u32, code: u32) -> Result<(), Refusal>
    ensures { checked_reply result ≡ check_reply n code }
{
    if code == 0 {
        return Err(Refusal::CodeDegree);
    }
    if degree_of(code) != n {
        return Err(Refusal::CodeDegree);
    }
    if code % 2 == 0 {
        return Err(Refusal::ConstantTerm);
    }
    Ok(())
}

// The same for two codes, f before g.
pub fn check_pair(n: u32, f: u32, g: u32) -> Result<(), Refusal>
    ensures { checked_reply result ≡ check_pair_reply n f g }
{
    check(n, f)?;
    check(n, g)
}

// A code times the constant term of another. By a mask: of a product the compiler makes a branch, and nothing foretells the bits.
pub fn scaled(code: u32, by: u32) -> u32
    ensures { result ≡ by % 2 * code }
{
    code & (by % 2 * 4294967295)
}

// The product, by one pass over the bits of the shorter factor.
pub fn product(a: u32, b: u32) -> u64
    ensures { result ≡ mul 2 a b }
{
    if a < b { times(a, b) } else { times(b, a) }
}

// Horner's rule over the bits of a, highest first.
fn times(a: u32, b: u32) -> u64
    ensures { result ≡ mul 2 a b }
{
    let mut sum: u64 = 0;
    for place in (0..degree_of(a) + 1).rev() {
        sum = (sum << 1) ^ scaled(b, a >> place) as u64;
    }
    sum
}

#[derive(Clone, Copy)]
pub struct Divided {
    pub quotient: u32,
    pub remainder: u32,
}

// Quotient and remainder. Each turn takes the remainder's leading term away, while its degree is at least b's. By 0: quotient 0, remainder
// a. The limit is 2^d - 1 for b of degree d. A comparison with it waits for no leading zeros of the new remainder, so the processor learns
// sooner that the loop has ended; and what is above it is not 0, which spares a test.
pub fn divide(a: u32, b: u32) -> Divided
    ensures { division_of result ≡ divide 2 a b }
{
    let mut quotient = 0;
    let mut remainder = a;
    if b == 0 {
        return Divided {
            quotient,
            remainder,
        };
    }
    let zeros = u32::leading_zeros(b);
    let limit = 2147483647 >> zeros;
    while limit < remainder {
        let shift = zeros - u32::leading_zeros(remainder);
        quotient = quotient ^ (1 << shift);
        remainder = remainder ^ (b << shift);
    }
    Divided {
        quotient,
        remainder,
    }
}
