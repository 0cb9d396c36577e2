// Euclid's algorithm on codes: the chain of quotients and the greatest common divisor.
#![tactic(auto)]

ghost use Rattle.std.specs.Prelude.{◌≡◌, ◌≤◌, length};
ghost use Rattle.std.proofs.lemmas.List.Edits.{sets};
ghost use Rattle.poly.specs.Coprime.{gcd};
ghost use Rattle.poly.specs.Replies.{checked_reply};
ghost use Rattle.euclid.specs.Chain.{chain};
ghost use Rattle.euclid.specs.Replies.{chained_reply, chain_reply, chain_content, check_coprime_reply};

use poly::Degree;
use reply::Refusal;

// How many quotients were written, and the greatest common divisor.
#[derive(Clone, Copy, Debug, PartialEq, Eq)]
pub struct Chain {
    pub count: usize,
    pub divisor: u32,
}

// Writes the quotients of Euclid's algorithm on f and g, both of degree n and odd, to the front of out.
pub fn quotients(n: u32, f: u32, g: u32, out: &mut [u32]) -> Result<Chain, Refusal>
    ensures reply { chained_reply result ≡ chain_reply n f g (length out.old) }
    ensures content { out.new ≡ chain_content n f g out.old }
{
    if (Degree { n }).outside() {
        return Err(Refusal::DegreeRange);
    }
    poly::check_pair(n, f, g)?;
    if out.len() < 32 {
        return Err(Refusal::SliceLength);
    }
    Ok(divisions(f, g, out))
}

// Writes the quotients of f and g to the front of out, each as it is found; it refuses nothing. The divisor falls with each division, and
// the loop ends with it: the count is what it finds, and no range of it.
fn divisions(f: u32, g: u32, out: &mut [u32]) -> Chain
    requires { length (chain 2 f g).quotients ≤ length out.old }
    ensures counted { result.count ≡ length (chain 2 f g).quotients }
    ensures divisor { result.divisor ≡ (chain 2 f g).divisor }
    ensures written { out.new ≡ sets out.old 0 (chain 2 f g).quotients }
{
    let mut dividend = f;
    let mut divisor = g;
    let mut count: usize = 0;
    while divisor != 0 {
        let d = poly::divide(dividend, divisor);
        out[count] = d.quotient;
        count += 1;
        dividend = divisor;
        divisor = d.remainder;
    }
    // By now the last divisor is the dividend.
    Chain {
        count,
        divisor: dividend,
    }
}

// The greatest common divisor. The loop is not that of the chain, since no quotient is wanted and no place for one is lent.
pub fn gcd(f: u32, g: u32) -> u32
    ensures { result ≡ gcd 2 f g }
{
    let mut a = f;
    let mut b = g;
    while b != 0 {
        let d = poly::divide(a, b);
        a = b;
        b = d.remainder;
    }
    a
}

// Whether two codes may stand at degree n as a coprime pair. The degree itself is not judged here.
pub fn check_coprime(n: u32, f: u32, g: u32) -> Result<(), Refusal>
    ensures { checked_reply result ≡ check_coprime_reply n f g }
{
    poly::check_pair(n, f, g)?;
    if gcd(f, g) != 1 {
        return Err(Refusal::CommonFactor);
    }
    Ok(())
}
