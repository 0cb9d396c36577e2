// The chain of quotients and the longest chains, for C.
ghost use Rattle.std.specs.Prelude.{◌≡◌, length};
ghost use Rattle.console.specs.Status.{status, value};
ghost use Rattle.euclid.specs.Replies.{chain_reply, chain_content};
ghost use Rattle.longest.specs.Replies.{longest_reply};

// The quotients of f and g, into a slice of at least 32 numbers, with their count and the greatest common divisor.
#[unsafe(no_mangle)]
pub extern "C" fn dw_chain(
    n: u32,
    f: u32,
    g: u32,
    out: &mut [u32],
    count: &mut usize,
    divisor: &mut u32,
) -> u32
    ensures value { result ≡ status (chain_reply n f g (length out.old)) }
    ensures out_after { out.new ≡ chain_content n f g out.old }
    ensures count_after { count.new ≡ value 0 (chain_reply n f g (length out.old)) count.old }
    ensures divisor_after { divisor.new ≡ value 1 (chain_reply n f g (length out.old)) divisor.old }
{
    match euclid::quotients(n, f, g, out) {
        Ok(chain) => {
            *count = chain.count;
            *divisor = chain.divisor;
            0
        }
        Err(refusal) => refusal.number(),
    }
}

// How many positions of the list of degree n reach n + 1 quotients, and the first of them; where there is none, the first stays.
#[unsafe(no_mangle)]
pub extern "C" fn dw_longest_chains(n: u32, count: &mut u64, first: &mut u64) -> u32
    ensures value { result ≡ status (longest_reply n) }
    ensures count_after { count.new ≡ value 0 (longest_reply n) count.old }
    ensures first_after { first.new ≡ value 1 (longest_reply n) first.old }
{
    match longest::longest_chains(n) {
        Ok(Some(reach)) => {
            *count = reach.count;
            *first = reach.first;
            0
        }
        Ok(None) => {
            *count = 0;
            0
        }
        Err(refusal) => refusal.number(),
    }
}
