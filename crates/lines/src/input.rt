// What the input of the list program asks for.
ghost use Rattle.std.specs.Prelude.{◌≡◌};
ghost use Rattle.lines.specs.Input.{asked_reply, numeral_reply, input_reply};

use reply::Refusal;

// The degree that the whole input asks for. A single digit is read as the ones.
pub fn degree_in(input: &[u8]) -> Result<u32, Refusal>
    ensures { asked_reply result ≡ input_reply input.now }
{
    match *input {
        [ones, end] => numeral(b'0', ones, end),
        [tens, ones, end] => numeral(tens, ones, end),
        _ => Err(Refusal::DegreeRange),
    }
}

// The degree that two digits write, with a newline behind them.
#[tactic(auto, unfolding(crate::specs::Input::numeral_reply, crate::specs::Input::is_digit, poly::specs::Limits::outside))]
fn numeral(tens: u8, ones: u8, end: u8) -> Result<u32, Refusal>
    ensures { asked_reply result ≡ numeral_reply tens ones end }
{
    if !tens.is_ascii_digit() || !ones.is_ascii_digit() || end != b'\n' {
        return Err(Refusal::DegreeRange);
    }
    let n = u32::from(tens - b'0') * 10 + u32::from(ones - b'0');
    if (1..=10).contains(&n) {
        Ok(n)
    } else {
        Err(Refusal::DegreeRange)
    }
}
