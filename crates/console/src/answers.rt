// What a call returns for an answer of the library, and what it stores.
ghost use Rattle.std.specs.Prelude.{◌≡◌};
ghost use Rattle.walk.specs.Walks.{next_reply};
ghost use Rattle.console.specs.Status.{status_of, stored};
ghost use Rattle.console.specs.Records.{Gives};

use crate::SPENT;
use pairs::Pair;
use reply::Refusal;

// The status of an answer without a value.
pub(crate) fn status(answer: Result<(), Refusal>) -> u32
    ensures { result ≡ status_of answer }
{
    match answer {
        Ok(()) => 0,
        Err(refusal) => refusal.number(),
    }
}

// The status of an answer with one value, which is stored if there is one.
pub(crate) fn store<T: Copy>(answer: Result<T, Refusal>, place: &mut T) -> u32
    ensures returned { result ≡ status_of answer }
    ensures after { place.new ≡ stored answer place.old }
{
    match answer {
        Ok(value) => {
            *place = value;
            0
        }
        Err(refusal) => refusal.number(),
    }
}

// The same of a pair, whose codes are stored in f and g, or spent.
pub(crate) fn store_next(answer: Result<Option<Pair>, Refusal>, f: &mut u32, g: &mut u32) -> u32
    ensures { Gives (next_reply answer) f.old g.old f.new g.new result }
{
    match answer {
        Ok(Some(pair)) => {
            *f = pair.f;
            *g = pair.g;
            0
        }
        Ok(None) => SPENT,
        Err(refusal) => refusal.number(),
    }
}
