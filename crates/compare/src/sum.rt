// The checksum of what is compared.
use pairs::Pair;
use reply::Refusal;
use std::fmt;
use triples::Triple;

// What stands for "spent".
const SPENT: u32 = 255;

// A running checksum of the numbers that were added, in their order.
#[derive(Clone, Copy)]
pub struct Sum {
    value: u32,
}

impl Sum {
    pub fn new() -> Sum {
        Sum { value: 0 }
    }

    pub fn add<T: Into<u64>>(&mut self, number: T) {
        let wide: u64 = number.into();
        let low = (wide % 4294967296) as u32;
        let high = (wide / 4294967296) as u32;
        self.value = self
            .value
            .wrapping_mul(31)
            .wrapping_add(low)
            .wrapping_add(high);
    }

    pub fn add_all<T: Copy + Into<u64>>(&mut self, numbers: &[T]) {
        for number in numbers {
            self.add(*number);
        }
    }

    pub fn add_pair(&mut self, pair: Pair) {
        self.add(pair.f);
        self.add(pair.g);
    }

    pub fn add_triple(&mut self, triple: Triple) {
        self.add(triple.f);
        self.add(triple.g);
        self.add(triple.h);
    }

    // What a call answers: what `served` adds, or the number of the refusal.
    pub(crate) fn add_answer<T, F: FnOnce(&mut Sum, T)>(
        &mut self,
        answer: Result<T, Refusal>,
        served: F,
    )
        requires { F.IsAlwaysCallable served }
    {
        match answer {
            Ok(value) => served(self, value),
            Err(refusal) => self.add(refusal.number()),
        }
    }

    // The same of a call that may also say spent.
    pub(crate) fn add_next<T, F: FnOnce(&mut Sum, T)>(
        &mut self,
        answer: Result<Option<T>, Refusal>,
        served: F,
    )
        requires { F.IsAlwaysCallable served }
    {
        match answer {
            Ok(Some(value)) => served(self, value),
            Ok(None) => self.add(SPENT),
            Err(refusal) => self.add(refusal.number()),
        }
    }

    // The same of a call that gives no value; 0 where it is served.
    pub fn add_status(&mut self, answer: Result<(), Refusal>) {
        self.add_answer(answer, |sum, _| sum.add(0u32));
    }
}

impl fmt::Display for Sum {
    fn fmt<W: fmt::Write>(&self, f: &mut fmt::Formatter<W>) -> fmt::Result {
        write!(f, "{}", self.value)
    }
}
