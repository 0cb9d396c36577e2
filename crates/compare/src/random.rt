// Numbers to try.

// A congruential generator.
#[derive(Clone, Copy)]
pub struct Numbers {
    state: u32,
}

impl Numbers {
    // The numbers from one on.
    pub fn from(first: u32) -> Numbers {
        Numbers { state: first }
    }

    pub fn next(&mut self) -> u32 {
        let number = self.state;
        self.state = number.wrapping_mul(1664525).wrapping_add(1013904223);
        number
    }

    // A code of up to 32 bits, of any length: a number's own low bits say how many of it are dropped.
    pub fn code(&mut self) -> u32 {
        let number = self.next();
        number >> (number % 32)
    }

    // The n lowest bits of a number, for n from 1 to 31.
    pub fn low_bits(&mut self, n: u32) -> u32 {
        self.next() & !u32::MAX.wrapping_shl(n)
    }

    // An odd code of degree n, for n from 1 to 31.
    pub fn odd_code(&mut self, n: u32) -> u32 {
        1u32.wrapping_shl(n) | self.low_bits(n) | 1
    }
}
