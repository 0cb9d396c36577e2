// How many triples begin alike.

// How many triples of its degree begin with the code 2·half + 1, for each half below 64.
pub(crate) const BEGINNING: [u16; 64] = [
    0, 0, 0, 0, 2, 4, 4, 2, 12, 28, 24, 12, 28, 6, 12, 28, 54, 90, 140, 42, 140, 54, 30, 140, 90,
    54, 54, 140, 42, 140, 140, 30, 128, 620, 528, 224, 620, 170, 224, 384, 528, 90, 224, 620, 224,
    620, 384, 200, 620, 200, 90, 620, 170, 408, 620, 224, 224, 620, 620, 128, 384, 224, 200, 434,
];
