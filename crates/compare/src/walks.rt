// Checksums of walks with marks set, returns, and draws for each bonder, and of the pairs that their records hold.
use crate::sum::Sum;
use reply::Refusal;
use walk::Walk;

// The record of a start or of a file, and the answer added.
pub fn begun(sum: &mut Sum, answer: Result<Walk, Refusal>) -> Walk {
    sum.add_answer(answer, |sum, _| sum.add(0u32));
    walk::record_given(answer)
}

// The i-th call: a mark is set at every sixteenth, a return made at every 64th, and the others draw. Mark 8 and bonder 8 are refused.
fn call(sum: &mut Sum, walk: &mut Walk, i: u64) {
    if i % 64 == 45 {
        sum.add_status(walk.go_back((i / 64 % 9) as u32));
        return;
    }
    if i % 16 == 5 {
        sum.add_status(walk.set_mark((i / 16 % 9) as u32));
        return;
    }
    sum.add_next(walk.draw((i % 9) as u32), |sum, pair| sum.add_pair(pair));
}

// The pair that the record holds.
fn kept(sum: &mut Sum, walk: &Walk) {
    sum.add(walk.f);
    sum.add(walk.g);
}

// The first `count` calls, each with the pair that the record holds after it.
pub fn calls(sum: &mut Sum, walk: &mut Walk, count: u64) {
    for i in 0..count {
        call(sum, walk, i);
        kept(sum, walk);
    }
}

// The checksum of a start and 3000 calls, of the pair that the record holds after each, and of the position and the counts after all.
pub fn walk_sum(n: u32) -> Sum {
    let mut sum = Sum::new();
    let mut walk = begun(&mut sum, walk::start(n));
    kept(&mut sum, &walk);
    calls(&mut sum, &mut walk, 3000);
    sum.add(walk.position);
    sum.add_all(&walk.counts);
    sum
}
