// A walk through the list of a degree: start, look, draw, set a mark, go back to one, set the next pair right.
#![tactic(auto)]

ghost use Rattle.std.specs.Prelude.{◌≡◌, false, [], ◌∷◌, ◌≤◌, ltb, IfOk, IfErr};
ghost use Rattle.reply.specs.Numbers.{number_of};
ghost use Rattle.reply.specs.Reply.{served, refused, ◌gives◌, unless};
ghost use Rattle.poly.specs.Limits.{list_length};
ghost use Rattle.poly.specs.Replies.{checked_reply};
ghost use Rattle.walk.specs.Walks.{begun, change_reply, start_reply, started, record_given, any_above, bad_record, record_cause, next_reply, righted};
ghost use Rattle.walk.specs.Walks.{look_reply, draw_reply, after_draw, set_mark_reply, after_set_mark};
ghost use Rattle.walk.specs.Walks.{go_back_reply, after_go_back, set_right_reply, after_set_right};

use pairs::Pair;
use poly::Degree;
use reply::Refusal;

// The highest count.
pub const FULL_COUNT: u64 = 1000000000000000000;

// Document 01's walk record, with document 02's eight marks, eight counts and next pair. A mark is 0 if it is empty, else the marked
// position plus 1; a count is how many pairs its bonder was given. The next pair, f and g, is 0 and 0 when the walk is spent; in a record
// that was not reached from a start by calls alone it may be anything, until a draw gives a pair, a return is served or the pair is set
// right. The C interface has these fields in this order.
#[repr(C)]
#[derive(Clone, Copy)]
pub struct Walk {
    pub degree: u32,
    pub position: u64,
    pub marks: [u64; 8],
    pub counts: [u64; 8],
    pub f: u32,
    pub g: u32,
}

// What a draw answers, and the record after it.
#[derive(Clone, Copy)]
pub struct Drawn {
    pub answer: Result<Option<Pair>, Refusal>,
    pub walk: Walk,
}

// A walk at the start of the list of a degree.
pub fn start(n: u32) -> Result<Walk, Refusal>
    ensures reply { change_reply result ≡ start_reply n }
    ensures walk { record_given result ≡ started n }
{
    if (Degree { n }).outside() {
        return Err(Refusal::DegreeRange);
    }
    Ok(begun(n))
}

// The record of an answer that gives a walk; where there is none, one that no call serves.
pub fn record_given(answer: Result<Walk, Refusal>) -> Walk
    ensures { result ≡ record_given answer }
{
    match answer {
        Ok(walk) => walk,
        Err(_) => begun(0),
    }
}

// A record at the start of a list. The first pair of each list that has one is x^n + x + 1 and x^n + 1.
fn begun(n: u32) -> Walk
    requires { n ≤ 31 }
    ensures { result ≡ begun n }
{
    let mut walk = Walk {
        degree: n,
        position: 0,
        marks: [0; 8],
        counts: [0; 8],
        f: 0,
        g: 0,
    };
    if 2 <= n {
        let power = 1u32 << n;
        walk.f = power + 3;
        walk.g = power + 1;
    }
    walk
}

// Some number is above `most`. All are looked at, without a branch for each.
fn any_above(numbers: &[u64; 8], most: u64) -> bool
    ensures { result ≡ any_above most numbers.now }
{
    let mut above = false;
    for number in numbers {
        above |= most < *number;
    }
    above
}

impl Walk {
    // The test of the record that every call on it makes first: number 3.
    pub fn checked(&self) -> Result<(), Refusal>
        ensures { checked_reply result ≡ unless (record_cause self.now ∷ []) (served []) }
    {
        self.length()?;
        Ok(())
    }

    // The length of the list, if the record passes that test. Inlined, since a look took a quarter more with a call of it.
    #[inline]
    fn length(&self) -> Result<u64, Refusal>
        ensures passes { IfOk result (λ length. (bad_record self.now ≡ false) × (length ≡ list_length self.now.degree)) }
        ensures refuses { IfErr result (λ why. refused (number_of why) ≡ unless (record_cause self.now ∷ []) (served [])) }
    {
        let n = self.degree;
        let Ok(length) = (Degree { n }).list_length() else {
            return Err(Refusal::WalkRecord);
        };
        if length < self.position {
            return Err(Refusal::WalkRecord);
        }
        if any_above(&self.marks, length + 1) | any_above(&self.counts, FULL_COUNT) {
            return Err(Refusal::WalkRecord);
        }
        Ok(length)
    }

    // The same, and then the test of the number of a mark or a bonder. With this one inlined too, a draw that worked on the lent record took
    // 5 ns more from degree 11 on.
    fn length_for(&self, number: u32, refusal: Refusal) -> Result<u64, Refusal>
        ensures passes { IfOk result (λ length. (bad_record self.now ≡ false) × (number ≤ 7) × (length ≡ list_length self.now.degree)) }
        ensures refuses { IfErr result (λ why.
            refused (number_of why) ≡ unless (record_cause self.now ∷ ltb 7 number gives number_of refusal ∷ []) (served [])) }
    {
        let length = self.length()?;
        if 7 < number {
            return Err(refusal);
        }
        Ok(length)
    }

    // The pair that the record holds; none at the list's end.
    pub fn look(&self) -> Result<Option<Pair>, Refusal>
        ensures { next_reply result ≡ look_reply self.now }
    {
        let length = self.length()?;
        if length <= self.position {
            return Ok(None);
        }
        let pair = self.held();
        Ok(Some(pair))
    }

    // The pair that the record holds.
    fn held(&self) -> Pair
        ensures f { result.f ≡ self.now.f }
        ensures g { result.g ≡ self.now.g }
    {
        Pair {
            f: self.f,
            g: self.g,
        }
    }

    // An answer to a draw, and the record as it was.
    fn unmoved(self, answer: Result<Option<Pair>, Refusal>) -> Drawn
        ensures { (result.answer ≡ answer) × (result.walk ≡ self) }
    {
        Drawn { answer, walk: self }
    }

    // The pair that the record holds, for a bonder. Where it gives one, the record is moved on by one, the bonder's count is raised, and
    // the next pair is worked out.
    pub fn drawn(mut self, bonder: u32) -> Drawn
        ensures reply { next_reply result.answer ≡ draw_reply self bonder }
        ensures walk { result.walk ≡ after_draw self bonder }
    {
        let length = match self.length_for(bonder, Refusal::BonderRange) {
            Ok(length) => length,
            Err(refusal) => return self.unmoved(Err(refusal)),
        };
        if length <= self.position {
            return self.unmoved(Ok(None));
        }
        let count = self.counts[bonder as usize];
        if count == FULL_COUNT {
            return self.unmoved(Err(Refusal::BonderFull));
        }
        let given = self.held();
        self.counts[bonder as usize] = count + 1;
        self.position += 1;
        self.work_out();
        Drawn {
            answer: Ok(Some(given)),
            walk: self,
        }
    }

    // The draw from a record that the console lends, thin over the core by value, as document 01 asks.
    pub fn draw(&mut self, bonder: u32) -> Result<Option<Pair>, Refusal>
        ensures reply { next_reply result ≡ draw_reply self.old bonder }
        ensures after { self.new ≡ after_draw self.old bonder }
    {
        let drawn = self.drawn(bonder);
        *self = drawn.walk;
        drawn.answer
    }

    // Stores the position in a mark.
    pub fn set_mark(&mut self, mark: u32) -> Result<(), Refusal>
        ensures reply { change_reply result ≡ set_mark_reply self.old mark }
        ensures after { self.new ≡ after_set_mark self.old mark }
    {
        self.length_for(mark, Refusal::MarkRange)?;
        let stored = self.position + 1;
        self.marks[mark as usize] = stored;
        Ok(())
    }

    // Takes up the position of a mark, and works out the next pair there.
    pub fn go_back(&mut self, mark: u32) -> Result<(), Refusal>
        ensures reply { change_reply result ≡ go_back_reply self.old mark }
        ensures after { self.new ≡ after_go_back self.old mark }
    {
        self.length_for(mark, Refusal::MarkRange)?;
        let stored = self.marks[mark as usize];
        if stored == 0 {
            return Err(Refusal::MarkEmpty);
        }
        self.position = stored - 1;
        self.work_out();
        Ok(())
    }

    // Works out the next pair of a record that was put together by other means, as from a file.
    pub fn set_right(&mut self) -> Result<(), Refusal>
        ensures reply { change_reply result ≡ set_right_reply self.old }
        ensures after { self.new ≡ after_set_right self.old }
    {
        self.checked()?;
        self.work_out();
        Ok(())
    }

    // Works out the next pair at the position: 0 and 0 from the list's end on.
    fn work_out(&mut self)
        requires { self.old.degree ≤ 31 }
        ensures { self.new ≡ righted self.old }
    {
        let next = pairs::pair_at(self.degree, self.position).unwrap_or(Pair { f: 0, g: 0 });
        self.f = next.f;
        self.g = next.g;
    }
}
