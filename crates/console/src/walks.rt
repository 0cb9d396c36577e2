// Walks, for C. Each call works on the record that the console lends, which stays as it was where the call is not served.
ghost use Rattle.std.specs.Prelude.{◌≡◌};
ghost use Rattle.console.specs.Status.{status_of, stored};
ghost use Rattle.console.specs.Records.{Starts, Looks, Draws, SetsMark, GoesBack};
ghost use Rattle.console.specs.Records.{WalkSaved, Loaded};

use crate::answers::{status, store, store_next};
use reply::Refusal;
use walk::Walk;

// The status of an answer that gives a walk, which is stored if there is one.
fn store_walk(answer: Result<Walk, Refusal>, place: &mut Walk) -> u32
    ensures returned { result ≡ status_of answer }
    ensures after { place.new ≡ stored answer place.old }
{
    match answer {
        Ok(walk) => {
            // Field by field, so that no padding is written: else the compiler writes words that lie across two lines of the cache.
            let marks = walk.marks;
            let counts = walk.counts;
            place.degree = walk.degree;
            place.position = walk.position;
            place.marks = marks;
            place.counts = counts;
            place.f = walk.f;
            place.g = walk.g;
            0
        }
        Err(refusal) => refusal.number(),
    }
}

// Starts a walk of degree n in a record that the console lends.
#[unsafe(no_mangle)]
pub extern "C" fn dw_start(n: u32, walk: &mut Walk) -> u32
    ensures { Starts n walk.old walk.new result }
{
    store_walk(walk::start(n), walk)
}

// The next pair of a walk that the console lends.
#[unsafe(no_mangle)]
pub extern "C" fn dw_look(walk: &Walk, f: &mut u32, g: &mut u32) -> u32
    ensures { Looks walk.now f.old g.old f.new g.new result }
{
    store_next(walk.look(), f, g)
}

// A draw for a bonder from a walk that the console lends, over the core that takes and gives the record by value. The pair is stored before
// the record.
#[unsafe(no_mangle)]
pub extern "C" fn dw_draw(walk: &mut Walk, bonder: u32, f: &mut u32, g: &mut u32) -> u32
    ensures { Draws walk.old bonder walk.new f.old g.old f.new g.new result }
{
    let here = *walk;
    let drawn = here.drawn(bonder);
    let status = store_next(drawn.answer, f, g);
    if status == 0 {
        // Neither the degree nor the marks, which a draw does not change.
        let counts = drawn.walk.counts;
        walk.position = drawn.walk.position;
        walk.counts = counts;
        walk.f = drawn.walk.f;
        walk.g = drawn.walk.g;
    }
    status
}

// The position of a walk that the console lends, stored in one of its marks.
#[unsafe(no_mangle)]
pub extern "C" fn dw_set_mark(walk: &mut Walk, mark: u32) -> u32
    ensures { SetsMark walk.old mark walk.new result }
{
    status(walk.set_mark(mark))
}

// The marked position taken up in a walk that the console lends.
#[unsafe(no_mangle)]
pub extern "C" fn dw_go_back(walk: &mut Walk, mark: u32) -> u32
    ensures { GoesBack walk.old mark walk.new result }
{
    status(walk.go_back(mark))
}

// Saves a walk that the console lends; size is how many bytes the file has.
#[unsafe(no_mangle)]
pub extern "C" fn dw_save(walk: &Walk, out: &mut [u8], size: &mut usize) -> u32
    ensures { WalkSaved walk.now out.old size.old out.new size.new result }
{
    store(saved::save(walk, out), size)
}

// Reads a saved walk into a record that the console lends.
#[unsafe(no_mangle)]
pub extern "C" fn dw_load(file: &[u8], walk: &mut Walk) -> u32
    ensures { Loaded file.now walk.old walk.new result }
{
    store_walk(saved::load(file), walk)
}
