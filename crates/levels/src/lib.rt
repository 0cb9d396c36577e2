// Lists of levels, in which no level comes twice.
#![tactic(auto)]

ghost use Rattle.std.specs.Prelude.{not, [], ◌≡◌};
ghost use Rattle.levels.specs.Levels.{not_above, any_barred, repeated, repeats};

// Whether the levels rise. It goes on behind a level that is not above the one before it, so that several can be compared at once.
fn rising(levels: &[u16]) -> bool
    ensures { result ≡ not (any_barred not_above [] levels.now) }
{
    let mut good = true;
    for i in 1..levels.len() {
        if levels[i] <= levels[i - 1] {
            good = false;
        }
    }
    good
}

// Whether a level is one of those given. It goes on behind one that is equal, so that several can be compared at once.
fn among(levels: &[u16], level: u16) -> bool
    ensures { result ≡ repeated levels.now level }
{
    let mut found = false;
    for other in levels {
        if *other == level {
            found = true;
        }
    }
    found
}

// Whether no level comes twice. A level is looked for among those before it only where one of them has the same remainder by 1024. With a
// flag for every level none would be looked for, but clearing 65536 flags takes longer than looking for the few.
fn none_twice(levels: &[u16]) -> bool
    ensures { result ≡ not (repeats levels.now) }
{
    let mut seen = [false; 1024];
    for (i, level) in levels.iter().enumerate() {
        let slot = usize::from(*level % 1024);
        if seen[slot] && among(&levels[..i], *level) {
            return false;
        }
        seen[slot] = true;
    }
    true
}

// Whether no level comes twice. Levels that rise, as those of many lists do, differ, and that they rise is seen much sooner.
pub fn distinct(levels: &[u16]) -> bool
    ensures { result ≡ not (repeats levels.now) }
{
    rising(levels) || none_twice(levels)
}
