// The format of trial files (document 01, "Trial file"), and the test of a name, which its reader and its writer share.
#![tactic(auto)]

ghost use Rattle.std.specs.Prelude.{◌≡◌, not};
ghost use Rattle.trial.specs.Trial.{any_unprintable};

// Whether all the bytes are from 32 to 126, as those of a name are. It goes on behind one that is not, so that several can be compared at
// once.
pub fn printable(bytes: &[u8]) -> bool
    ensures { result ≡ not (any_unprintable bytes.now) }
{
    let mut good = true;
    for byte in bytes {
        good &= (32..=126).contains(byte);
    }
    good
}
