// The name.
ghost use Rattle.std.specs.Prelude.{◌+◌, ◌≤◌, length};
ghost use Rattle.leb128.specs.Writing.{Puts};

// Puts the bytes of a name at a position of `out`, and gives the position behind them.
pub(crate) fn put_name(out: &mut [u8], at: usize, name: &[u8]) -> usize
    requires { at + length name.now ≤ length out.old }
    ensures { Puts out.old at name.now result out.new }
{
    // Byte by byte: the compiler is not told that what C lends does not overlap, and would copy it whole by memmove, which the archive may
    // not ask for.
    for i in 0..name.len() {
        out[at + i] = name[i];
    }
    at + name.len()
}
