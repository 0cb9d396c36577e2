// Trial files, for C.
ghost use Rattle.std.specs.Prelude.{[], ◌∷◌};
ghost use Rattle.trial.specs.Trial.{trial_from};
ghost use Rattle.console.specs.Records.{file_values, TrialRead, TrialWritten};

use crate::answers::store;

// Reads a trial file, with its levels into slices of at least 64 numbers. The name is so many bytes of the file from an offset on. A
// version 1 file leaves times and h as they are.
#[unsafe(no_mangle)]
pub extern "C" fn dw_read(
    file: &[u8],
    powers: &mut [u16],
    forces: &mut [u16],
    times: &mut [u16],
    degree: &mut u32,
    f: &mut u32,
    g: &mut u32,
    name: &mut usize,
    size: &mut usize,
    version: &mut u32,
    h: &mut u32,
) -> u32
    ensures { TrialRead file.now powers.old forces.old times.old
        (file_values degree.old f.old g.old name.old size.old
        version.old h.old)
        powers.new forces.new times.new
        (file_values degree.new f.new g.new name.new size.new
        version.new h.new) result }
{
    match trial_reader::read(file, powers, forces, times) {
        Ok(content) => {
            *degree = content.degree;
            *f = content.f;
            *g = content.g;
            *name = content.name_at;
            *size = content.size;
            *version = content.version;
            if 2 <= content.version {
                *h = content.h;
            }
            0
        }
        Err(refusal) => refusal.number(),
    }
}

// Writes a trial file; size is how many bytes it has. At version 1 h and times are not looked at.
#[unsafe(no_mangle)]
pub extern "C" fn dw_write(
    version: u32,
    n: u32,
    f: u32,
    g: u32,
    h: u32,
    powers: &[u16],
    forces: &[u16],
    times: &[u16],
    name: &[u8],
    out: &mut [u8],
    size: &mut usize,
) -> u32
    ensures { TrialWritten (trial_from version n (f ∷ g ∷ h ∷ [])
        (powers.now ∷ forces.now ∷ times.now ∷ []) name.now)
        out.old size.old out.new size.new result }
{
    let answer = trial_writer::write(version, n, f, g, h, powers, forces, times, name, out);
    store(answer, size)
}
