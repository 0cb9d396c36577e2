// The name.
ghost use Rattle.trial_reader.specs.Inner.{NameRead};

use crate::fields::size_field;
use reply::Refusal;
use trial::printable;

// Where the name is in the file.
#[derive(Clone, Copy)]
pub(crate) struct NamePlace {
    pub start: usize,
    pub size: usize,
}

// The name whose size stands at a position of the file, with nothing behind it.
pub(crate) fn read_name(file: &[u8], at: usize) -> Result<NamePlace, Refusal>
    ensures { NameRead file.now at result }
{
    let (size, start) = size_field(file, at)?;
    if file.len() - start < size {
        return Err(Refusal::FileEnds);
    }
    let end = start + size;
    if !printable(&file[start..end]) {
        return Err(Refusal::NameByte);
    }
    if end < file.len() {
        return Err(Refusal::TrailingBytes);
    }
    Ok(NamePlace { start, size })
}
