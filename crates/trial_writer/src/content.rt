// What a file is written of. A version is known by what it has: version 2 has a third code and a third list.
ghost use Rattle.std.specs.Prelude.{◌≡◌};
ghost use Rattle.trial_writer.specs.Inner.{version_of, Thirds};

use reply::Refusal;

// What version 2 has beside what version 1 has.
#[derive(Clone, Copy)]
pub(crate) struct Third<'a> {
    pub h: u32,
    pub times: &'a [u16],
}

#[derive(Clone, Copy)]
pub(crate) struct Content<'a> {
    pub degree: u32,
    pub f: u32,
    pub g: u32,
    pub powers: &'a [u16],
    pub forces: &'a [u16],
    pub third: Option<Third<'a>>,
    pub name: &'a [u8],
}

impl Content<'_> {
    pub(crate) fn version(&self) -> u64
        ensures { result ≡ version_of self.now.third }
    {
        match self.third {
            None => 1,
            Some(_) => 2,
        }
    }
}

// The third code and list, where the version has them.
pub(crate) fn third_of<'a>(
    version: u32,
    h: u32,
    times: &'a [u16],
) -> Result<Option<Third<'a>>, Refusal>
    ensures { Thirds version h times.now result }
{
    match version {
        1 => Ok(None),
        2 => Ok(Some(Third { h, times })),
        _ => Err(Refusal::Version),
    }
}
