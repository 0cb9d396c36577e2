// The library's calls for C, with the parameters that include/dinnowell.h declares, pointer by pointer. The return value is 0 for served,
// the papers' number for refused and 255 for spent. What stands behind a pointer changes only where the call is served.
#![tactic(auto)]

mod answers;
mod chains;
mod files;
mod lists;
mod sites;
mod walks;

// What a call returns that says spent.
const SPENT: u32 = 255;
