// Walks saved in files, so that a trial goes on over an update of the console.
#![tactic(auto)]

mod reading;
mod writing;

pub use reading::load;
pub use writing::save;
