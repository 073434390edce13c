// Memory images of a drive, as 02, Slip 1, describes them: the presets and cells 100 to 227 as
// bytes to keep. `writing` fills a lent buffer, `reading` gives a fresh drive so filled.
#![tactic(auto)]

mod presets;
pub mod reading;
pub mod results;
pub mod writing;
