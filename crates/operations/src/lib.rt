// The operations of 01 on a sound drive: what each hands back, its own refusal included. The methods
// of `drive` check the drive first and wrap what comes back.
#![tactic(auto)]

pub mod board;
pub mod events;
pub mod parts;
pub mod results;
pub mod signals;
pub mod time;
