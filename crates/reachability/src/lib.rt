// What can be reached in the memory, through DDD and EEE: 02, Slip 5. A cell stands as its place:
// cell 100 as 0. `counting` has the map of all that can be reached, and the map with what one cell
// leads to.
#![tactic(auto)]

pub mod counting;
mod search;
pub mod theorems;
pub mod ways;
