// What ends a run from outside: the free run stop, PX and the emergency stop. Each function takes
// the state and the present cell; none copies the memory.
#![tactic(auto)]

pub mod emergency;
pub mod free_run;
pub mod px;
