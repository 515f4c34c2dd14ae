// Logs of calls at two stations, and what holds over whole logs.
#![tactic(auto)]

pub mod log;
pub mod rehearse;
mod site;
mod sites;
