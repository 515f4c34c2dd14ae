// Trials of the command language: how lines are read, and what is said of those that cannot be.
#![tactic(auto)]

#[cfg(test)]
mod expected;
#[cfg(test)]
mod faults;
#[cfg(test)]
mod readings;
