// Trials of the delivered gateway at the edges of its rules.
#![tactic(auto)]

#[cfg(test)]
mod arriving;
#[cfg(test)]
mod hearing;
#[cfg(test)]
mod keeping;
#[cfg(test)]
mod lending;
#[cfg(test)]
mod receiving;
#[cfg(test)]
mod sending;
#[cfg(test)]
mod setup;
#[cfg(test)]
mod unprotected;
