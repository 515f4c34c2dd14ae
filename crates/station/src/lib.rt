// A MAPsec station: its records, its registers and its calls.
#![tactic(auto)]

pub mod choice;
pub mod protect;
pub mod receive;
pub mod records;
pub mod registers;
mod seal;
pub mod slip;
pub mod station;
