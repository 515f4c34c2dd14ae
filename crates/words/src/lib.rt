// The words of a line, and what each of them stands for.
#![tactic(auto)]

pub mod cut;
pub mod fault;
pub mod line;
pub mod numbers;
