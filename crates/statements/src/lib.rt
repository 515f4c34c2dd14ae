// The command language of the gateway: a line is read into a statement.
#![tactic(auto)]

pub mod both;
pub mod declaration;
pub mod statement;
