// The rules of a MAPsec station that need no station: refusals, settings, protection modes, the window and the message layout.
#![tactic(auto)]

pub mod bounds;
pub mod component;
pub mod listed;
pub mod message;
pub mod profile;
pub mod protection;
pub mod refusal;
pub mod settings;
#[cfg(test)]
mod tests;
pub mod window;
