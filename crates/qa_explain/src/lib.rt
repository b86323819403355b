//! What is told of a refusal: by the event, the facts of its rule and where the rule stands, as a
//! text for people and as the members of a JSON object for programs.
#![tactic(auto)]

pub mod members;
pub mod text;
