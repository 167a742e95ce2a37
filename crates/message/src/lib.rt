// What a message gives. The definitions are in specs/, in document 01's order: Caller, Refusal, Contents, Command, Reply, Message.
// The types here are those that the code hands on; specs/Given.antt says what they mean.
#![tactic(auto)]

pub mod answer;
pub mod caller;
pub mod refusal;
