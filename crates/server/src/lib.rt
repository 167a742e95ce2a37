// The call that takes a message: `call::take_message`.
#![tactic(auto)]

pub mod call;
mod run;
mod step;
