// What the readers and writers of messages and of their parts answer. The module of each topic lists its kinds with their fields. Where a kind
// answers in both layouts (rule 3.6), what it says for the new one is followed by the same for the old one.
#![tactic(auto)]

pub mod headers;
pub mod messages;
pub mod streams;
pub mod values;
pub mod writers;
