// BIND contents (rules 4.9 to 4.12): their parts, and the check of their layout. What stands in a child's content is not looked at here.
#![tactic(auto)]

pub mod bind_parts;
pub mod layout_check;
