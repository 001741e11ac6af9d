// The tree of a packet: what a tree is, which trees are lawful, and what the calls with a path make of one.
//
// The meaning stands in specs/, as definitions on lists of character numbers. What is proved of it here holds for every tree.
#![tactic(auto)]

mod edits;
mod failure;
mod form;
mod rules;

pub use edits::edits_keep_trees_lawful;
pub use failure::TreeFault;
pub use form::Form;
pub use rules::{namespaces_are_gathered, rules_are_decided};
