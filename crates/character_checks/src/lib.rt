// Examples of the classes of characters and of their spelling, run.
#![tactic(auto)]

#[cfg(test)]
mod tests;
