// Examples of finding packets, run: what `locate` says of some files, and packets in a reel volume.
#![tactic(auto)]

#[cfg(test)]
mod tests;
