#![tactic(auto)]
// Tests of the crate blocks. They stand in a crate of their own, since a crate is proved a second time with its tests.
#[cfg(test)]
mod tests;
