#![tactic(auto)]
// Hand-made models for the crate `checking`.
#[cfg(test)]
mod tests;
