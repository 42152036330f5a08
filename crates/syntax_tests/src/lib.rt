#![tactic(auto)]
// Tables of cases for the crate `syntax`.
#[cfg(test)]
mod tests;
