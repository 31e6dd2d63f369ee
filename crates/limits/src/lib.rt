// Tests of tables, texts and pools at their limits. They stand apart, since a crate with tests is proved twice.
#![tactic(auto)]

#[cfg(test)]
mod tests;
