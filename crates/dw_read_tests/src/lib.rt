//! The tests of all crates that read. They stand over the finished crates: beside their code they
//! would have each proved a second time.
#![tactic(auto)]

#[cfg(test)]
mod tests;
