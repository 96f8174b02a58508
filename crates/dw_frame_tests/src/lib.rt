//! The tests of call frames and of linking: of `dw_frame`, `dw_link` and `dw_link_frames`. They
//! stand over the finished crates: beside their code they would have it proved a second time.
#![tactic(auto)]

#[cfg(test)]
mod tests;
