//! Rows of `o2_boundless`: calls with what they answer and tell.
#![tactic(auto)]

#[cfg(test)]
mod calls;
