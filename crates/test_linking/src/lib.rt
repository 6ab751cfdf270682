//! Rows of `o2_dynlink`: modules with what linking them comes to, and files as they stand at the limits of the format, at small size.
#![tactic(auto)]

#[cfg(test)]
mod dynlink;
#[cfg(test)]
mod limits;
