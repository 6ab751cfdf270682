//! Rows of `o2_vectors`: vectors of each opcode, read back from their text and replayed by the processor.
#![tactic(auto)]

#[cfg(test)]
mod replay;
#[cfg(test)]
mod vectors;
