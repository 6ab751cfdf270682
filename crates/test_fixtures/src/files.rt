// The files of a run.
use o2_base::{Bytes, NoMemory};
use std::alloc::Global;

/// The files of a run, as pairs of a name and its bytes.
pub type Files = Vec<(Bytes, Bytes)>;

/// A file more.
pub fn add_file(
    alloc: Global,
    files: &mut Files,
    name: &str,
    file: Vec<u8>,
) -> Result<(), NoMemory> {
    files.push((Bytes::from_slice(alloc, name.as_bytes())?, Bytes::new(file)))?;
    Ok(())
}

/// A text file more, of two parts.
pub fn add_text(
    alloc: Global,
    files: &mut Files,
    name: &str,
    front: &str,
    rest: &str,
) -> Result<(), NoMemory> {
    let mut text = String::new(alloc);
    text.push_str(front)?;
    text.push_str(rest)?;
    add_file(alloc, files, name, text.into_bytes())
}
