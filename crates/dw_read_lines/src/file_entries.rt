//! The directories and files of a line program, one after the other (DWARF 5, 6.2.4).

use crate::description::Description;
use dw_read::Reader;

/// How entries are laid out.
#[derive(Drop)]
pub(crate) enum Layout<R: Reader> {
    /// Up to version 4, closed by an empty name.
    Directories,
    /// The same.
    Files,
    /// From version 5 on.
    Described(Description<R>),
}

/// The directories or the files of a line program, from the first on.
///
/// ```
/// let mut directories = header.include_directories()?;
/// while let Some(directory) = directories.next()? {}
/// let mut files = directories.file_names()?;
/// ```
#[derive(Drop)]
pub struct FileEntryIter<R: Reader> {
    pub(crate) input: R,
    pub(crate) layout: Layout<R>,
    /// How many entries are left of those that are described.
    pub(crate) remaining: u64,
    pub(crate) has_ended: bool,
}
