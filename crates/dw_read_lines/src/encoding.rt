//! How the values of a line program are encoded.

ghost use Rattle.std.specs.Prelude.{◌≤◌};

use dw_base::Encoding;

/// The encoding of a program. From version 5 on the program tells how wide addresses are.
#[derive(Drop)]
pub(crate) struct ProgramEncoding {
    pub(crate) encoding: Encoding,
    ghost narrow: { 5 ≤ encoding.version → encoding.address_size ≤ 8 },
}

/// The encoding of entries, which may have addresses as any other form.
#[derive(Drop)]
pub(crate) struct EntryEncoding {
    pub(crate) encoding: Encoding,
    ghost narrow: { encoding.address_size ≤ 8 },
}
