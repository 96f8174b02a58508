//! What unit headers say.

ghost use Rattle.std.specs.Prelude.{◌≤◌};

use dw_base::{DwUt, Encoding};

/// What a header says after its length.
#[derive(Drop)]
pub(crate) struct Fields {
    pub(crate) encoding: Encoding,
    pub(crate) unit_type: Option<DwUt>,
    pub(crate) table_offset: usize,
    pub(crate) identity: Option<u64>,
    pub(crate) type_offset: Option<usize>,
    ghost narrow: { encoding.address_size ≤ 8 },
}
