//! What a user keeps of a file.

use dw_base::UnitOffset;
use dw_read::{DebuggingInformationEntry, Reader};
use dw_read_units::Unit;

/// A row of a unit.
#[derive(Drop)]
pub enum Row<R: Reader> {
    Entry(DebuggingInformationEntry<R>),
    /// The zero that closes a list of children, at its place in the unit.
    Null(UnitOffset),
}

/// A unit with its rows, in their order.
#[derive(Drop)]
pub struct UnitRows<R: Reader> {
    pub unit: Unit<R>,
    pub rows: Vec<Row<R>>,
}
