//! The units of a file with the ids that their entries get, by the places where they begin, and the
//! walk over the entries of a unit.
#![tactic(auto)]

mod first;
mod ids;
mod kept;
mod kept_rows;
mod kept_units;
mod unit_rows;
mod units;

pub use first::first_units;
pub use ids::EntryIds;
pub use kept::Kept;
pub use kept_rows::KeptRows;
pub use kept_units::number_kept;
pub use unit_rows::UnitRows;
pub use units::{NumberedUnit, NumberedUnits, number_units};
