//! The fields of a build script's lines, from any bytes to values: numbers, addresses, names,
//! expressions, values of attributes and items of lists. What each means is said in `specs/`.
#![tactic(auto)]

mod address;
mod branches;
mod code;
mod expression;
mod expression_step;
mod field;
mod kind;
mod location;
mod location_list;
mod location_word;
mod names;
mod number;
mod operation;
mod operation_word;
mod range;
mod range_list;
mod range_word;
mod table;
mod value;

pub use expression::{ExpressionFields, ExpressionSteps};
pub use expression_step::ExpressionStep;
pub use field::{
    next_address_or_none, next_attribute, next_flag, next_format, next_hex_bytes, next_tag,
    next_u8, next_u16, next_usize,
};
pub use location::ScriptLocation;
pub use location_list::{LocationFields, LocationItems};
pub use number::{parse_u8, parse_u16};
pub use operation::ScriptOperation;
pub use range::ScriptRange;
pub use range_list::{RangeFields, RangeItems};
pub use table::find_name;
pub use value::{Value, next_value};
