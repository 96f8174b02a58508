//! What is read becomes what is written: whole files by `Dwarf::from` and `Dwarf::convert`, and
//! units, line programs, lists, expressions and attributes one by one.

pub use dw_convert::{
    ConvertDebugInfoRef, NoConvertDebugInfoRef, convert_attribute_value, convert_attributes,
    convert_file_index, expression, location_list, range_list,
};
pub use dw_convert_lines::{ConvertLineProgram, convert_line_program, read_line_program};
pub use dw_dwarf::{
    ConvertSplitUnitSection, ConvertUnit, ConvertUnitEntry, ConvertUnitSection, convert_entries,
    convert_kept, convert_units,
};
pub use dw_filter::{
    FilterDependencies, FilterUnit, FilterUnitEntry, FilterUnitSection, add_attribute_places,
    add_entry_places, add_expression_places, add_location_list_places, kept_entries,
    leads_to_child,
};
pub use dw_sources::{ConvertError, ConvertResult, is_dropped};
