//! The unit that a case is run for.

use crate::words::first_told;

/// A byte order, and the encoding of a unit, as scripts spell them.
#[derive(Clone, Copy)]
pub struct Head {
    pub order: &'static str,
    pub version: &'static str,
    pub address_size: &'static str,
    pub format: &'static str,
}

/// The head of a case that names no units: the order that a listing begins with by itself.
pub fn bare() -> Head {
    Head {
        order: "little",
        version: "",
        address_size: "",
        format: "",
    }
}

/// Each byte order and encoding that a unit may have, by the numbers below 64.
pub fn head_of(index: usize) -> Head {
    Head {
        order: ["little", "big"][index % 2],
        version: ["2", "3", "4", "5"][index / 16 % 4],
        address_size: ["1", "2", "4", "8"][index / 4 % 4],
        format: ["32", "64"][index / 2 % 2],
    }
}

/// Tells whether a case is run for the unit: the fields of its line `units` have the unit's.
pub fn takes(lines: &str, head: Head) -> bool {
    let mut fields = first_told(lines, "units").unwrap_or("").split(' ');
    for word in [head.order, head.version, head.address_size, head.format] {
        if !has(fields.next().unwrap_or(""), word) {
            return false;
        }
    }
    true
}

/// Tells whether the field has the word among those between its commas.
fn has(field: &str, word: &str) -> bool {
    for part in field.split(',') {
        if part == word {
            return true;
        }
    }
    false
}
