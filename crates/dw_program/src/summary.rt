//! The summary of what was written.

ghost use Rattle.std.specs.Prelude.{◌≡◌, length, sum, sum_by, IfOk, string_bytes};
ghost use Rattle.dw_program.specs.Texts.{counts_text};

use dw_unit::UnitTable;
use std::alloc::{AllocError, Global};

/// How many units there are, and how many entries they have together.
#[derive(Clone, Copy, Debug, PartialEq, Eq)]
pub(crate) struct Counts {
    units: usize,
    entries: u128,
}

impl Counts {
    pub(crate) fn of(units: &UnitTable) -> Counts
        ensures units { result.units ≡ length units.now }
        ensures entries { result.entries ≡ sum_by (λ u. length u.entries) units.now }
    {
        Counts {
            units: units.count(),
            entries: entry_count(units),
        }
    }
}

/// Tells the counts, the lengths of `.debug_info` and `.debug_abbrev`, and the sum of the bytes of
/// the former.
pub(crate) fn summarize(
    alloc: Global,
    counts: Counts,
    info_bytes: &[u8],
    abbrev_bytes: &[u8],
) -> Result<String, AllocError>
    ensures { IfOk result (λ text. string_bytes text
        ≡ counts_text counts.units counts.entries info_bytes.now abbrev_bytes.now) }
{
    let units = counts.units;
    let entries = counts.entries;
    let info = info_bytes.len();
    let abbrev = abbrev_bytes.len();
    let sum = byte_sum(info_bytes);
    format!(in alloc; "units {units} entries {entries} info {info} abbrev {abbrev} sum {sum}\n")
}

// How many entries the units have together. Each may have as many as there are ids.
fn entry_count(units: &UnitTable) -> u128
    ensures { result ≡ sum_by (λ u. length u.entries) units.now }
{
    let mut count = 0u128;
    for index in 0..units.count() {
        count += units.get(units.id(index)).count() as u128;
    }
    count
}

// The sum of bytes.
fn byte_sum(bytes: &[u8]) -> u128
    ensures { result ≡ sum bytes.now }
{
    let mut total = 0u128;
    for byte in bytes {
        total += *byte as u128;
    }
    total
}
