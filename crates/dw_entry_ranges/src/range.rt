//! Addresses and ranges of them (DWARF 5, 2.17).

ghost use Rattle.std.specs.Prelude.{◌≡◌};
ghost use Rattle.dw_entry_ranges.specs.Ranges.{from_to, with_length, range_of};

/// The addresses from a begin to before an end (DWARF 5, 2.17). Both are whole numbers: a sum of
/// two numbers of 64 bits doesn't wrap, so it may lie past every address. No address belongs to a
/// range whose end isn't above its begin.
///
/// ```
/// let range = AddressRange::with_length(0x1000, 16);
/// let last = range.end - 1; // 0x100f
/// ```
#[derive(Clone, Copy, PartialEq, Eq)]
pub struct AddressRange {
    pub begin: u128,
    pub end: u128,
}

impl AddressRange {
    /// From an address to before another.
    pub fn new(begin: u64, end: u64) -> AddressRange
        ensures { result ≡ from_to begin end }
    {
        AddressRange {
            begin: begin as u128,
            end: end as u128,
        }
    }

    /// So many addresses from one on.
    pub fn with_length(begin: u64, length: u64) -> AddressRange
        ensures { result ≡ with_length begin length }
    {
        AddressRange {
            begin: begin as u128,
            end: begin as u128 + length as u128,
        }
    }
}

/// What `DW_AT_low_pc` and `DW_AT_high_pc` say of an entry (2.17.1 and 2.17.2).
///
/// ```
/// if let Some(CodeAddresses::Contiguous(range)) = low_high(unit, &entry.attrs)? {
///     let length = range.end.saturating_sub(range.begin);
/// }
/// ```
#[derive(Clone, Copy, PartialEq, Eq)]
pub enum CodeAddresses {
    /// A low address alone.
    Single(u64),
    /// The addresses from a low one to before a high one.
    Contiguous(AddressRange),
}

impl CodeAddresses {
    /// The addresses as a range, which for a single one ends behind it.
    pub fn range(self) -> AddressRange
        ensures { result ≡ range_of self }
    {
        match self {
            CodeAddresses::Single(address) => AddressRange::with_length(address, 1),
            CodeAddresses::Contiguous(range) => range,
        }
    }
}
