//! Address range descriptors.

ghost use Rattle.std.specs.Prelude.{◌≡◌};
ghost use Rattle.dw_arange_table.specs.Sets.{is_end};
ghost use Rattle.dw_arange_table.specs.Find.{range_has};

/// An address range descriptor: the first of some addresses of the target that stand one behind
/// another, and how many there are, in bytes (DWARF 5, 6.1.2).
///
/// ```
/// let range = RangeDescriptor { address: 0x1000, length: 16 };
/// let last = range.contains(0x100f); // true, and false at 0x1010
/// ```
#[derive(Clone, Copy, PartialEq, Eq)]
pub struct RangeDescriptor {
    pub address: u64,
    pub length: u64,
}

impl RangeDescriptor {
    /// Whether an address is in it: not before the first, and before the end, which may lie past
    /// the last address of 64 bits.
    pub fn contains(&self, address: u64) -> bool
        ensures { result ≡ range_has address self.now }
    {
        address >= self.address && address - self.address < self.length
    }

    /// Whether it is the pair of zeros that ends a set in the section.
    pub(crate) fn is_end(&self) -> bool
        ensures { result ≡ is_end self.now }
    {
        self.address == 0 && self.length == 0
    }
}
