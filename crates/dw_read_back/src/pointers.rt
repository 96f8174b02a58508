//! Pointers of call frame tables (Linux Standard Base Core 5.0, 10.5.1).

ghost use Rattle.std.specs.Prelude.{IsTrue};
ghost use Rattle.dw_base.specs.Numbers.{is_width};
ghost use Rattle.dw_read_back.specs.Pointers.{PointersAreOne};

use dw_base::DwEhPe;

/// Where an address has 1, 2, 4 or 8 bytes, the definition by which written pointers are read and
/// that of the reader read the same address by an encoding, or both read none.
pub fn pointers_are_one(size: u8, encoding: DwEhPe, is_big: bool)
    ensures { IsTrue (is_width size) → PointersAreOne is_big size encoding }
{
    let _law = (size, encoding, is_big);
}
