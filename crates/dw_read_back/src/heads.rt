//! How entries begin (DWARF 5, 6.4.1; Linux Standard Base Core 5.0, 10.6.1).

ghost use Rattle.dw_frame.specs.declared.kind.FrameKind.{FrameKind};
ghost use Rattle.dw_read_back.specs.Heads.{OwnersAreOne};

use dw_base::Format;

/// In both sections the definition by which written entries are read and that of the reader tell a
/// CIE from an FDE by the same bytes, and find the same place of an FDE's CIE, or both find none.
pub fn owners_are_one(is_big: bool, format: Format)
    ensures { (kind : FrameKind) → OwnersAreOne kind is_big format }
{
    let _law = (is_big, format);
}
