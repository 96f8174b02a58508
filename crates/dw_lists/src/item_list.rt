//! What range lists and location lists have in common.

ghost use Rattle.std.specs.Prelude.{◌≡◌, ◌<◌, Bool, List, length};
ghost use Rattle.std.specs.Option.{option_copied};
ghost use Rattle.dw_lists.specs.Kinds.{kinds_of};
ghost use Rattle.dw_lists.specs.Parts.{Part, part_at};

use crate::kinds::Kinds;
use crate::range::Range;
use dw_expr::Expression;

/// A list of which each item has a range, or is the default location, and may have an expression.
pub(crate) trait ItemList {
    ghost is_location: { Bool };

    ghost parts: { Self → List Part };

    /// The codes of items.
    fn kinds() -> Kinds
        ensures { result ≡ kinds_of is_location };

    /// How many items there are.
    fn count(&self) -> usize
        ensures { result ≡ length (parts self.now) };

    /// The range of an item, which the default location has none of.
    fn range(&self, index: usize) -> Option<Range>
        requires { index < length (parts self.now) }
        ensures { result ≡ (part_at (parts self.now) index).range };

    /// The expression of an item.
    fn expression(&self, index: usize) -> Option<&Expression>
        requires { index < length (parts self.now) }
        ensures { option_copied result ≡ (part_at (parts self.now) index).expression };
}
