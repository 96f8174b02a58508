//! What a unit has of its own in sections that units share, and the attributes of its root that
//! lead there.

ghost use Rattle.std.specs.Prelude.{◌≡◌, ◌+◌, ◌≤◌, IfErr, OnOk, OnErr};
ghost use Rattle.std.specs.Vec.{vec_len, vec_capacity};
ghost use Rattle.dw_base.specs.declared.error.Error.TheVariants.{NoMemory};
ghost use Rattle.dw_entries.specs.Settled.{as_count, list_count, part_count, with_part, with_lists, settled_attributes};

use crate::attribute::Attribute;
use crate::attributes::{delete_in, put_in};
use crate::value::AttributeValue;
use dw_base::constants::{DW_AT_loclists_base, DW_AT_rnglists_base, DW_AT_stmt_list};
use dw_base::{DwAt, Result};

/// What a unit has of its own in sections that units share.
#[derive(Clone, Copy)]
pub struct OwnParts {
    /// A line program that is in use.
    pub line_program: bool,
    /// Its lists. Below version 5 no attribute of a root leads to them, and there are none here.
    pub lists: Option<OwnLists>,
}

/// Which lists a unit of version 5 has.
#[derive(Clone, Copy)]
pub struct OwnLists {
    /// Some range list.
    pub ranges: bool,
    /// Some location list.
    pub locations: bool,
}

impl OwnParts {
    /// How many attributes lead to them.
    fn count(self) -> usize
        ensures { result ≡ part_count self }
    {
        let lists = match self.lists {
            Some(lists) => lists.ranges as usize + lists.locations as usize,
            None => 0,
        };
        self.line_program as usize + lists
    }
}

/// Leads the attribute of a name to a part that the unit has, or leaves the attribute out.
fn settle_part(attributes: &mut Vec<Attribute>, name: DwAt, value: AttributeValue, has_part: bool)
    requires room { vec_len attributes.old + as_count has_part ≤ vec_capacity attributes.old }
    ensures items { attributes.new.items ≡ with_part name.0 value has_part attributes.old.items }
    ensures len { vec_len attributes.new ≤ vec_len attributes.old + as_count has_part }
    ensures capacity { vec_capacity attributes.new ≡ vec_capacity attributes.old }
{
    if has_part {
        put_in(attributes, name, value);
    } else {
        delete_in(attributes, name);
    }
}

/// Leads the attributes of the two bases to the unit's lists, or leaves them out.
fn settle_lists(attributes: &mut Vec<Attribute>, lists: Option<OwnLists>)
    requires room { vec_len attributes.old + list_count lists ≤ vec_capacity attributes.old }
    ensures items { attributes.new.items ≡ with_lists lists attributes.old.items }
{
    let Some(lists) = lists else {
        return;
    };
    settle_part(
        attributes,
        DW_AT_rnglists_base,
        AttributeValue::RangeListsBase,
        lists.ranges,
    );
    settle_part(
        attributes,
        DW_AT_loclists_base,
        AttributeValue::LocationListsBase,
        lists.locations,
    );
}

/// Leads the attributes of a root to the unit's own parts, or leaves them out. What room they may
/// take is made first, so that nothing is changed where memory lacks.
pub(crate) fn settle_in(attributes: &mut Vec<Attribute>, parts: OwnParts) -> Result<()>
    ensures ok { OnOk result
        (attributes.new.items ≡ settled_attributes parts attributes.old.items) }
    ensures err { IfErr result (λ e. e ≡ NoMemory) }
    ensures kept { OnErr result (attributes.new.items ≡ attributes.old.items) }
{
    attributes.reserve_exact(parts.count())?;
    settle_part(
        attributes,
        DW_AT_stmt_list,
        AttributeValue::LineProgramRef,
        parts.line_program,
    );
    settle_lists(attributes, parts.lists);
    Ok(())
}
