//! Of several attributes of one name the last counts, in the place of the first.

ghost use Rattle.std.specs.Prelude.{◌≡◌, true, position, OnOk, IfOk, IfErr};
ghost use Rattle.dw_sources.specs.declared.convert_error.ConvertError.TheVariants.{NoMemory};
ghost use Rattle.dw_convert.specs.AttributeLists.{once, put, has_name};

use dw_base::DwAt;
use dw_entries::AttributeValue;
use dw_sources::ConvertResult;
use indexmap::IndexMap;
use std::alloc::Global;

/// So many attributes are compared each with those before it, which takes no memory. Entries of
/// compilers have fewer; a stranger's may have tens of thousands.
const COMPARED: usize = 32;

/// Of values of one name the last, in the place of the first.
pub(crate) fn once(
    alloc: Global,
    values: Vec<(DwAt, AttributeValue)>,
) -> ConvertResult<Vec<(DwAt, AttributeValue)>>
    ensures ok { IfOk result (λ v. v.items ≡ once values.items) }
    ensures err { IfErr result (λ e. e ≡ NoMemory) }
{
    if values.len() <= COMPARED && are_distinct(&values) {
        return Ok(values);
    }
    listed(alloc, by_name(alloc, values)?)
}

/// Tells that no name stands twice.
fn are_distinct(values: &[(DwAt, AttributeValue)]) -> bool
    ensures { result ≡ true → once values.now ≡ values.now }
{
    for i in 0..values.len() {
        if position_of(&values[..i], values[i].0).is_some() {
            return false;
        }
    }
    true
}

fn position_of(values: &[(DwAt, AttributeValue)], name: DwAt) -> Option<usize>
    ensures { result ≡ position (has_name name.0) values.now }
{
    values.iter().position(|value| value.0.0 == name.0)
}

/// The values under their names, each name once.
fn by_name(
    alloc: Global,
    values: Vec<(DwAt, AttributeValue)>,
) -> ConvertResult<IndexMap<DwAt, AttributeValue>>
    ensures ok { IfOk result (λ m. m.entries ≡ once values.items) }
    ensures err { IfErr result (λ e. e ≡ NoMemory) }
{
    let mut named = IndexMap::new(alloc);
    'values: for (name, value) in values {
        put(&mut named, name, value)?;
    }
    Ok(named)
}

/// Puts a value under a name where it stands, or behind the others.
fn put(
    named: &mut IndexMap<DwAt, AttributeValue>,
    name: DwAt,
    value: AttributeValue,
) -> ConvertResult<()>
    ensures ok { OnOk result (named.new.entries ≡ put name value named.old.entries) }
    ensures err { IfErr result (λ e. e ≡ NoMemory) }
{
    named.insert(name, value)?;
    Ok(())
}

/// Names and values in the order of the names.
fn listed(
    alloc: Global,
    named: IndexMap<DwAt, AttributeValue>,
) -> ConvertResult<Vec<(DwAt, AttributeValue)>>
    ensures ok { IfOk result (λ v. v.items ≡ named.entries) }
    ensures err { IfErr result (λ e. e ≡ NoMemory) }
{
    let mut values = Vec::new(alloc);
    'named: for value in named {
        values.push(value)?;
    }
    Ok(values)
}
