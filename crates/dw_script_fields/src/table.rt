//! Tables of names.

ghost use Rattle.std.specs.Prelude.{◌≡◌, bytes_eq};
ghost use Rattle.std.specs.Map.{lookup};
ghost use Rattle.dw_script_fields.specs.Spelled.{spelled};

/// What a table has under a name.
pub fn find_name<T: Copy>(mut table: &[(&[u8], T)], name: &[u8]) -> Option<T>
    ensures { result ≡ lookup (bytes_eq name.now) (spelled table.entry.now) }
{
    while let [entry, rest @ ..] = table {
        if is_same(name, entry.0) {
            return Some(entry.1);
        }
        table = rest;
    }
    None
}

// Whether two names are the same. Names of other lengths, which most are, aren't looked into.
fn is_same(one: &[u8], other: &[u8]) -> bool
    ensures { result ≡ bytes_eq one.now other.now }
{
    one.len() == other.len() && one == other
}
