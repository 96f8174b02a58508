//! Converting all of a unit.

ghost use Rattle.std.specs.Prelude.{◌≡◌, ◌⊎◌, true, OnOk, OnErr, IfErr};
ghost use Rattle.dw_sources.specs.declared.convert_error.ConvertError.TheVariants.{NoMemory};
ghost use Rattle.dw_convert_lines.specs.Views.{tables};
ghost use Rattle.dw_dwarf.specs.Converters.{IsFresh, KeepsLoans, entries_in, infos_in};
ghost use Rattle.dw_dwarf.specs.WholeUnits.{ConvertsWhole, RefusesWhole};

use crate::convert::convert_unit::ConvertUnit;
use crate::convert::unit::convert_unit;
use crate::convert::unit_entry::ConvertUnitEntry;
use dw_base::Address;
use dw_read::Reader;
use dw_sources::ConvertResult;

impl<'a, R: Reader> ConvertUnit<'a, R> {
    /// Converts all of the unit: its line program, and its entries with their attributes, each
    /// under the image of its own parent, as `Dwarf::from` does; under a filter its root and the
    /// entries that are kept, as `Dwarf::from_filter`. `root_entry` is the root that came
    /// with the unit; what it held is read again from the unit. `convert_address` says what an
    /// address of the read file becomes. No entry is left to be read afterwards.
    ///
    /// It is refused as `Dwarf::from` is. After an error the unit, the strings and the files may
    /// have what was converted before it, and the unit the refused entry without attributes; the
    /// entries that are left can still be read.
    ///
    /// ```
    /// if let Some((mut unit, root)) = section.read_unit()? {
    ///     unit.convert(root, &|address| Some(Address::Constant(address)))?;
    /// }
    /// ```
    pub fn convert<F: Fn(u64) -> Option<Address>>(
        &mut self,
        root_entry: ConvertUnitEntry<'a, R>,
        convert_address: &F,
    ) -> ConvertResult<()>
        requires callable { F.IsAlwaysCallable convert_address.now }
        requires fresh { IsFresh self.old }
        ensures ok { OnOk result
            (ConvertsWhole R.reading (F.post convert_address.now) self.old self.new) }
        ensures unread { OnErr result (self.new.rows ≡ self.old.rows) }
        ensures ended { OnOk result (self.new.rows.rows.is_ended ≡ true) }
        ensures err { IfErr result (λ e. (e ≡ NoMemory)
            ⊎ RefusesWhole R.reading (F.post convert_address.now) self.old e) }
        ensures same { KeepsLoans self.old self.new }
        ensures others { self.new ≡ record self.old {
          unit = self.new.unit;
          strings = self.new.strings;
          line_strings = self.new.line_strings;
          files = self.new.files;
          rows = self.new.rows;
        } }
    {
        drop(root_entry);
        let refs = self.given.refs;
        let converted = convert_unit(
            self.alloc,
            self.given.read,
            self.given.kept,
            self.given.skeleton,
            self.unit,
            &mut self.files,
            self.strings,
            self.line_strings,
            convert_address,
            &refs,
        );
        if converted.is_ok() {
            self.rows.end();
        }
        converted
    }
}
