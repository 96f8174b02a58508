//! A closure that is called at each section.

ghost use Rattle.std.specs.Prelude.{◌≡◌, Some, Err, IfOk, IfErr};
ghost use Rattle.dw_writer.specs.Sections.{section_of};
ghost use Rattle.dw_writer.specs.Visits.{Visits, written_ids};

use crate::sections::Sections;
use crate::writer::Writer;
use dw_base::SectionId;

/// The sections that are written, in the order of their ids.
const WRITTEN: [SectionId; 11] = [
    SectionId::DebugAbbrev,
    SectionId::DebugStr,
    SectionId::DebugLineStr,
    SectionId::DebugLine,
    SectionId::DebugRanges,
    SectionId::DebugRngLists,
    SectionId::DebugLoc,
    SectionId::DebugLocLists,
    SectionId::DebugInfo,
    SectionId::DebugFrame,
    SectionId::EhFrame,
];

impl<W: Writer> Sections<W> {
    /// Calls `f` with each section that is written, in the order of their ids, up to its first
    /// error.
    pub fn for_each<'a, F, E>(&'a self, mut f: F) -> std::result::Result<(), E>
    where
        F: FnMut(SectionId, &'a W) -> std::result::Result<(), E>,
        requires { F.IsAlwaysCallable f }
        ensures { (last : F) × Visits
            (λ id w. section_of self.now id ≡ Some w.now) F.step f written_ids result last }
    {
        for id in WRITTEN {
            if let Some(section) = self.get(id) {
                f(id, section)?;
            }
        }
        Ok(())
    }

    /// Calls `f` as `for_each` does, and lends it each section to be written.
    pub fn for_each_mut<'a, F, E>(&'a mut self, mut f: F) -> std::result::Result<(), E>
    where
        F: FnMut(SectionId, &'a mut W) -> std::result::Result<(), E>,
        requires { F.IsAlwaysCallable f }
        ensures { (last : F) × Visits
            (λ id w. section_of self.old id ≡ Some w.now) F.step f written_ids result last }
    {
        let Sections {
            debug_abbrev,
            debug_str,
            debug_line_str,
            debug_line,
            debug_ranges,
            debug_rnglists,
            debug_loc,
            debug_loclists,
            debug_info,
            debug_frame,
            eh_frame,
            ..
        } = self;
        let done = Ok(());
        let done = call_after(&mut f, done, SectionId::DebugAbbrev, &mut debug_abbrev.0);
        let done = call_after(&mut f, done, SectionId::DebugStr, &mut debug_str.0);
        let done = call_after(&mut f, done, SectionId::DebugLineStr, &mut debug_line_str.0);
        let done = call_after(&mut f, done, SectionId::DebugLine, &mut debug_line.0);
        let done = call_after(&mut f, done, SectionId::DebugRanges, &mut debug_ranges.0);
        let done = call_after(
            &mut f,
            done,
            SectionId::DebugRngLists,
            &mut debug_rnglists.0,
        );
        let done = call_after(&mut f, done, SectionId::DebugLoc, &mut debug_loc.0);
        let done = call_after(
            &mut f,
            done,
            SectionId::DebugLocLists,
            &mut debug_loclists.0,
        );
        let done = call_after(&mut f, done, SectionId::DebugInfo, &mut debug_info.0);
        let done = call_after(&mut f, done, SectionId::DebugFrame, &mut debug_frame.0);
        call_after(&mut f, done, SectionId::EhFrame, &mut eh_frame.0)
    }
}

// Calls `f` at a section, unless a call before this one failed: then its error stays.
fn call_after<'a, W: Writer, F, E>(
    f: &mut F,
    before: std::result::Result<(), E>,
    id: SectionId,
    section: &'a mut W,
) -> std::result::Result<(), E>
where
    F: FnMut(SectionId, &'a mut W) -> std::result::Result<(), E>,
    requires { F.IsAlwaysCallable f.old }
    ensures callable { F.IsAlwaysCallable f.new }
    ensures called { IfOk before (λ _. F.step f.old id section.entry result f.new) }
    ensures failed { IfErr before (λ e. (result ≡ Err e) × (f.new ≡ f.old)) }
{
    match before {
        Ok(()) => f(id, section),
        Err(error) => Err(error),
    }
}
