//! A relocation's number, put into the joined section.

ghost use Rattle.std.specs.Prelude.{◌≡◌, ◌+◌, ◌≤◌, ◌+ℤ◌, ℕ, Some, None, pos, IsTrue, IsFalse, OnOk, IfErr, MatchResult};
ghost use Rattle.dw_base.specs.Numbers.{num, is_width, fits};
ghost use Rattle.dw_writer.specs.Layout.{target_value};
ghost use Rattle.dw_writer.specs.Resolved.{number_at_place, is_inside};
ghost use Rattle.dw_writer.specs.Meaning.{Replaces, spelled_text};
ghost use Rattle.dw_link.specs.declared.fault.Fault.TheVariants.{PointerEncoding, RecordOutOfPlace};
ghost use Rattle.dw_link.specs.Faults.{takes_encoding, target_fault, fault_of};
ghost use Rattle.dw_link.specs.Steps.{layout_at, part_from, Relocates};

use crate::fault::Fault;
use crate::number::number_of;
use crate::sum::{bits_of_sum, is_linkable};
use dw_base::{DwEhPe, Endianity};
use dw_writer::{EndianVec, Relocation, RelocationTarget, Writer};

/// Where a set's parts start in the joined sections, by the sections' numbers, and the values of
/// symbols.
#[derive(Clone, Copy)]
pub struct Places<'a> {
    pub starts: [usize; 11],
    pub symbols: &'a [u64],
}

/// Puts a relocation's number into the joined section. Its set's part is what stands there from
/// `start` on.
pub fn relocate<E: Endianity>(
    joined: &mut EndianVec<E>,
    start: usize,
    relocation: &Relocation,
    places: &Places<'_>,
) -> Result<(), Fault>
    requires { start ≤ (⟦<EndianVec<E> as Writer>⟧.meaning joined.old).size }
    ensures ok { OnOk result (Relocates (⟦<EndianVec<E> as Writer>⟧.meaning joined.old)
        (⟦<EndianVec<E> as Writer>⟧.meaning joined.new) start
        (layout_at places.now.starts places.now.symbols.now start) relocation.now) }
    ensures err { IfErr result (λ fault. fault_of
        (⟦<EndianVec<E> as Writer>⟧.meaning joined.old).is_big
        (layout_at places.now.starts places.now.symbols.now start)
        (part_from start (⟦<EndianVec<E> as Writer>⟧.meaning joined.old)) relocation.now
        ≡ Some fault) }
{
    check_encoding(relocation.eh_pe, relocation.size, relocation.target)?;
    check_place(relocation, joined.slice().len() - start)?;
    let value = value_of(relocation.target, places)?;
    let place = start + relocation.offset;
    let number = number_at(joined, place, relocation.size);
    let sum = sum_of(number, relocation.addend, value);
    match bits_of_sum(sum, relocation.size, relocation.eh_pe, place) {
        Some(bits) => {
            put(joined, place, bits, relocation.size);
            Ok(())
        }
        None => Err(Fault::ValueTooLarge),
    }
}

/// A pointer's encoding has to be one that can be linked, and only a symbol can be pointed to.
fn check_encoding(eh_pe: Option<DwEhPe>, size: u8, target: RelocationTarget) -> Result<(), Fault>
    ensures { MatchResult result (λ _. IsTrue (takes_encoding size target eh_pe))
        (λ fault. (fault ≡ PointerEncoding) × IsFalse (takes_encoding size target eh_pe)) }
{
    match (eh_pe, target) {
        (None, _) => Ok(()),
        (Some(eh_pe), RelocationTarget::Symbol(_)) if is_linkable(eh_pe, size) => Ok(()),
        _ => Err(Fault::PointerEncoding),
    }
}

/// A number has to have a width and lie inside its part.
fn check_place(relocation: &Relocation, length: usize) -> Result<(), Fault>
    ensures { MatchResult result (λ _. IsTrue (is_inside length relocation.now))
        (λ fault. (fault ≡ RecordOutOfPlace) × IsFalse (is_inside length relocation.now)) }
{
    let offset = relocation.offset;
    let size = relocation.size;
    let has_width = matches!(size, 1 | 2 | 4 | 8);
    if has_width && offset <= length && size as usize <= length - offset {
        Ok(())
    } else {
        Err(Fault::RecordOutOfPlace)
    }
}

/// A symbol's value, or the start of a section that is joined.
fn value_of(target: RelocationTarget, places: &Places<'_>) -> Result<u64, Fault>
    ensures { (start : ℕ) → MatchResult result
        (λ value. (target_fault (layout_at places.now.starts places.now.symbols.now start) target
        ≡ None) × (target_value (layout_at places.now.starts places.now.symbols.now start) target
        ≡ Some value))
        (λ fault. target_fault (layout_at places.now.starts places.now.symbols.now start) target
        ≡ Some fault) }
{
    match target {
        RelocationTarget::Symbol(symbol) => match places.symbols.get(symbol) {
            Some(value) => Ok(*value),
            None => Err(Fault::UnknownSymbol),
        },
        RelocationTarget::Section(section) => match places.starts.get(section as usize) {
            Some(start) => Ok(*start as u64),
            None => Err(Fault::UnknownSection),
        },
    }
}

/// The number in so many bytes from a place on.
fn number_at<E: Endianity>(joined: &EndianVec<E>, place: usize, size: u8) -> u64
    requires width { IsTrue (is_width size) }
    requires within { place + size ≤ (⟦<EndianVec<E> as Writer>⟧.meaning joined.now).size }
    ensures { result ≡ number_at_place (⟦<EndianVec<E> as Writer>⟧.meaning joined.now).is_big place
        size (spelled_text (⟦<EndianVec<E> as Writer>⟧.meaning joined.now).bytes) }
{
    let big = joined.endian().is_big_endian();
    let end = place + size as usize;
    number_of(&joined.slice()[place..end], big)
}

fn sum_of(number: u64, addend: i64, value: u64) -> i128
    ensures { result ≡ pos number +ℤ addend +ℤ pos value }
{
    number as i128 + addend as i128 + value as i128
}

/// Writes a number that fits over the bytes at its place, which are there.
fn put<E: Endianity>(joined: &mut EndianVec<E>, place: usize, bits: u64, size: u8)
    requires width { IsTrue (is_width size) }
    requires fits { IsTrue (fits size bits) }
    requires within { place + size ≤ (⟦<EndianVec<E> as Writer>⟧.meaning joined.old).size }
    ensures { Replaces (⟦<EndianVec<E> as Writer>⟧.meaning joined.old)
        (⟦<EndianVec<E> as Writer>⟧.meaning joined.new) place
        (num (⟦<EndianVec<E> as Writer>⟧.meaning joined.old).is_big size bits) }
{
    match joined.write_udata_at(place, bits, size) {
        Ok(()) => {}
        Err(_) => unreachable!(),
    }
}
