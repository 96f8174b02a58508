//! The spelling of expressions (7.7.1).

ghost use Rattle.std.specs.Prelude.{◌≡◌, ◌+◌, false, length, is_some, IfOk, IfErr, OnOk, IsTrue, IsFalse};
ghost use Rattle.dw_base.specs.declared.error.Error.{Error as AnError};
ghost use Rattle.dw_writer.specs.Drafts.{Drafts};
ghost use Rattle.dw_writer.specs.Meaning.{IsSameWriter, Appends};
ghost use Rattle.dw_expr.specs.Causes.{size_fails, operand_fails, operands_fail, node_fails, expression_fails, info_fails, distance_fails};
ghost use Rattle.dw_expr.specs.OperandViews.{operand_in, operands_in};
ghost use Rattle.dw_expr.specs.Places.{known_by, place_by, given, kept, MemoryOr, Refused};
ghost use Rattle.dw_expr.specs.Spelling.{operand_draft, operands_draft, node_part, parts_of, starts_from, expression_draft, info_draft, distance_text};
ghost use Rattle.dw_expr.specs.Views.{node_of, nodes_in};

use super::operands::{Operand, Operands};
use super::size::{operation_size, operations_size, sum};
use super::{Expression, Operation};
use crate::places::{EntryPlaces, entry_place};
use dw_base::{DebugInfoRef, Encoding, Error, Result};
use dw_writer::{DebugInfoFixup, FixupList, Writer};
use std::alloc::Global;

impl Expression {
    /// Adds the expression's bytes to a section (2.5, 7.7.1). The places of entries in the unit
    /// are taken from `places`. Those in `.debug_info` are left as zeros, each with a fixup in
    /// `refs`.
    ///
    /// Refused are, beside what `size` and the writer refuse: a branch without a target or with one
    /// past the end, as `UnsetBranchTarget`; an entry of another object under a symbol, or any in
    /// `.debug_info` where `refs` is missing, as `InvalidReference`; and as `ValueTooLarge` a
    /// branch of more than 16 bits, a typed constant of more than 255 bytes, and a place of more
    /// than four bytes where it has to fit them.
    ///
    /// A call that fails may leave the first of its bytes and fixups behind. Memory is taken for
    /// the fixups and for a number per operation.
    pub fn write<W: Writer, P: EntryPlaces>(
        &self,
        w: &mut W,
        refs: Option<&mut FixupList>,
        encoding: Encoding,
        places: Option<&P>,
    ) -> Result<()>
        ensures ok { let place = place_by (known_by P.places places.entry) in
            OnOk result (Drafts (W.meaning w.old) (W.meaning w.new) (given refs.entry)
            (kept refs.exit) (expression_draft encoding place self.now)) }
        ensures sound { let known = known_by P.places places.entry in
            let plain = (W.meaning w.old).is_plain in
            OnOk result ((e : AnError) → IsFalse
            (expression_fails encoding known (is_some refs.entry) plain self.now e)) }
        ensures err { let known = known_by P.places places.entry in
            let plain = (W.meaning w.old).is_plain in
            IfErr result (Refused (W.meaning w.old) (W.meaning w.new)
            (expression_fails encoding known (is_some refs.entry) plain self.now)) }
        ensures same { IsSameWriter (W.meaning w.old) (W.meaning w.new) }
    {
        let alloc = *self.operations.allocator();
        let operations = self.operations.as_slice();
        match refs {
            Some(list) => { write_operations(alloc, operations, encoding, places, true, w, list) }
            None => {
                let mut none = FixupList::new(alloc);
                write_operations(alloc, operations, encoding, places, false, w, &mut none)
            }
        }
    }
}

/// Where operations begin, and where the last one ends.
fn starts<P: EntryPlaces>(
    alloc: Global,
    operations: &[Operation],
    encoding: Encoding,
    places: Option<&P>,
) -> Result<Vec<usize>>
    ensures ok { let place = place_by (known_by P.places places.entry) in
        IfOk result (λ v. v.items ≡ starts_from 0
        (parts_of encoding place (nodes_in operations.now))) }
    ensures count { IfOk result (λ v. length v.items ≡ length operations.now + 1) }
    ensures sound { let known = known_by P.places places.entry in
        OnOk result ((e : AnError) → IsFalse
        (size_fails encoding known (nodes_in operations.now) e)) }
    ensures err { let known = known_by P.places places.entry in
        IfErr result (MemoryOr (size_fails encoding known (nodes_in operations.now))) }
{
    let mut all = Vec::with_capacity(alloc, operations.len() + 1)?;
    let mut at = 0;
    for operation in operations {
        all.push(at)?;
        let size = operation_size(operation, encoding, places)?;
        at = sum(at, size)?;
    }
    all.push(at)?;
    Ok(all)
}

/// Writes operations, one after another.
#[cycle(write)]
fn write_operations<W: Writer, P: EntryPlaces>(
    alloc: Global,
    operations: &[Operation],
    encoding: Encoding,
    places: Option<&P>,
    keeps: bool,
    w: &mut W,
    fixups: &mut FixupList,
) -> Result<()>
    ensures ok { let place = place_by (known_by P.places places.entry) in
        OnOk result (Drafts (W.meaning w.old) (W.meaning w.new) fixups.old fixups.new
        (expression_draft encoding place (nodes_in operations.now))) }
    ensures sound { let known = known_by P.places places.entry in
        let plain = (W.meaning w.old).is_plain in
        OnOk result ((e : AnError) → IsFalse
        (expression_fails encoding known keeps plain (nodes_in operations.now) e)) }
    ensures err { let known = known_by P.places places.entry in
        let plain = (W.meaning w.old).is_plain in
        IfErr result (Refused (W.meaning w.old) (W.meaning w.new)
        (expression_fails encoding known keeps plain (nodes_in operations.now))) }
    ensures same { IsSameWriter (W.meaning w.old) (W.meaning w.new) }
    ensures unkept { keeps ≡ false → fixups.new ≡ fixups.old }
{
    let found = starts(alloc, operations, encoding, places)?;
    let begins = found.as_slice();
    for (i, operation) in operations.iter().enumerate() {
        let end = begins[i + 1];
        write_operation(
            alloc, operation, encoding, places, keeps, begins, end, w, fixups,
        )?;
    }
    Ok(())
}

/// Writes an operation, which ends at a place in its expression.
#[cycle(write)]
fn write_operation<W: Writer, P: EntryPlaces>(
    alloc: Global,
    operation: &Operation,
    encoding: Encoding,
    places: Option<&P>,
    keeps: bool,
    starts: &[usize],
    end: usize,
    w: &mut W,
    fixups: &mut FixupList,
) -> Result<()>
    ensures ok { let place = place_by (known_by P.places places.entry) in
        OnOk result (Drafts (W.meaning w.old) (W.meaning w.new) fixups.old fixups.new
        ((node_part encoding place (node_of operation.now)).draft starts.now end)) }
    ensures sound { let known = known_by P.places places.entry in
        let plain = (W.meaning w.old).is_plain in
        OnOk result ((e : AnError) → IsFalse
        (node_fails encoding known keeps plain starts.now end (node_of operation.now) e)) }
    ensures err { let known = known_by P.places places.entry in
        let plain = (W.meaning w.old).is_plain in
        IfErr result (Refused (W.meaning w.old) (W.meaning w.new)
        (node_fails encoding known keeps plain starts.now end (node_of operation.now))) }
    ensures same { IsSameWriter (W.meaning w.old) (W.meaning w.new) }
    ensures unkept { keeps ≡ false → fixups.new ≡ fixups.old }
{
    let operands = operation.operands(encoding);
    write_operands(&operands, encoding, places, keeps, starts, end, w, fixups)?;
    let Operation::EntryValue(expression) = operation else {
        return Ok(());
    };
    let inner = expression.operations.as_slice();
    let size = operations_size(inner, encoding, places)?;
    w.write_uleb128(size as u64)?;
    write_operations(alloc, inner, encoding, places, keeps, w, fixups)
}

/// Writes an operation's code and operands.
fn write_operands<W: Writer, P: EntryPlaces>(
    operands: &Operands<'_>,
    encoding: Encoding,
    places: Option<&P>,
    keeps: bool,
    starts: &[usize],
    end: usize,
    w: &mut W,
    fixups: &mut FixupList,
) -> Result<()>
    ensures ok { let place = place_by (known_by P.places places.entry) in
        OnOk result (Drafts (W.meaning w.old) (W.meaning w.new) fixups.old fixups.new
        (operands_draft encoding place starts.now end (operands_in operands.now))) }
    ensures sound { let known = known_by P.places places.entry in
        let plain = (W.meaning w.old).is_plain in
        OnOk result ((e : AnError) → IsFalse
        (operands_fail encoding known keeps plain starts.now end (operands_in operands.now) e)) }
    ensures err { let known = known_by P.places places.entry in
        let plain = (W.meaning w.old).is_plain in
        IfErr result (Refused (W.meaning w.old) (W.meaning w.new)
        (operands_fail encoding known keeps plain starts.now end (operands_in operands.now))) }
    ensures same { IsSameWriter (W.meaning w.old) (W.meaning w.new) }
    ensures unkept { keeps ≡ false → fixups.new ≡ fixups.old }
{
    write_operand(
        &operands.code,
        encoding,
        places,
        keeps,
        starts,
        end,
        w,
        fixups,
    )?;
    write_operand(
        &operands.first,
        encoding,
        places,
        keeps,
        starts,
        end,
        w,
        fixups,
    )?;
    write_operand(
        &operands.second,
        encoding,
        places,
        keeps,
        starts,
        end,
        w,
        fixups,
    )?;
    write_operand(
        &operands.third,
        encoding,
        places,
        keeps,
        starts,
        end,
        w,
        fixups,
    )
}

/// Writes an operand.
fn write_operand<W: Writer, P: EntryPlaces>(
    operand: &Operand<'_>,
    encoding: Encoding,
    places: Option<&P>,
    keeps: bool,
    starts: &[usize],
    end: usize,
    w: &mut W,
    fixups: &mut FixupList,
) -> Result<()>
    ensures ok { let place = place_by (known_by P.places places.entry) in
        OnOk result (Drafts (W.meaning w.old) (W.meaning w.new) fixups.old fixups.new
        (operand_draft encoding place starts.now end (operand_in operand.now))) }
    ensures sound { let known = known_by P.places places.entry in
        let plain = (W.meaning w.old).is_plain in
        OnOk result ((e : AnError) → IsFalse
        (operand_fails encoding known keeps plain starts.now end (operand_in operand.now) e)) }
    ensures err { let known = known_by P.places places.entry in
        let plain = (W.meaning w.old).is_plain in
        IfErr result (Refused (W.meaning w.old) (W.meaning w.new)
        (operand_fails encoding known keeps plain starts.now end (operand_in operand.now))) }
    ensures same { IsSameWriter (W.meaning w.old) (W.meaning w.new) }
    ensures unkept { keeps ≡ false → fixups.new ≡ fixups.old }
{
    match operand {
        Operand::Nothing => Ok(()),
        Operand::Byte(byte) => w.write_u8(*byte),
        Operand::Bytes(bytes) => w.write(bytes),
        Operand::Uleb(number) => w.write_uleb128(*number),
        Operand::Sleb(number) => w.write_sleb128(*number),
        Operand::Count(count) => w.write_udata(*count as u64, 1),
        Operand::Target(address) => w.write_address(*address, encoding.address_size),
        Operand::Base(entry) => {
            let place = entry_place(places, *entry)?;
            w.write_uleb128(place)
        }
        Operand::Place(entry) => {
            let place = entry_place(places, *entry)?;
            w.write_udata(place, 4)
        }
        Operand::Info(reference, width) => write_reference(*reference, *width, keeps, w, fixups),
        Operand::Distance(target) => write_distance(*target, starts, end, w),
    }
}

/// Leaves the place of an entry in `.debug_info` open.
fn write_reference<W: Writer>(
    reference: DebugInfoRef,
    width: u8,
    keeps: bool,
    w: &mut W,
    fixups: &mut FixupList,
) -> Result<()>
    ensures ok { OnOk result
        (Drafts (W.meaning w.old) (W.meaning w.new) fixups.old fixups.new
        (info_draft width reference)) }
    ensures sound { OnOk result ((e : AnError) → IsFalse (info_fails width keeps reference e)) }
    ensures err { IfErr result
        (Refused (W.meaning w.old) (W.meaning w.new) (info_fails width keeps reference)) }
    ensures same { IsSameWriter (W.meaning w.old) (W.meaning w.new) }
    ensures unkept { keeps ≡ false → fixups.new ≡ fixups.old }
{
    if !keeps {
        return Err(Error::InvalidReference);
    }
    let DebugInfoRef::Entry(unit, entry) = reference else {
        return Err(Error::InvalidReference);
    };
    let offset = w.len();
    w.write_udata(0, width)?;
    fixups.push(DebugInfoFixup {
        offset,
        size: width,
        unit,
        entry,
    })
}

/// Writes the distance from a place to where an operation begins.
fn write_distance<W: Writer>(
    target: Option<usize>,
    starts: &[usize],
    from: usize,
    w: &mut W,
) -> Result<()>
    ensures ok { OnOk result
        (Appends (W.meaning w.old) (W.meaning w.new) 2
        (λ big l. distance_text big starts.now from target)) }
    ensures sound { OnOk result
        ((e : AnError) → IsFalse (distance_fails starts.now from target e)) }
    ensures err { IfErr result
        (Refused (W.meaning w.old) (W.meaning w.new) (distance_fails starts.now from target)) }
    ensures same { IsSameWriter (W.meaning w.old) (W.meaning w.new) }
{
    let Some(index) = target else {
        return Err(Error::UnsetBranchTarget);
    };
    if index >= starts.len() {
        return Err(Error::UnsetBranchTarget);
    }
    let distance = starts[index] as i128 - from as i128;
    if distance < -0x8000 || distance > 0x7fff {
        return Err(Error::ValueTooLarge);
    }
    w.write_sdata(distance as i64, 2)
}
