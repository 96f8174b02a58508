//! Expressions, their bytes, which were put down from the table of codes, and what is refused
//! (DWARF 5, 2.5 and 7.7.1).

use crate::list_calls::Call::{
    Addr, BitPiece, Bra, Breg, CallRef, ConstType, Consts, Constu, Convert, Deref, DerefSize,
    DerefType, Fbreg, ImplicitPointer, ImplicitValue, Op, ParameterRef, Pick, Piece, PlusUconst,
    Reg, RegvalType, Reinterpret, Skip, VariableValue, WasmGlobal, WasmLocal, WasmStack, Xderef,
    XderefSize, XderefType,
};
use crate::list_calls::{Call, FAR, expression_of, hold, lead};
use dw_base::constants::{DW_OP_dup, DW_OP_nop, DW_OP_stack_value};
use dw_base::{
    Address, DebugInfoRef, Encoding, Error, Format, LittleEndian, Result, UnitEntryId, UnitId,
};
use dw_expr::{EntryPlaces, Expression, Operation};
use dw_writer::{Bytes, DebugInfoFixup, EndianVec, FixupList};
use std::alloc::Global;

/// The places of a unit's entries, by their index.
#[derive(Clone, Copy)]
pub struct Places {
    pub places: &'static [u64],
}

impl EntryPlaces for Places {
    ghost use Rattle.std.specs.Prelude.{slice_get};

    ghost places = { λ p i. slice_get p.places.now i };

    fn unit_place(&self, id: UnitEntryId) -> Option<u64> {
        self.places.get(id.0).copied()
    }
}

/// A unit in which entry 0 stands at 11, entry 1 at 127, entry 2 at 128 and entry 3 at 16384.
const UNIT: Places = Places {
    places: &[0x0b, 0x7f, 0x80, 0x4000],
};

/// A place that has no room in four bytes.
const TOO_FAR: Places = Places {
    places: &[0x1_0000_0000],
};

/// How an expression is written.
#[derive(Clone, Copy)]
struct Way {
    encoding: Encoding,
    places: Option<Places>,
    /// Whether there is a list of fixups.
    keeps: bool,
}

/// A version, a format and an address size, with a unit's places and a list of fixups.
macro_rules! way {
    ($version:expr, $format:expr, $address_size:expr) => {
        Way {
            encoding: Encoding {
                address_size: $address_size,
                format: $format,
                version: $version,
            },
            places: Some(UNIT),
            keeps: true,
        }
    };
}

const OLD: Way = way!(2, Format::Dwarf32, 2);

const NEW: Way = way!(5, Format::Dwarf32, 4);

const WIDE: Way = way!(4, Format::Dwarf64, 4);

/// Addresses of three bytes, which there are none of.
const NARROW: Way = way!(5, Format::Dwarf32, 3);

const UNPLACED: Way = Way {
    places: None,
    ..NEW
};

const UNKEPT: Way = Way {
    keeps: false,
    ..NEW
};

/// An expression.
#[derive(Clone, Copy)]
enum Built {
    /// What calls make, within so many expressions.
    Of(usize, &'static [Call]),
    /// A branch to an operation before so many bytes of one raw operation.
    Before(usize, usize),
    /// A branch behind them.
    Behind(usize, usize),
    /// A great many operations, each before a branch to it.
    Many,
}

/// So many expressions, each within the next, around these operations.
fn nested(alloc: Global, depth: usize, calls: &[Call]) -> Result<Expression> {
    let mut expression = expression_of(alloc, calls)?;
    for _ in 0..depth {
        expression = hold(alloc, expression)?;
    }
    Ok(expression)
}

/// Bytes of one raw operation.
fn nops(alloc: Global, count: usize) -> Result<Operation> {
    let bytes = vec![in alloc; 0x96; count]?;
    Ok(Operation::Raw(Bytes::from(bytes)))
}

fn add_branches_back(expression: &mut Expression) -> Result<()> {
    for _ in 0..50_000 {
        expression.op(DW_OP_nop)?;
        let branch = expression.op_bra()?;
        lead(expression, branch, branch.checked_sub(1));
    }
    Ok(())
}

fn branches_back(alloc: Global) -> Result<Expression> {
    let mut expression = Expression::new(alloc);
    add_branches_back(&mut expression)?;
    Ok(expression)
}

fn build(alloc: Global, built: Built) -> Result<Expression> {
    let operations = match built {
        Built::Of(depth, calls) => return nested(alloc, depth, calls),
        Built::Many => return branches_back(alloc),
        Built::Before(target, count) => {
            vec![in alloc; Operation::Skip(Some(target)), nops(alloc, count)?]
        }
        Built::Behind(target, count) => {
            vec![in alloc; nops(alloc, count)?, Operation::Branch(Some(target))]
        }
    };
    Ok(Expression::from_operations(alloc, operations?))
}

/// Some bytes at the begin, some at the end, and the first two fixups.
type Text = (&'static [u8], &'static [u8], [Option<DebugInfoFixup>; 2]);

/// An expression, how it is written, its size, and what is written of it.
type Row = (Built, Way, Result<usize>, Result<Text>);

/// No fixup.
const NONE: [Option<DebugInfoFixup>; 2] = [None; 2];

/// A place in `.debug_info` of so many bytes.
macro_rules! fixup {
    ($offset:expr, $size:expr) => {
        Some(DebugInfoFixup {
            offset: $offset,
            size: $size,
            unit: UnitId(2),
            entry: UnitEntryId(1),
        })
    };
}

const NEEDS_PLACES: Error = Error::UnsupportedCfiExpressionReference;

const FORWARD: Error = Error::UnsupportedExpressionForwardReference;

const SYMBOL: Address = Address::Symbol {
    symbol: 0,
    addend: 0,
};

/// Operations with the same bytes in all versions. Branches count from behind themselves.
const SAME: &[Call] = &[
    Op(DW_OP_nop),
    Skip(Some(3)),
    Constu(300),
    Bra(Some(1)),
    Bra(Some(5)),
    Op(DW_OP_dup),
    Constu(0),
    Constu(31),
    Constu(32),
    Constu(128),
    Consts(-1),
    Consts(63),
    Consts(64),
    Consts(-65),
    PlusUconst(300),
    Fbreg(-20),
    Breg(31, -1),
    Breg(32, 0),
    Reg(0),
    Reg(31),
    Reg(32),
    Pick(0),
    Pick(1),
    Pick(2),
    Pick(255),
    WasmLocal(128),
    WasmGlobal(2),
    WasmStack(3),
    Deref,
    Xderef,
    DerefSize(4),
    XderefSize(4),
    XderefType(4, 0),
    Call::Call(0),
    CallRef(FAR),
    VariableValue(FAR),
    ParameterRef(3),
    ImplicitValue(&[1, 2, 3]),
    Piece(4),
    BitPiece(300, 5),
];

const SAME_BYTES: &[u8] =
    b"\x96\x2f\x03\x00\x10\xac\x02\x28\xf7\xff\x28\x00\x00\x12\x30\x4f\x10\x20\x10\x80\x01\x11\x7f\
    \x11\x3f\x11\xc0\x00\x11\xbf\x7f\x23\xac\x02\x91\x6c\x8f\x7f\x92\x20\x00\x50\x6f\x90\x20\x12\
    \x14\x15\x02\x15\xff\xed\x00\x80\x01\xed\x01\x02\xed\x02\x03\x06\x18\x94\x04\x95\x04\xa7\x04\
    \x0b\x99\x0b\x00\x00\x00\x9a\x00\x00\x00\x00\xfd\x00\x00\x00\x00\xfa\x00\x40\x00\x00\x9e\x03\
    \x01\x02\x03\x93\x04\x9d\xac\x02\x05";

/// Operations with others in version 2 than in version 5. An address has the unit's size, and in
/// version 2 a place in `.debug_info` has it, too.
const OTHER: &[Call] = &[
    ConstType(0, &[1, 2]),
    RegvalType(300, 0),
    DerefType(4, 0),
    Convert(None),
    Convert(Some(1)),
    Convert(Some(2)),
    Reinterpret(Some(3)),
    Reinterpret(None),
    Addr(Address::Constant(0x0102)),
    ImplicitPointer(FAR, -1),
];

const OLD_BYTES: &[u8] =
    b"\xf4\x0b\x02\x01\x02\xf5\xac\x02\x0b\xf6\x04\x0b\xf7\x00\xf7\x7f\xf7\x80\x01\xf9\x80\x80\x01\
    \xf9\x00\x03\x02\x01\xf2\x00\x00\x7f";

const NEW_BYTES: &[u8] =
    b"\xa4\x0b\x02\x01\x02\xa5\xac\x02\x0b\xa6\x04\x0b\xa8\x00\xa8\x7f\xa8\x80\x01\xa9\x80\x80\x01\
    \xa9\x00\x03\x02\x01\x00\x00\xa0\x00\x00\x00\x00\x7f";

const ROWS: &[Row] = &[
    (
        Built::Of(0, SAME),
        OLD,
        Ok(SAME_BYTES.len()),
        Ok((SAME_BYTES, &[], [fixup!(76, 4), fixup!(81, 4)])),
    ),
    (
        Built::Of(0, SAME),
        NEW,
        Ok(SAME_BYTES.len()),
        Ok((SAME_BYTES, &[], [fixup!(76, 4), fixup!(81, 4)])),
    ),
    (
        Built::Of(0, OTHER),
        OLD,
        Ok(OLD_BYTES.len()),
        Ok((OLD_BYTES, &[], [fixup!(29, 2), None])),
    ),
    (
        Built::Of(0, OTHER),
        NEW,
        Ok(NEW_BYTES.len()),
        Ok((NEW_BYTES, &[], [fixup!(31, 4), None])),
    ),
    // Expressions within others, and places in `.debug_info` there.
    (
        Built::Of(1, &[Fbreg(-20)]),
        OLD,
        Ok(4),
        Ok((b"\xf3\x02\x91\x6c", &[], NONE)),
    ),
    (
        Built::Of(1, &[Op(DW_OP_nop), CallRef(FAR), ImplicitPointer(FAR, 1)]),
        NEW,
        Ok(14),
        Ok((b"\xa3\x0c\x96\x9a", &[1], [fixup!(4, 4), fixup!(9, 4)])),
    ),
    (
        Built::Of(64, &[]),
        NEW,
        Ok(128),
        Ok((b"\xa3\x7e\xa3\x7c", b"\xa3\x02\xa3\x00", NONE)),
    ),
    // A place has eight bytes in the 64-bit format.
    (
        Built::Of(0, &[CallRef(FAR)]),
        WIDE,
        Ok(9),
        Ok((&[0x9a], &[], [fixup!(1, 8), None])),
    ),
    // As far as two bytes hold, one byte farther, and past the end.
    (
        Built::Before(2, 32767),
        NEW,
        Ok(32770),
        Ok((b"\x2f\xff\x7f\x96", &[], NONE)),
    ),
    (
        Built::Behind(0, 32765),
        NEW,
        Ok(32768),
        Ok((&[], b"\x96\x28\x00\x80", NONE)),
    ),
    (
        Built::Before(2, 32768),
        NEW,
        Ok(32771),
        Err(Error::ValueTooLarge),
    ),
    (
        Built::Behind(0, 32766),
        NEW,
        Ok(32769),
        Err(Error::ValueTooLarge),
    ),
    (
        Built::Behind(3, 1),
        NEW,
        Ok(4),
        Err(Error::UnsetBranchTarget),
    ),
    // Their number doesn't slow each of them down.
    (
        Built::Many,
        NEW,
        Ok(200_000),
        Ok((b"\x96\x28\xfc\xff", b"\x96\x28\xfc\xff", NONE)),
    ),
    // What is refused. The size hangs on no place of four bytes.
    (
        Built::Of(0, &[Skip(None)]),
        NEW,
        Ok(3),
        Err(Error::UnsetBranchTarget),
    ),
    (
        Built::Of(1, &[Bra(None)]),
        NEW,
        Ok(5),
        Err(Error::UnsetBranchTarget),
    ),
    (
        Built::Of(0, &[Convert(Some(4))]),
        NEW,
        Err(FORWARD),
        Err(FORWARD),
    ),
    (
        Built::Of(1, &[Convert(Some(4))]),
        NEW,
        Err(FORWARD),
        Err(FORWARD),
    ),
    (Built::Of(0, &[Call::Call(4)]), NEW, Ok(5), Err(FORWARD)),
    (
        Built::Of(0, &[Call::Call(0)]),
        Way {
            places: Some(TOO_FAR),
            ..NEW
        },
        Ok(5),
        Err(Error::ValueTooLarge),
    ),
    (
        Built::Of(0, &[CallRef(DebugInfoRef::Symbol(0))]),
        NEW,
        Ok(5),
        Err(Error::InvalidReference),
    ),
    (
        Built::Of(0, &[Addr(SYMBOL)]),
        NEW,
        Ok(5),
        Err(Error::InvalidAddress),
    ),
    (
        Built::Of(0, &[Addr(Address::Constant(0x1_0000_0000))]),
        NEW,
        Ok(5),
        Err(Error::ValueTooLarge),
    ),
    (
        Built::Of(0, &[ConstType(0, &[0; 256])]),
        NEW,
        Ok(259),
        Err(Error::ValueTooLarge),
    ),
    (
        Built::Of(0, &[Addr(Address::Constant(1))]),
        NARROW,
        Ok(4),
        Err(Error::UnsupportedWordSize(3)),
    ),
    (
        Built::Of(0, &[Convert(Some(0))]),
        UNPLACED,
        Err(NEEDS_PLACES),
        Err(NEEDS_PLACES),
    ),
    (
        Built::Of(0, &[Call::Call(4)]),
        UNPLACED,
        Ok(5),
        Err(NEEDS_PLACES),
    ),
    (
        Built::Of(0, &[CallRef(FAR)]),
        UNKEPT,
        Ok(5),
        Err(Error::InvalidReference),
    ),
];

/// The table, which no proof but this function's looks into.
fn rows() -> &'static [Row] {
    ROWS
}

/// Writes an expression.
fn write(
    expression: &Expression,
    way: Way,
    w: &mut EndianVec<LittleEndian>,
    fixups: &mut FixupList,
) -> Result<()> {
    let refs = if way.keeps { Some(fixups) } else { None };
    expression.write(w, refs, way.encoding, way.places.as_ref())
}

/// What is answered of an expression's size, and of the expression, where it is written: whether it
/// is as the row tells.
type Answer = (Result<usize>, Result<bool>);

/// What a row tells of the answer.
fn wanted_of(row: Row) -> Answer {
    match row.3 {
        Ok(_) => (row.2, Ok(true)),
        Err(error) => (row.2, Err(error)),
    }
}

/// Writes a row's expression.
fn answer_of(alloc: Global, expression: &Expression, row: Row) -> Answer {
    let (begin, end, fixups) = row.3.unwrap_or((&[], &[], NONE));
    let size = expression.size(row.1.encoding, row.1.places.as_ref());
    let mut w = EndianVec::new(alloc, LittleEndian);
    let mut list = FixupList::new(alloc);
    let written = write(expression, row.1, &mut w, &mut list);
    let bytes = w.slice();
    let is_right = bytes.starts_with(begin)
        && bytes.ends_with(end)
        && size == Ok(bytes.len())
        && fixups == [list.get(0), list.get(1)];
    (size, written.and(Ok(is_right)))
}

fn write_row(alloc: Global, row: Row) -> Result<Answer> {
    let expression = build(alloc, row.0)?;
    Ok(answer_of(alloc, &expression, row))
}

#[test]
fn writes_or_refuses_expressions(rt: HostRuntime) {
    for (i, row) in rows().iter().enumerate() {
        let answer = write_row(rt.alloc(), *row);
        assert!(rt; answer == Ok(wanted_of(*row)), "at {i}");
    }
}

/// Whether an expression equals its copy, and differs from it with one operation more.
fn differs_with_more(expression: &Expression, copy: &mut Expression) -> Result<(bool, bool)> {
    let is_equal = &*copy == expression;
    copy.op(DW_OP_stack_value)?;
    Ok((is_equal, &*copy != expression))
}

/// The same of `DW_OP_fbreg -20` within an entry value.
fn is_copied(alloc: Global) -> Result<(bool, bool)> {
    let expression = nested(alloc, 1, &[Fbreg(-20)])?;
    let mut copy = expression.try_clone()?;
    differs_with_more(&expression, &mut copy)
}

#[test]
fn copies_equal_what_they_are_of(rt: HostRuntime) {
    assert!(rt; is_copied(rt.alloc()) == Ok((true, true)));
}

/// Whether an expression is these raw bytes, and is raw no more with one operation more.
fn is_raw_alone(expression: &mut Expression, bytes: &[u8]) -> Result<(bool, bool)> {
    let is_raw = expression.as_raw() == Some(bytes);
    expression.op(DW_OP_nop)?;
    Ok((is_raw, expression.as_raw().is_none()))
}

/// The same of one raw operation.
fn is_one_raw(alloc: Global) -> Result<(bool, bool)> {
    let bytes = [0x12, 0x96];
    let mut expression = Expression::raw(alloc, Bytes::new(alloc, &bytes)?)?;
    is_raw_alone(&mut expression, &bytes)
}

/// Whether an expression without operations is raw.
fn is_none_raw(alloc: Global) -> bool {
    let expression = Expression::new(alloc);
    expression.as_raw().is_some()
}

#[test]
fn tells_raw_expressions(rt: HostRuntime) {
    let is_none = is_none_raw(rt.alloc());
    assert!(rt; !is_none && is_one_raw(rt.alloc()) == Ok((true, true)));
}
