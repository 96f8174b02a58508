//! Headers of units (DWARF 5, 7.5.1).

use crate::tests::sections::{Slice, little};
use dw_base::constants::{DW_UT_compile, DW_UT_type};
use dw_base::{DwUt, Encoding, Format};
use dw_read::{ReadError, ReadResult, UnitHeader, UnitHeadersIter};

/// What a header tells: its place, the version, the size of addresses and the format, its type, its
/// identity and its length.
pub(crate) type Header = (usize, (u16, u8, Format), DwUt, Option<u64>, usize);

fn told(encoding: Encoding) -> (u16, u8, Format) {
    (encoding.version, encoding.address_size, encoding.format)
}

fn header_of(header: &UnitHeader<Slice<'_>>) -> Header {
    (
        header.offset().0,
        told(header.encoding()),
        header.unit_type(),
        header.identity(),
        header.size(),
    )
}

/// The next header.
pub(crate) fn next_header(headers: &mut UnitHeadersIter<Slice<'_>>) -> ReadResult<Option<Header>> {
    match headers.next() {
        Ok(Some(header)) => Ok(Some(header_of(&header))),
        Ok(None) => Ok(None),
        Err(reason) => Err(reason),
    }
}

const CUT: ReadResult<Option<Header>> = Err(ReadError::UnexpectedEof);

const FIRST: ReadResult<Option<Header>> = Ok(Some((
    0,
    (5, 8, Format::Dwarf32),
    DW_UT_compile,
    None,
    12,
)));

const END: ReadResult<Option<Header>> = Ok(None);

/// Bytes, and three answers.
type Case = (&'static [u8], [ReadResult<Option<Header>>; 3]);

// Units of both formats; a type unit, whose header has an identity and the type's offset; a unit
// that is cut behind a whole one; a version, a type and an address size that there aren't; lengths
// of 0xffffffef, 2^60 and 2^64 - 1 bytes.
const CASES: &[Case] = &[
    (
        b"\x09\x00\x00\x00\x05\x00\x01\x08\x00\x00\x00\x00\x07\
        \xff\xff\xff\xff\x0c\x00\x00\x00\x00\x00\x00\x00\
        \x03\x00\x10\x00\x00\x00\x00\x00\x00\x00\x04\x00",
        [
            FIRST,
            Ok(Some((13, (3, 4, Format::Dwarf64), DW_UT_compile, None, 23))),
            END,
        ],
    ),
    (
        b"\x14\x00\x00\x00\x05\x00\x02\x04\x00\x00\x00\x00\
        \x01\x02\x03\x04\x05\x06\x07\x08\x18\x00\x00\x00",
        [
            Ok(Some((
                0,
                (5, 4, Format::Dwarf32),
                DW_UT_type,
                Some(0x0807_0605_0403_0201),
                24,
            ))),
            END,
            END,
        ],
    ),
    (
        b"\x09\x00\x00\x00\x05\x00\x01\x08\x00\x00\x00\x00\x07\
        \x0f\x00\x00\x00\x00\x00\x00\x00\x04\x00\x00\x00\x04",
        [FIRST, CUT, END],
    ),
    (
        b"\x08\x00\x00\x00\x06\x00\x01\x08\x00\x00\x00\x00",
        [Err(ReadError::UnknownVersion(6)), END, END],
    ),
    (
        b"\x08\x00\x00\x00\x05\x00\x07\x08\x00\x00\x00\x00",
        [Err(ReadError::UnknownUnitType(DwUt(7))), END, END],
    ),
    (
        b"\x07\x00\x00\x00\x04\x00\x00\x00\x00\x00\x03",
        [Err(ReadError::UnsupportedAddressSize(3)), END, END],
    ),
    (
        b"\xf0\xff\xff\xff\x05\x00",
        [Err(ReadError::UnknownReservedLength), END, END],
    ),
    (b"\xef\xff\xff\xff\x05\x00\x01\x08", [CUT, END, END]),
    (
        b"\xff\xff\xff\xff\x00\x00\x00\x00\x00\x00\x00\x10\x05\x00\x01\x08",
        [CUT, END, END],
    ),
    (
        b"\xff\xff\xff\xff\xff\xff\xff\xff\xff\xff\xff\xff\x05\x00\x01\x08",
        [CUT, END, END],
    ),
];

fn cases() -> &'static [Case] {
    CASES
}

/// Whether the bytes are answered so.
fn are_answered(case: &Case) -> bool {
    let (bytes, wanted) = *case;
    let mut headers = UnitHeadersIter::new(little(bytes));
    for answer in wanted {
        if next_header(&mut headers) != answer {
            return false;
        }
    }
    true
}

#[test]
fn reads_headers_of_units(rt: HostRuntime) {
    for (row, case) in cases().iter().enumerate() {
        assert!(rt; are_answered(case), "{row}");
    }
}
