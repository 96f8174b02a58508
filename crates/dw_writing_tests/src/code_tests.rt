//! Codes that no definition and no call names, against the numbers of the standards.

use dw_base::constants::{
    DW_EH_PE_aligned, DW_EH_PE_datarel, DW_EH_PE_funcrel, DW_EH_PE_omit, DW_UT_partial,
};

/// Encodings of pointers (Linux Standard Base Core 5.0, 10.5.1), and the type of a partial unit
/// (DWARF 5, table 7.2).
const CODES: [(u8, u8); 5] = [
    (DW_EH_PE_datarel.0, 0x30),
    (DW_EH_PE_funcrel.0, 0x40),
    (DW_EH_PE_aligned.0, 0x50),
    (DW_EH_PE_omit.0, 0xff),
    (DW_UT_partial.0, 0x03),
];

#[test]
fn has_the_codes_of_the_standards(rt: HostRuntime) {
    for (code, number) in CODES {
        assert_eq!(rt; code, number);
    }
}
