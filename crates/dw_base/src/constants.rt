//! The numbers that the DWARF standard gives names to, each under its name in the standard.
//! Sections in parentheses are those of the standard, version 5. Every other number of a type is
//! taken as well, as vendors have numbers of their own.
#![allow(non_upper_case_globals)]

ghost use Rattle.std.specs.Prelude.{◌≡◌, bit_and};

/// The tag of an entry (7.5.3).
#[derive(Clone, Copy, PartialEq, Eq, Hash)]
pub struct DwTag(pub u16);

pub const DW_TAG_array_type: DwTag = DwTag(0x01);

pub const DW_TAG_class_type: DwTag = DwTag(0x02);

pub const DW_TAG_entry_point: DwTag = DwTag(0x03);

pub const DW_TAG_enumeration_type: DwTag = DwTag(0x04);

pub const DW_TAG_formal_parameter: DwTag = DwTag(0x05);

pub const DW_TAG_imported_declaration: DwTag = DwTag(0x08);

pub const DW_TAG_lexical_block: DwTag = DwTag(0x0b);

pub const DW_TAG_member: DwTag = DwTag(0x0d);

pub const DW_TAG_pointer_type: DwTag = DwTag(0x0f);

pub const DW_TAG_reference_type: DwTag = DwTag(0x10);

pub const DW_TAG_compile_unit: DwTag = DwTag(0x11);

pub const DW_TAG_string_type: DwTag = DwTag(0x12);

pub const DW_TAG_structure_type: DwTag = DwTag(0x13);

pub const DW_TAG_subroutine_type: DwTag = DwTag(0x15);

pub const DW_TAG_typedef: DwTag = DwTag(0x16);

pub const DW_TAG_union_type: DwTag = DwTag(0x17);

pub const DW_TAG_common_block: DwTag = DwTag(0x1a);

pub const DW_TAG_inlined_subroutine: DwTag = DwTag(0x1d);

pub const DW_TAG_module: DwTag = DwTag(0x1e);

pub const DW_TAG_ptr_to_member_type: DwTag = DwTag(0x1f);

pub const DW_TAG_set_type: DwTag = DwTag(0x20);

pub const DW_TAG_subrange_type: DwTag = DwTag(0x21);

pub const DW_TAG_base_type: DwTag = DwTag(0x24);

pub const DW_TAG_const_type: DwTag = DwTag(0x26);

pub const DW_TAG_enumerator: DwTag = DwTag(0x28);

pub const DW_TAG_file_type: DwTag = DwTag(0x29);

pub const DW_TAG_namelist: DwTag = DwTag(0x2b);

pub const DW_TAG_packed_type: DwTag = DwTag(0x2d);

pub const DW_TAG_subprogram: DwTag = DwTag(0x2e);

pub const DW_TAG_variable: DwTag = DwTag(0x34);

pub const DW_TAG_volatile_type: DwTag = DwTag(0x35);

pub const DW_TAG_dwarf_procedure: DwTag = DwTag(0x36);

pub const DW_TAG_restrict_type: DwTag = DwTag(0x37);

pub const DW_TAG_interface_type: DwTag = DwTag(0x38);

pub const DW_TAG_namespace: DwTag = DwTag(0x39);

pub const DW_TAG_imported_module: DwTag = DwTag(0x3a);

pub const DW_TAG_unspecified_type: DwTag = DwTag(0x3b);

pub const DW_TAG_imported_unit: DwTag = DwTag(0x3d);

pub const DW_TAG_shared_type: DwTag = DwTag(0x40);

pub const DW_TAG_rvalue_reference_type: DwTag = DwTag(0x42);

pub const DW_TAG_template_alias: DwTag = DwTag(0x43);

pub const DW_TAG_coarray_type: DwTag = DwTag(0x44);

pub const DW_TAG_dynamic_type: DwTag = DwTag(0x46);

pub const DW_TAG_atomic_type: DwTag = DwTag(0x47);

pub const DW_TAG_immutable_type: DwTag = DwTag(0x4b);

/// The name of an attribute (7.5.4).
#[derive(Clone, Copy, PartialEq, Eq, Hash)]
pub struct DwAt(pub u16);

pub const DW_AT_sibling: DwAt = DwAt(0x01);

pub const DW_AT_location: DwAt = DwAt(0x02);

pub const DW_AT_name: DwAt = DwAt(0x03);

pub const DW_AT_ordering: DwAt = DwAt(0x09);

pub const DW_AT_byte_size: DwAt = DwAt(0x0b);

pub const DW_AT_bit_size: DwAt = DwAt(0x0d);

pub const DW_AT_stmt_list: DwAt = DwAt(0x10);

pub const DW_AT_low_pc: DwAt = DwAt(0x11);

pub const DW_AT_high_pc: DwAt = DwAt(0x12);

pub const DW_AT_language: DwAt = DwAt(0x13);

pub const DW_AT_visibility: DwAt = DwAt(0x17);

pub const DW_AT_import: DwAt = DwAt(0x18);

pub const DW_AT_string_length: DwAt = DwAt(0x19);

pub const DW_AT_comp_dir: DwAt = DwAt(0x1b);

pub const DW_AT_const_value: DwAt = DwAt(0x1c);

pub const DW_AT_inline: DwAt = DwAt(0x20);

pub const DW_AT_lower_bound: DwAt = DwAt(0x22);

pub const DW_AT_producer: DwAt = DwAt(0x25);

pub const DW_AT_prototyped: DwAt = DwAt(0x27);

pub const DW_AT_return_addr: DwAt = DwAt(0x2a);

pub const DW_AT_start_scope: DwAt = DwAt(0x2c);

pub const DW_AT_bit_stride: DwAt = DwAt(0x2e);

pub const DW_AT_upper_bound: DwAt = DwAt(0x2f);

pub const DW_AT_abstract_origin: DwAt = DwAt(0x31);

pub const DW_AT_accessibility: DwAt = DwAt(0x32);

pub const DW_AT_address_class: DwAt = DwAt(0x33);

pub const DW_AT_artificial: DwAt = DwAt(0x34);

pub const DW_AT_calling_convention: DwAt = DwAt(0x36);

pub const DW_AT_count: DwAt = DwAt(0x37);

pub const DW_AT_data_member_location: DwAt = DwAt(0x38);

pub const DW_AT_decl_column: DwAt = DwAt(0x39);

pub const DW_AT_decl_file: DwAt = DwAt(0x3a);

pub const DW_AT_decl_line: DwAt = DwAt(0x3b);

pub const DW_AT_declaration: DwAt = DwAt(0x3c);

pub const DW_AT_encoding: DwAt = DwAt(0x3e);

pub const DW_AT_external: DwAt = DwAt(0x3f);

pub const DW_AT_frame_base: DwAt = DwAt(0x40);

pub const DW_AT_identifier_case: DwAt = DwAt(0x42);

pub const DW_AT_macro_info: DwAt = DwAt(0x43);

pub const DW_AT_segment: DwAt = DwAt(0x46);

pub const DW_AT_specification: DwAt = DwAt(0x47);

pub const DW_AT_static_link: DwAt = DwAt(0x48);

pub const DW_AT_type: DwAt = DwAt(0x49);

pub const DW_AT_use_location: DwAt = DwAt(0x4a);

pub const DW_AT_virtuality: DwAt = DwAt(0x4c);

pub const DW_AT_vtable_elem_location: DwAt = DwAt(0x4d);

pub const DW_AT_allocated: DwAt = DwAt(0x4e);

pub const DW_AT_associated: DwAt = DwAt(0x4f);

pub const DW_AT_data_location: DwAt = DwAt(0x50);

pub const DW_AT_byte_stride: DwAt = DwAt(0x51);

pub const DW_AT_entry_pc: DwAt = DwAt(0x52);

pub const DW_AT_ranges: DwAt = DwAt(0x55);

pub const DW_AT_call_file: DwAt = DwAt(0x58);

pub const DW_AT_call_line: DwAt = DwAt(0x59);

pub const DW_AT_decimal_sign: DwAt = DwAt(0x5e);

pub const DW_AT_endianity: DwAt = DwAt(0x65);

pub const DW_AT_linkage_name: DwAt = DwAt(0x6e);

pub const DW_AT_str_offsets_base: DwAt = DwAt(0x72);

pub const DW_AT_addr_base: DwAt = DwAt(0x73);

pub const DW_AT_rnglists_base: DwAt = DwAt(0x74);

pub const DW_AT_dwo_name: DwAt = DwAt(0x76);

pub const DW_AT_macros: DwAt = DwAt(0x79);

pub const DW_AT_call_value: DwAt = DwAt(0x7e);

pub const DW_AT_call_target: DwAt = DwAt(0x83);

pub const DW_AT_call_target_clobbered: DwAt = DwAt(0x84);

pub const DW_AT_call_data_location: DwAt = DwAt(0x85);

pub const DW_AT_call_data_value: DwAt = DwAt(0x86);

pub const DW_AT_loclists_base: DwAt = DwAt(0x8c);

pub const DW_AT_GNU_call_site_value: DwAt = DwAt(0x2111);

pub const DW_AT_GNU_call_site_data_value: DwAt = DwAt(0x2112);

pub const DW_AT_GNU_call_site_target: DwAt = DwAt(0x2113);

pub const DW_AT_GNU_call_site_target_clobbered: DwAt = DwAt(0x2114);

pub const DW_AT_GNU_macros: DwAt = DwAt(0x2119);

pub const DW_AT_GNU_dwo_name: DwAt = DwAt(0x2130);

pub const DW_AT_GNU_dwo_id: DwAt = DwAt(0x2131);

pub const DW_AT_GNU_ranges_base: DwAt = DwAt(0x2132);

pub const DW_AT_GNU_addr_base: DwAt = DwAt(0x2133);

pub const DW_AT_GNU_locviews: DwAt = DwAt(0x2137);

/// The form of an attribute's operand (7.5.6).
#[derive(Clone, Copy, Debug, PartialEq, Eq, Hash)]
pub struct DwForm(pub u16);

pub const DW_FORM_addr: DwForm = DwForm(0x01);

pub const DW_FORM_block2: DwForm = DwForm(0x03);

pub const DW_FORM_block4: DwForm = DwForm(0x04);

pub const DW_FORM_data2: DwForm = DwForm(0x05);

pub const DW_FORM_data4: DwForm = DwForm(0x06);

pub const DW_FORM_data8: DwForm = DwForm(0x07);

pub const DW_FORM_string: DwForm = DwForm(0x08);

pub const DW_FORM_block: DwForm = DwForm(0x09);

pub const DW_FORM_block1: DwForm = DwForm(0x0a);

pub const DW_FORM_data1: DwForm = DwForm(0x0b);

pub const DW_FORM_flag: DwForm = DwForm(0x0c);

pub const DW_FORM_sdata: DwForm = DwForm(0x0d);

pub const DW_FORM_strp: DwForm = DwForm(0x0e);

pub const DW_FORM_udata: DwForm = DwForm(0x0f);

pub const DW_FORM_ref_addr: DwForm = DwForm(0x10);

pub const DW_FORM_ref1: DwForm = DwForm(0x11);

pub const DW_FORM_ref2: DwForm = DwForm(0x12);

pub const DW_FORM_ref4: DwForm = DwForm(0x13);

pub const DW_FORM_ref8: DwForm = DwForm(0x14);

pub const DW_FORM_ref_udata: DwForm = DwForm(0x15);

pub const DW_FORM_indirect: DwForm = DwForm(0x16);

pub const DW_FORM_sec_offset: DwForm = DwForm(0x17);

pub const DW_FORM_exprloc: DwForm = DwForm(0x18);

pub const DW_FORM_flag_present: DwForm = DwForm(0x19);

pub const DW_FORM_strx: DwForm = DwForm(0x1a);

pub const DW_FORM_addrx: DwForm = DwForm(0x1b);

pub const DW_FORM_ref_sup4: DwForm = DwForm(0x1c);

pub const DW_FORM_strp_sup: DwForm = DwForm(0x1d);

pub const DW_FORM_data16: DwForm = DwForm(0x1e);

pub const DW_FORM_line_strp: DwForm = DwForm(0x1f);

pub const DW_FORM_ref_sig8: DwForm = DwForm(0x20);

pub const DW_FORM_implicit_const: DwForm = DwForm(0x21);

pub const DW_FORM_loclistx: DwForm = DwForm(0x22);

pub const DW_FORM_rnglistx: DwForm = DwForm(0x23);

pub const DW_FORM_ref_sup8: DwForm = DwForm(0x24);

pub const DW_FORM_strx1: DwForm = DwForm(0x25);

pub const DW_FORM_strx2: DwForm = DwForm(0x26);

pub const DW_FORM_strx3: DwForm = DwForm(0x27);

pub const DW_FORM_strx4: DwForm = DwForm(0x28);

pub const DW_FORM_addrx1: DwForm = DwForm(0x29);

pub const DW_FORM_addrx2: DwForm = DwForm(0x2a);

pub const DW_FORM_addrx3: DwForm = DwForm(0x2b);

pub const DW_FORM_addrx4: DwForm = DwForm(0x2c);

/// The type of a unit, from version 5 on (7.5.1).
#[derive(Clone, Copy, Debug, PartialEq, Eq)]
pub struct DwUt(pub u8);

pub const DW_UT_compile: DwUt = DwUt(0x01);

pub const DW_UT_type: DwUt = DwUt(0x02);

pub const DW_UT_partial: DwUt = DwUt(0x03);

pub const DW_UT_skeleton: DwUt = DwUt(0x04);

pub const DW_UT_split_compile: DwUt = DwUt(0x05);

pub const DW_UT_split_type: DwUt = DwUt(0x06);

/// An operation of an expression (7.7.1).
#[derive(Clone, Copy, Debug, PartialEq, Eq, Hash)]
pub struct DwOp(pub u8);

pub const DW_OP_addr: DwOp = DwOp(0x03);

pub const DW_OP_deref: DwOp = DwOp(0x06);

pub const DW_OP_const1u: DwOp = DwOp(0x08);

pub const DW_OP_const1s: DwOp = DwOp(0x09);

pub const DW_OP_const2u: DwOp = DwOp(0x0a);

pub const DW_OP_const2s: DwOp = DwOp(0x0b);

pub const DW_OP_const4u: DwOp = DwOp(0x0c);

pub const DW_OP_const4s: DwOp = DwOp(0x0d);

pub const DW_OP_const8u: DwOp = DwOp(0x0e);

pub const DW_OP_const8s: DwOp = DwOp(0x0f);

pub const DW_OP_constu: DwOp = DwOp(0x10);

pub const DW_OP_consts: DwOp = DwOp(0x11);

pub const DW_OP_dup: DwOp = DwOp(0x12);

pub const DW_OP_drop: DwOp = DwOp(0x13);

pub const DW_OP_over: DwOp = DwOp(0x14);

pub const DW_OP_pick: DwOp = DwOp(0x15);

pub const DW_OP_swap: DwOp = DwOp(0x16);

pub const DW_OP_rot: DwOp = DwOp(0x17);

pub const DW_OP_xderef: DwOp = DwOp(0x18);

pub const DW_OP_abs: DwOp = DwOp(0x19);

pub const DW_OP_and: DwOp = DwOp(0x1a);

pub const DW_OP_div: DwOp = DwOp(0x1b);

pub const DW_OP_minus: DwOp = DwOp(0x1c);

pub const DW_OP_mod: DwOp = DwOp(0x1d);

pub const DW_OP_mul: DwOp = DwOp(0x1e);

pub const DW_OP_neg: DwOp = DwOp(0x1f);

pub const DW_OP_not: DwOp = DwOp(0x20);

pub const DW_OP_or: DwOp = DwOp(0x21);

pub const DW_OP_plus: DwOp = DwOp(0x22);

pub const DW_OP_plus_uconst: DwOp = DwOp(0x23);

pub const DW_OP_shl: DwOp = DwOp(0x24);

pub const DW_OP_shr: DwOp = DwOp(0x25);

pub const DW_OP_shra: DwOp = DwOp(0x26);

pub const DW_OP_xor: DwOp = DwOp(0x27);

pub const DW_OP_bra: DwOp = DwOp(0x28);

pub const DW_OP_eq: DwOp = DwOp(0x29);

pub const DW_OP_ge: DwOp = DwOp(0x2a);

pub const DW_OP_gt: DwOp = DwOp(0x2b);

pub const DW_OP_le: DwOp = DwOp(0x2c);

pub const DW_OP_lt: DwOp = DwOp(0x2d);

pub const DW_OP_ne: DwOp = DwOp(0x2e);

pub const DW_OP_skip: DwOp = DwOp(0x2f);

pub const DW_OP_lit0: DwOp = DwOp(0x30);

pub const DW_OP_reg0: DwOp = DwOp(0x50);

pub const DW_OP_breg0: DwOp = DwOp(0x70);

pub const DW_OP_regx: DwOp = DwOp(0x90);

pub const DW_OP_fbreg: DwOp = DwOp(0x91);

pub const DW_OP_bregx: DwOp = DwOp(0x92);

pub const DW_OP_piece: DwOp = DwOp(0x93);

pub const DW_OP_deref_size: DwOp = DwOp(0x94);

pub const DW_OP_xderef_size: DwOp = DwOp(0x95);

pub const DW_OP_nop: DwOp = DwOp(0x96);

pub const DW_OP_push_object_address: DwOp = DwOp(0x97);

pub const DW_OP_call2: DwOp = DwOp(0x98);

pub const DW_OP_call4: DwOp = DwOp(0x99);

pub const DW_OP_call_ref: DwOp = DwOp(0x9a);

pub const DW_OP_form_tls_address: DwOp = DwOp(0x9b);

pub const DW_OP_call_frame_cfa: DwOp = DwOp(0x9c);

pub const DW_OP_bit_piece: DwOp = DwOp(0x9d);

pub const DW_OP_implicit_value: DwOp = DwOp(0x9e);

pub const DW_OP_stack_value: DwOp = DwOp(0x9f);

pub const DW_OP_implicit_pointer: DwOp = DwOp(0xa0);

pub const DW_OP_addrx: DwOp = DwOp(0xa1);

pub const DW_OP_constx: DwOp = DwOp(0xa2);

pub const DW_OP_entry_value: DwOp = DwOp(0xa3);

pub const DW_OP_const_type: DwOp = DwOp(0xa4);

pub const DW_OP_regval_type: DwOp = DwOp(0xa5);

pub const DW_OP_deref_type: DwOp = DwOp(0xa6);

pub const DW_OP_xderef_type: DwOp = DwOp(0xa7);

pub const DW_OP_convert: DwOp = DwOp(0xa8);

pub const DW_OP_reinterpret: DwOp = DwOp(0xa9);

pub const DW_OP_GNU_push_tls_address: DwOp = DwOp(0xe0);

pub const DW_OP_WASM_location: DwOp = DwOp(0xed);

pub const DW_OP_GNU_uninit: DwOp = DwOp(0xf0);

pub const DW_OP_GNU_implicit_pointer: DwOp = DwOp(0xf2);

pub const DW_OP_GNU_entry_value: DwOp = DwOp(0xf3);

pub const DW_OP_GNU_const_type: DwOp = DwOp(0xf4);

pub const DW_OP_GNU_regval_type: DwOp = DwOp(0xf5);

pub const DW_OP_GNU_deref_type: DwOp = DwOp(0xf6);

pub const DW_OP_GNU_convert: DwOp = DwOp(0xf7);

pub const DW_OP_GNU_reinterpret: DwOp = DwOp(0xf9);

pub const DW_OP_GNU_parameter_ref: DwOp = DwOp(0xfa);

pub const DW_OP_GNU_variable_value: DwOp = DwOp(0xfd);

/// The kind of a range list's item, from version 5 on (7.25).
#[derive(Clone, Copy, PartialEq, Eq)]
pub struct DwRle(pub u8);

pub const DW_RLE_end_of_list: DwRle = DwRle(0x00);

pub const DW_RLE_base_addressx: DwRle = DwRle(0x01);

pub const DW_RLE_startx_endx: DwRle = DwRle(0x02);

pub const DW_RLE_startx_length: DwRle = DwRle(0x03);

pub const DW_RLE_offset_pair: DwRle = DwRle(0x04);

pub const DW_RLE_base_address: DwRle = DwRle(0x05);

pub const DW_RLE_start_end: DwRle = DwRle(0x06);

pub const DW_RLE_start_length: DwRle = DwRle(0x07);

/// The kind of a location list's item, from version 5 on (7.7.3).
#[derive(Clone, Copy, PartialEq, Eq)]
pub struct DwLle(pub u8);

pub const DW_LLE_end_of_list: DwLle = DwLle(0x00);

pub const DW_LLE_base_addressx: DwLle = DwLle(0x01);

pub const DW_LLE_startx_endx: DwLle = DwLle(0x02);

pub const DW_LLE_startx_length: DwLle = DwLle(0x03);

pub const DW_LLE_offset_pair: DwLle = DwLle(0x04);

pub const DW_LLE_default_location: DwLle = DwLle(0x05);

pub const DW_LLE_base_address: DwLle = DwLle(0x06);

pub const DW_LLE_start_end: DwLle = DwLle(0x07);

pub const DW_LLE_start_length: DwLle = DwLle(0x08);

/// A standard operation of a line program (7.22).
#[derive(Clone, Copy, PartialEq, Eq)]
pub struct DwLns(pub u8);

pub const DW_LNS_copy: DwLns = DwLns(0x01);

pub const DW_LNS_advance_pc: DwLns = DwLns(0x02);

pub const DW_LNS_advance_line: DwLns = DwLns(0x03);

pub const DW_LNS_set_file: DwLns = DwLns(0x04);

pub const DW_LNS_set_column: DwLns = DwLns(0x05);

pub const DW_LNS_negate_stmt: DwLns = DwLns(0x06);

pub const DW_LNS_set_basic_block: DwLns = DwLns(0x07);

pub const DW_LNS_const_add_pc: DwLns = DwLns(0x08);

pub const DW_LNS_fixed_advance_pc: DwLns = DwLns(0x09);

pub const DW_LNS_set_prologue_end: DwLns = DwLns(0x0a);

pub const DW_LNS_set_epilogue_begin: DwLns = DwLns(0x0b);

pub const DW_LNS_set_isa: DwLns = DwLns(0x0c);

/// An extended operation of a line program (7.22).
#[derive(Clone, Copy, PartialEq, Eq)]
pub struct DwLne(pub u8);

pub const DW_LNE_end_sequence: DwLne = DwLne(0x01);

pub const DW_LNE_set_address: DwLne = DwLne(0x02);

pub const DW_LNE_define_file: DwLne = DwLne(0x03);

pub const DW_LNE_set_discriminator: DwLne = DwLne(0x04);

/// The content type of a line program's directory or file, from version 5 on (7.22).
#[derive(Clone, Copy, PartialEq, Eq)]
pub struct DwLnct(pub u16);

pub const DW_LNCT_path: DwLnct = DwLnct(0x01);

pub const DW_LNCT_directory_index: DwLnct = DwLnct(0x02);

pub const DW_LNCT_timestamp: DwLnct = DwLnct(0x03);

pub const DW_LNCT_size: DwLnct = DwLnct(0x04);

pub const DW_LNCT_MD5: DwLnct = DwLnct(0x05);

pub const DW_LNCT_LLVM_source: DwLnct = DwLnct(0x2001);

/// A call frame instruction (7.24).
#[derive(Clone, Copy, PartialEq, Eq)]
pub struct DwCfa(pub u8);

pub const DW_CFA_nop: DwCfa = DwCfa(0x00);

pub const DW_CFA_set_loc: DwCfa = DwCfa(0x01);

pub const DW_CFA_advance_loc1: DwCfa = DwCfa(0x02);

pub const DW_CFA_advance_loc2: DwCfa = DwCfa(0x03);

pub const DW_CFA_advance_loc4: DwCfa = DwCfa(0x04);

pub const DW_CFA_offset_extended: DwCfa = DwCfa(0x05);

pub const DW_CFA_restore_extended: DwCfa = DwCfa(0x06);

pub const DW_CFA_undefined: DwCfa = DwCfa(0x07);

pub const DW_CFA_same_value: DwCfa = DwCfa(0x08);

pub const DW_CFA_register: DwCfa = DwCfa(0x09);

pub const DW_CFA_remember_state: DwCfa = DwCfa(0x0a);

pub const DW_CFA_restore_state: DwCfa = DwCfa(0x0b);

pub const DW_CFA_def_cfa: DwCfa = DwCfa(0x0c);

pub const DW_CFA_def_cfa_register: DwCfa = DwCfa(0x0d);

pub const DW_CFA_def_cfa_offset: DwCfa = DwCfa(0x0e);

pub const DW_CFA_def_cfa_expression: DwCfa = DwCfa(0x0f);

pub const DW_CFA_expression: DwCfa = DwCfa(0x10);

pub const DW_CFA_offset_extended_sf: DwCfa = DwCfa(0x11);

pub const DW_CFA_def_cfa_sf: DwCfa = DwCfa(0x12);

pub const DW_CFA_def_cfa_offset_sf: DwCfa = DwCfa(0x13);

pub const DW_CFA_val_offset: DwCfa = DwCfa(0x14);

pub const DW_CFA_val_offset_sf: DwCfa = DwCfa(0x15);

pub const DW_CFA_val_expression: DwCfa = DwCfa(0x16);

pub const DW_CFA_AARCH64_negate_ra_state: DwCfa = DwCfa(0x2d);

pub const DW_CFA_GNU_args_size: DwCfa = DwCfa(0x2e);

pub const DW_CFA_advance_loc: DwCfa = DwCfa(0x40);

pub const DW_CFA_offset: DwCfa = DwCfa(0x80);

pub const DW_CFA_restore: DwCfa = DwCfa(0xc0);

/// A source language (7.12).
#[derive(Clone, Copy, PartialEq, Eq)]
pub struct DwLang(pub u16);

/// The encoding of a base type (7.8).
#[derive(Clone, Copy, PartialEq, Eq)]
pub struct DwAte(pub u8);

/// The sign of a decimal type (7.8).
#[derive(Clone, Copy, PartialEq, Eq)]
pub struct DwDs(pub u8);

/// The byte order of a value (7.8).
#[derive(Clone, Copy, PartialEq, Eq)]
pub struct DwEnd(pub u8);

/// The access that a member allows (7.9).
#[derive(Clone, Copy, PartialEq, Eq)]
pub struct DwAccess(pub u8);

/// Where a name can be seen (7.10).
#[derive(Clone, Copy, PartialEq, Eq)]
pub struct DwVis(pub u8);

/// Whether a member is virtual (7.11).
#[derive(Clone, Copy, PartialEq, Eq)]
pub struct DwVirtuality(pub u8);

/// How identifiers' cases count (7.14).
#[derive(Clone, Copy, PartialEq, Eq)]
pub struct DwId(pub u8);

/// A calling convention (7.15).
#[derive(Clone, Copy, PartialEq, Eq)]
pub struct DwCc(pub u8);

/// Whether a subroutine is inlined (7.16).
#[derive(Clone, Copy, PartialEq, Eq)]
pub struct DwInl(pub u8);

/// The order of an array's elements (7.17).
#[derive(Clone, Copy, PartialEq, Eq)]
pub struct DwOrd(pub u8);

/// An address class (7.13).
#[derive(Clone, Copy, PartialEq, Eq)]
pub struct DwAddr(pub u64);

/// How a pointer of `.eh_frame` is encoded: a format in the low four bits, and in the bits 0x70
/// what it counts from. The bit 0x80 says that the pointer's place holds the address (Linux
/// Standard Base).
#[derive(Clone, Copy, Debug, PartialEq, Eq, Hash)]
pub struct DwEhPe(pub u8);

pub const DW_EH_PE_absptr: DwEhPe = DwEhPe(0x00);

pub const DW_EH_PE_uleb128: DwEhPe = DwEhPe(0x01);

pub const DW_EH_PE_udata2: DwEhPe = DwEhPe(0x02);

pub const DW_EH_PE_udata4: DwEhPe = DwEhPe(0x03);

pub const DW_EH_PE_udata8: DwEhPe = DwEhPe(0x04);

pub const DW_EH_PE_sleb128: DwEhPe = DwEhPe(0x09);

pub const DW_EH_PE_sdata2: DwEhPe = DwEhPe(0x0a);

pub const DW_EH_PE_sdata4: DwEhPe = DwEhPe(0x0b);

pub const DW_EH_PE_sdata8: DwEhPe = DwEhPe(0x0c);

pub const DW_EH_PE_pcrel: DwEhPe = DwEhPe(0x10);

pub const DW_EH_PE_textrel: DwEhPe = DwEhPe(0x20);

pub const DW_EH_PE_datarel: DwEhPe = DwEhPe(0x30);

pub const DW_EH_PE_funcrel: DwEhPe = DwEhPe(0x40);

pub const DW_EH_PE_aligned: DwEhPe = DwEhPe(0x50);

pub const DW_EH_PE_indirect: DwEhPe = DwEhPe(0x80);

pub const DW_EH_PE_omit: DwEhPe = DwEhPe(0xff);

impl DwEhPe {
    /// The low four bits: the pointer's format.
    pub fn format(self) -> DwEhPe
        ensures { result.0 ≡ bit_and self.0 0x0f }
    {
        DwEhPe(self.0 & 0x0f)
    }

    /// The bits 0x70: what the pointer counts from.
    pub fn application(self) -> DwEhPe
        ensures { result.0 ≡ bit_and self.0 0x70 }
    {
        DwEhPe(self.0 & 0x70)
    }
}
