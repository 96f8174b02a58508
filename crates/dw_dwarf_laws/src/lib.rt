//! Laws of a whole Dwarf. One whose symbols have values: each symbol address is replaced by its
//! number, and what that changes of the texts that are written. One that was read: a file becomes
//! one Dwarf and no other. All of it stands in `specs/` and `proofs/`; there is no code.
#![tactic(auto)]
