//! What can be wrong with a relocation.

use crate::error::LinkError;
use dw_base::SectionId;

/// What is wrong with a relocation. Where several stand, the first of them is answered.
#[derive(Clone, Copy)]
pub enum Fault {
    PointerEncoding,
    RecordOutOfPlace,
    UnknownSymbol,
    UnknownSection,
    ValueTooLarge,
}

impl Fault {
    ghost use Rattle.std.specs.Prelude.{◌≡◌};
    ghost use Rattle.dw_link.specs.Faults.{error_at};

    /// The error that says where the relocation stands.
    pub fn at(self, set: usize, section: SectionId, index: usize) -> LinkError
        ensures { result ≡ error_at self set section index }
    {
        match self {
            Fault::PointerEncoding => LinkError::PointerEncoding {
                set,
                section,
                index,
            },
            Fault::RecordOutOfPlace => LinkError::RecordOutOfPlace {
                set,
                section,
                index,
            },
            Fault::UnknownSymbol => LinkError::UnknownSymbol {
                set,
                section,
                index,
            },
            Fault::UnknownSection => LinkError::UnknownSection {
                set,
                section,
                index,
            },
            Fault::ValueTooLarge => LinkError::ValueTooLarge {
                set,
                section,
                index,
            },
        }
    }
}
