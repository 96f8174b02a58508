//! The registers of the line machine (DWARF 5, 6.2.2).

ghost use Rattle.std.specs.Prelude.{◌≡◌, ◌+◌, ◌*◌};
ghost use Rattle.std.specs.Option.{option_map};
ghost use Rattle.dw_base.specs.LineMachine.{LineHeader, begin, cleared};
ghost use Rattle.dw_convert_lines.specs.RegisterViews.{registers_of, narrowed, line_narrowed};

/// What the line machine holds between two instructions.
#[derive(Clone, Copy)]
pub(crate) struct Registers {
    pub(crate) address: u64,
    pub(crate) file: u64,
    pub(crate) line: u64,
    pub(crate) column: u64,
    pub(crate) discriminator: u64,
    pub(crate) isa: u64,
    pub(crate) is_statement: bool,
    pub(crate) basic_block: bool,
    pub(crate) prologue_end: bool,
    pub(crate) epilogue_begin: bool,
}

impl Registers {
    /// The registers as a sequence begins.
    pub(crate) fn begin(is_statement: bool) -> Registers
        ensures { (h : LineHeader) → h.default_statement ≡ is_statement
            → registers_of result ≡ begin h }
    {
        Registers {
            address: 0,
            file: 1,
            line: 1,
            column: 0,
            discriminator: 0,
            isa: 0,
            is_statement,
            basic_block: false,
            prologue_end: false,
            epilogue_begin: false,
        }
    }

    /// The registers as a row leaves them: its discriminator and its marks are its own.
    pub(crate) fn cleared(self) -> Registers
        ensures { registers_of result ≡ cleared (registers_of self) }
    {
        Registers {
            discriminator: 0,
            basic_block: false,
            prologue_end: false,
            epilogue_begin: false,
            ..self
        }
    }

    /// The registers at an address further on by so many bytes.
    pub(crate) fn moved(self, bytes: u64) -> Option<Registers>
        ensures { option_map registers_of result
            ≡ narrowed (record (registers_of self) { address = self.address + bytes }) }
    {
        let address = self.address.checked_add(bytes)?;
        Some(Registers { address, ..self })
    }

    /// The same by so many operations, each of the minimum length.
    pub(crate) fn advanced(self, minimum_length: u8, operations: u64) -> Option<Registers>
        ensures { option_map registers_of result ≡ narrowed (record (registers_of self)
            { address = self.address + minimum_length * operations }) }
    {
        let bytes = u64::from(minimum_length).checked_mul(operations)?;
        self.moved(bytes)
    }

    /// The registers on a line further on, or back.
    pub(crate) fn line_moved(self, lines: i64) -> Option<Registers>
        ensures { option_map registers_of result
            ≡ line_narrowed lines (registers_of self) }
    {
        let line = self.line.checked_add_signed(lines)?;
        Some(Registers { line, ..self })
    }
}
