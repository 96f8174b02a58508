//! How units and line programs are encoded.

ghost use Rattle.std.specs.Prelude.{◌≡◌, true, pos, negsuc};
ghost use Rattle.dw_base.specs.Numbers.{word_of};

/// The format of a unit or a section: 32-bit or 64-bit (DWARF 5, 7.4).
#[derive(Clone, Copy, PartialEq, Eq, Hash)]
pub enum Format {
    Dwarf32,
    Dwarf64,
}

impl Format {
    /// The bytes of a word, which a length and an offset into a section take: 4 or 8.
    pub fn word_size(self) -> u8
        ensures { result ≡ word_of self }
    {
        match self {
            Format::Dwarf32 => 4,
            Format::Dwarf64 => 8,
        }
    }
}

/// What the spelling of a unit's values depends on, beside the byte order.
#[derive(Clone, Copy, PartialEq, Eq, Hash)]
pub struct Encoding {
    /// The bytes of an address on the target.
    pub address_size: u8,
    /// The width of lengths and of offsets into sections.
    pub format: Format,
    /// The version of the DWARF standard.
    pub version: u16,
}

/// The parameters of a line program (DWARF 5, 6.2.4).
#[derive(Clone, Copy, PartialEq, Eq)]
pub struct LineEncoding {
    /// The bytes of the smallest instruction of the target.
    pub minimum_instruction_length: u8,
    /// The operations of the longest instruction, above 1 on VLIW targets alone.
    pub maximum_operations_per_instruction: u8,
    /// Whether a sequence's first row begins a statement.
    pub default_is_stmt: bool,
    /// The smallest advance of the line by a special opcode.
    pub line_base: i8,
    /// How many advances of the line special opcodes have.
    pub line_range: u8,
}

impl Default for LineEncoding {
    ghost is_default = { λ l. l ≡ record {
      minimum_instruction_length = 1;
      maximum_operations_per_instruction = 1;
      default_is_stmt = true;
      line_base = negsuc 4;
      line_range = 14;
    } };

    /// Instructions of one byte and one operation, lines from -5 to 8.
    fn default() -> LineEncoding {
        LineEncoding {
            minimum_instruction_length: 1,
            maximum_operations_per_instruction: 1,
            default_is_stmt: true,
            line_base: -5,
            line_range: 14,
        }
    }
}

/// A register of the target, by its number in the target's DWARF mapping.
#[derive(Clone, Copy, PartialEq, Eq, Hash)]
pub struct Register(pub u16);
