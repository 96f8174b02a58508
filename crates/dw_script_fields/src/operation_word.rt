//! The words of expressions.

ghost use Rattle.std.specs.Prelude.{◌≡◌};
ghost use Rattle.dw_script_fields.specs.OperationWords.{step_word_of};

use crate::table::find_name;

/// The word of a step of an expression, which says what the step's other fields are.
#[derive(Clone, Copy)]
pub(crate) enum StepWord {
    Close,
    EntryValue,
    Raw,
    Operation(OperationWord),
    Pair(PairWord),
}

/// The word of an operation with one operand or none.
#[derive(Clone, Copy)]
pub(crate) enum OperationWord {
    Simple,
    Address,
    UnsignedConstant,
    SignedConstant,
    FrameOffset,
    Pick,
    Deref,
    SpaceDeref,
    DerefSize,
    SpaceDerefSize,
    PlusConstant,
    Skip,
    Branch,
    Call,
    CallRef,
    VariableValue,
    Convert,
    Reinterpret,
    Register,
    ImplicitValue,
    Piece,
    ParameterRef,
    WasmLocal,
    WasmGlobal,
    WasmStack,
}

/// The word of an operation with two operands.
#[derive(Clone, Copy)]
pub(crate) enum PairWord {
    ConstantType,
    RegisterOffset,
    RegisterType,
    DerefType,
    SpaceDerefType,
    ImplicitPointer,
    BitPiece,
}

// A look-up goes through the table in order, so the words that come most often stand first.
const STEP_WORDS: [(&[u8], StepWord); 35] = [
    (b"]", StepWord::Close),
    (b"op", StepWord::Operation(OperationWord::Simple)),
    (b"fbreg", StepWord::Operation(OperationWord::FrameOffset)),
    (b"breg", StepWord::Pair(PairWord::RegisterOffset)),
    (b"reg", StepWord::Operation(OperationWord::Register)),
    (b"addr", StepWord::Operation(OperationWord::Address)),
    (b"entry_value", StepWord::EntryValue),
    (b"deref_type", StepWord::Pair(PairWord::DerefType)),
    (b"convert", StepWord::Operation(OperationWord::Convert)),
    (
        b"plus_uconst",
        StepWord::Operation(OperationWord::PlusConstant),
    ),
    (
        b"constu",
        StepWord::Operation(OperationWord::UnsignedConstant),
    ),
    (
        b"consts",
        StepWord::Operation(OperationWord::SignedConstant),
    ),
    (b"deref", StepWord::Operation(OperationWord::Deref)),
    (b"deref_size", StepWord::Operation(OperationWord::DerefSize)),
    (b"piece", StepWord::Operation(OperationWord::Piece)),
    (b"raw", StepWord::Raw),
    (b"pick", StepWord::Operation(OperationWord::Pick)),
    (b"skip", StepWord::Operation(OperationWord::Skip)),
    (b"bra", StepWord::Operation(OperationWord::Branch)),
    (b"call", StepWord::Operation(OperationWord::Call)),
    (b"call_ref", StepWord::Operation(OperationWord::CallRef)),
    (b"const_type", StepWord::Pair(PairWord::ConstantType)),
    (b"regval_type", StepWord::Pair(PairWord::RegisterType)),
    (
        b"reinterpret",
        StepWord::Operation(OperationWord::Reinterpret),
    ),
    (
        b"implicit_value",
        StepWord::Operation(OperationWord::ImplicitValue),
    ),
    (
        b"implicit_pointer",
        StepWord::Pair(PairWord::ImplicitPointer),
    ),
    (b"bit_piece", StepWord::Pair(PairWord::BitPiece)),
    (b"xderef", StepWord::Operation(OperationWord::SpaceDeref)),
    (
        b"xderef_size",
        StepWord::Operation(OperationWord::SpaceDerefSize),
    ),
    (b"xderef_type", StepWord::Pair(PairWord::SpaceDerefType)),
    (
        b"variable_value",
        StepWord::Operation(OperationWord::VariableValue),
    ),
    (
        b"gnu_parameter_ref",
        StepWord::Operation(OperationWord::ParameterRef),
    ),
    (b"wasm_local", StepWord::Operation(OperationWord::WasmLocal)),
    (
        b"wasm_global",
        StepWord::Operation(OperationWord::WasmGlobal),
    ),
    (b"wasm_stack", StepWord::Operation(OperationWord::WasmStack)),
];

impl StepWord {
    /// The word that a field spells.
    pub(crate) fn read(field: &[u8]) -> Option<StepWord>
        ensures { result ≡ step_word_of field.now }
    {
        find_name(&STEP_WORDS, field)
    }
}
