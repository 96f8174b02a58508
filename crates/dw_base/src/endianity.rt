//! Byte orders.
ghost use Rattle.std.specs.Prelude.{◌≡◌, Bool, true, false};
ghost use Rattle.dw_base.specs.Order.{is_big_of};

/// A byte order, fixed by a type or chosen when the program runs.
pub trait Endianity: Copy {
    ghost is_big: { Self → Bool };

    /// Tells that a number's highest byte stands first.
    fn is_big_endian(&self) -> bool
        ensures { result ≡ is_big self.now };
}

/// The lowest byte first.
#[derive(Clone, Copy, PartialEq, Eq)]
pub struct LittleEndian;

impl Endianity for LittleEndian {
    ghost is_big = { λ _. false };

    fn is_big_endian(&self) -> bool {
        false
    }
}

/// The highest byte first.
#[derive(Clone, Copy, PartialEq, Eq)]
pub struct BigEndian;

impl Endianity for BigEndian {
    ghost is_big = { λ _. true };

    fn is_big_endian(&self) -> bool {
        true
    }
}

/// A byte order that is chosen when the program runs.
#[derive(Clone, Copy, PartialEq, Eq)]
pub enum RunTimeEndian {
    Little,
    Big,
}

impl Endianity for RunTimeEndian {
    ghost is_big = { is_big_of };

    fn is_big_endian(&self) -> bool {
        match self {
            RunTimeEndian::Little => false,
            RunTimeEndian::Big => true,
        }
    }
}
