//! Augmentations of CIEs (Linux Standard Base Core 5.0, 10.6.1.1).

ghost use Rattle.std.specs.Prelude.{◌≡◌, IfOk, IfErr, Err};
ghost use Rattle.dw_read.specs.Reading.{left};
ghost use Rattle.dw_read.specs.Took.{Took};
ghost use Rattle.dw_read_frames.specs.Augmentations.{augmentation_read, letters_read};
ghost use Rattle.dw_read_frames.specs.Augmentations.{letter_read, no_letters};

use crate::pointer::read_pointer;
use dw_base::DwEhPe;
use dw_read::{ReadError, ReadResult, Reader};

/// What the augmentation of a CIE says.
#[derive(Clone, Copy)]
pub(crate) struct Augmentation {
    /// How FDEs encode the pointer to their data.
    pub(crate) lsda: Option<DwEhPe>,
    /// The routine that handles exceptions, behind how the pointer to it is encoded.
    pub(crate) personality: Option<(DwEhPe, u64)>,
    /// How FDEs encode addresses.
    pub(crate) fde_address_encoding: Option<DwEhPe>,
    /// Whether the functions are trampolines of signals.
    pub(crate) is_signal_trampoline: bool,
}

/// Reads the data of an augmentation whose text is given, where addresses have so many bytes.
pub(crate) fn read_augmentation<R: Reader>(
    input: &mut R,
    size: u8,
    text: R,
) -> ReadResult<Option<Augmentation>>
    ensures ok { IfOk result (Took _
        (augmentation_read (R.reading input.old).is_big size (R.reading input.old).end
        (left (R.reading text)))
        (R.reading input.old) (R.reading input.new)) }
    ensures err { IfErr result (λ e.
        augmentation_read (R.reading input.old).is_big size (R.reading input.old).end
        (left (R.reading text)) (left (R.reading input.old)) ≡ Err e) }
{
    let mut letters = text;
    if letters.len() == 0 {
        return Ok(None);
    }
    let first = letters.read_u8()?;
    if first != b'z' {
        return Err(ReadError::UnknownAugmentation);
    }
    let length = input.read_uleb128()?;
    let mut data = input.split(length as usize)?;
    let augmentation = read_letters(&mut data, size, letters.to_slice())?;
    Ok(Some(augmentation))
}

/// Reads the data of letters in turn.
fn read_letters<R: Reader>(input: &mut R, size: u8, letters: &[u8]) -> ReadResult<Augmentation>
    ensures ok { IfOk result (Took _
        (letters_read (R.reading input.old).is_big size (R.reading input.old).end
        letters.now no_letters)
        (R.reading input.old) (R.reading input.new)) }
    ensures err { IfErr result (λ e.
        letters_read (R.reading input.old).is_big size (R.reading input.old).end
        letters.now no_letters (left (R.reading input.old)) ≡ Err e) }
{
    let mut augmentation = Augmentation {
        lsda: None,
        personality: None,
        fde_address_encoding: None,
        is_signal_trampoline: false,
    };
    for letter in letters {
        augmentation = read_letter(input, size, *letter, augmentation)?;
    }
    Ok(augmentation)
}

/// Reads the data of a letter after those of others.
fn read_letter<R: Reader>(
    input: &mut R,
    size: u8,
    letter: u8,
    known: Augmentation,
) -> ReadResult<Augmentation>
    ensures ok { IfOk result (Took _
        (letter_read (R.reading input.old).is_big size (R.reading input.old).end letter known)
        (R.reading input.old) (R.reading input.new)) }
    ensures err { IfErr result (λ e.
        letter_read (R.reading input.old).is_big size (R.reading input.old).end letter known
        (left (R.reading input.old)) ≡ Err e) }
{
    let mut augmentation = known;
    if letter == b'L' {
        let lsda = input.read_u8()?;
        augmentation.lsda = Some(DwEhPe(lsda));
        return Ok(augmentation);
    }
    if letter == b'P' {
        let encoding = input.read_u8()?;
        let pointer = read_pointer(input, size, DwEhPe(encoding))?;
        augmentation.personality = Some((DwEhPe(encoding), pointer));
        return Ok(augmentation);
    }
    if letter == b'R' {
        let addresses = input.read_u8()?;
        augmentation.fde_address_encoding = Some(DwEhPe(addresses));
        return Ok(augmentation);
    }
    if letter == b'S' {
        augmentation.is_signal_trampoline = true;
        return Ok(augmentation);
    }
    Err(ReadError::UnknownAugmentation)
}
