//! What CIEs and FDEs have in common: a length in front, padding behind, and a block of data
//! behind its own length (DWARF 5, 6.4.1).

ghost use Rattle.std.specs.Prelude.{◌≡◌, ◌+◌, ◌<◌, ◌≤◌, IsTrue, Ok, OnOk, IfOk, IfErr};
ghost use Rattle.dw_base.specs.Numbers.{is_width, word_of};
ghost use Rattle.dw_writer.specs.Texts.{zeros};
ghost use Rattle.dw_writer.specs.Meaning.{Meaning};
ghost use Rattle.dw_writer.specs.Causes.{BytesRefused};
ghost use Rattle.dw_frame.specs.Parts.{Placed, Puts};
ghost use Rattle.dw_frame.specs.Entries.{padding, padded, entry, counted};
ghost use Rattle.dw_frame.specs.Opened.{IsOpened, IsOpenBlock};

use dw_base::constants::DW_CFA_nop;
use dw_base::{Encoding, Error, Result};
use dw_writer::Writer;

/// An entry whose length isn't known yet.
#[derive(Clone, Copy)]
pub struct OpenEntry {
    encoding: Encoding,
    /// Where the length stands, and where it counts from.
    length_at: usize,
    begin: usize,
}

impl OpenEntry {
    /// Leaves room for the length.
    pub fn open<W: Writer>(w: &mut W, encoding: Encoding) -> Result<OpenEntry>
        ensures opened { IfOk result (IsOpened (W.meaning w.old) (W.meaning w.new)) }
        ensures encoding { IfOk result (λ o. o.encoding ≡ encoding) }
        ensures err { IfErr result (BytesRefused (W.meaning w.old) (W.meaning w.new)) }
    {
        let length_at = w.write_initial_length(encoding.format)?;
        let begin = w.len();
        Ok(OpenEntry {
            encoding,
            length_at,
            begin,
        })
    }

    /// Pads what was written since, and puts in its length.
    pub fn close<W: Writer>(self, w: &mut W) -> Result<()>
        requires { self.begin ≤ (W.meaning w.old).size }
        ensures { (first opened : Meaning) (body : Placed) →
            IsOpened first opened self →
            Puts {T = Unit {0}} (Ok tt) opened (W.meaning w.old) body →
            Puts result first (W.meaning w.new) (entry self.encoding body) }
    {
        let size = w.len() - self.begin;
        write_padding(w, self.encoding, size)?;
        let length = w.len() - self.begin;
        w.write_initial_length_at(self.length_at, length as u64, self.encoding.format)
    }
}

/// Writes instructions without an effect until the word and so many bytes are a multiple of an
/// address.
fn write_padding<W: Writer>(w: &mut W, encoding: Encoding, size: usize) -> Result<()>
    ensures { Puts result (W.meaning w.old) (W.meaning w.new) (padded encoding size) }
{
    if !is_width(encoding.address_size) {
        return Err(Error::UnsupportedWordSize(encoding.address_size));
    }
    w.write(nops(padding(encoding, size)))
}

/// Whether an address may have so many bytes.
fn is_width(size: u8) -> bool
    ensures { result ≡ is_width size }
{
    size == 1 || size == 2 || size == 4 || size == 8
}

/// How many bytes lack at a multiple of an address.
fn padding(encoding: Encoding, size: usize) -> usize
    requires { IsTrue (is_width encoding.address_size) }
    ensures is { result ≡ padding encoding.address_size (word_of encoding.format + size) }
    ensures small { result < 8 }
{
    let align = encoding.address_size as usize;
    let past = (encoding.format.word_size() as usize + size % align) % align;
    (align - past) % align
}

/// So many instructions without an effect.
fn nops(count: usize) -> &'static [u8]
    requires { count < 8 }
    ensures { result.now ≡ zeros count }
{
    &NOPS[..count]
}

static NOPS: [u8; 8] = [DW_CFA_nop.0; 8];

/// A block of data whose length of one byte isn't known yet.
#[derive(Clone, Copy)]
pub struct OpenBlock {
    at: usize,
}

impl OpenBlock {
    /// Leaves room for the length.
    pub fn open<W: Writer>(w: &mut W) -> Result<OpenBlock>
        ensures opened { IfOk result (IsOpenBlock (W.meaning w.old) (W.meaning w.new)) }
        ensures err { IfErr result (BytesRefused (W.meaning w.old) (W.meaning w.new)) }
    {
        let at = w.len();
        w.write(&[0])?;
        Ok(OpenBlock { at })
    }

    /// Puts in the length of what was written since.
    pub fn close<W: Writer>(self, w: &mut W) -> Result<()>
        requires { self.at < (W.meaning w.old).size }
        ensures { (first opened : Meaning) (body : Placed) →
            IsOpenBlock first opened self →
            Puts {T = Unit {0}} (Ok tt) opened (W.meaning w.old) body →
            Puts result first (W.meaning w.new) (counted body) }
    {
        let length = w.len() - self.at - 1;
        w.write_udata_at(self.at, length as u64, 1)
    }
}
