//! A whole input into memory, and a whole text out of it.

ghost use Rattle.std.specs.Prelude.{◌≡◌, ◌+◌, ◌<◌, ◌≤◌, length, max, IfOk, OnOk, OnErr, IfSome, IsErrOf, vec_len, vec_capacity};
ghost use Rattle.dw_ends.specs.declared.transfer.EndError.TheVariants.{Failed as ReadFailed, NoMemory};
ghost use Rattle.dw_base.specs.Faults.{HasRisen};
ghost use Rattle.dw_ends.specs.Ends.{TakesPrefix, used_up, with_after};

use crate::sink::{Sink, SinkError};
use crate::source::{Failed, Source};
use std::alloc::{AllocError, Global};
use thiserror::Error as ThisError;

/// The most bytes that an input may have.
pub const INPUT_LIMIT: usize = 16_777_216;

// How many bytes are asked of a source at once.
const CHUNK: usize = 16 * 1024;

/// Why an input could not be read whole.
#[derive(Clone, Copy, Debug, PartialEq, Eq, ThisError)]
pub enum EndError {
    /// A read failed.
    #[error("a read failed")]
    Failed,
    /// There are more bytes than 16,777,216.
    #[error("the input has more than 16,777,216 bytes")]
    TooLong,
    /// Memory ran out.
    #[error("memory ran out")]
    NoMemory,
}

impl From<Failed> for EndError {
    ghost from_gives = { λ _ error. error ≡ ReadFailed };

    fn from(_failed: Failed) -> EndError {
        EndError::Failed
    }
}

impl From<AllocError> for EndError {
    ghost from_gives = { λ _ error. error ≡ NoMemory };

    fn from(_error: AllocError) -> EndError {
        EndError::NoMemory
    }
}

// Makes room for `more` bytes, and for twice what there was while that stays within the limit.
fn make_room(bytes: &mut Vec<u8>, more: usize) -> Result<(), AllocError>
    requires { vec_len bytes.old + more ≤ INPUT_LIMIT }
    ensures same { bytes.new.items ≡ bytes.old.items }
    ensures room { OnOk result (vec_len bytes.new + more ≤ vec_capacity bytes.new) }
    ensures capped { vec_capacity bytes.new ≤ max (vec_capacity bytes.old) INPUT_LIMIT }
{
    let held = bytes.len();
    if more <= bytes.capacity() - held {
        return Ok(());
    }
    let doubled = bytes.capacity().saturating_mul(2).min(INPUT_LIMIT);
    bytes.reserve_exact(doubled.max(held + more) - held)
}

/// Reads a source to its end, where that comes within 16,777,216 bytes. What was read before an
/// error is lost.
pub fn read_all<S: Source>(alloc: Global, source: &mut S) -> Result<Vec<u8>, EndError>
    ensures faults { (S.input source.old).faults ≤ (S.input source.new).faults }
    ensures within { IfOk result (λ bytes. vec_len bytes ≤ INPUT_LIMIT) }
    ensures whole { IfOk result (λ bytes.
        IfSome (S.input source.old).left (λ xs. bytes.items ≡ xs)) }
    ensures ended { OnOk result ((S.input source.new).left ≡ used_up (S.input source.old).left) }

    ensures too_long { IsErrOf result EndError.TooLong →
        IfSome (S.input source.old).left (λ xs. INPUT_LIMIT < length xs) }
    ensures failed { IsErrOf result EndError.Failed →
        HasRisen (S.input source.old).faults (S.input source.new).faults }
{
    let mut chunk = [0; CHUNK];
    let mut bytes = Vec::new(alloc);
    'chunks: loop {
        let count = source.read(&mut chunk)?;
        if count == 0 {
            return Ok(bytes);
        }
        if count > INPUT_LIMIT - bytes.len() {
            return Err(EndError::TooLong);
        }
        make_room(&mut bytes, count)?;
        bytes.extend_from_slice(&chunk[..count])?;
    }
}

/// Writes a whole text to a sink, in as many writes as the sink asks for. A write that takes
/// nothing ends it as a failed one does.
pub fn write_all<K: Sink>(sink: &mut K, text: &[u8]) -> Result<(), SinkError>
    ensures faults { (K.intake sink.old).faults ≤ (K.intake sink.new).faults }
    ensures ok { OnOk result
        ((K.intake sink.new).taken ≡ with_after (K.intake sink.old).taken text.now) }
    ensures err { OnErr result
        (TakesPrefix (K.intake sink.old).taken (K.intake sink.new).taken text.now) }
    ensures failed { IsErrOf result SinkError.Failed →
        HasRisen (K.intake sink.old).faults (K.intake sink.new).faults }
{
    let mut done = 0;
    'pieces: while done < text.len() {
        let count = sink.write(&text[done..])?;
        if count == 0 {
            return Err(SinkError::Failed);
        }
        done += count;
    }
    Ok(())
}
