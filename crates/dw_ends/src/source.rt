//! Where input comes from.

ghost use Rattle.std.specs.Prelude.{◌≡◌, ◌<◌, ◌≤◌, ◌↔◌, [], length, take, min, Some, None, Ok, IfOk, OnOk, OnErr, IfSome, IsOk, IsErr};
ghost use Rattle.std.specs.Io.KnownBytes.{ReadConsumes};
ghost use Rattle.dw_ends.specs.Ends.{Input, without};
ghost use Rattle.dw_base.specs.Faults.{HasRisen, one_higher, FailsNext, after_call, after_fault};

use dw_base::{FaultPlan, one_fault_more};
use std::io::Read;
use thiserror::Error as ThisError;

/// A read that failed; its source's count of faults says so too.
#[derive(Clone, Copy, Debug, PartialEq, Eq, ThisError)]
#[error("a read failed")]
pub struct Failed;

/// A stream of bytes, read a buffer at a time.
pub trait Source {
    ghost input: { Self → Input };

    /// Reads some of the bytes that are left into the front of `buffer`, and says how many. Into a
    /// buffer with room, 0 is the end.
    fn read(&mut self, buffer: &mut [u8]) -> Result<usize, Failed>
        ensures faults { (input self.old).faults ≤ (input self.new).faults }
        ensures failed { OnErr result (HasRisen (input self.old).faults (input self.new).faults) }

        ensures fits { IfOk result (λ n. n ≤ length buffer.new) }
        ensures left { IfOk result (λ n. (input self.new).left ≡ without n (input self.old).left) }
        ensures enough { IfOk result (λ n. IfSome (input self.old).left (λ xs. n ≤ length xs)) }
        ensures moved { IfOk result (λ n. IfSome (input self.old).left (λ xs.
            take n buffer.new ≡ take n xs)) }
        ensures end { result ≡ Ok 0 → 0 < length buffer.new →
            IfSome (input self.old).left (λ xs. xs ≡ []) };
}

// Copies as many of the bytes as the buffer has room for, and says how many.
fn copy_front(bytes: &[u8], buffer: &mut [u8]) -> usize
    ensures count { result ≡ min (length bytes.now) (length buffer.new) }
    ensures copied { take result buffer.new ≡ take result bytes.now }
{
    let count = bytes.len().min(buffer.len());
    buffer[..count].copy_from_slice(&bytes[..count]);
    count
}

/// The bytes of a slice. It never fails.
#[derive(Clone, Copy)]
pub struct SliceSource<'a> {
    rest: &'a [u8],
}

impl<'a> SliceSource<'a> {
    ghost use Rattle.dw_ends.specs.Insides.{slice_input};

    /// A source of all these bytes.
    pub fn new(bytes: &'a [u8]) -> SliceSource<'a>
        ensures { slice_input result ≡ record { left = Some bytes.now; faults = 0 } }
    {
        SliceSource { rest: bytes }
    }
}

impl<'a> Source for SliceSource<'a> {
    ghost use Rattle.dw_ends.specs.Insides.{slice_input};

    ghost input = { slice_input };

    fn read(&mut self, buffer: &mut [u8]) -> Result<usize, Failed>
        ensures faults { (slice_input self.old).faults ≤ (slice_input self.new).faults }
        ensures failed { OnErr result
            (HasRisen (slice_input self.old).faults (slice_input self.new).faults) }

        ensures fits { IfOk result (λ n. n ≤ length buffer.new) }
        ensures left { IfOk result (λ n.
            (slice_input self.new).left ≡ without n (slice_input self.old).left) }
        ensures enough { IfOk result (λ n.
            IfSome (slice_input self.old).left (λ xs. n ≤ length xs)) }
        ensures moved { IfOk result (λ n. IfSome (slice_input self.old).left (λ xs.
            take n buffer.new ≡ take n xs)) }
        ensures end { result ≡ Ok 0 → 0 < length buffer.new →
            IfSome (slice_input self.old).left (λ xs. xs ≡ []) }

        ensures succeeds { IsOk result }
        ensures full { IfOk result (λ n. IfSome (slice_input self.old).left (λ xs.
            n ≡ min (length xs) (length buffer.new))) }
    {
        let count = copy_front(self.rest, buffer);
        self.rest = &self.rest[count..];
        Ok(count)
    }
}

/// The bytes of a slice, by a source that fails at chosen calls of `read`, counted from 0.
/// A call that fails moves nothing.
#[derive(Drop)]
pub struct FailingSource<'a> {
    rest: &'a [u8],
    plan: FaultPlan,
}

impl<'a> FailingSource<'a> {
    ghost use Rattle.dw_ends.specs.Insides.{source_input, source_plan};

    /// A source of all these bytes, whose calls with the numbers in `failing` are to fail.
    pub fn new(bytes: &'a [u8], failing: Vec<u64>) -> FailingSource<'a>
        ensures input { source_input result ≡ record { left = Some bytes.now; faults = 0 } }
        ensures plan { source_plan result ≡
            record { failing = failing.items; calls = 0; faults = 0 } }
    {
        FailingSource {
            rest: bytes,
            plan: FaultPlan::new(failing),
        }
    }
}

impl<'a> Source for FailingSource<'a> {
    ghost use Rattle.dw_ends.specs.Insides.{source_input, source_plan};

    ghost input = { source_input };

    fn read(&mut self, buffer: &mut [u8]) -> Result<usize, Failed>
        ensures faults { (source_input self.old).faults ≤ (source_input self.new).faults }
        ensures failed { OnErr result
            (HasRisen (source_input self.old).faults (source_input self.new).faults) }

        ensures fits { IfOk result (λ n. n ≤ length buffer.new) }
        ensures left { IfOk result (λ n.
            (source_input self.new).left ≡ without n (source_input self.old).left) }
        ensures enough { IfOk result (λ n.
            IfSome (source_input self.old).left (λ xs. n ≤ length xs)) }
        ensures moved { IfOk result (λ n. IfSome (source_input self.old).left (λ xs.
            take n buffer.new ≡ take n xs)) }
        ensures end { result ≡ Ok 0 → 0 < length buffer.new →
            IfSome (source_input self.old).left (λ xs. xs ≡ []) }

        ensures chosen { IsErr result ↔ FailsNext (source_plan self.old) }
        ensures counted { OnOk result (source_plan self.new ≡ after_call (source_plan self.old)) }
        ensures counted_fault { OnErr result
            (source_plan self.new ≡ after_fault (source_plan self.old)) }
        ensures unchanged { OnErr result
            ((source_input self.new).left ≡ (source_input self.old).left) }
        ensures quiet { OnOk result
            ((source_input self.new).faults ≡ (source_input self.old).faults) }
        ensures once { OnErr result
            ((source_input self.new).faults ≡ one_higher (source_input self.old).faults) }
        ensures full { IfOk result (λ n. IfSome (source_input self.old).left (λ xs.
            n ≡ min (length xs) (length buffer.new))) }
    {
        if self.plan.next_fails() {
            return Err(Failed);
        }
        let count = copy_front(self.rest, buffer);
        self.rest = &self.rest[count..];
        Ok(count)
    }
}

/// Standard input, or another reader, as `rt.reader()` gives it. It tells no bytes.
#[derive(Drop)]
pub struct StdinSource<R> {
    reader: R,
    faults: u64,
}

impl<R: Read> StdinSource<R> {
    ghost use Rattle.dw_ends.specs.Insides.{reader_input, reader_of};

    /// A source over this reader, without a fault so far.
    pub fn new(reader: R) -> StdinSource<R>
        ensures input { reader_input result ≡ record { left = None; faults = 0 } }
        ensures reader { reader_of result ≡ reader }
    {
        StdinSource { reader, faults: 0 }
    }
}

impl<R: Read> Source for StdinSource<R> {
    ghost use Rattle.dw_ends.specs.Insides.{reader_input, reader_of};

    ghost input = { reader_input };

    fn read(&mut self, buffer: &mut [u8]) -> Result<usize, Failed>
        ensures faults { (reader_input self.old).faults ≤ (reader_input self.new).faults }
        ensures failed { OnErr result
            (HasRisen (reader_input self.old).faults (reader_input self.new).faults) }

        ensures fits { IfOk result (λ n. n ≤ length buffer.new) }

        // Where the reader tells its bytes, they are the ones that are passed on.
        ensures passed { ReadConsumes
            (R.remaining (reader_of self.old)) (R.remaining (reader_of self.new))
            result buffer.new }

        ensures quiet { OnOk result
            ((reader_input self.new).faults ≡ (reader_input self.old).faults) }
        ensures counted { OnErr result
            ((reader_input self.new).faults ≡ one_higher (reader_input self.old).faults) }
    {
        match self.reader.read(buffer) {
            Ok(count) => Ok(count),
            Err(_) => {
                self.faults = one_fault_more(self.faults);
                Err(Failed)
            }
        }
    }
}
