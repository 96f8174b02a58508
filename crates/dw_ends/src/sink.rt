//! Where text goes.

ghost use Rattle.std.specs.Prelude.{◌≡◌, ◌<◌, ◌≤◌, ◌↔◌, ◌⊎◌, [], length, take, Some, None, Ok, IfOk, IfErr, OnOk, OnErr, IsErrOf};
ghost use Rattle.dw_ends.specs.declared.sink.SinkError.TheVariants.{NoMemory};
ghost use Rattle.std.specs.Io.KnownBytes.{WriteAppends};
ghost use Rattle.dw_base.specs.Faults.{HasRisen, one_higher, FailsNext, after_call, after_fault};
ghost use Rattle.dw_ends.specs.Ends.{Intake, with_after};

use dw_base::{FaultPlan, one_fault_more};
use std::alloc::{AllocError, Global};
use std::io::Write;
use thiserror::Error as ThisError;

/// Why a sink took nothing.
#[derive(Clone, Copy, Debug, PartialEq, Eq, ThisError)]
pub enum SinkError {
    /// The write failed.
    #[error("the write failed")]
    Failed,
    /// Memory ran out.
    #[error("memory ran out")]
    NoMemory,
}

impl From<AllocError> for SinkError {
    ghost from_gives = { λ _ error. error ≡ NoMemory };

    fn from(_error: AllocError) -> SinkError {
        SinkError::NoMemory
    }
}

/// What takes bytes, some at a time.
pub trait Sink {
    ghost intake: { Self → Intake };

    /// Takes some of the bytes from their front, and says how many. An error takes none.
    fn write(&mut self, bytes: &[u8]) -> Result<usize, SinkError>
        ensures faults { (intake self.old).faults ≤ (intake self.new).faults }
        ensures failed { IsErrOf result SinkError.Failed →
            HasRisen (intake self.old).faults (intake self.new).faults }
        ensures stuck { result ≡ Ok 0 → 0 < length bytes.now →
            HasRisen (intake self.old).faults (intake self.new).faults }

        ensures fits { IfOk result (λ n. n ≤ length bytes.now) }
        ensures taken { IfOk result (λ n.
            (intake self.new).taken ≡ with_after (intake self.old).taken (take n bytes.now)) }
        ensures unchanged { OnErr result ((intake self.new).taken ≡ (intake self.old).taken) };
}

/// A sink in memory. It fails only where memory runs out.
#[derive(Drop)]
pub struct VecSink {
    bytes: Vec<u8>,
}

impl VecSink {
    ghost use Rattle.dw_ends.specs.Insides.{vec_intake};

    /// A sink that has taken nothing yet. Its bytes are to stand in memory of `alloc`.
    pub fn new(alloc: Global) -> VecSink
        ensures { vec_intake result ≡ record { taken = Some []; faults = 0 } }
    {
        VecSink {
            bytes: Vec::new(alloc),
        }
    }

    /// The bytes taken.
    pub fn slice(&self) -> &[u8]
        ensures { (vec_intake self.now).taken ≡ Some result.now }
    {
        self.bytes.as_slice()
    }
}

impl Sink for VecSink {
    ghost use Rattle.dw_ends.specs.Insides.{vec_intake};

    ghost intake = { vec_intake };

    fn write(&mut self, bytes: &[u8]) -> Result<usize, SinkError>
        ensures whole { IfOk result (λ n. n ≡ length bytes.now) }
        ensures taken { OnOk result
            ((vec_intake self.new).taken ≡ with_after (vec_intake self.old).taken bytes.now) }
        ensures unchanged { OnErr result (vec_intake self.new ≡ vec_intake self.old) }
        ensures memory { IfErr result (λ e. e ≡ SinkError.NoMemory) }
    {
        self.bytes.extend_from_slice(bytes)?;
        Ok(bytes.len())
    }
}

/// A sink in memory that fails at chosen calls of `write`, which are counted from 0. A call that
/// fails takes nothing.
#[derive(Drop)]
pub struct FailingSink {
    sink: VecSink,
    plan: FaultPlan,
}

impl FailingSink {
    ghost use Rattle.dw_ends.specs.Insides.{sink_intake, sink_plan};

    /// A sink that has taken nothing yet, whose calls with the numbers in `failing` are to fail.
    pub fn new(alloc: Global, failing: Vec<u64>) -> FailingSink
        ensures intake { sink_intake result ≡ record { taken = Some []; faults = 0 } }
        ensures plan { sink_plan result ≡
            record { failing = failing.items; calls = 0; faults = 0 } }
    {
        FailingSink {
            sink: VecSink::new(alloc),
            plan: FaultPlan::new(failing),
        }
    }

    /// The bytes taken.
    pub fn slice(&self) -> &[u8]
        ensures { (sink_intake self.now).taken ≡ Some result.now }
    {
        self.sink.slice()
    }
}

impl Sink for FailingSink {
    ghost use Rattle.dw_ends.specs.Insides.{sink_intake, sink_plan};

    ghost intake = { sink_intake };

    fn write(&mut self, bytes: &[u8]) -> Result<usize, SinkError>
        ensures faults { (sink_intake self.old).faults ≤ (sink_intake self.new).faults }
        ensures failed { IsErrOf result SinkError.Failed →
            HasRisen (sink_intake self.old).faults (sink_intake self.new).faults }
        ensures stuck { result ≡ Ok 0 → 0 < length bytes.now →
            HasRisen (sink_intake self.old).faults (sink_intake self.new).faults }

        ensures fits { IfOk result (λ n. n ≤ length bytes.now) }
        ensures taken { IfOk result (λ n.
            (sink_intake self.new).taken
            ≡ with_after (sink_intake self.old).taken (take n bytes.now)) }
        ensures unchanged { OnErr result
            ((sink_intake self.new).taken ≡ (sink_intake self.old).taken) }

        ensures chosen { IsErrOf result SinkError.Failed ↔ FailsNext (sink_plan self.old) }
        ensures counted { (IsErrOf result SinkError.Failed → ⊥) →
            sink_plan self.new ≡ after_call (sink_plan self.old) }
        ensures counted_fault { IsErrOf result SinkError.Failed →
            sink_plan self.new ≡ after_fault (sink_plan self.old) }
        ensures whole { IfOk result (λ n. n ≡ length bytes.now) }
        ensures quiet { OnOk result
            ((sink_intake self.new).faults ≡ (sink_intake self.old).faults) }
        ensures memory { IsErrOf result SinkError.NoMemory →
            (sink_intake self.new).faults ≡ (sink_intake self.old).faults }
        ensures once { IsErrOf result SinkError.Failed →
            (sink_intake self.new).faults ≡ one_higher (sink_intake self.old).faults }
    {
        if self.plan.next_fails() {
            return Err(SinkError::Failed);
        }
        self.sink.write(bytes)
    }
}

/// Standard output by `io::writer(&rt)`, or another writer that keeps nothing back: nothing flushes
/// it. It tells no bytes.
#[derive(Drop)]
pub struct StdoutSink<W> {
    writer: W,
    faults: u64,
}

impl<W: Write> StdoutSink<W> {
    ghost use Rattle.dw_ends.specs.Insides.{writer_intake, writer_of};

    /// A sink over this writer, without a fault so far.
    pub fn new(writer: W) -> StdoutSink<W>
        ensures intake { writer_intake result ≡ record { taken = None; faults = 0 } }
        ensures writer { writer_of result ≡ writer }
    {
        StdoutSink { writer, faults: 0 }
    }
}

impl<W: Write> Sink for StdoutSink<W> {
    ghost use Rattle.dw_ends.specs.Insides.{writer_intake, writer_of};

    ghost intake = { writer_intake };

    fn write(&mut self, bytes: &[u8]) -> Result<usize, SinkError>
        ensures faults { (writer_intake self.old).faults ≤ (writer_intake self.new).faults }
        ensures failed { IsErrOf result SinkError.Failed →
            HasRisen (writer_intake self.old).faults (writer_intake self.new).faults }
        ensures stuck { result ≡ Ok 0 → 0 < length bytes.now →
            HasRisen (writer_intake self.old).faults (writer_intake self.new).faults }

        ensures fits { IfOk result (λ n. n ≤ length bytes.now) }

        // Where the writer tells its bytes, they are the ones that were passed on.
        ensures passed { WriteAppends
            (W.contents (writer_of self.old)) (W.contents (writer_of self.new)) result bytes.now }

        ensures quiet { IfOk result (λ n. (0 < n) ⊎ (bytes.now ≡ []) →
            (writer_intake self.new).faults ≡ (writer_intake self.old).faults) }
        ensures counted { OnErr result
            ((writer_intake self.new).faults ≡ one_higher (writer_intake self.old).faults) }
        ensures counted_stuck { result ≡ Ok 0 → 0 < length bytes.now →
            (writer_intake self.new).faults ≡ one_higher (writer_intake self.old).faults }
        ensures no_memory { IsErrOf result SinkError.NoMemory → ⊥ }
    {
        match self.writer.write(bytes) {
            Ok(0) if !bytes.is_empty() => {
                self.faults = one_fault_more(self.faults);
                Ok(0)
            }
            Ok(count) => Ok(count),
            Err(_) => {
                self.faults = one_fault_more(self.faults);
                Err(SinkError::Failed)
            }
        }
    }
}
