//! Sources and sinks: what they do at the errors of readers and writers.

use dw_ends::{
    EndError, Failed, FailingSink, FailingSource, Sink, SinkError, SliceSource, Source,
    StdinSource, StdoutSink, VecSink, read_all, write_all,
};
use std::alloc::{AllocError, Global};
use std::io::{self, ErrorKind, Read};

// Errors that a careless end might take for an end of input, or try again.
const KINDS: &[ErrorKind] = &[
    ErrorKind::Interrupted,
    ErrorKind::WouldBlock,
    ErrorKind::TimedOut,
    ErrorKind::UnexpectedEof,
    ErrorKind::WriteZero,
    ErrorKind::BrokenPipe,
    ErrorKind::OutOfMemory,
    ErrorKind::Other,
];

fn kinds() -> &'static [ErrorKind] {
    KINDS
}

// Fails at its first call. From then on a read is at the end, and a write takes one byte.
#[derive(Drop)]
struct FailsOnce {
    error: Option<ErrorKind>,
}

impl FailsOnce {
    fn new(kind: ErrorKind) -> FailsOnce {
        FailsOnce { error: Some(kind) }
    }
}

impl Read for FailsOnce {
    fn read(&mut self, _buffer: &mut [u8]) -> io::Result<usize> {
        match self.error.take() {
            Some(kind) => Err(io::Error::from(kind)),
            None => Ok(0),
        }
    }
}

impl io::Write for FailsOnce {
    fn write(&mut self, bytes: &[u8]) -> io::Result<usize> {
        match self.error.take() {
            Some(kind) => Err(io::Error::from(kind)),
            None => Ok(bytes.len().min(1)),
        }
    }

    fn flush(&mut self) -> io::Result<()> {
        Ok(())
    }
}

/// The answers of two reads, of which the first one fails.
fn reads_of(kind: ErrorKind) -> [Result<usize, Failed>; 2] {
    let mut source = StdinSource::new(FailsOnce::new(kind));
    [source.read(&mut [0; 4]), source.read(&mut [0; 4])]
}

/// Why a reader that fails isn't read to its end.
fn refusal_of(alloc: Global, kind: ErrorKind) -> Option<EndError> {
    let mut source = StdinSource::new(FailsOnce::new(kind));
    read_all(alloc, &mut source).err()
}

/// Whether an error of a reader is told, both by reads and where all is read.
fn is_told_of_reader(alloc: Global, kind: ErrorKind) -> bool {
    reads_of(kind) == [Err(Failed), Ok(0)] && refusal_of(alloc, kind) == Some(EndError::Failed)
}

#[test]
fn tells_each_error_of_a_reader(rt: HostRuntime) {
    for kind in kinds() {
        assert!(rt; is_told_of_reader(rt.alloc(), *kind), "{kind:?}");
    }
}

/// The answers of two writes, of which the first one fails.
fn writes_of(kind: ErrorKind) -> [Result<usize, SinkError>; 2] {
    let mut sink = StdoutSink::new(FailsOnce::new(kind));
    [sink.write(b"one"), sink.write(b"one")]
}

/// The same of writes of all bytes.
fn whole_writes_of(kind: ErrorKind) -> [Result<(), SinkError>; 2] {
    let mut sink = StdoutSink::new(FailsOnce::new(kind));
    [write_all(&mut sink, b"one"), write_all(&mut sink, b"one")]
}

/// Whether an error of a writer is told, both by writes and where all is written.
fn is_told_of_writer(kind: ErrorKind) -> bool {
    writes_of(kind) == [Err(SinkError::Failed), Ok(1)]
        && whole_writes_of(kind) == [Err(SinkError::Failed), Ok(())]
}

#[test]
fn tells_each_error_of_a_writer(rt: HostRuntime) {
    for kind in kinds() {
        assert!(rt; is_told_of_writer(*kind), "{kind:?}");
    }
}

/// Tells whether all that a source has is read as these bytes.
fn reads<S: Source>(alloc: Global, source: &mut S, want: &[u8]) -> Result<bool, EndError> {
    let bytes = read_all(alloc, source)?;
    Ok(bytes.as_slice() == want)
}

/// The same of a source whose call of this number fails.
fn reads_failing(alloc: Global, text: &[u8], call: u64) -> Result<bool, EndError> {
    let mut failing = Vec::new(alloc);
    match failing.push(call) {
        Ok(()) => reads(alloc, &mut FailingSource::new(text, failing), text),
        Err(_) => Err(EndError::NoMemory),
    }
}

const TEXT: &[u8] = b"seven\n!";

#[test]
fn reads_all_that_readers_have(rt: HostRuntime) {
    let is_read = reads(rt.alloc(), &mut StdinSource::new(TEXT), TEXT);
    assert_eq!(rt; is_read, Ok(true));
}

#[test]
fn reads_up_to_a_failed_call(rt: HostRuntime) {
    for (call, want) in [
        (0, Err(EndError::Failed)),
        (1, Err(EndError::Failed)),
        (2, Ok(true)),
    ] {
        assert_eq!(rt; reads_failing(rt.alloc(), TEXT, call), want, "at {call}");
    }
}

/// Whether a source is read whole that has so many bytes.
fn reads_long(alloc: Global, count: usize) -> Result<bool, EndError> {
    match vec![in alloc; 7u8; count] {
        Ok(long) => reads(
            alloc,
            &mut SliceSource::new(long.as_slice()),
            long.as_slice(),
        ),
        Err(_) => Err(EndError::NoMemory),
    }
}

#[test]
fn reads_all_of_a_long_source(rt: HostRuntime) {
    assert_eq!(rt; reads_long(rt.alloc(), 40_000), Ok(true));
}

/// The answers of a sink to two texts.
fn written<K: Sink>(sink: &mut K, texts: [&[u8]; 2]) -> [Result<(), SinkError>; 2] {
    [write_all(sink, texts[0]), write_all(sink, texts[1])]
}

/// Whether a sink takes two texts, and has them then.
fn takes_both(alloc: Global) -> bool {
    let mut sink = VecSink::new(alloc);
    let answers = written(&mut sink, [b"one ", b"two"]);
    answers == [Ok(()), Ok(())] && sink.slice() == b"one two".as_slice()
}

#[test]
fn writes_all_that_sinks_take(rt: HostRuntime) {
    assert!(rt; takes_both(rt.alloc()));
}

/// Whether a sink whose first call fails has the second text alone.
fn takes_second(alloc: Global) -> Result<bool, AllocError> {
    let mut sink = FailingSink::new(alloc, vec![in alloc; 0]?);
    let answers = written(&mut sink, [b"one", b"two"]);
    Ok(answers == [Err(SinkError::Failed), Ok(())] && sink.slice() == b"two".as_slice())
}

#[test]
fn writes_on_behind_a_failed_call(rt: HostRuntime) {
    assert_eq!(rt; takes_second(rt.alloc()), Ok(true));
}

/// Whether a writer that has room for two bytes takes two of a text, and fails at the next one.
fn fails_when_full(room: &mut [u8]) -> bool {
    let mut sink = StdoutSink::new(room);
    sink.write(b"one") == Ok(2) && write_all(&mut sink, b"e") == Err(SinkError::Failed)
}

#[test]
fn fails_at_a_writer_that_takes_nothing(rt: HostRuntime) {
    assert!(rt; fails_when_full([0u8; 2].as_mut_slice()));
}
