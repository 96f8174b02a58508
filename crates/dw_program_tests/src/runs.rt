//! Runs whose source or sink fails, and those of `make N`, which read nothing.

use dw_program::run::run;
use dw_program::{FailingSink, FailingSource, Sink, SliceSource, Source, StdoutSink, VecSink};
use std::alloc::{AllocError, Global};
use std::fmt::Write;
use std::test::Fail;

/// The words, divided by commas, and the status and the text of a run whose first read fails.
type Row = (&'static str, &'static str);

/// What is told of words that are no command.
const USAGE: &str = "1 usage: build | convert | link | make N\n";

/// Words that are no command leave the source alone, and so does `make`, whose summaries a model
/// of the standard gives, apart from this program (DWARF 5, 7.5).
const ROWS: [Row; 30] = [
    ("", USAGE),
    ("build,build", USAGE),
    (",build", USAGE),
    ("Build", USAGE),
    ("Link", USAGE),
    ("link,link", USAGE),
    ("Convert", USAGE),
    ("make", USAGE),
    ("make,5,5", USAGE),
    ("make,", USAGE),
    ("make,x", USAGE),
    ("make,-1", USAGE),
    ("make,+1", USAGE),
    ("make,1 ", USAGE),
    ("make,0x", USAGE),
    ("make,0X1", USAGE),
    ("make,1000001", USAGE),
    ("make,0xf4241", USAGE),
    ("make,18446744073709551617", USAGE),
    ("make,0", "0 units 1 entries 2 info 16 abbrev 13 sum 33\n"),
    ("make,1", "0 units 1 entries 3 info 26 abbrev 24 sum 71\n"),
    ("make,2", "0 units 1 entries 4 info 32 abbrev 33 sum 95\n"),
    ("make,0x1", "0 units 1 entries 3 info 26 abbrev 24 sum 71\n"),
    ("make,002", "0 units 1 entries 4 info 32 abbrev 33 sum 95\n"),
    (
        "make,101",
        "0 units 1 entries 103 info 630 abbrev 33 sum 6926\n",
    ),
    (
        "make,999",
        "0 units 1 entries 1001 info 6921 abbrev 33 sum 194192\n",
    ),
    (
        "make,1000",
        "0 units 2 entries 1004 info 6944 abbrev 46 sum 194520\n",
    ),
    (
        "make,0x3e9",
        "0 units 2 entries 1005 info 6955 abbrev 57 sum 194798\n",
    ),
    (
        "make,12345",
        "0 units 13 entries 12371 info 86991 abbrev 429 sum 3149637\n",
    ),
    (
        "make,100000",
        "0 units 101 entries 100202 info 789104 abbrev 3313 sum 38085369\n",
    ),
];

fn rows() -> &'static [Row] {
    &ROWS
}

/// The words between commas.
pub fn words_of(alloc: Global, text: &str) -> Result<Vec<String>, AllocError> {
    let mut words = Vec::new(alloc);
    for word in text.split(',') {
        words.push(String::from_str(alloc, word)?)?;
    }
    Ok(words)
}

/// The status that a run ends with.
fn status_of<S: Source, K: Sink>(
    alloc: Global,
    words: &Vec<String>,
    source: &mut S,
    sink: &mut K,
) -> u8 {
    run(alloc, words, source, sink)
}

/// A status and the text that was printed.
fn told(alloc: Global, status: u8, text: &[u8]) -> Result<String, AllocError> {
    let text = String::from_utf8_lossy(alloc, text)?;
    format!(in alloc; "{status} {text}")
}

/// The status and the text of a run over an input, of which this read fails.
pub fn shown(
    alloc: Global,
    words: &Vec<String>,
    input: &[u8],
    call: u64,
) -> Result<String, AllocError> {
    let mut source = FailingSource::new(input, vec![in alloc; call]?);
    let mut sink = VecSink::new(alloc);
    let status = status_of(alloc, words, &mut source, &mut sink);
    told(alloc, status, sink.slice())
}

/// The status and the text of a run over a script of one unit, of which the first read fails.
fn shown_unread(alloc: Global, words: &str) -> Result<String, AllocError> {
    shown(alloc, &words_of(alloc, words)?, b"unit 5 8 32", 0)
}

#[test]
fn reads_what_words_ask_for(rt: HostRuntime) -> Result<(), Fail> {
    for (words, want) in rows() {
        let text = shown_unread(rt.alloc(), words)?;
        assert_eq!(rt; text.as_str(), *want, "at {words}");
    }
    Ok(())
}

#[test]
fn tells_the_usage_of_no_words(rt: HostRuntime) -> Result<(), Fail> {
    let text = shown(rt.alloc(), &Vec::new(rt.alloc()), b"unit 5 8 32", 0)?;
    assert_eq!(rt; text.as_str(), USAGE);
    Ok(())
}

/// A script of two units, which name lines, strings, expressions and each other.
const SCRIPT: &str = "str 676363
line_str 2f746d70
line_str 612e63
unit 5 8 32
set 0 0 DW_AT_producer str_ref 0
set 0 0 DW_AT_language language 12
set 0 0 DW_AT_name line_str_ref 1
set 0 0 DW_AT_comp_dir line_str_ref 0
set 0 0 DW_AT_low_pc address 0x1000
set 0 0 DW_AT_high_pc data4 16
line 0 line_str 0
file 0 line_str 1 0
sequence 0 0x1000
row 0 0 0 3 5
row 0 4 0 4 0
end 0 16
add 0 0 DW_TAG_subprogram
set 0 1 DW_AT_name string 66
set 0 1 DW_AT_external flag_present
set 0 1 DW_AT_decl_file file_index 0
set 0 1 DW_AT_decl_line data1 3
set 0 1 DW_AT_type unit_ref 3
set 0 1 DW_AT_low_pc address 0x1000
set 0 1 DW_AT_high_pc data4 16
set 0 1 DW_AT_frame_base exprloc [ op DW_OP_call_frame_cfa ]
sibling 0 1 1
add 0 1 DW_TAG_formal_parameter
set 0 2 DW_AT_name string 78
set 0 2 DW_AT_type unit_ref 3
set 0 2 DW_AT_location exprloc [ fbreg -20 ]
add 0 0 DW_TAG_base_type
set 0 3 DW_AT_name string 696e74
set 0 3 DW_AT_encoding encoding 5
set 0 3 DW_AT_byte_size data1 4
unit 5 8 32
set 1 0 DW_AT_name string 62
add 1 0 DW_TAG_variable
set 1 1 DW_AT_name string 79
set 1 1 DW_AT_type info_ref 0:3
";

/// What is printed for it: declarations, strings, a line program of two rows, and units of 88 and
/// 23 bytes, the base type first at 42 (DWARF 5, 6.2 and 7.5).
const LISTING: &str = "order little
.debug_abbrev 82 \
011101250e130f031f1b1f110112061017000002240003083e0f0b0b0000\
032e01011303083f193a0f3b0b49131101120640180000040500030849130218000000\
0111010308000002340003084910000000
.debug_str 4 67636300
.debug_line_str 9 2f746d7000612e6300
.debug_line 79 \
4b0000000500080025000000010101fb0e0d0001010101000000010000010101\
1f010000000002011f020f010500000000\
0009020010000000000000040005050302010500030102040102\
0c000101
.debug_ranges 0
.debug_rnglists 0
.debug_loc 0
.debug_loclists 0
.debug_info 111 \
5400000005000108000000000100000000\
0c050000000000000000100000000000001000000000000000\
02696e74000504\
0357000000660000032a000000001000000000000010000000019c\
0478002a00000002916c0000\
1300000005000108410000000162000279002a00000000
.debug_frame 0
.eh_frame 0
";

/// The end of a run that fails.
#[derive(Clone, Copy)]
enum End {
    Source,
    Sink,
}

/// The end that fails, the words, the input, the text that is printed, and the first call of that
/// end that isn't made.
type Failing = (End, &'static str, &'static str, &'static str, u64);

/// A source hands out these inputs in one read, and the next one finds their end; a sink takes each
/// text in one write.
const FAILING: [Failing; 7] = [
    (End::Source, "build", SCRIPT, LISTING, 2),
    (End::Source, "link", SCRIPT, LISTING, 2),
    (End::Source, "convert", LISTING, LISTING, 2),
    (End::Sink, "build", SCRIPT, LISTING, 1),
    (End::Sink, "link", SCRIPT, LISTING, 1),
    (End::Sink, "convert", LISTING, LISTING, 1),
    (
        End::Sink,
        "make,0",
        "",
        "units 1 entries 2 info 16 abbrev 13 sum 33\n",
        1,
    ),
];

fn failing() -> &'static [Failing] {
    &FAILING
}

/// The status of a run where a read and a write fail, whether the sink has a front of the text
/// then, and how many bytes.
fn ended(
    alloc: Global,
    words: &str,
    input: &str,
    (read, write): (u64, u64),
    text: &str,
) -> Result<(u8, bool, usize), AllocError> {
    let words = words_of(alloc, words)?;
    let mut source = FailingSource::new(input.as_bytes(), vec![in alloc; read]?);
    let mut sink = FailingSink::new(alloc, vec![in alloc; write]?);
    let status = status_of(alloc, &words, &mut source, &mut sink);
    let taken = sink.slice();
    Ok((status, text.as_bytes().starts_with(taken), taken.len()))
}

/// Tells whether a run prints its text in spite of a call that fails, or else tells that fault and
/// has printed a front of the text, which a source's fault leaves empty.
fn is_printed(alloc: Global, row: &Failing, call: u64) -> Result<Option<bool>, AllocError> {
    let (end, words, input, text, _) = row;
    let calls = match end {
        End::Source => (call, u64::MAX),
        End::Sink => (u64::MAX, call),
    };
    Ok(match (end, ended(alloc, words, input, calls, text)?) {
        (_, (0, true, count)) if count == text.len() => Some(true),
        (End::Source, (4, true, 0)) | (End::Sink, (5, true, _)) => Some(false),
        _ => None,
    })
}

/// The first call in spite of whose fault a run prints its text, if every earlier one is told.
fn first_unmade(alloc: Global, row: &Failing) -> Result<Option<u64>, AllocError> {
    for call in 0..10 {
        match is_printed(alloc, row, call)? {
            Some(true) => return Ok(Some(call)),
            Some(false) => {}
            None => return Ok(None),
        }
    }
    Ok(None)
}

#[test]
fn tells_each_fault_of_an_end(rt: HostRuntime) {
    for row in failing() {
        assert_eq!(rt;
            first_unmade(rt.alloc(), row),
            Ok(Some(row.4)),
            "at {}",
            row.1
        );
    }
}

/// The status of a run whose writer has this room.
fn filled(alloc: Global, room: &mut [u8]) -> Result<u8, AllocError> {
    let words = words_of(alloc, "build")?;
    let mut sink = StdoutSink::new(room);
    Ok(status_of(
        alloc,
        &words,
        &mut SliceSource::new(b"unit 5 8 32"),
        &mut sink,
    ))
}

/// A writer that has room for a front of the text, and then takes nothing.
#[test]
fn tells_a_sink_that_is_full(rt: HostRuntime) {
    let mut room = [0; 20];
    assert_eq!(rt; filled(rt.alloc(), room.as_mut_slice()), Ok(5));
    assert_eq!(rt; room.as_slice(), b"order little\n.debug_".as_slice());
}

/// The status and the text of `build` over so many empty lines.
fn shown_of_lines(alloc: Global, count: usize) -> Result<String, AllocError> {
    let lines = vec![in alloc; b'\n'; count]?;
    shown(
        alloc,
        &words_of(alloc, "build")?,
        lines.as_slice(),
        u64::MAX,
    )
}

/// Empty lines, as many as are read, and one more.
#[test]
fn reads_no_more_than_the_limit(rt: HostRuntime) -> Result<(), Fail> {
    for (size, want) in [
        (16_777_216, "0 order little\n"),
        (16_777_217, "7 too long\n"),
    ] {
        let text = shown_of_lines(rt.alloc(), size)?;
        assert!(rt; text.as_str().starts_with(want), "of {size}");
    }
    Ok(())
}
