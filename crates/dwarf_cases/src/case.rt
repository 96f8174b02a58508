//! One case: what is run, and what is to come of it.

use crate::fault::fault_of;
use crate::head::{Head, bare, head_of, takes};
use crate::input::{push_cut, push_live, push_script, script_bytes};
use crate::listing::{push_listing, push_section};
use crate::names::is_named;
use crate::program::push_run;
use crate::text::Text;
use crate::words::{
    MADE_SECTION, count_of, count_of_all, first_told, parts, printed_sections, push_told,
    read_sections,
};
use std::alloc::{AllocError, Global};

/// A case: its name, all of its lines, and what its lines `read` tell of a listing.
#[derive(Clone, Copy)]
struct Case<'a> {
    name: &'a str,
    lines: &'a str,
    read: &'a str,
}

/// Runs a case, reports what comes otherwise than it tells, and answers how many runs it had.
pub fn run_case(alloc: Global, report: &mut Text, case: &str) -> usize {
    let (name, lines) = case.split_once('\n').unwrap_or((case, ""));
    let mut read = Text::new(alloc);
    push_told(&mut read, lines, "read", "\n");
    let case = Case {
        name,
        lines,
        read: read.as_str(),
    };
    match fault_of(lines, case.read) {
        Some(fault) => {
            report_fault(report, name, fault);
            0
        }
        None => run_sound(alloc, report, case),
    }
}

/// Reports a case that isn't run.
fn report_fault(report: &mut Text, name: &str, fault: &str) {
    report.push("case ");
    report.push(name);
    report.push(": ");
    report.push(fault);
    report.push("\n");
}

/// Runs a case as often as it says.
fn run_sound(alloc: Global, report: &mut Text, case: Case<'_>) -> usize {
    if count_of(case.lines, "cut") != 0 {
        run_cuts(alloc, report, case)
    } else if count_of(case.lines, "units") != 0 {
        run_units(alloc, report, case)
    } else if count_of(case.lines, "stays") != 0 {
        run_named(alloc, report, case);
        1
    } else {
        run_once(alloc, report, case, bare());
        1
    }
}

/// Runs a case for each unit that it names.
fn run_units(alloc: Global, report: &mut Text, case: Case<'_>) -> usize {
    let mut count = 0usize;
    for index in 0..64 {
        let head = head_of(index);
        if takes(case.lines, head) {
            run_once(alloc, report, case, head);
            count = count.saturating_add(1);
        }
    }
    if count == 0 {
        report_fault(report, case.name, "no unit");
    }
    count
}

/// Runs a case for each length to which it cuts what is read.
fn run_cuts(alloc: Global, report: &mut Text, case: Case<'_>) -> usize {
    let (from, to) = parts(first_told(case.lines, "cut").unwrap_or(""));
    let mut count = 0usize;
    for size in from.parse::<u32>().unwrap_or(0)..to.parse::<u32>().unwrap_or(0) {
        run_cut(alloc, report, case, size as usize);
        count = count.saturating_add(1);
    }
    if count == 0 {
        report_fault(report, case.name, "no length");
    }
    count
}

/// Runs a case whose `.debug_info` is cut to so many bytes.
fn run_cut(alloc: Global, report: &mut Text, case: Case<'_>, size: usize) {
    let Case { name, lines, .. } = case;
    let mut read = Text::new(alloc);
    push_cut(&mut read, case.read, size);
    let case = Case {
        name,
        lines,
        read: read.as_str(),
    };
    run_once(alloc, report, case, bare());
}

/// Runs a case that tells names, and once more over what was printed. From then on nothing changes:
/// the first run may have moved base types to the front, and with them their names.
fn run_named(alloc: Global, report: &mut Text, case: Case<'_>) {
    let input = input_of(alloc, case, bare());
    let first = named_of(alloc, report, case, &input);
    let again = again_of(alloc, case, &first);
    let second = named_of(alloc, report, case, &again);
    let again = again_of(alloc, case, &second);
    compare(alloc, report, (case, bare()), &again, &second);
}

/// What a run over an input shows, which is reported where it has other names than the case tells.
fn named_of(alloc: Global, report: &mut Text, case: Case<'_>, input: &Text) -> Text {
    let shown = shown_of(alloc, case, input);
    if !is_named(alloc, case.lines, shown.as_str()) || shown.is_cut() {
        report_difference(report, case.name, bare());
        report_text(report, "came ", &shown);
    }
    shown
}

/// Runs a case for a head. A listing that was converted or pruned is so again, to itself, unless
/// the case says that it is done `once`.
fn run_once(alloc: Global, report: &mut Text, case: Case<'_>, head: Head) {
    let wanted = wanted_of(alloc, case, head);
    let input = input_of(alloc, case, head);
    compare(alloc, report, (case, head), &input, &wanted);
    let is_done_twice = command_of(case) == "convert" || is_pruned(case);
    if is_done_twice && count_of_all(case.lines, &["text", "once"]) == 0 {
        let again = again_of(alloc, case, &wanted);
        compare(alloc, report, (case, head), &again, &wanted);
    }
}

/// The command that is run.
fn command_of<'a>(case: Case<'a>) -> &'a str {
    match first_told(case.lines, "command") {
        Some(command) => command,
        None if case.read.is_empty() => "build",
        None => "convert",
    }
}

/// What is given to the program: the listing that the case tells, else a script.
fn input_of(alloc: Global, case: Case<'_>, head: Head) -> Text {
    let mut input = Text::new(alloc);
    if case.read.is_empty() {
        push_script(alloc, &mut input, case.lines, head);
    } else {
        push_live(&mut input, case.lines);
        push_listing(alloc, &mut input, case.read, head, read_sections());
    }
    input
}

/// The status and all that is to be printed, as a run shows them.
fn wanted_of(alloc: Global, case: Case<'_>, head: Head) -> Text {
    let mut wanted = Text::new(alloc);
    wanted.push("status ");
    push_told(&mut wanted, case.lines, "status", "\n");
    push_output(alloc, &mut wanted, case, head);
    wanted
}

/// Appends all that is to be printed.
fn push_output(alloc: Global, wanted: &mut Text, case: Case<'_>, head: Head) {
    if count_of(case.lines, "same") != 0 {
        push_listing(alloc, wanted, case.read, head, printed_sections());
    } else if count_of(case.lines, MADE_SECTION) != 0 {
        push_section(alloc, wanted, case.lines, head, MADE_SECTION);
    } else if count_of_all(case.lines, &["text", "nothing"]) == 0 {
        push_listing(alloc, wanted, case.lines, head, printed_sections());
    } else {
        push_told(wanted, case.lines, "text", "\n");
    }
}

/// Tells whether a listing is pruned.
fn is_pruned(case: Case<'_>) -> bool {
    command_of(case) == "prune" && !case.read.is_empty()
}

/// What is to be printed, as an input.
fn again_of(alloc: Global, case: Case<'_>, wanted: &Text) -> Text {
    let mut again = Text::new(alloc);
    push_live(&mut again, case.lines);
    match wanted.as_str().split_once('\n') {
        Some((_, printed)) => again.push(printed),
        None => {}
    }
    again
}

/// Runs the program over an input, and reports it if it shows another status or text.
fn compare(
    alloc: Global,
    report: &mut Text,
    (case, head): (Case<'_>, Head),
    input: &Text,
    wanted: &Text,
) {
    let shown = shown_of(alloc, case, input);
    if shown.as_str() != wanted.as_str() || shown.is_cut() || wanted.is_cut() {
        report_difference(report, case.name, head);
        report_text(report, "wanted ", wanted);
        report_text(report, "came ", &shown);
    }
}

/// What a run over an input shows.
fn shown_of(alloc: Global, case: Case<'_>, input: &Text) -> Text {
    let mut shown = Text::new(alloc);
    let bytes = bytes_of(alloc, case, input.as_str());
    push_run(alloc, &mut shown, command_of(case), bytes);
    shown
}

/// The bytes of an input. Those of a listing are spelled as they are.
fn bytes_of(alloc: Global, case: Case<'_>, input: &str) -> Result<Vec<u8>, AllocError> {
    if case.read.is_empty() {
        script_bytes(alloc, input)
    } else {
        Vec::from_slice(alloc, input.as_bytes())
    }
}

/// Reports for which case and unit a run shows something else.
fn report_difference(report: &mut Text, name: &str, head: Head) {
    report.push("case ");
    report.push(name);
    for word in [head.order, head.version, head.address_size, head.format] {
        if !word.is_empty() {
            report.push(" ");
            report.push(word);
        }
    }
    report.push("\n");
}

/// Reports a text, of which a long one has its begin alone.
fn report_text(report: &mut Text, before: &str, text: &Text) {
    report.push(before);
    let text = text.as_str();
    report.push(text.get(..2000).unwrap_or(text));
    report.push("\n");
}
