//! A table of cases.

use crate::case::run_case;
use crate::text::Text;
use crate::words::count_of_all;
use std::alloc::Global;

/// Runs the cases of a table, reports what comes otherwise than they tell, and last how many runs
/// there were. They are to be as many as the table tells at its end.
pub fn run_table(alloc: Global, report: &mut Text, name: &str, table: &str) {
    let (cases, end) = table.split_once("\nend ").unwrap_or((table, "nowhere"));
    let count = run_cases(alloc, report, cases);
    if end.trim().parse::<usize>().ok() != Some(count) {
        report_end(report, end.trim());
    }
    report.push(name);
    report.push_made(format!(in alloc; " {count}\n"));
}

/// Runs the cases of a table, and answers how many runs there were.
fn run_cases(alloc: Global, report: &mut Text, cases: &str) -> usize {
    let mut count = 0usize;
    let mut blocks = cases.split("\ncase ");
    if !is_remark(blocks.next().unwrap_or("")) {
        report.push("lines before the first case\n");
    }
    for block in blocks {
        count = count.saturating_add(run_case(alloc, report, block));
    }
    count
}

/// Tells whether there are only remarks and empty lines.
fn is_remark(lines: &str) -> bool {
    count_of_all(lines, &["", "#"]) == lines.lines().count()
}

/// Reports that the table tells another number of runs.
fn report_end(report: &mut Text, end: &str) {
    report.push("end ");
    report.push(end);
    report.push(" is not how many runs there were\n");
}
