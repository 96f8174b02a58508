//! Runs the programs `dwarf_build`, `dw_aranges` and `dw_prune` over tables of cases, the files
//! that the command line names, and prints how many runs each table had, and before it each run
//! that shows something else than its case tells, and each case that is faulty.
//!
//! A table is text, of one topic. Its lines are empty, remarks behind `# `, or begin with one of
//! these words and a space:
//!
//! - `case NAME` begins a case.
//! - `command link` says that this command is run, or `convert`. Else it is `convert` where a
//!   listing is read by `read`, and `build` elsewhere. What follows `command aranges` are the words
//!   that `dw_aranges` is run with, and what follows `command prune` those of `dw_prune`.
//! - `script LINES` is what follows in the script. ` / ` stands between lines, as well as the end
//!   of the line, so that an empty one at the end closes the script's last line. `\x` and two hex
//!   digits are a byte.
//! - `repeat N LINES` is so many times the same in the script, and `count FROM TO LINE` a line for
//!   each number from one up to another, which stands at its `@`.
//! - `read .debug_info HEX`, or another section, tells its bytes in a listing that is the input in
//!   place of a script, and `read order big` the listing's order. `live BEGIN END` is a line that
//!   stands before the listing.
//! - `cut FROM TO` runs the case for each number from one up to another: of the `.debug_info` that
//!   is read, in one line without spaces, there are so many bytes.
//! - `units ORDERS VERSIONS SIZES FORMATS` puts `order O` and `unit V A F` before the script, and
//!   runs the case for each of what the four fields have between their commas.
//! - `status N` is the exit status, in each case once.
//! - `text LINE` is a line of the printed text, which is to have these alone; `nothing` says that
//!   it has none.
//! - `.debug_info HEX`, or another section, tells its bytes in hex with spaces between, in one line
//!   or several; `HEX*N` is so many times the same. The text is to be a listing; the sections that
//!   aren't named are empty. `.debug_aranges HEX` is a line of its own.
//! - `order big` says that the listing begins with `order big`, and else with `order little`.
//! - `stays NAMES` and `gone NAMES` are strings that the listing is to have, and such that it isn't
//!   to have.
//! - `same` says that the listing has the sections that were read, but for the two of indices.
//! - `once` says that a listing that was converted or pruned isn't the same when it is so again.
//!   Each other one is looked at for that, too.
//! - `end N` is the last line: the table has so many runs.
//!
//! A case has either `text`, `nothing`, `same`, `stays` or sections. In one with `units` the fields
//! of a section may begin with `root`, which stands for the unit's header and its root's code, its
//! length counting all that follows; and a number behind `=` stands in the unit's byte order, with
//! as many bytes as it has pairs of digits.
//!
//! The bytes are written by hand from the standard's tables, never copied from a listing. The table
//! `broken.txt` has faulty cases, and cases that tell what isn't so: that they are reported is seen
//! from the file `stdout`.
#![tactic(auto)]

mod case;
mod fault;
mod head;
mod input;
mod listing;
mod names;
mod program;
mod table;
mod text;
mod words;

use crate::table::run_table;
use crate::text::Text;
use std::io::{self, Write};
use std::{env, fs};

/// Runs the table of this file.
fn run_file(rt: &HostRuntime, report: &mut Text, name: &str) {
    match fs::read_to_string(rt, name) {
        Ok(table) => run_table(rt.alloc(), report, name, table.as_str()),
        Err(_) => {
            report.push(name);
            report.push(" can't be read\n");
        }
    }
}

fn main(rt: HostRuntime) -> io::Result<()> {
    for name in env::args(&rt)?.skip(1) {
        let mut report = Text::new(rt.alloc());
        run_file(&rt, &mut report, name.as_str());
        io::writer(&rt).write_all(report.as_str().as_bytes())?;
    }
    Ok(())
}
