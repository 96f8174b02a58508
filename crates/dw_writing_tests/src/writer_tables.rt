//! Whether writers of each kind pass the trials of all tables.

use crate::trials::{Kind, Trial, pass_over};
use crate::{relocation_tests, section_tests, vector_tests};
use std::alloc::Global;

/// What a table shows, and the table.
type Table = (&'static str, &'static [(Kind, Trial)]);

fn tables() -> [Table; 5] {
    [
        ("refuses calls and adds nothing", vector_tests::refusing()),
        ("copies are apart", vector_tests::copied()),
        ("records what a linker puts in", relocation_tests::held()),
        (
            "refuses calls and records nothing",
            relocation_tests::refuses(),
        ),
        ("tries new sections", section_tests::trials()),
    ]
}

/// The first trial of a table that isn't passed.
fn first_failed(alloc: Global, trials: &[(Kind, Trial)]) -> Option<usize> {
    for (i, (kind, trial)) in trials.iter().enumerate() {
        if pass_over(alloc, *kind, trial) != Ok(true) {
            return Some(i);
        }
    }
    None
}

#[test]
fn passes_each_trial(rt: HostRuntime) {
    for (name, trials) in tables() {
        assert_eq!(rt; first_failed(rt.alloc(), trials), None, "{name}");
    }
}
