//! Reads a listing of sections from standard input, and prints the entries of each unit. With a
//! number above 1 it then reads all rows again, until they were read so many times: what
//! benches/read_rows.sh measures.
#![tactic(auto)]

mod counts;
mod listing;
mod row;
mod show;
mod walk;

use counts::{Counts, counts_of};
use dw_read::Reader;
use listing::Listing;
use row::UnitRows;
use show::push_unit;
use std::alloc::{AllocError, Global};
use std::env;
use walk::read_units;

/// Appends the entries of units.
fn push_units<R: Reader>(text: &mut String, units: &[UnitRows<R>]) -> Result<(), AllocError> {
    for unit in units {
        push_unit(text, unit)?;
    }
    Ok(())
}

/// The entries of a listing's units, as text.
fn entries_of(alloc: Global, listing: &Listing) -> anyhow::Result<String> {
    let units = read_units(alloc, &listing.sections())?;
    let mut text = String::new(alloc);
    push_units(&mut text, units.as_slice())?;
    Ok(text)
}

/// Prints the entries of a listing's units.
fn print_entries(rt: &impl Print, alloc: Global, listing: &Listing) -> anyhow::Result<()> {
    let entries = entries_of(alloc, listing)?;
    print!(rt; "{}", entries.as_str())?;
    Ok(())
}

/// Reads all rows of a listing's units, and prints how many they are.
fn print_counts(rt: &impl Print, alloc: Global, listing: &Listing) -> anyhow::Result<()> {
    let Counts {
        entries,
        attributes,
        references,
    } = counts_of(alloc, &listing.sections())?;
    println!(rt; "entries {entries} attributes {attributes} references {references}")?;
    Ok(())
}

/// Prints the entries of a listing, and as often the counts as its rows are read again.
fn print_listing(rt: &impl Print, alloc: Global, text: &str, times: u64) -> anyhow::Result<()> {
    let listing = Listing::parse(alloc, text)?;
    print_entries(rt, alloc, &listing)?;
    for _ in 1..times {
        print_counts(rt, alloc, &listing)?;
    }
    Ok(())
}

/// How often all rows are read.
fn times_of(word: Option<&str>) -> anyhow::Result<u64> {
    match word {
        Some(word) => Ok(word.parse()?),
        None => Ok(1),
    }
}

fn main(rt: HostRuntime) -> anyhow::Result<()> {
    let mut words = env::args(&rt)?;
    let times = times_of(words.nth(1).as_deref())?;
    let alloc = rt.alloc();
    let text = std::io::read_to_string(alloc, rt.reader())?;
    print_listing(&rt, alloc, text.as_str(), times)
}
