//! What a case gives to the program.

use crate::head::Head;
use crate::text::Text;
use crate::words::parts;
use std::alloc::{AllocError, Global};

/// Appends a script: the unit, where the case names units, and the lines that the case tells.
pub fn push_script(alloc: Global, script: &mut Text, lines: &str, head: Head) {
    if !head.version.is_empty() {
        push_head(script, head);
    }
    for line in lines.lines() {
        let (word, rest) = parts(line);
        match word {
            "script" => push_line(script, rest),
            "repeat" => push_repeated(script, rest),
            "count" => push_counted(alloc, script, rest),
            _ => {}
        }
    }
}

/// Appends the lines of a unit.
fn push_head(script: &mut Text, head: Head) {
    script.push("order ");
    script.push(head.order);
    script.push("\nunit ");
    script.push(head.version);
    script.push(" ");
    script.push(head.address_size);
    script.push(" ");
    script.push(head.format);
    script.push("\n");
}

/// Appends lines, which ` / ` stands between.
fn push_line(script: &mut Text, rest: &str) {
    for line in rest.split(" / ") {
        script.push(line);
        script.push("\n");
    }
}

/// Appends the lines behind a number as many times as it says.
fn push_repeated(script: &mut Text, rest: &str) {
    let (count, line) = parts(rest);
    for _ in 0..count.parse::<usize>().unwrap_or(0) {
        push_line(script, line);
    }
}

/// Appends a line for each of the numbers from one up to another, which stands at its `@`.
fn push_counted(alloc: Global, script: &mut Text, rest: &str) {
    let (from, rest) = parts(rest);
    let (to, line) = parts(rest);
    let (front, back) = line.split_once('@').unwrap_or((line, ""));
    for number in from.parse::<u32>().unwrap_or(0)..to.parse::<u32>().unwrap_or(0) {
        script.push_made(format!(in alloc; "{front}{number}{back}\n"));
    }
}

/// Appends the lines of live ranges that stand before a listing.
pub fn push_live(input: &mut Text, lines: &str) {
    for line in lines.lines() {
        let (word, _) = parts(line);
        if word == "live" {
            input.push(line);
            input.push("\n");
        }
    }
}

/// Appends what lines tell of a listing, whose `.debug_info` has its first bytes alone.
pub fn push_cut(read: &mut Text, lines: &str, size: usize) {
    for line in lines.lines() {
        let (word, rest) = parts(line);
        read.push(word);
        read.push(" ");
        if word == ".debug_info" {
            read.push(rest.get(..size.saturating_mul(2)).unwrap_or(rest));
        } else {
            read.push(rest);
        }
        read.push("\n");
    }
}

/// A script's bytes: without the last newline, and those that it gives by `\x` and two hex digits.
pub fn script_bytes(alloc: Global, script: &str) -> Result<Vec<u8>, AllocError> {
    let mut bytes = Vec::new(alloc);
    push_unescaped(&mut bytes, script.strip_suffix('\n').unwrap_or(script))?;
    Ok(bytes)
}

/// Appends bytes with those that a text gives by `\x` and two hex digits.
fn push_unescaped(bytes: &mut Vec<u8>, text: &str) -> Result<(), AllocError> {
    let mut pieces = text.split("\\x");
    bytes.extend_from_slice(pieces.next().unwrap_or("").as_bytes())?;
    for piece in pieces {
        let (byte, rest) = escaped(piece);
        bytes.push(byte)?;
        bytes.extend_from_slice(rest.as_bytes())?;
    }
    Ok(())
}

/// The byte that two hex digits spell, and what follows them. Where there are none it is 255, which
/// no case means.
fn escaped(piece: &str) -> (u8, &str) {
    let (digits, rest) = piece.split_at_checked(2).unwrap_or(("", piece));
    (u8::from_str_radix(digits, 16).unwrap_or(255), rest)
}
