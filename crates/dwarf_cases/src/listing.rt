//! Listings of the sections that lines tell.

use crate::head::Head;
use crate::text::Text;
use crate::words::{count_of, push_told};
use std::alloc::Global;

/// Appends the listing of these sections, each with the bytes that the lines tell.
pub fn push_listing(
    alloc: Global,
    text: &mut Text,
    lines: &str,
    head: Head,
    sections: &[&'static str],
) {
    push_order(text, lines, head);
    for section in sections {
        push_section(alloc, text, lines, head, section);
    }
}

/// Appends the line of the byte order, which is the head's if the lines tell none.
fn push_order(text: &mut Text, lines: &str, head: Head) {
    text.push("order ");
    if count_of(lines, "order") == 0 {
        text.push(head.order);
    } else {
        push_told(text, lines, "order", "");
    }
    text.push("\n");
}

/// Appends the line of a section.
pub fn push_section(alloc: Global, text: &mut Text, lines: &str, head: Head, section: &str) {
    let digits = digits_of(alloc, lines, head, section);
    let size = digits.as_str().len() / 2;
    text.push(section);
    text.push_made(format!(in alloc; " {size}"));
    if size != 0 {
        text.push(" ");
    }
    text.push_text(&digits);
    text.push("\n");
}

/// The digits of a section's bytes.
fn digits_of(alloc: Global, lines: &str, head: Head, section: &str) -> Text {
    let mut fields = Text::new(alloc);
    push_told(&mut fields, lines, section, " ");
    let mut digits = Text::new(alloc);
    match fields.as_str().strip_prefix("root ") {
        Some(rest) => push_unit(alloc, &mut digits, head, rest),
        None => push_fields(&mut digits, head.order, fields.as_str()),
    }
    digits
}

/// Appends a unit that has these fields behind its root's code (DWARF 5, 7.5.1.1; DWARF 4,
/// 7.5.1.1).
fn push_unit(alloc: Global, digits: &mut Text, head: Head, rest: &str) {
    let mut unit = Text::new(alloc);
    push_header(&mut unit, head);
    push_fields(&mut unit, head.order, rest);
    push_length(alloc, digits, head, unit.as_str().len() / 2);
    digits.push_text(&unit);
}

/// Appends the length of a unit (DWARF 5, 7.4).
fn push_length(alloc: Global, digits: &mut Text, head: Head, length: usize) {
    let mut field = Text::new(alloc);
    if head.format == "64" {
        field.push_made(format!(in alloc; "ffffffff ={length:016x}"));
    } else {
        field.push_made(format!(in alloc; "={length:08x}"));
    }
    push_fields(digits, head.order, field.as_str());
}

/// Appends what a unit's header holds behind its length, and its root's code.
fn push_header(unit: &mut Text, head: Head) {
    let place = if head.format == "64" {
        "0000000000000000"
    } else {
        "00000000"
    };
    push_number(unit, head.order, version_digits(head));
    if head.version == "5" {
        push_size(unit, "010", head);
        unit.push(place);
    } else {
        unit.push(place);
        push_size(unit, "0", head);
    }
    unit.push("01");
}

/// The version in four digits.
fn version_digits(head: Head) -> &'static str {
    match head.version {
        "2" => "0002",
        "3" => "0003",
        "4" => "0004",
        _ => "0005",
    }
}

/// Appends the digits that stand before that of an address's size, and it.
fn push_size(unit: &mut Text, before: &str, head: Head) {
    unit.push(before);
    unit.push(head.address_size);
}

/// Appends the digits of fields.
fn push_fields(digits: &mut Text, order: &str, fields: &str) {
    for field in fields.split_whitespace() {
        push_field(digits, order, field);
    }
}

/// Appends the digits of a field. What follows a `=` is a number, its most significant byte first,
/// which stands in the byte order; what stands before a `*` is repeated.
fn push_field(digits: &mut Text, order: &str, field: &str) {
    if let Some(number) = field.strip_prefix('=') {
        push_number(digits, order, number);
    } else if let Some((piece, count)) = field.split_once('*') {
        digits.push_times(piece, count.parse::<usize>().unwrap_or(0));
    } else {
        digits.push(field);
    }
}

/// Appends the digits of a number.
fn push_number(digits: &mut Text, order: &str, number: &str) {
    if order == "little" {
        push_reversed(digits, number);
    } else {
        digits.push(number);
    }
}

/// Appends the digits of bytes, the last byte first.
fn push_reversed(digits: &mut Text, number: &str) {
    for index in (0..number.len().div_ceil(2)).rev() {
        digits.push(number.get(2 * index..2 * index + 2).unwrap_or("??"));
    }
}
