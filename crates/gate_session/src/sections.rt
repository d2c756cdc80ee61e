//! Compares two reports section by section: one section for each filter.
ghost use Rattle.std.specs.Prelude.{◌≡◌, ◌≢◌};
ghost use Rattle.gate_session.specs.declared.sections.Finding.TheVariants as finding;

use crate::files::{read_text, split_pair};
use bridge_text::TextBuilder;
use std::alloc::Global;
use std::rt::Files;

/// Last line of a section, with the line feeds around it.
const END: &str = "\nend\n";

/// Comparison of a stream filter's sections in two reports.
#[derive(Clone, Copy)]
pub enum Finding {
    /// Protected filter with equal sections.
    Kept,
    /// Protected filter with different sections.
    Broken,
    /// Unprotected filter with equal sections.
    Idle,
    /// Unprotected filter with different sections.
    Moved,
}

/// Numbers of sections by comparison. Equal sections of unprotected filters aren't counted.
#[derive(Clone, Copy)]
struct Findings {
    kept: u64,
    broken: u64,
    moved: u64,
}

/// Compares two reports, and adds a line for each filter, then the counts: `compare NAME FILE FILE`.
pub fn compare<H: AllocGlobal + Files>(rt: &H, said: &mut TextBuilder<Global>, rest: &str) {
    let (name, pair) = split_pair(said, rest);
    let (one, other) = split_pair(said, pair);
    let one = read_text(rt, said, one);
    let other = read_text(rt, said, other);
    let found = compare_all(said, one.as_str(), other.as_str());
    said.put_template(
        "{a}: {0} protected sections are the same, {1} differ; {2} others changed\n",
        &[found.kept, found.broken, found.moved],
        &[name],
    );
}

/// Adds a line for each pair of sections, and counts the comparisons.
fn compare_all(said: &mut TextBuilder<Global>, one: &str, other: &str) -> Findings {
    let mut found = Findings {
        kept: 0,
        broken: 0,
        moved: 0,
    };
    for (one, other) in one.split(END).zip(other.split(END)) {
        if !one.is_empty() || !other.is_empty() {
            put_compared(said, one, other);
            found = add_finding(found, compare_sections(one, other));
        }
    }
    found
}

/// Returns the counts with `finding` added.
fn add_finding(found: Findings, finding: Finding) -> Findings {
    let mut found = found;
    match finding {
        Finding::Kept => found.kept = found.kept.saturating_add(1),
        Finding::Broken => found.broken = found.broken.saturating_add(1),
        Finding::Moved => found.moved = found.moved.saturating_add(1),
        Finding::Idle => {}
    }
    found
}

/// Compares two sections of a filter. The heading of the first section shows whether the filter is protected.
fn compare_sections(one: &str, other: &str) -> Finding
    ensures kept { result ≡ finding.Kept → one.now ≡ other.now }
    ensures idle { result ≡ finding.Idle → one.now ≡ other.now }
    ensures broken { result ≡ finding.Broken → one.now ≢ other.now }
    ensures moved { result ≡ finding.Moved → one.now ≢ other.now }
{
    let is_same = one == other;
    if first_line(one).ends_with(" protected") {
        return if is_same {
            Finding::Kept
        } else {
            Finding::Broken
        };
    }
    if is_same {
        Finding::Idle
    } else {
        Finding::Moved
    }
}

/// Adds the length of two equal sections in octets, or the counters of two different sections.
fn put_compared(said: &mut TextBuilder<Global>, one: &str, other: &str) {
    let filter = first_line(one);
    if one == other {
        let length = one.len().saturating_add(END.len()) as u64;
        return said.put_template("{a}: the same {0} octets\n", &[length], &[filter]);
    }
    said.put_template("{a}:", &[], &[filter]);
    put_counters(said, one);
    said.put("; then");
    put_counters(said, other);
    said.put("\n");
}

/// Adds the counters of a section that other traffic can change.
fn put_counters(said: &mut TextBuilder<Global>, section: &str) {
    let matching = section_line(section, "matching ");
    let red = section_line(section, "red ");
    let queued = section_line(section, "queued ");
    said.put_template(" {a}, {b}, {c}", &[], &[matching, red, queued]);
}

/// Returns the first line of a section.
fn first_line(section: &str) -> &str {
    match section.split_once('\n') {
        Some((line, _)) => line,
        None => section,
    }
}

/// Returns the line of a section that begins with `front`, or an empty text.
fn section_line<'a>(section: &'a str, front: &str) -> &'a str {
    for line in section.split('\n') {
        if line.starts_with(front) {
            return line;
        }
    }
    ""
}
