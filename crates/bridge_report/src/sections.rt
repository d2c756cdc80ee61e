//! The section of a stream filter, and the report of all filters.
ghost use Rattle.std.specs.Prelude.{◌≡◌, nat_eq, is_some, option_map, string_bytes, true, Some, IfOk};
ghost use Rattle.std.specs.Map.{lookup};
ghost use Rattle.std.specs.Io.KnownBytes.{Appends};
ghost use Rattle.bridge_report.specs.Section.{report_text, section_text};
ghost use Rattle.bridge_semantics.specs.declared.outcome.View.{View};

use crate::put_section::{put_section, put_sections};
use crate::report_fault::ReportFault;
use crate::report_writer::{BufferedWriter, ReportWriter};
use bridge_limits::NoMemory;
use bridge_semantics::{Outcome, View};
use bridge_text::TextBuilder;
use std::alloc::Allocator;
use std::io::Write;

/// Buffer size in octets: a writer receives at most this number at once.
const BUFFER_OCTETS: usize = 262_144;

/// Returns the record of the filter with number `filter` in a run's result, or `None` if the result lacks the filter. `hop_run` of
/// `app_networks`, `section` and `has_section` call it.
pub fn find_view<A: Allocator>(outcome: &Outcome<A>, filter: u32) -> Option<&View<A>>
    ensures { option_map (λ view. view.now) result ≡ lookup (nat_eq filter) outcome.now.filters.items }
{
    for f in &outcome.filters {
        if f.0 == filter {
            return Some(&f.1);
        }
    }
    None
}

/// Returns whether a run's result has a record of the filter with number `filter`. If so, `section` may be called.
pub fn has_section<A: Allocator>(outcome: &Outcome<A>, filter: u32) -> bool
    ensures { result ≡ is_some (lookup (nat_eq filter) outcome.now.filters.items) }
{
    find_view(outcome, filter).is_some()
}

/// Returns the report section of filter `filter`, which must have a record in the result. Each line ends with a line feed. Only tests call
/// it: they compare sections.
pub fn section<A: Allocator + Copy>(
    alloc: A,
    outcome: &Outcome<A>,
    filter: u32,
) -> Result<String<A>, NoMemory>
    requires there { is_some (lookup (nat_eq filter) outcome.now.filters.items) ≡ true }
    ensures { (view : View A) → lookup (nat_eq filter) outcome.now.filters.items ≡ Some view
        → IfOk result (λ text. string_bytes text ≡ section_text filter view) }
{
    let Some(view) = find_view(outcome, filter) else {
        unreachable!();
    };
    let mut text = TextBuilder::new(alloc);
    put_section(&mut text, filter, view);
    text.finish()
}

/// Returns the report of a run as a text in memory: the sections of all filters, by rising number. Only tests call it: commands use
/// `write_report`.
pub fn report<A: Allocator + Copy>(alloc: A, outcome: &Outcome<A>) -> Result<String<A>, NoMemory>
    ensures { IfOk result (λ text. string_bytes text ≡ report_text outcome.now.filters.items) }
{
    let mut text = TextBuilder::new(alloc);
    put_sections(&mut text, &outcome.filters);
    text.finish()
}

/// Writes the sections of all filters to `writer`, and returns it flushed. The only allocation is the buffer of 262,144 octets. Fails if
/// the writer fails or memory runs out.
///
/// `write_to` of `app_commands` calls it for `run` and `net`.
pub fn write_report<W: Write + Drop, A: Allocator + Copy>(
    alloc: A,
    outcome: &Outcome<A>,
    writer: W,
) -> Result<W, ReportFault>
    ensures { IfOk result (λ done. Appends (W.contents writer) (W.contents done)
        (report_text outcome.now.filters.items)) }
{
    let Ok(octets) = Vec::with_capacity(alloc, BUFFER_OCTETS) else {
        return Err(ReportFault::NoMemory);
    };
    let mut written = ReportWriter {
        held: BufferedWriter { writer, octets },
        fault: None,
    };
    put_sections(&mut written, &outcome.filters);
    written.finish()
}
