//! Writes the lines of a section, except its lists, to any report sink. `put_section` calls the public functions.
ghost use Rattle.std.specs.Prelude.{◌≡◌, ◌≤◌, ◌++◌, Some, codes, length};
ghost use Rattle.bridge_report.specs.Words.{verdict_word};
ghost use Rattle.bridge_report.specs.Growth.{HasGrown};
ghost use Rattle.bridge_report.specs.Section.{bucket_line, counter_lines, delay_line, drop_line, all_flags, named_flag, flags_line, frame_line, header_line, matching_line, departure_line, queued_line, red_line, test_line};

use crate::losses::{count_full, count_never_fitting};
use crate::report_sink::{ReportSink, put_wide_number};
use crate::words::{flag_word, kind_word};
use bridge_filter::{Counters, Flags};
use bridge_meter::Buckets;
use bridge_semantics::{StoredDeparture, StoredDrop};

/// Writes the header line: the filter's number, and whether it is protected. `put_state` calls it.
pub fn put_header<T: ReportSink>(text: &mut T, filter: u32, protected: bool)
    ensures { HasGrown T.contents text.old (header_line filter protected) text.new }
{
    text.put_number("filter ", u64::from(filter));
    text.put(" ");
    text.put(kind_word(protected));
    text.put("\n");
}

/// Writes the line with `matching`, the number of frames that the filter matched. `put_counters` calls it.
fn put_matching<T: ReportSink>(text: &mut T, matching: u64)
    ensures { HasGrown T.contents text.old (matching_line matching) text.new }
{
    text.put_number("matching ", matching);
    text.put("\n");
}

/// Writes the line of a test, `sdu` or `gate`: the numbers of frames that passed it and that it refused. `put_counters` calls it.
fn put_test<T: ReportSink>(text: &mut T, test: &str, passed: u64, refused: u64)
    ensures { HasGrown T.contents text.old (test_line test.now passed refused) text.new }
{
    text.put(test);
    text.put_number(" passed ", passed);
    text.put_number(" refused ", refused);
    text.put("\n");
}

/// Writes the line with `red`, the number of frames that the meter refused. `put_counters` calls it.
fn put_red<T: ReportSink>(text: &mut T, red: u64)
    ensures { HasGrown T.contents text.old (red_line red) text.new }
{
    text.put_number("red ", red);
    text.put("\n");
}

/// Writes the `matching`, `sdu`, `gate` and `red` lines of a filter: matching frames, the tests of size and stream gate, and red frames.
/// `put_state` calls it.
pub fn put_counters<T: ReportSink>(text: &mut T, counters: &Counters)
    ensures { HasGrown T.contents text.old (counter_lines counters.now) text.new }
{
    put_matching(text, counters.matching);
    put_test(text, "sdu", counters.sdu_passed, counters.sdu_refused);
    put_test(text, "gate", counters.gate_passed, counters.gate_refused);
    put_red(text, counters.red);
}

/// Writes a space, a flag's name and its value, for the line of flags. `put_all_flags` calls it.
fn put_flag<T: ReportSink>(text: &mut T, name: &str, flag: bool)
    ensures { HasGrown T.contents text.old (named_flag name.now flag) text.new }
{
    text.put(" ");
    text.put(name);
    text.put(" ");
    text.put(flag_word(flag));
}

/// Writes the names and values of the flags `blocked`, `rx`, `octets` and `red`. `put_flags` calls it.
fn put_all_flags<T: ReportSink>(text: &mut T, flags: &Flags)
    ensures { HasGrown T.contents text.old (all_flags flags.now) text.new }
{
    put_flag(text, "blocked", flags.blocked);
    put_flag(text, "rx", flags.rx);
    put_flag(text, "octets", flags.octets);
    put_flag(text, "red", flags.red);
}

/// Writes the line of the flags of a filter, its stream gate and its meter. `put_state` calls it.
pub fn put_flags<T: ReportSink>(text: &mut T, flags: &Flags)
    ensures { HasGrown T.contents text.old (flags_line flags.now) text.new }
{
    text.put("flags");
    put_all_flags(text, flags);
    text.put("\n");
}

/// Writes the `bucket` line of a meter: both levels in bucket units, and their time in ns. `put_optional_buckets` calls it.
fn put_buckets<T: ReportSink>(text: &mut T, buckets: &Buckets)
    ensures { HasGrown T.contents text.old (bucket_line (Some buckets.now)) text.new }
{
    put_wide_number(text, "bucket committed ", buckets.committed);
    put_wide_number(text, " excess ", buckets.excess);
    text.put_number(" at ", buckets.at);
    text.put("\n");
}

/// Writes the line of the buckets of a filter's meter; `bucket none` if it has no meter. `put_state` calls it.
pub fn put_optional_buckets<T: ReportSink>(text: &mut T, buckets: Option<Buckets>)
    ensures { HasGrown T.contents text.old (bucket_line buckets) text.new }
{
    match buckets {
        Some(buckets) => put_buckets(text, &buckets),
        None => text.put("bucket none\n"),
    }
}

/// Writes the line with the numbers of queued and dropped copies of a filter's frames. `put_copies` calls it.
pub fn put_queued<T: ReportSink>(text: &mut T, departures: &[StoredDeparture], drops: &[StoredDrop])
    ensures { HasGrown T.contents text.old (queued_line departures.now drops.now) text.new }
{
    text.put_number("queued ", departures.len() as u64);
    text.put_number(" full ", count_full(drops) as u64);
    text.put_number(" never ", count_never_fitting(drops) as u64);
    text.put("\n");
}

/// Writes the line of the longest delay, `delay` ns. `put_delay` calls it if a copy of the filter's frames left.
fn put_known_delay<T: ReportSink>(text: &mut T, delay: u64)
    ensures { HasGrown T.contents text.old (delay_line (Some delay)) text.new }
{
    text.put_number("delay ", delay);
    text.put("\n");
}

/// Writes the line of the longest delay in ns; `delay none` if no copy of the filter's frames left. `put_copies` calls it.
pub fn put_delay<T: ReportSink>(text: &mut T, delay: Option<u64>)
    ensures { HasGrown T.contents text.old (delay_line delay) text.new }
{
    match delay {
        Some(delay) => put_known_delay(text, delay),
        None => text.put("delay none\n"),
    }
}
