//! Words of reports and tables: protection, flags, verdicts and reasons of drops.
ghost use Rattle.std.specs.Prelude.{◌≡◌, ◌≤◌, length};
ghost use Rattle.bridge_report.specs.Words.{flag_word, kind_word, refusal_word, verdict_word};

use bridge_filter::Verdict;
use bridge_port::Refusal;

/// Returns the word for a filter's protection: `protected` or `plain`. `put_header` calls it.
pub fn kind_word(protected: bool) -> &'static str
    ensures { result.now ≡ kind_word protected }
{
    if protected { "protected" } else { "plain" }
}

/// Returns the word for a flag: `yes` or `no`. `put_flag` calls it.
pub fn flag_word(flag: bool) -> &'static str
    ensures { result.now ≡ flag_word flag }
{
    if flag { "yes" } else { "no" }
}

/// Returns the word for a verdict, at most 15 octets. Tables and pictures call it.
pub fn verdict_word(verdict: Verdict) -> &'static str
    ensures word { result.now ≡ verdict_word verdict }
    ensures short { length result.now ≤ 15 }
{
    match verdict {
        Verdict::Blocked => "blocked",
        Verdict::Oversize => "oversize",
        Verdict::GateClosed => "gate-closed",
        Verdict::ShutByRx => "shut-rx",
        Verdict::ShutByOctets => "shut-octets",
        Verdict::OctetsExceeded => "octets-exceeded",
        Verdict::Red => "red",
        Verdict::YellowDropped => "yellow-dropped",
        Verdict::Pass { eligible: true, .. } => "pass-eligible",
        Verdict::Pass {
            eligible: false,
            ..
        } => "pass",
    }
}

/// Returns the word for the reason why a port dropped a copy: `full` or `never`. Tables and pictures call it.
pub fn refusal_word(refusal: Refusal) -> &'static str
    ensures { result.now ≡ refusal_word refusal }
{
    match refusal {
        Refusal::Full => "full",
        Refusal::NeverFits => "never",
    }
}
