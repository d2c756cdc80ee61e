//! Verdicts as a run stores them, in one octet each.
ghost use Rattle.std.specs.Prelude.{◌≡◌, ◌≤◌, Some, true, false};
ghost use Rattle.bridge_filter.specs.Verdicts.{HasValidPriority};
ghost use Rattle.bridge_filter.specs.declared.Verdict.TheVariants.{Pass};
ghost use Rattle.bridge_semantics.specs.Stored.{kind_verdict};

use bridge_filter::Verdict;
use std::marker::Model;

/// Verdict in one octet, without further data. The name of a passing kind ends with the internal priority value, 0 to 7, if the frame has
/// one.
#[derive(Clone, Copy, Debug, Drop)]
pub enum VerdictKind {
    /// An earlier oversize frame blocked the filter.
    Blocked,
    /// The SDU exceeds the filter's maximum.
    Oversize,
    /// The stream gate is closed.
    GateClosed,
    /// An earlier frame at the closed stream gate shut the gate.
    ShutByRx,
    /// An earlier frame over the octet limit shut the stream gate.
    ShutByOctets,
    /// The frame exceeds the octet limit of the stream gate's interval.
    OctetsExceeded,
    /// The meter made the frame red.
    Red,
    /// The meter made the frame yellow, and the plan drops yellow frames.
    YellowDropped,
    /// The frame passes without an internal priority value.
    Pass,
    /// The frame passes without an internal priority value, marked drop eligible.
    PassEligible,
    /// The frame passes with internal priority value 0.
    Pass0,
    /// The frame passes with internal priority value 1.
    Pass1,
    /// The frame passes with internal priority value 2.
    Pass2,
    /// The frame passes with internal priority value 3.
    Pass3,
    /// The frame passes with internal priority value 4.
    Pass4,
    /// The frame passes with internal priority value 5.
    Pass5,
    /// The frame passes with internal priority value 6.
    Pass6,
    /// The frame passes with internal priority value 7.
    Pass7,
    /// The frame passes with internal priority value 0, marked drop eligible.
    PassEligible0,
    /// The frame passes with internal priority value 1, marked drop eligible.
    PassEligible1,
    /// The frame passes with internal priority value 2, marked drop eligible.
    PassEligible2,
    /// The frame passes with internal priority value 3, marked drop eligible.
    PassEligible3,
    /// The frame passes with internal priority value 4, marked drop eligible.
    PassEligible4,
    /// The frame passes with internal priority value 5, marked drop eligible.
    PassEligible5,
    /// The frame passes with internal priority value 6, marked drop eligible.
    PassEligible6,
    /// The frame passes with internal priority value 7, marked drop eligible.
    PassEligible7,
}

/// Verdict in one octet. A run stores one for each frame of a filter.
#[derive(Debug, Drop)]
pub struct StoredVerdict {
    /// Kind from which `verdict` restores the verdict.
    kind: VerdictKind,
}

impl Model for StoredVerdict {
    ghost use Rattle.bridge_filter.specs.declared.Verdict.{Verdict};
    ghost use Rattle.bridge_semantics.specs.Stored.{kind_verdict};

    ghost Value = { Verdict };

    ghost view = { λ v. kind_verdict v.kind };
}

impl StoredVerdict {
    /// Stores a verdict, whose internal priority value is at most 7. `FilterRecorder::record_verdict` of `bridge_relay` calls it.
    #[inline(always)]
    pub fn new(verdict: Verdict) -> StoredVerdict
        requires { HasValidPriority verdict }
        ensures { result ≡ verdict }
    {
        StoredVerdict {
            kind: verdict_kind(verdict),
        }
    }

    /// Returns the verdict's kind. Counting kinds is faster than counting verdicts.
    #[inline(always)]
    pub fn kind(&self) -> VerdictKind
        ensures { kind_verdict result ≡ self.now }
    {
        self.kind
    }

    /// Returns the verdict. `fill_frames` of `bridge_report`, `count_verdicts` of `net_report` and many more call it.
    #[inline(always)]
    pub fn verdict(&self) -> Verdict
        ensures { result ≡ self.now }
    {
        match self.kind {
            VerdictKind::Blocked => Verdict::Blocked,
            VerdictKind::Oversize => Verdict::Oversize,
            VerdictKind::GateClosed => Verdict::GateClosed,
            VerdictKind::ShutByRx => Verdict::ShutByRx,
            VerdictKind::ShutByOctets => Verdict::ShutByOctets,
            VerdictKind::OctetsExceeded => Verdict::OctetsExceeded,
            VerdictKind::Red => Verdict::Red,
            VerdictKind::YellowDropped => Verdict::YellowDropped,
            VerdictKind::Pass => pass(None, false),
            VerdictKind::PassEligible => pass(None, true),
            VerdictKind::Pass0 => pass(Some(0), false),
            VerdictKind::Pass1 => pass(Some(1), false),
            VerdictKind::Pass2 => pass(Some(2), false),
            VerdictKind::Pass3 => pass(Some(3), false),
            VerdictKind::Pass4 => pass(Some(4), false),
            VerdictKind::Pass5 => pass(Some(5), false),
            VerdictKind::Pass6 => pass(Some(6), false),
            VerdictKind::Pass7 => pass(Some(7), false),
            VerdictKind::PassEligible0 => pass(Some(0), true),
            VerdictKind::PassEligible1 => pass(Some(1), true),
            VerdictKind::PassEligible2 => pass(Some(2), true),
            VerdictKind::PassEligible3 => pass(Some(3), true),
            VerdictKind::PassEligible4 => pass(Some(4), true),
            VerdictKind::PassEligible5 => pass(Some(5), true),
            VerdictKind::PassEligible6 => pass(Some(6), true),
            VerdictKind::PassEligible7 => pass(Some(7), true),
        }
    }
}

/// Returns the verdict `Pass` with an optional internal priority value. If `eligible` is true, the frame is marked drop eligible. `verdict`
/// calls it.
#[inline(always)]
fn pass(ipv: Option<u8>, eligible: bool) -> Verdict
    ensures { result ≡ Pass ipv eligible }
{
    Verdict::Pass { ipv, eligible }
}

/// Returns the kind in which a verdict is stored. `new` calls it.
#[inline(always)]
fn verdict_kind(verdict: Verdict) -> VerdictKind
    requires { HasValidPriority verdict }
    ensures { kind_verdict result ≡ verdict }
{
    match verdict {
        Verdict::Blocked => VerdictKind::Blocked,
        Verdict::Oversize => VerdictKind::Oversize,
        Verdict::GateClosed => VerdictKind::GateClosed,
        Verdict::ShutByRx => VerdictKind::ShutByRx,
        Verdict::ShutByOctets => VerdictKind::ShutByOctets,
        Verdict::OctetsExceeded => VerdictKind::OctetsExceeded,
        Verdict::Red => VerdictKind::Red,
        Verdict::YellowDropped => VerdictKind::YellowDropped,
        Verdict::Pass {
            ipv: None,
            eligible: false,
        } => VerdictKind::Pass,
        Verdict::Pass {
            ipv: None,
            eligible: true,
        } => VerdictKind::PassEligible,
        Verdict::Pass {
            ipv: Some(ipv),
            eligible: false,
        } => pass_kind(ipv),
        Verdict::Pass {
            ipv: Some(ipv),
            eligible: true,
        } => eligible_kind(ipv),
    }
}

/// Returns the `VerdictKind` of a frame that passes with internal priority value `ipv` and isn't marked drop eligible. `verdict_kind` calls
/// it.
#[inline(always)]
fn pass_kind(ipv: u8) -> VerdictKind
    requires { ipv ≤ 7 }
    ensures { kind_verdict result ≡ Pass (Some ipv) false }
{
    match ipv {
        0 => VerdictKind::Pass0,
        1 => VerdictKind::Pass1,
        2 => VerdictKind::Pass2,
        3 => VerdictKind::Pass3,
        4 => VerdictKind::Pass4,
        5 => VerdictKind::Pass5,
        6 => VerdictKind::Pass6,
        _ => VerdictKind::Pass7,
    }
}

/// Returns the `VerdictKind` of a frame that passes with internal priority value `ipv` and is marked drop eligible. `verdict_kind` calls
/// it.
#[inline(always)]
fn eligible_kind(ipv: u8) -> VerdictKind
    requires { ipv ≤ 7 }
    ensures { kind_verdict result ≡ Pass (Some ipv) true }
{
    match ipv {
        0 => VerdictKind::PassEligible0,
        1 => VerdictKind::PassEligible1,
        2 => VerdictKind::PassEligible2,
        3 => VerdictKind::PassEligible3,
        4 => VerdictKind::PassEligible4,
        5 => VerdictKind::PassEligible5,
        6 => VerdictKind::PassEligible6,
        _ => VerdictKind::PassEligible7,
    }
}
