//! State of one stream filter during a run.

ghost use Rattle.std.specs.Prelude.{◌≡◌};
ghost use Rattle.bridge_filter.specs.Steps.{refusal, state_with_verdict, new_filter, AreBounded};

use crate::{Counters, FilterPlan, Verdict};

/// State of one filter between frames.
#[derive(Clone, Copy)]
pub(crate) struct FilterState {
    /// Settings of the filter.
    pub plan: FilterPlan,
    /// Counts of the filter's frames so far.
    pub counters: Counters,
    /// Whether an oversize frame blocked the filter.
    pub blocked: bool,
}

impl FilterState {
    /// Makes the state of a filter before its first frame: all counters are 0, and the filter isn't blocked. `make_filters` calls it.
    pub(crate) fn new(plan: FilterPlan) -> FilterState
        ensures { result ≡ new_filter plan }
    {
        FilterState {
            plan,
            counters: Counters {
                matching: 0,
                sdu_passed: 0,
                sdu_refused: 0,
                gate_passed: 0,
                gate_refused: 0,
                red: 0,
            },
            blocked: false,
        }
    }

    /// Returns why the filter refuses a frame of `sdu` SDU octets, or `None` if the frame reaches the gate. `frame_verdict` calls it first.
    pub(crate) fn refusal(&self, sdu: u32) -> Option<Verdict>
        ensures { result ≡ refusal self.now sdu }
    {
        if self.blocked {
            return Some(Verdict::Blocked);
        }
        match self.plan.max_sdu {
            Some(most) if most < sdu => Some(Verdict::Oversize),
            _ => None,
        }
    }

    /// Counts a verdict. After an oversize frame, sets the blocked flag if the filter's plan has `block_oversize`. `judge_frame` calls it.
    pub(crate) fn count_verdict(&mut self, verdict: Verdict)
        requires { AreBounded self.old.counters 9223372036854775807 }
        ensures { self.new ≡ state_with_verdict self.old verdict }
    {
        let counters = &mut self.counters;
        counters.matching += 1;
        match verdict {
            Verdict::Blocked => {}
            Verdict::Oversize => {
                counters.sdu_refused += 1;
                self.blocked = self.blocked || self.plan.block_oversize;
            }
            Verdict::GateClosed
            | Verdict::ShutByRx
            | Verdict::ShutByOctets
            | Verdict::OctetsExceeded => {
                counters.sdu_passed += 1;
                counters.gate_refused += 1;
            }
            Verdict::Red | Verdict::YellowDropped => {
                counters.sdu_passed += 1;
                counters.gate_passed += 1;
                counters.red += 1;
            }
            Verdict::Pass { .. } => {
                counters.sdu_passed += 1;
                counters.gate_passed += 1;
            }
        }
    }
}
