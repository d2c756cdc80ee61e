#![tactic(auto)]
//! Two-rate, three-colour meters of streams, with the bandwidth profiles of MEF (flow meters, IEEE 802.1Q-2018, 8.6.5.1.3).

ghost use Rattle.std.specs.Prelude.{◌≡◌, ℕ, ◌≤◌, ◌+◌, ◌-◌, ◌*◌, ◌^◌, ◌&&◌, true, false, min, List, ◌∷◌, [], if◌then◌else◌};
ghost use Rattle.bridge_meter.specs.declared.MeterPlan.{MeterPlan};
ghost use Rattle.bridge_meter.specs.Bounds as bounds;
ghost use Rattle.bridge_meter.specs.Colours.{MeterEvent, Arrived, Cleared, meter_history, frame_colour, history_buckets, meter_limits, octet_units, is_red, is_within_limits};
ghost use Rattle.bridge_meter.specs.StandsFor.{AreInOrder, StandsFor};
ghost use Rattle.bridge_meter.specs.Covers.{IsCovered};
ghost use Rattle.bridge_meter.specs.Steps.{IsWithinLimits, meter_step, meter_reply, refill_buckets, colour_by_buckets, spend_tokens};

use std::marker::Model;

/// Bucket units per octet. A rate of n bit/s adds n units per ns, so no computation rounds.
pub const UNITS_PER_OCTET: u128 = 8_000_000_000;

/// Highest rate of a meter, in bit/s.
pub const HIGHEST_RATE: u64 = 100_000_000_000;

/// Largest bucket of a meter, in octets: 2^32 - 1.
pub const LARGEST_BURST: u64 = u32::MAX as u64;

/// Colour that a meter gives a frame: green, yellow or red.
#[derive(Clone, Copy, Debug, PartialEq, Eq)]
pub enum Colour {
    /// Within the committed rate and burst.
    Green,
    /// Within the excess rate and burst.
    Yellow,
    /// Beyond the rates and bursts that the frame may use, or the red flag is set.
    Red,
}

/// Settings of a meter: rates in bit/s, bucket sizes in octets, and switches.
#[derive(Clone, Copy, Debug, PartialEq, Eq)]
pub struct MeterPlan {
    /// Committed information rate in bit/s, at most 10^11.
    pub cir: u64,
    /// Committed burst size in octets, below 2^32.
    pub cbs: u64,
    /// Excess information rate in bit/s, at most 10^11.
    pub eir: u64,
    /// Excess burst size in octets, below 2^32.
    pub ebs: u64,
    /// Whether overflow of the committed bucket enters the excess bucket.
    pub coupling: bool,
    /// Whether the meter is colour-aware: drop eligible frames can't be green.
    pub aware: bool,
    /// Whether the caller must drop yellow frames. This switch changes no colour.
    pub drop_yellow: bool,
    /// Whether a frame that the buckets make red sets the red flag, which makes all later frames red.
    pub mark_all_red: bool,
}

impl MeterPlan {
    /// Whether the rates are at most `HIGHEST_RATE` and the burst sizes at most `LARGEST_BURST`. `Meter::new` requires it.
    pub fn is_within_limits(&self) -> bool
        ensures { result ≡ is_within_limits self.now }
    {
        self.cir <= HIGHEST_RATE
            && self.eir <= HIGHEST_RATE
            && self.cbs <= LARGEST_BURST
            && self.ebs <= LARGEST_BURST
    }
}

/// Levels of a meter's two buckets, in units, and the time in ns of the last judged frame.
#[derive(Clone, Copy, Debug, PartialEq, Eq)]
pub struct Buckets {
    /// Level of the committed bucket, in units of 1/(8*10^9) octet.
    pub committed: u128,
    /// Level of the excess bucket, in units of 1/(8*10^9) octet.
    pub excess: u128,
    /// Arrival time in ns of the last frame that the buckets judged; 0 before the first.
    pub at: u64,
    /// Red flag: every later frame is red.
    pub all_red: bool,
}

/// Meter with a committed and an excess bucket.
#[derive(Drop)]
pub struct Meter {
    /// Rates, sizes and switches.
    plan: MeterPlan,
    /// Levels of the buckets, and the red flag.
    buckets: Buckets,
}

impl Model for Meter {
    ghost use Rattle.std.specs.Prelude.{◌≤◌, ◌*◌};
    ghost use Rattle.bridge_meter.specs.Colours.{octet_units};
    ghost use Rattle.bridge_meter.specs.StandsFor.{MeterState};
    ghost use Rattle.bridge_meter.specs.Steps.{IsWithinLimits};

    ghost Value = { MeterState };

    ghost view = { λ m. record { plan = m.plan; buckets = m.buckets } };

    ghost invariant = { λ m. IsWithinLimits m.plan × (m.buckets.committed ≤ m.plan.cbs * octet_units)
        × (m.buckets.excess ≤ m.plan.ebs * octet_units) };
}

impl Meter {
    /// Makes a meter with full buckets. Allocates no memory. `make_meters` of `bridge_filter` calls it.
    pub fn new(plan: MeterPlan) -> Meter
        requires { is_within_limits plan ≡ true }
        ensures { StandsFor plan result [] }
    {
        let buckets = Buckets {
            committed: plan.cbs as u128 * UNITS_PER_OCTET,
            excess: plan.ebs as u128 * UNITS_PER_OCTET,
            at: 0,
            all_red: false,
        };
        Meter { plan, buckets }
    }

    /// Returns the meter's settings: rates, burst sizes and switches. Callers read whether they must drop yellow frames.
    pub fn plan(&self) -> MeterPlan
        ensures plan { result ≡ self.now.plan }
        ensures stands { (plan : MeterPlan) (events : List MeterEvent) → StandsFor plan self.now events
            → result ≡ plan }
    {
        self.plan
    }

    /// Returns the colour of a frame that arrives at `t` ns with `octets` metered octets, and updates the buckets. `dei` is the drop
    /// eligible indication.
    ///
    /// While the red flag is set, the buckets stay unchanged. `meter_verdict` of `bridge_filter` calls it.
    pub fn colour(&mut self, t: u64, octets: u32, dei: bool) -> Colour
        requires { self.old.buckets.at ≤ t }
        ensures plan { self.new.plan ≡ self.old.plan }
        ensures at { self.new.buckets.at ≡ (if self.old.buckets.all_red then self.old.buckets.at else t) }
        ensures stands { (plan : MeterPlan) (events : List MeterEvent) → StandsFor plan self.old events
            → StandsFor plan self.new (Arrived t octets dei ∷ events) }
        ensures colour { (plan : MeterPlan) (events : List MeterEvent) → StandsFor plan self.old events
            → result ≡ frame_colour plan (meter_history plan events) t octets dei }
    {
        self.judge_frame(t, octets, dei)
    }

    /// Returns the levels of the buckets, the time of the last judged frame, and the red flag. `meter_buckets` of `bridge_filter` calls it.
    pub fn state(&self) -> Buckets
        ensures state { result ≡ self.now.buckets }
        ensures committed { result.committed ≤ self.now.plan.cbs * octet_units }
        ensures excess { result.excess ≤ self.now.plan.ebs * octet_units }
        ensures after { (plan : MeterPlan) (events : List MeterEvent) → StandsFor plan self.now events
            → result ≡ history_buckets plan (meter_history plan events) }
    {
        self.buckets
    }

    /// Clears the red flag. The levels stay. `clear_red` of `bridge_filter` calls it for a command of a run.
    pub fn clear_red(&mut self)
        ensures plan { self.new.plan ≡ self.old.plan }
        ensures buckets { self.new.buckets ≡ record self.old.buckets { all_red = false } }
        ensures stands { (plan : MeterPlan) (events : List MeterEvent) → StandsFor plan self.old events
            → StandsFor plan self.new (Cleared ∷ events) }
    {
        self.buckets.all_red = false;
    }

    /// Returns the colour of a frame that arrives at `t` ns: refills the buckets, takes the frame's units, and may set the red flag.
    ///
    /// While the red flag is set, it returns `Red` and changes nothing.
    ///
    /// `colour` calls it for each frame.
    fn judge_frame(&mut self, t: u64, octets: u32, dei: bool) -> Colour
        requires { self.old.buckets.at ≤ t }
        ensures step { self.new ≡ meter_step self.old t octets dei }
        ensures reply { result ≡ meter_reply self.old t octets dei }
    {
        if self.buckets.all_red {
            return Colour::Red;
        }
        let filled = refill_buckets(&self.plan, self.buckets, t);
        let (colour, left) = spend_tokens(&self.plan, filled, octets, dei);
        self.buckets = left;
        colour
    }
}

/// Returns the buckets after the refill from their last frame up to time `t` in ns. Neither level exceeds its bucket's size. `judge_frame`
/// calls it.
#[tactic(auto, unfolding(crate::specs::Steps::refill_buckets))]
fn refill_buckets(plan: &MeterPlan, buckets: Buckets, t: u64) -> Buckets
    requires plan { IsWithinLimits plan.now }
    requires committed { buckets.committed ≤ plan.now.cbs * octet_units }
    requires excess { buckets.excess ≤ plan.now.ebs * octet_units }
    requires time { buckets.at ≤ t }
    ensures filled { result ≡ refill_buckets (meter_limits plan.now) buckets t }
    ensures committed { result.committed ≤ plan.now.cbs * octet_units }
    ensures excess { result.excess ≤ plan.now.ebs * octet_units }
{
    let since = (t - buckets.at) as u128;
    let filled = buckets.committed + plan.cir as u128 * since;
    let committed = filled.min(plan.cbs as u128 * UNITS_PER_OCTET);
    let over = if plan.coupling { filled - committed } else { 0 };
    let excess = buckets.excess + plan.eir as u128 * since + over;
    Buckets {
        committed,
        excess: excess.min(plan.ebs as u128 * UNITS_PER_OCTET),
        at: t,
        ..buckets
    }
}

/// Returns the colour of a frame of `octets` octets by the refilled buckets, and the buckets after the frame took its units. `dei` is the
/// drop eligible indication. `judge_frame` calls it.
fn spend_tokens(plan: &MeterPlan, buckets: Buckets, octets: u32, dei: bool) -> (Colour, Buckets)
    ensures colour { result.0 ≡ colour_by_buckets plan.now buckets octets dei }
    ensures left { result.1 ≡ spend_tokens buckets octets result.0 (plan.now.mark_all_red && is_red result.0) }
    ensures committed { result.1.committed ≤ buckets.committed }
    ensures excess { result.1.excess ≤ buckets.excess }
{
    let need = octets as u128 * UNITS_PER_OCTET;
    if (!plan.aware || !dei) && need <= buckets.committed {
        let committed = buckets.committed - need;
        (
            Colour::Green,
            Buckets {
                committed,
                all_red: false,
                ..buckets
            },
        )
    } else if need <= buckets.excess {
        let excess = buckets.excess - need;
        (
            Colour::Yellow,
            Buckets {
                excess,
                all_red: false,
                ..buckets
            },
        )
    } else {
        let all_red = plan.mark_all_red;
        (Colour::Red, Buckets { all_red, ..buckets })
    }
}

/// The bucket levels `d` ns after the newest judged frame follow from the levels that this frame left. The overflow since any earlier frame
/// grows by an amount that doesn't depend on the earlier frame.
///
/// So a meter needs to store the newest levels only.
pub fn buckets_step()
    ensures committed { (l : bounds.Limits) (f : bounds.JudgedFrame) (fs : List bounds.JudgedFrame) (d : ℕ)
        → IsCovered l (f ∷ fs)
        → bounds.committed l (f.at + d) (f ∷ fs) ≡ min l.cbs (bounds.committed l f.at fs - f.green + l.cir * d) }
    ensures overflow { (l : bounds.Limits) (at then_held green now held d spend_tokens later_held : ℕ) → at ≤ now
        → green + held ≤ then_held + l.cir * (now - at) → spend_tokens + later_held ≤ held + l.cir * d
        → bounds.overflow l at then_held (spend_tokens + green) (now + d) later_held
        ≡ bounds.overflow l at then_held green now held + (held + l.cir * d - spend_tokens - later_held) }
    ensures excess { (l : bounds.Limits) (f : bounds.JudgedFrame) (fs : List bounds.JudgedFrame) (d : ℕ)
        → IsCovered l (f ∷ fs)
        → bounds.excess l (f.at + d) (f ∷ fs) ≡ min l.ebs
        (bounds.excess l f.at fs - f.yellow + l.eir * d + bounds.coupled_overflow l
        (bounds.committed l f.at fs - f.green + l.cir * d - bounds.committed l (f.at + d) (f ∷ fs))) }
{}

/// The definitions of bucket levels are exact: if arrival times never fall, none of their subtractions stops at 0. So subtraction of
/// natural numbers loses nothing.
pub fn bounds_are_covered()
    ensures { (plan : MeterPlan) (events : List MeterEvent) → AreInOrder (meter_history plan events).judged
        → IsCovered (meter_limits plan) (meter_history plan events).judged }
{}

/// Gives proofs the limits of meters as numbers.
pub fn the_limits()
    ensures units { UNITS_PER_OCTET ≡ 8 * 10 ^ 9 }
    ensures rate { HIGHEST_RATE ≡ 10 ^ 11 }
    ensures burst { LARGEST_BURST ≡ 2 ^ 32 - 1 }
{}
