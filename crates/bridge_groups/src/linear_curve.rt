//! Arrival curves that are straight lines: a burst, and a rate at which more work may arrive.
ghost use Rattle.std.specs.Prelude.{◌≡◌, ℕ, true, ◌↔◌, ◌<◌, ◌≤◌, ◌*◌, ◌^◌, IfSome, None};
ghost use Rattle.bridge_groups.specs.LinearCurves.{IsLinearCurve, curve_at};

/// Time in ns up to which curves are evaluated, about 146 years. Times at or after it count as never reached.
pub(crate) const END_OF_CURVES: u64 = 4_611_686_018_427_387_904;

/// Most work in ns that may arrive at once. A greater burst has no computed bound.
pub const LARGEST_BURST: u64 = 4_000_000_000;

/// Arrival curve: in any `w` ns at most (`burst` + `rate` × w) / `unit` ns of work arrive, rounded down. Work is transmission time on the
/// link.
#[derive(Clone, Copy)]
pub struct LinearCurve {
    /// Work in `unit`ths of a ns that may arrive at once.
    pub burst: u128,
    /// Further work in `unit`ths of a ns for each ns.
    pub rate: u128,
    /// Parts of a ns in which burst and rate are given.
    pub unit: u128,
}

impl LinearCurve {
    /// Returns the most work in ns that arrives in any `w` ns. `has_frames`, `is_sufficient` and others call it.
    pub fn at(&self, w: u64) -> u64
        requires curve { IsLinearCurve self.now }
        requires fits { curve_at self.now w < END_OF_CURVES }
        requires time { w ≤ END_OF_CURVES }
        ensures { result ≡ curve_at self.now w }
    {
        ((self.burst + self.rate * w as u128) / self.unit) as u64
    }

    /// Returns the length in ns of the shortest span in which `work` ns of work can arrive, but at most `END_OF_CURVES`. Returns `None` if
    /// less than `work` ns ever arrive. `shortest_span` and `pass_run` call it.
    pub fn first_time(&self, work: u64) -> Option<u64>
        requires curve { IsLinearCurve self.now }
        requires work { work < END_OF_CURVES }
        ensures earlier { (w : ℕ) → IfSome result (λ t. w < t → curve_at self.now w < work) }
        ensures reached { IfSome result (λ t. t < END_OF_CURVES → work ≤ curve_at self.now t) }
        ensures bounded { IfSome result (λ t. t ≤ END_OF_CURVES) }
        ensures never { (w : ℕ) → result ≡ None → curve_at self.now w < work }
    {
        let needed = work as u128 * self.unit;
        if needed <= self.burst {
            return Some(0);
        }
        if self.rate == 0 {
            return None;
        }
        let time = (needed - self.burst + self.rate - 1) / self.rate;
        Some(time.min(END_OF_CURVES as u128) as u64)
    }

    /// Returns the most work in ns that arrives at once, or `None` if it is above `LARGEST_BURST`. `list_delay_bound` and `is_sufficient`
    /// call it.
    pub fn work_at_once(&self) -> Option<u64>
        requires curve { IsLinearCurve self.now }
        ensures work { IfSome result (λ work. work ≡ curve_at self.now 0) }
        ensures few { IfSome result (λ work. work ≤ LARGEST_BURST) }
    {
        let work = self.burst / self.unit;
        if work <= LARGEST_BURST as u128 {
            Some(work as u64)
        } else {
            None
        }
    }

    /// Whether at most `fits` ns of work arrive in each `cycle` ns in the long run. Otherwise the queue may grow without limit, so callers
    /// compute no bound. `windows_delay_bound` and `room_fits` call it.
    pub fn is_stable(&self, cycle: u64, fits: u64) -> bool
        requires curve { IsLinearCurve self.now }
        requires cycle { cycle ≤ 2 ^ 40 }
        ensures { (result ≡ true) ↔ (self.now.rate * cycle ≤ fits * self.now.unit) }
    {
        self.rate * cycle as u128 <= fits as u128 * self.unit
    }
}
