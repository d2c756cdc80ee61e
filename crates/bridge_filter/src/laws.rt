//! Laws of stream filters. Each law is the contract of a function without a body.

ghost use Rattle.std.specs.Prelude.{◌≡◌, ℕ, List, Some, true};
ghost use Rattle.bridge_limits.specs.Members.{IsMember};
ghost use Rattle.bridge_filter.specs.declared.FilterPlan.{FilterPlan};
ghost use Rattle.bridge_filter.specs.Verdicts.{FilterInput, PolicePlans, FilterEvent, frame_filter, is_match, filter_steps};
ghost use Rattle.bridge_filter.specs.OwnEvents.{HasOwnInstances, own_filter_events, own_steps};

/// A filter is isolated: if no other filter uses its gate or its meter, only the filter's own events decide its results. The isolation
/// theorem rests on it.
pub fn own_events_suffice()
    ensures { (p : PolicePlans) (s : ℕ) (f : FilterPlan) → HasOwnInstances p s f → (es : List FilterEvent)
        → filter_steps p (own_filter_events p s f es) ≡ own_steps s f (filter_steps p es) }
{}

/// The filter of a frame is in the list and matches the frame's handle and priority. So only matching frames change a filter's record.
pub fn filter_matches()
    ensures listed { (fs : List (ℕ × FilterPlan)) (c : FilterInput) (x : ℕ × FilterPlan) → frame_filter fs c ≡ Some x
        → IsMember x fs }
    ensures matches { (fs : List (ℕ × FilterPlan)) (c : FilterInput) (x : ℕ × FilterPlan) → frame_filter fs c ≡ Some x
        → is_match x.1 c ≡ true }
    ensures handle { (fs : List (ℕ × FilterPlan)) (c : FilterInput) (x : ℕ × FilterPlan) (h : ℕ)
        → frame_filter fs c ≡ Some x
        → x.1.handle ≡ Some h
        → c.handle ≡ Some h }
    ensures priority { (fs : List (ℕ × FilterPlan)) (c : FilterInput) (x : ℕ × FilterPlan) (k : ℕ)
        → frame_filter fs c ≡ Some x
        → x.1.priority ≡ Some k
        → c.priority ≡ k }
{}
