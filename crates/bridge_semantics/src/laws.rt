//! Laws of whole runs: contracts of functions without a body.
ghost use Rattle.std.specs.Prelude.{◌≡◌, ◌≤◌, ◌↔◌, ℕ, List, ◌∷◌, ◌++◌, length, max, Some, nat_eq, true};
ghost use Rattle.std.specs.Map.{lookup};
ghost use Rattle.bridge_limits.specs.Members.{IsMember};
ghost use Rattle.bridge_capture.specs.Grammar.{CapturedFrame};
ghost use Rattle.bridge_cycle.specs.Fits.{IsFirstFit};
ghost use Rattle.bridge_frame.specs.Link.{transmission_time};
ghost use Rattle.bridge_filter.specs.declared.FilterPlan.{FilterPlan};
ghost use Rattle.bridge_config.specs.Model.{Plan};
ghost use Rattle.bridge_config.specs.declared.ports.PortPlan.{PortPlan};
ghost use Rattle.bridge_config.specs.Rules.{IsPlan, find_port};
ghost use Rattle.bridge_check.specs.Acceptable.{HasAcceptableGroups, IsAcceptable};
ghost use Rattle.bridge_check.specs.Reach.{reaches_queue};
ghost use Rattle.bridge_semantics.specs.declared.outcome.View.{View};
ghost use Rattle.bridge_semantics.specs.declared.outcome.Outcome.{Outcome};
ghost use Rattle.bridge_port.specs.GateSchedule.{lists_open};
ghost use Rattle.bridge_port.specs.Schedule.{Copy, IsLawful, Started};
ghost use Rattle.bridge_port.specs.Solo.{IsSolo, IsFinished, last_done_time, class_copies};
ghost use Rattle.bridge_semantics.specs.Events.{arrivals, Event, own_events};
ghost use Rattle.bridge_semantics.specs.Offers.{CarriedFrame, egress_rules};
ghost use Rattle.bridge_semantics.specs.NextStarts.{ReachesStart};
ghost use Rattle.bridge_semantics.specs.Outputs.{EndsRun, ReachesTime};
ghost use Rattle.bridge_semantics.specs.Runs.{AreOwnQueues, AreFinished, IsOnLink, IsOutcome, IsRun, IsSoloView, AreSameViews};
ghost use Rattle.bridge_semantics.specs.Merge.{Input, IsMerged, input_events, own_inputs};
ghost use Rattle.bridge_semantics.specs.Groups.{IsGroupMember, IsGroupQueue, IsGroupCopy, IsPoliceRecord, HaveSamePoliceRecords, group_events, group_inputs};

use std::alloc::Allocator;

/// The reachable queues of a protected filter hold exactly the copies of its frames, in every run of an accepted plan. docs/ISOLATION.md
/// cites it.
pub fn own_queues<A: Allocator + Copy>()
    ensures { (p : Plan A) (n : ℕ) (f : FilterPlan) (es : List Event) (moments : ℕ → ℕ)
        (lists : ℕ → List (Copy CarriedFrame)) (q : ℕ) (out : PortPlan A) (x : Copy CarriedFrame)
        → IsPlan p
        → IsAcceptable p
        → IsMember (n, f) p.filters
        → f.protected ≡ true
        → IsRun p es moments lists
        → find_port p.ports q ≡ Some out
        → IsMember x (lists q)
        → (x.item.flow ≡ Some n) ↔ (reaches_queue p f q x.class ≡ true) }
{}

/// The copies of a protected filter are exactly those that the filter's own events give if each queue has a port to itself. The law holds
/// in every complete run of an accepted plan.
///
/// The isolation theorem rests on it.
pub fn own_queues_alone<A: Allocator + Copy>()
    ensures { (p : Plan A) (n : ℕ) (f : FilterPlan) (es : List Event) (moments : ℕ → ℕ)
        (lists : ℕ → List (Copy CarriedFrame))
        → IsPlan p
        → IsAcceptable p
        → IsMember (n, f) p.filters
        → f.protected ≡ true
        → IsRun p es moments lists
        → AreFinished lists
        → AreOwnQueues p n f es lists }
{}

/// While a port opens a reachable class of a protected filter, no copy of another class occupies the link. The law holds at any time of any
/// lawful schedule. docs/ISOLATION.md cites it.
pub fn no_other_class_occupies<A: Allocator + Copy>()
    ensures { (p : Plan A) (n : ℕ) (f : FilterPlan) (q c h u : ℕ) (out : PortPlan A) (xs : List (Copy CarriedFrame))
        (x : Copy CarriedFrame)
        → IsPlan p
        → IsAcceptable p
        → IsMember (n, f) p.filters
        → f.protected ≡ true
        → find_port p.ports q ≡ Some out
        → reaches_queue p f q c ≡ true
        → lists_open out.list c u ≡ true
        → IsLawful (egress_rules out) h xs
        → IsMember x xs
        → IsOnLink out x u
        → x.class ≡ c }
{}

/// The scheduler neither misses nor delays a transmission of a protected filter's reachable class. Its copies start as if the class had the
/// link alone (`alone`).
///
/// Each copy starts at the first time that fits, once it has arrived and the class's previous copy has left (`at_once`, `own`).
/// docs/ISOLATION.md cites it.
pub fn starts_as_alone<A: Allocator + Copy>()
    ensures alone { (p : Plan A) (n : ℕ) (f : FilterPlan) (q c h : ℕ) (out : PortPlan A) (xs : List (Copy CarriedFrame))
        → IsPlan p
        → IsAcceptable p
        → IsMember (n, f) p.filters
        → f.protected ≡ true
        → find_port p.ports q ≡ Some out
        → reaches_queue p f q c ≡ true
        → IsLawful (egress_rules out) h xs
        → IsFinished xs
        → IsSolo (egress_rules out) (class_copies c xs) }
    ensures at_once { (p : Plan A) (n : ℕ) (f : FilterPlan) (q c h s : ℕ) (out : PortPlan A)
        (newer : List (Copy CarriedFrame)) (x : Copy CarriedFrame) (older : List (Copy CarriedFrame))
        → IsPlan p
        → IsAcceptable p
        → IsMember (n, f) p.filters
        → f.protected ≡ true
        → find_port p.ports q ≡ Some out
        → reaches_queue p f q c ≡ true
        → IsLawful (egress_rules out) h (newer ++ x ∷ older)
        → IsFinished (newer ++ x ∷ older)
        → x.class ≡ c
        → x.fate ≡ Started s
        → IsFirstFit (lists_open out.list c) (transmission_time x.item.len out.speed)
        (max x.at (last_done_time (egress_rules out) (class_copies c older))) s }
    ensures own { (p : Plan A) (n : ℕ) (f : FilterPlan) (es : List Event) (moments : ℕ → ℕ)
        (lists : ℕ → List (Copy CarriedFrame)) (q s : ℕ) (out : PortPlan A) (newer : List (Copy CarriedFrame))
        (x : Copy CarriedFrame) (older : List (Copy CarriedFrame))
        → IsPlan p
        → IsAcceptable p
        → IsMember (n, f) p.filters
        → f.protected ≡ true
        → IsRun p es moments lists
        → AreFinished lists
        → find_port p.ports q ≡ Some out
        → lists q ≡ newer ++ x ∷ older
        → x.item.flow ≡ Some n
        → x.fate ≡ Started s
        → IsFirstFit (lists_open out.list x.class) (transmission_time x.item.len out.speed)
        (max x.at (last_done_time (egress_rules out) (class_copies x.class older))) s }
{}

/// A protected filter's record in a run equals the record if only the filter's own events arrive and each queue has a port to itself. This
/// is the isolation theorem (docs/ISOLATION.md).
pub fn filter_is_isolated<A: Allocator + Copy>()
    ensures { (p : Plan A) (n : ℕ) (f : FilterPlan) (es : List Event) (lists : ℕ → List (Copy CarriedFrame))
        (o : Outcome A) (v : View A)
        → IsPlan p
        → IsAcceptable p
        → IsMember (n, f) p.filters
        → f.protected ≡ true
        → IsOutcome p es lists o
        → lookup (nat_eq n) o.filters.items ≡ Some v
        → IsSoloView p n f (own_events p n f es) v }
{}

/// Own events determine one record of a filter whose queues have their ports to themselves. The isolation law therefore names a single
/// record.
pub fn solo_view_is_unique<A: Allocator + Copy>()
    ensures { (p : Plan A) (n : ℕ) (f : FilterPlan) (es : List Event) (u v : View A)
        → IsSoloView p n f es u
        → IsSoloView p n f es v
        → AreSameViews u v }
{}

/// Two runs of an accepted plan with equal own events of a protected filter give it equal records. Other events change nothing.
/// docs/ISOLATION.md cites it.
pub fn others_change_nothing<A: Allocator + Copy>()
    ensures { (p : Plan A) (n : ℕ) (f : FilterPlan) (es others : List Event) (lists more : ℕ → List (Copy CarriedFrame))
        (o q : Outcome A) (u v : View A)
        → IsPlan p
        → IsAcceptable p
        → IsMember (n, f) p.filters
        → f.protected ≡ true
        → own_events p n f es ≡ own_events p n f others
        → IsOutcome p es lists o
        → IsOutcome p others more q
        → lookup (nat_eq n) o.filters.items ≡ Some u
        → lookup (nat_eq n) q.filters.items ≡ Some v
        → AreSameViews u v }
{}

/// No port sends more frames than arrive at the bridge, so output captures keep the limit of records.
///
/// Clauses: complete runs (`whole`), runs up to a time (`so_far`), runs up to the start of a transmission (`to_start`).
pub fn few_leave<A: Allocator + Copy>()
    ensures whole { (p : Plan A) (es : List Event) (left : ℕ
        → List CapturedFrame) (o : Outcome A) (q : ℕ) (out : PortPlan A)
        → EndsRun p es left o
        → find_port p.ports q ≡ Some out
        → length (left q) ≤ length (arrivals es) }
    ensures so_far { (p : Plan A) (es : List Event) (moment : ℕ) (left : ℕ
        → List CapturedFrame) (q : ℕ) (out : PortPlan A)
        → ReachesTime p es moment left
        → find_port p.ports q ≡ Some out
        → length (left q) ≤ length (arrivals es) }
    ensures to_start { (p : Plan A) (es : List Event) (moment port : ℕ) (left : ℕ → List CapturedFrame) (q : ℕ)
        (out : PortPlan A)
        → ReachesStart p es moment port left
        → find_port p.ports q ≡ Some out
        → length (left q) ≤ length (arrivals es) }
{}

/// The commands and the ports' captures have one merged list of inputs. So contracts may speak of the inputs of a run.
pub fn merged_list_is_unique()
    ensures { (streams : ℕ → List Input) (xs ys : List Input) → IsMerged streams xs → IsMerged streams ys → xs ≡ ys }
{}

/// A filter's own commands, and its own frames on each port, determine its own events. If two sets of captures differ only in frames of
/// other filters, the own events are equal.
///
/// docs/ISOLATION.md cites it.
pub fn own_by_stream<A: Allocator + Copy>()
    ensures { (p : Plan A) (n : ℕ) (f : FilterPlan) (streams others : ℕ → List Input) (xs ys : List Input)
        → IsMerged streams xs
        → IsMerged others ys
        → ((q : ℕ) → own_inputs p n f (streams q) ≡ own_inputs p n f (others q))
        → own_events p n f (input_events xs) ≡ own_events p n f (input_events ys) }
{}

/// A copy of a grouped filter is in a queue that this filter can reach (`reach`). A queue that the group can reach holds only copies of the
/// group (`members`).
///
/// The isolation of groups rests on it.
pub fn group_queues_hold_members<A: Allocator + Copy>()
    ensures reach { (p : Plan A) (group n : ℕ) (f : FilterPlan) (es : List Event) (moments : ℕ → ℕ)
        (lists : ℕ → List (Copy CarriedFrame)) (q : ℕ) (out : PortPlan A) (x : Copy CarriedFrame)
        → IsPlan p
        → HasAcceptableGroups p
        → IsGroupMember p group n f
        → IsRun p es moments lists
        → find_port p.ports q ≡ Some out
        → IsMember x (lists q)
        → x.item.flow ≡ Some n
        → reaches_queue p f q x.class ≡ true }
    ensures members { (p : Plan A) (group : ℕ) (es : List Event) (moments : ℕ → ℕ)
        (lists : ℕ → List (Copy CarriedFrame)) (q : ℕ) (out : PortPlan A) (x : Copy CarriedFrame)
        → IsPlan p
        → HasAcceptableGroups p
        → IsRun p es moments lists
        → find_port p.ports q ≡ Some out
        → IsMember x (lists q)
        → IsGroupQueue p group q x.class
        → IsGroupCopy p group x }
{}

/// The record of a grouped filter in a run equals its record on an idle bridge. There, only the group's own events arrive, and queues have
/// their ports to themselves.
///
/// Other traffic changes nothing of it. This is the isolation theorem for groups (docs/ISOLATION.md).
pub fn group_is_isolated<A: Allocator + Copy>()
    ensures { (p : Plan A) (group n : ℕ) (f : FilterPlan) (es : List Event) (lists : ℕ → List (Copy CarriedFrame))
        (o : Outcome A) (v : View A)
        → IsPlan p
        → HasAcceptableGroups p
        → IsGroupMember p group n f
        → IsOutcome p es lists o
        → lookup (nat_eq n) o.filters.items ≡ Some v
        → IsSoloView p n f (group_events p group es) v }
{}

/// A grouped filter's verdicts, counters, flags and buckets are those that its own events alone give. Other members of its group can't
/// change them.
pub fn member_decides_alone<A: Allocator + Copy>()
    ensures { (p : Plan A) (group n : ℕ) (f : FilterPlan) (es : List Event) (lists : ℕ → List (Copy CarriedFrame))
        (o : Outcome A) (v : View A)
        → IsPlan p
        → HasAcceptableGroups p
        → IsGroupMember p group n f
        → IsOutcome p es lists o
        → lookup (nat_eq n) o.filters.items ≡ Some v
        → IsPoliceRecord p n f (own_events p n f es) v }
{}

/// If two runs have equal own events of a group, the records of its filters are equal, whatever else arrived. docs/ISOLATION.md cites it.
pub fn outsiders_change_nothing<A: Allocator + Copy>()
    ensures { (p : Plan A) (group n : ℕ) (f : FilterPlan) (es others : List Event)
        (lists more : ℕ → List (Copy CarriedFrame)) (o q : Outcome A) (u v : View A)
        → IsPlan p
        → HasAcceptableGroups p
        → IsGroupMember p group n f
        → group_events p group es ≡ group_events p group others
        → IsOutcome p es lists o
        → IsOutcome p others more q
        → lookup (nat_eq n) o.filters.items ≡ Some u
        → lookup (nat_eq n) q.filters.items ≡ Some v
        → AreSameViews u v }
{}

/// If two runs have equal own events of one grouped filter, its verdicts, counters, flags and buckets are equal. Other filters of the group
/// can't change them. docs/ISOLATION.md cites it.
pub fn members_change_no_verdict<A: Allocator + Copy>()
    ensures { (p : Plan A) (group n : ℕ) (f : FilterPlan) (es others : List Event)
        (lists more : ℕ → List (Copy CarriedFrame)) (o q : Outcome A) (u v : View A)
        → IsPlan p
        → HasAcceptableGroups p
        → IsGroupMember p group n f
        → own_events p n f es ≡ own_events p n f others
        → IsOutcome p es lists o
        → IsOutcome p others more q
        → lookup (nat_eq n) o.filters.items ≡ Some u
        → lookup (nat_eq n) q.filters.items ≡ Some v
        → HaveSamePoliceRecords u v }
{}

/// A group's own commands, and its own frames on each port, determine its own events. If two sets of captures differ only in frames of
/// outsiders, the own events are equal.
pub fn group_by_stream<A: Allocator + Copy>()
    ensures { (p : Plan A) (group : ℕ) (streams others : ℕ → List Input) (xs ys : List Input)
        → IsMerged streams xs
        → IsMerged others ys
        → ((q : ℕ) → group_inputs p group (streams q) ≡ group_inputs p group (others q))
        → group_events p group (input_events xs) ≡ group_events p group (input_events ys) }
{}
