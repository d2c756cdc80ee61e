//! The eight tests of a protected or grouped filter.
ghost use Rattle.std.specs.Prelude.{◌≡◌, ◌≤◌, ◌<◌, ◌+◌, Some};
ghost use Rattle.std.specs.Option.{ForSome};
ghost use Rattle.bridge_config.specs.Rules.{find_port};
ghost use Rattle.bridge_check.specs.Reach.{reaches_queue};
ghost use Rattle.bridge_check.specs.Faults as spec;
ghost use Rattle.bridge_check.specs.ReachTables as reached;

use crate::check_fault::CheckFault;
use crate::reach::{Reach, filter_reach};
use crate::reaches::{FilterReach, least_outsider};
use crate::windows::{can_ever_fit, port_shared_phase};
use bridge_config::{Plan, PortPlan};
use bridge_filter::FilterPlan;
use std::alloc::Allocator;

/// Which of the three tests of a filter's reachable queues is made.
#[derive(Clone, Copy)]
pub(crate) enum QueueTest {
    /// Test 6: can another filter reach the queue? For a grouped filter, only filters outside its group count.
    Shared,
    /// Test 7: does the port open another class together with the queue's class?
    Window,
    /// Test 8: does some list lack a window for the filter's longest frame?
    Size,
}

/// Protected or grouped filter with the data that its tests use.
#[derive(Drop)]
struct FilterCase<'a, A: Allocator + Copy> {
    /// Plan that has the filter.
    plan: &'a Plan<A>,
    /// Reach of every filter, with the filter's number and group.
    reaches: &'a [FilterReach],
    /// Whether the plan has a catch-all filter.
    catches: bool,
    /// Number of the filter.
    number: u32,
    /// Filter that is tested.
    filter: FilterPlan,
    /// Ports and priorities that the filter's frames can have.
    reach: Reach,
}

/// Whether another filter uses the stream gate of `filter`. If so, test 3 fails, because frames of the other filter could close the gate.
/// `run_tests` calls it.
fn is_gate_shared(filters: &[(u32, FilterPlan)], number: u32, filter: &FilterPlan) -> bool
    ensures { result ≡ spec.is_gate_shared filters.now number filter.now }
{
    filters
        .iter()
        .any(|g| g.0 != number && g.1.gate == filter.gate)
}

/// Whether both meter numbers are present and equal. Two filters without a meter share none. `is_meter_shared` calls it.
fn is_same_meter(a: Option<u32>, b: Option<u32>) -> bool
    ensures { result ≡ spec.is_same_meter a b }
{
    match (a, b) {
        (Some(m), Some(n)) => m == n,
        _ => false,
    }
}

/// Whether another filter uses the meter of `filter`. If so, test 4 fails, because frames of the other filter could empty the buckets.
/// `run_tests` calls it.
fn is_meter_shared(filters: &[(u32, FilterPlan)], number: u32, filter: &FilterPlan) -> bool
    ensures { result ≡ spec.is_meter_shared filters.now number filter.now }
{
    filters.iter().any(|g| g.0 != number && is_same_meter(g.1.meter, filter.meter))
}

/// Whether every filter number is at most `number`. A catch-all filter must have the greatest number, so that it matches only frames that
/// match no other filter. `has_catch_all` calls it.
fn is_greatest_number(filters: &[(u32, FilterPlan)], number: u32) -> bool
    ensures { result ≡ spec.is_greatest_number filters.now number }
{
    filters.iter().all(|g| g.0 <= number)
}

/// Whether the filter with the greatest number is a catch-all filter. `all_faults` and `least_fault` call it.
pub(crate) fn has_catch_all(filters: &[(u32, FilterPlan)]) -> bool
    ensures { result ≡ spec.has_catch_all filters.now }
{
    filters.iter().any(|g| {
        is_greatest_number(filters, g.0) && !g.1.handle.is_some() && !g.1.priority.is_some()
    })
}

/// Whether `check` tests `filter`: only protected and grouped filters have tests. `push_filter_faults` and `numbered_fault` call it.
pub(crate) fn is_tested(filter: &FilterPlan) -> bool
    ensures { result ≡ spec.is_tested filter.now }
{
    filter.protected || filter.group.is_some()
}

/// Returns the group whose filters may share queues with a filter; `None` for a protected filter or a filter without a group.
/// `other_filter_in_queue` calls it.
fn queue_group(filter: &FilterPlan) -> Option<u32>
    ensures { result ≡ spec.queue_group filter.now }
{
    if filter.protected { None } else { filter.group }
}

impl<'a, A: Allocator + Copy> FilterCase<'a, A> {
    /// Returns the lowest number of a filter that can reach class `class` at `port` (number `q`), but may not share this queue. `None` if
    /// only filters that may share the queue can reach the class.
    ///
    /// `queue_test_fault` calls it.
    fn other_filter_in_queue(&self, port: &PortPlan<A>, q: u8, class: u8) -> Option<u32>
        requires port { find_port self.now.plan.now.ports q ≡ Some port.now }
        requires from { 1 ≤ q }
        requires to { q ≤ 16 }
        requires case { reached.IsCase self.now }
        ensures { result ≡ reached.other_or_outsider self.now.plan.now (spec.queue_group self.now.filter)
            self.now.number q class }
    {
        let group = queue_group(&self.filter);
        least_outsider(self.reaches, group, self.number, q, &port.classes, class)
    }

    /// Returns the fault if class `class` at `port`, which has number `q`, fails `test`; otherwise `None`. `reached_queue_fault` calls it.
    fn queue_test_fault(
        &self,
        test: QueueTest,
        port: &PortPlan<A>,
        q: u8,
        class: u8,
    ) -> Option<CheckFault>
        requires port { find_port self.now.plan.now.ports q ≡ Some port.now }
        requires from { 1 ≤ q }
        requires to { q ≤ 16 }
        requires class { class < 8 }
        requires case { reached.IsCase self.now }
        ensures { result ≡ reached.queue_test_fault self.now.plan.now self.now.number self.now.filter test q class }
    {
        match test {
            QueueTest::Shared => {
                let other = self.other_filter_in_queue(port, q, class)?;
                Some(CheckFault::QueueShared {
                    filter: self.number,
                    port: q,
                    class,
                    other,
                })
            }
            QueueTest::Window => {
                let at = port_shared_phase(port, class)?;
                Some(CheckFault::WindowShared {
                    filter: self.number,
                    port: q,
                    class,
                    at,
                })
            }
            QueueTest::Size => {
                let sdu = self.filter.max_sdu?;
                if can_ever_fit(port, class, sdu) {
                    return None;
                }
                Some(CheckFault::MaxSduNeverFits {
                    filter: self.number,
                    port: q,
                    class,
                })
            }
        }
    }
}

impl<'a, A: Allocator + Copy> FilterCase<'a, A> {
    /// Whether the filter can reach class `class` at `port`, which has number `q`. `reached_queue_fault` calls it.
    fn reaches_queue(&self, port: &PortPlan<A>, q: u8, class: u8) -> bool
        requires port { find_port self.now.plan.now.ports q ≡ Some port.now }
        requires from { 1 ≤ q }
        requires to { q ≤ 16 }
        requires case { reached.IsCase self.now }
        ensures { result ≡ reaches_queue self.now.plan.now self.now.filter q class }
    {
        self.reach.has_queue(q, &port.classes, class)
    }

    /// Returns the fault if class `class` at `port`, which has number `q`, is reachable and fails `test`; otherwise `None`.
    /// `first_or_queue_fault` calls it.
    fn reached_queue_fault(
        &self,
        test: QueueTest,
        port: &PortPlan<A>,
        q: u8,
        class: u8,
    ) -> Option<CheckFault>
        requires port { find_port self.now.plan.now.ports q ≡ Some port.now }
        requires from { 1 ≤ q }
        requires to { q ≤ 16 }
        requires class { class < 8 }
        requires case { reached.IsCase self.now }
        ensures { result ≡ reached.reached_queue_fault self.now.plan.now self.now.number self.now.filter test q class }
    {
        if self.reaches_queue(port, q, class) {
            self.queue_test_fault(test, port, q, class)
        } else {
            None
        }
    }

    /// Returns `before` if it is a fault, otherwise the result of `test` for class `class` at `port`. `first_fault_on_port` calls it for
    /// each class.
    fn first_or_queue_fault(
        &self,
        before: Option<CheckFault>,
        test: QueueTest,
        port: &PortPlan<A>,
        q: u8,
        class: u8,
    ) -> Option<CheckFault>
        requires port { find_port self.now.plan.now.ports q ≡ Some port.now }
        requires from { 1 ≤ q }
        requires to { q ≤ 16 }
        requires class { class < 8 }
        requires case { reached.IsCase self.now }
        ensures { result ≡ spec.first_option before
            (reached.reached_queue_fault self.now.plan.now self.now.number self.now.filter
            test q class) }
    {
        if before.is_some() {
            return before;
        }
        self.reached_queue_fault(test, port, q, class)
    }

    /// Returns the first fault of `test` among the classes of `port`, which has number `q`; `None` if all pass.
    /// `first_fault_on_numbered_port` calls it.
    #[tactic(auto, using(crate::proofs::Told::first_none, crate::proofs::Told::first_more))]
    fn first_fault_on_port(&self, test: QueueTest, port: &PortPlan<A>, q: u8) -> Option<CheckFault>
        requires port { find_port self.now.plan.now.ports q ≡ Some port.now }
        requires from { 1 ≤ q }
        requires to { q ≤ 16 }
        requires case { reached.IsCase self.now }
        ensures { result ≡ spec.first_among_numbers 8
            (reached.reached_queue_fault self.now.plan.now self.now.number self.now.filter
            test q) }
    {
        let mut first = None;
        for class in 0..8u8 {
            first = self.first_or_queue_fault(first, test, port, q, class);
        }
        first
    }

    /// Returns the first fault of `test` among the classes of port `q`; `None` if all pass or the plan lacks the port.
    /// `first_or_port_fault` calls it.
    fn first_fault_on_numbered_port(&self, test: QueueTest, q: u8) -> Option<CheckFault>
        requires from { 1 ≤ q }
        requires to { q ≤ 16 }
        requires case { reached.IsCase self.now }
        ensures { result ≡ spec.first_among_numbers 8
            (reached.reached_queue_fault self.now.plan.now self.now.number self.now.filter
            test q) }
    {
        match self.plan.port(q) {
            Some(port) => self.first_fault_on_port(test, port, q),
            None => None,
        }
    }

    /// Returns `before` if it is a fault, otherwise the first fault of `test` at port `q`. `first_fault_in_reach` calls it for each port.
    fn first_or_port_fault(
        &self,
        before: Option<CheckFault>,
        test: QueueTest,
        q: u8,
    ) -> Option<CheckFault>
        requires from { 1 ≤ q }
        requires to { q ≤ 16 }
        requires case { reached.IsCase self.now }
        ensures { result ≡ spec.first_option before (spec.first_among_numbers 8
            (reached.reached_queue_fault self.now.plan.now self.now.number self.now.filter test q)) }
    {
        if before.is_some() {
            return before;
        }
        self.first_fault_on_numbered_port(test, q)
    }

    /// Returns the first fault of `test` among the filter's reachable queues, by rising port and class; `None` if all pass. `run_tests`
    /// calls it.
    #[tactic(auto, using(crate::proofs::Told::first_none, crate::proofs::Told::first_more))]
    fn first_fault_in_reach(&self, test: QueueTest) -> Option<CheckFault>
        requires { reached.IsCase self.now }
        ensures { result ≡ spec.first_among_numbers 16 (λ i. spec.first_among_numbers 8
            (reached.reached_queue_fault self.now.plan.now self.now.number self.now.filter test (i + 1))) }
    {
        let mut first = None;
        for i in 0..16u8 {
            first = self.first_or_port_fault(first, test, i + 1);
        }
        first
    }
}

/// Returns `None` if a filter passes a test, otherwise `fault`. `run_tests` calls it.
fn fault_unless(passes: bool, fault: CheckFault) -> Option<CheckFault>
    ensures { result ≡ spec.fault_unless passes fault }
{
    if passes { None } else { Some(fault) }
}

/// Returns the first fault in the results of the tests; `None` if the filter passed them all. `numbered_fault` calls it.
pub(crate) fn first_test_fault(tests: &[Option<CheckFault>]) -> Option<CheckFault>
    ensures { result ≡ spec.first_test_fault tests.now }
{
    for told in tests {
        if told.is_some() {
            return *told;
        }
    }
    None
}

impl<'a, A: Allocator + Copy> FilterCase<'a, A> {
    /// Returns the results of the eight tests, in order; `None` for a passed test. `test_filter` calls it.
    fn run_tests(&self) -> [Option<CheckFault>; 8]
        requires { reached.IsCase self.now }
        ensures { result ≡ reached.case_tests self.now.plan.now (spec.queue_group self.now.filter) self.now.number
            self.now.filter }
    {
        let filter = self.number;
        let filters = self.plan.filters();
        let shares_gate = is_gate_shared(filters, filter, &self.filter);
        let shares_meter = is_meter_shared(filters, filter, &self.filter);
        [
            fault_unless(
                self.filter.handle.is_some(),
                CheckFault::ProtectedWildcard { filter },
            ),
            fault_unless(
                self.filter.max_sdu.is_some(),
                CheckFault::NoMaxSdu { filter },
            ),
            fault_unless(!shares_gate, CheckFault::GateShared { filter }),
            fault_unless(!shares_meter, CheckFault::MeterShared { filter }),
            fault_unless(self.catches, CheckFault::NoCatchAll { filter }),
            self.first_fault_in_reach(QueueTest::Shared),
            self.first_fault_in_reach(QueueTest::Window),
            self.first_fault_in_reach(QueueTest::Size),
        ]
    }
}

/// Returns the results of the eight tests of filter `number`, in order; `None` for a passed test. `reaches` has every filter's reach;
/// `catches` is true if the plan has a catch-all filter.
///
/// `push_filter_faults` and `numbered_fault` call it.
pub(crate) fn test_filter<A: Allocator + Copy>(
    plan: &Plan<A>,
    reaches: &[FilterReach],
    catches: bool,
    number: u32,
    filter: FilterPlan,
) -> [Option<CheckFault>; 8]
    requires reaches { reaches.now ≡ reached.all_reaches plan.now plan.now.filters }
    requires catches { catches ≡ spec.has_catch_all plan.now.filters }
    requires sdu { ForSome filter.max_sdu (λ n. n ≤ 65535) }
    ensures { result ≡ spec.kind_tests plan.now number filter }
{
    let case = FilterCase {
        plan,
        reaches,
        catches,
        number,
        filter,
        reach: filter_reach(plan, &filter),
    };
    case.run_tests()
}
