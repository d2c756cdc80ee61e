//! Draws a plan (`draw_plan`), and the parts that pictures of plans and runs share.
ghost use Rattle.std.specs.Prelude.{◌≤◌, IfOk, length, string_bytes};

use crate::frame_selection::FrameSelection;
use crate::lane::{MAX_GATES, has_groups};
use crate::legend::{GATES, GROUP_RUN, RUN};
use crate::picture::Picture;
use crate::selection::{Selection, plan_span, shown_length};
use bridge_bounds::find_filter;
use bridge_check::{Accepted, CheckFault, Refused};
use bridge_config::Plan;
use bridge_groups::SharedQueue;
use bridge_limits::NoMemory;
use bridge_text::{AXIS_LEFT, Page, choose_word};
use show_lint::Hypercycle;
use std::alloc::{Allocator, Global};

/// Note for a requested port or filter that the plan lacks.
const NOT_IN_PLAN: &str = " (not in the plan)";

/// Note with the number of lanes that have too many windows.
const HATCHED_LANES: &str = "lanes with too many windows to draw (hatched): {0}";

/// Sentence in the head of a refused plan: two filters share a queue.
const SHARED_QUEUE: &str = "refused: filters {0} and {1} share the queue of port {3}, class {2}";

/// Sentence in the head of a refused plan: two classes share a window.
const SHARED_WINDOW: &str =
    "refused: port {3} opens another class together with class {2} of filter {0}";

/// Sentence in the head of a refused plan: a longest frame fits no window.
const NEVER_FITS: &str =
    "refused: the longest frame of filter {0} never fits in class {2} of port {3}";

/// Returns a template that explains a fault, and three numbers: the other filter `{1}`, the class `{2}` and the port `{3}`. Missing numbers
/// are 0. `{0}` in the template is the faulty filter.
///
/// `put_fault` calls it.
fn fault_template(fault: CheckFault) -> (&'static str, u32, u8, u8) {
    match fault {
        CheckFault::QueueShared {
            other,
            class,
            port,
            ..
        } => (SHARED_QUEUE, other, class, port),
        CheckFault::WindowShared { class, port, .. } => (SHARED_WINDOW, 0, class, port),
        CheckFault::MaxSduNeverFits { class, port, .. } => (NEVER_FITS, 0, class, port),
        _ => ("refused: filter {0}: {a}", 0, 0, 0),
    }
}

/// Writes how much of the hypercycle the picture shows. If the arguments select a part of the time (`is_part`), writes only the
/// hypercycle's length. `put_title` calls it.
fn put_hypercycle(page: &mut Page, times: Hypercycle, is_part: bool) {
    if times.length == 0 {
        return page.add_words("no gate control list");
    }
    let is_whole = times.length <= shown_length(times);
    if !is_part && !is_whole {
        page.put_duration(shown_length(times));
        page.add_words(" of a ");
    }
    page.add_words(choose_word(is_whole && !is_part, "one ", ""));
    page.add_words("hypercycle of ");
    page.add_words(choose_word(times.length == u64::MAX, "more than ", ""));
    page.put_duration(times.length);
}

impl Picture {
    /// Begins the head of a picture with the word `name`: `plan` or `run`. The caller ends the line.
    pub(crate) fn begin_head(&mut self, name: &str) {
        self.page.put_text("h", 100, 220, name, &[]);
        self.page.begin_text_line("t", 220);
    }

    /// Writes one port or filter of the selection: `only port 3` for the first (`is_first`), `, filter 10` later. Adds a note if the plan
    /// lacks it (`is_there` is false). `put_selection` calls it.
    fn put_selected(&mut self, form: &str, number: u32, is_first: bool, is_there: bool) {
        let lead = choose_word(is_first, "only ", ", ");
        self.page.add_piece(form, &[u64::from(number)], lead);
        self.page.add_words(choose_word(is_there, "", NOT_IN_PLAN));
    }

    /// Writes which ports and filters the picture shows, unless it shows all, and which of them the plan lacks. `draw_plan` and `draw_run`
    /// call it.
    pub(crate) fn put_selection<A: Allocator + Copy>(&mut self, plan: &Plan<A>, part: &Selection) {
        if part.ports.is_empty() && part.filters.is_empty() {
            return;
        }
        self.page.begin_text_line("b", 190);
        let mut is_first = true;
        for number in part.ports {
            let is_there = match u8::try_from(*number) {
                Ok(number) => plan.port(number).is_some(),
                Err(_) => false,
            };
            self.put_selected("{a}port {0}", *number, is_first, is_there);
            is_first = false;
        }
        for number in part.filters {
            let is_there = find_filter(plan.filters(), *number).is_some();
            self.put_selected("{a}filter {0}", *number, is_first, is_there);
            is_first = false;
        }
        self.page.end_text();
    }

    /// Writes the head of a plan's picture: how much of the hypercycle it shows, the schedule change, and the time span. `is_part` is true
    /// if arguments select a part of the time. `draw_plan` calls it.
    fn put_title(&mut self, times: Hypercycle, is_part: bool) {
        let span = self.span;
        self.begin_head("plan");
        let page = &mut self.page;
        put_hypercycle(page, times, is_part);
        if let Some(at) = times.change {
            page.add_words(choose_word(is_part, ", ", ", before and after the "));
            page.add_words("change at ");
            page.put_time(span.time_scale(), at);
        }
        page.add_words(", ");
        page.put_span(span);
        page.end_text();
    }

    /// Writes in the head why a plan is refused. Stores the port and class at fault, whose windows are drawn in another colour. `draw_plan`
    /// calls it.
    fn put_fault(&mut self, alloc: Global, fault: CheckFault) {
        let (template, other, class, port) = fault_template(fault);
        let is_beside = matches!(fault, CheckFault::WindowShared { .. });
        self.fault = (port, class, is_beside);
        let filter = u64::from(fault.filter().unwrap_or(0));
        let numbers = [filter, u64::from(other), u64::from(class), u64::from(port)];
        self.page.begin_text_line("b c1", 190);
        match format!(in alloc; "{fault}") {
            Ok(words) => self.page.add_piece(template, &numbers, words.as_str()),
            Err(_) => self.is_refused = true,
        }
        self.page.end_text();
    }

    /// Draws the parts below the head: the legend, each port's windows, frames and stream gates, and the time axis. `rows` has the shared
    /// queues of all groups, for the frames of a run.
    ///
    /// `draw_plan` and `draw_run` call it.
    pub(crate) fn put_ports<A: Allocator + Copy>(
        &mut self,
        plan: &Plan<A>,
        part: &Selection,
        accepted: Option<&Accepted<A>>,
        rows: &[SharedQueue],
        run: Option<&FrameSelection>,
    ) {
        self.share_windows(plan, part);
        let is_grouped = has_groups(plan);
        let legend = match run {
            None => GATES,
            Some(_) if is_grouped => GROUP_RUN,
            Some(_) => RUN,
        };
        self.put_legend(legend, is_grouped);
        self.page.skip_height(350);
        let top = self.page.bottom();
        let most = MAX_GATES / plan.ports().len().max(1);
        for port in plan.ports() {
            if part.has_port(port.number) {
                self.put_port(plan, port);
                if let (Some(accepted), Some(choice)) = (accepted, run) {
                    self.put_port_link(accepted, rows, choice, port.number);
                }
                self.put_gates(plan, port.number, most);
            }
        }
        if run.is_none() && part.ports.is_empty() {
            self.page.put_text("h", 100, 250, "stream gates", &[]);
            self.page.skip_height(310);
            self.put_gates(plan, 0, MAX_GATES);
            self.page.skip_height(60);
        }
        self.finish_ports(top);
    }

    /// Draws the time axis below the lanes, and writes above them how many lanes are hatched. `top` is the upper edge of the lanes, in
    /// tenths of a pixel. `put_ports` calls it.
    fn finish_ports(&mut self, top: u64) {
        self.page.put_axis(self.span, top, self.change);
        if self.hatched_lanes > 0 {
            self.page
                .begin_text("s", AXIS_LEFT, top.saturating_sub(200));
            self.page
                .add_piece(HATCHED_LANES, &[self.hatched_lanes], "");
            self.page.end_text();
        }
    }
}

/// Returns a plan's picture as SVG text of at most 2,000,000 octets: windows and open stream gates, by default over one hypercycle. A
/// refused plan's fault is in the head. Hatches windows beyond a limit.
///
/// `draw_checked` and `draw_selected_plan` of `app_commands` call it.
pub fn draw_plan<A: Allocator + Copy>(
    alloc: Global,
    checked: &Result<Accepted<A>, Refused<A>>,
    part: &Selection,
) -> Result<String, NoMemory>
    ensures { IfOk result (λ text. length (string_bytes text) ≤ 2000000) }
{
    let (plan, accepted, fault) = match checked {
        Ok(accepted) => (accepted.plan(), Some(accepted), None),
        Err(refused) => (&refused.plan, None, Some(refused.fault)),
    };
    let times = Hypercycle::from_plan(plan);
    let mut picture = Picture::new(alloc, times.change, part.span(plan_span(times)));
    picture.is_refused = fault == Some(CheckFault::NoMemory);
    if part.ports.is_empty() {
        for gate in plan.gates() {
            picture.is_refused |= picture.gates.push((0, gate.0)).is_err();
        }
    }
    picture.put_title(times, part.from.is_some() || part.to.is_some());
    picture.put_selection(plan, part);
    if let Some(fault) = fault {
        picture.put_fault(alloc, fault);
    }
    picture.put_ports(plan, part, accepted, &[], None);
    picture.finish(alloc)
}
