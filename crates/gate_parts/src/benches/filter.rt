//! Measures calls of `pass` with `filters` filters, each with its own gate and meter.
ghost use Rattle.std.specs.Prelude.{◌≡◌, ◌≤◌, IfOk};

use super::{nanos, next};
use crate::police::{Gates, make_police, push_gate};
use crate::words::{Fault, Output};
use bridge_filter::{FilterPlan, Police, Ruling, Verdict};
use bridge_meter::MeterPlan;
use std::alloc::{AllocError, Global};
use std::io;
use std::rt::Clock;
use std::time::{Duration, Instant};

/// Time in ns from a frame to the next.
const STEP: u64 = 700;

const METER: MeterPlan = MeterPlan {
    cir: 100_000_000_000,
    cbs: 10_000,
    eir: 0,
    ebs: 0,
    coupling: false,
    aware: false,
    drop_yellow: false,
    mark_all_red: false,
};

/// A gate that is open for 300,000 ns, then closed for 700,000 ns.
const WINDOW: &str = "gate cycle 1000000 open,7:300000 shut:700000";

/// Lets `filters` filters judge `calls` frames, and adds the time.
pub fn measure(clock: &impl Clock, said: &mut Output, calls: u64, filters: u32) -> io::Result<()>
    requires few { calls ≤ 4_000_000 }
    requires some { 1 ≤ filters }
{
    let Ok(mut police) = make_bench_police(said.alloc, filters) else {
        return Err(io::Error::from(io::ErrorKind::OutOfMemory));
    };
    let timed = time(clock, &mut police, calls, filters);
    drop(police);
    match timed {
        Ok((time, passed)) => {
            let numbers = [calls, filters as u64, nanos(time), passed];
            said.text.put_template(
                "{0} calls of pass, {1} filters: {2} ns, {3} frames passed\n",
                &numbers,
                &[],
            );
            Ok(())
        }
        Err(fault) => Err(fault),
    }
}

/// Returns the duration of the calls, and the number of frames that passed the gates.
fn time(
    clock: &impl Clock,
    police: &mut Police<Global>,
    calls: u64,
    filters: u32,
) -> io::Result<(Duration, u64)>
    requires early { police.old.earliest ≡ 0 }
    requires fresh { police.old.calls ≡ 0 }
    requires few { calls ≤ 4_000_000 }
    requires some { 1 ≤ filters }
{
    let start = Instant::now(clock)?;
    let passed = count_passes(police, calls, filters);
    Ok((start.elapsed(clock)?, passed))
}

/// Returns the number of frames that passed the gates. Each frame belongs to a random stream of `streams`.
fn count_passes(police: &mut Police<Global>, calls: u64, streams: u32) -> u64
    requires early { police.old.earliest ≡ 0 }
    requires fresh { police.old.calls ≡ 0 }
    requires few { calls ≤ 4_000_000 }
    requires some { 1 ≤ streams }
{
    let mut seed = 1;
    let mut passed = 0u64;
    for call in 0..calls {
        seed = next(seed);
        let handle = (seed / 65_536 % u64::from(streams)) as u32;
        let ruling = police.pass(call * STEP, Some(handle), 3, false, 100, 80);
        if is_passed(ruling) {
            passed = passed.wrapping_add(1);
        }
    }
    passed
}

/// Whether a stream gate let the frame pass.
fn is_passed(ruling: Option<Ruling>) -> bool {
    match ruling {
        Some(ruling) => ruling.verdict != Verdict::GateClosed,
        None => false,
    }
}

/// Makes `count` filters, each with its own stream, gate and meter.
fn make_bench_police(alloc: Global, count: u32) -> Result<Police<Global>, Fault>
    ensures { IfOk result (λ p. (p.calls ≡ 0) × (p.earliest ≡ 0)) }
{
    let filters = make_filters(alloc, count)?;
    let meters = make_meters(alloc, count)?;
    let gates = make_gates(alloc, count)?;
    make_police(alloc, filters, gates, meters)
}

fn make_filters(alloc: Global, count: u32) -> Result<Vec<(u32, FilterPlan)>, AllocError> {
    let mut filters = Vec::new(alloc);
    for number in 0..count {
        let plan = FilterPlan {
            handle: Some(number),
            priority: None,
            gate: number,
            max_sdu: Some(500),
            meter: Some(number),
            block_oversize: true,
            protected: true,
            group: None,
        };
        filters.push((number, plan))?;
    }
    Ok(filters)
}

fn make_meters(alloc: Global, count: u32) -> Result<Vec<(u32, MeterPlan)>, AllocError> {
    let mut meters = Vec::new(alloc);
    for number in 0..count {
        meters.push((number, METER))?;
    }
    Ok(meters)
}

fn make_gates(alloc: Global, count: u32) -> Result<Gates<Global>, Fault> {
    let mut gates = Vec::new(alloc);
    match push_windows(alloc, &mut gates, count) {
        Ok(()) => Ok(gates),
        Err(fault) => Err(fault),
    }
}

fn push_windows(alloc: Global, gates: &mut Gates<Global>, count: u32) -> Result<(), Fault> {
    for number in 0..count {
        push_gate(alloc, gates, number, WINDOW)?;
    }
    Ok(())
}
