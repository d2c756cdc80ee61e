//! Measures calls of `colour`, and an empty loop with an equal number of iterations.
ghost use Rattle.std.specs.Prelude.{◌≡◌, ◌≤◌};

use super::{nanos, next};
use crate::words::Output;
use bridge_meter::{Colour, Meter, MeterPlan};
use std::io;
use std::rt::Clock;
use std::time::{Duration, Instant};

/// Time in ns from a frame to the next.
const STEP: u64 = 700;

/// Meter with a committed rate of 4 Gb/s and an excess rate of 2 Gb/s.
const PLAN: MeterPlan = MeterPlan {
    cir: 4_000_000_000,
    cbs: 10_000,
    eir: 2_000_000_000,
    ebs: 10_000,
    coupling: true,
    aware: false,
    drop_yellow: false,
    mark_all_red: false,
};

/// Lets a meter judge `calls` frames, and adds the time.
pub fn measure(clock: &impl Clock, said: &mut Output, calls: u64) -> io::Result<()>
    requires few { calls ≤ 10_000_000 }
{
    let (without, sum) = time_empty(clock, calls)?;
    let (with, greens) = time_judged(clock, calls)?;
    let numbers = [calls, nanos(with), greens, nanos(without), sum];
    said.text.put_template(
        "{0} calls of colour: {1} ns, {2} green; an empty loop: {3} ns, sum {4}\n",
        &numbers,
        &[],
    );
    Ok(())
}

fn time_empty(clock: &impl Clock, calls: u64) -> io::Result<(Duration, u64)> {
    let start = Instant::now(clock)?;
    let sum = empty_loop(calls);
    Ok((start.elapsed(clock)?, sum))
}

fn time_judged(clock: &impl Clock, calls: u64) -> io::Result<(Duration, u64)>
    requires few { calls ≤ 10_000_000 }
{
    let mut meter = Meter::new(PLAN);
    let start = Instant::now(clock)?;
    let greens = count_green(&mut meter, calls);
    Ok((start.elapsed(clock)?, greens))
}

/// Repeats the loop without a meter: draws numbers, and returns how many are even.
fn empty_loop(calls: u64) -> u64 {
    let mut seed = 1;
    let mut sum = 0u64;
    for _ in 0..calls {
        seed = next(seed);
        if seed / 65_536 % 2 == 0 {
            sum = sum.wrapping_add(1);
        }
    }
    sum
}

/// Repeats the loop with a call of `colour`, and returns the number of green frames.
fn count_green(meter: &mut Meter, calls: u64) -> u64
    requires fresh { meter.old.buckets.at ≡ 0 }
    requires few { calls ≤ 10_000_000 }
{
    let mut seed = 1;
    let mut greens = 0u64;
    for call in 0..calls {
        seed = next(seed);
        let octets = (seed / 65_536 % 1024) as u32;
        if is_green(meter, call * STEP, octets) {
            greens = greens.wrapping_add(1);
        }
    }
    greens
}

/// Whether the frame at time `t` is green.
fn is_green(meter: &mut Meter, t: u64, octets: u32) -> bool
    requires { meter.old.buckets.at ≤ t }
    ensures { meter.new.buckets.at ≤ t }
{
    meter.colour(t, octets, false) == Colour::Green
}
