//! Tests that stream filters neither allocate nor free memory.
ghost use Rattle.std.specs.Prelude.{◌≡◌, IsTrue};
ghost use Rattle.bridge_filter.specs.Plans.{is_listed, KeepsNumbers};

use crate::account::{HasAccount, NEVER, is_untouched};
use crate::parts::make_police;
use bridge_filter::Verdict::{
    Blocked, GateClosed, OctetsExceeded, Oversize, Pass, Red, ShutByOctets, ShutByRx,
};
use bridge_filter::{Clear, Flags, NoMemory, Police, Ruling, Verdict};
use std::alloc::Allocator;
use std::process::Abort;

/// Passed by the gate, and coloured yellow.
const YELLOW: Verdict = Pass {
    ipv: Some(7),
    eligible: true,
};

const NO_FLAGS: Flags = Flags {
    blocked: false,
    rx: false,
    octets: false,
    red: false,
};

/// Tests that filter 10 gives a frame this verdict.
fn is_ruled(rt: &impl Abort, ruling: Option<Ruling>, verdict: Verdict, t: u64) {
    let wanted = Ruling {
        filter: 10,
        verdict,
    };
    assert!(rt; ruling == Some(wanted), "the frame at {t}");
}

/// Judges frames of the stream, each with its time and octets, and tests the verdicts.
fn verdicts<A: Allocator + Copy>(
    rt: &impl Abort,
    police: &mut Police<A>,
    frames: &[(u64, u32, Verdict)],
)
    ensures filters { police.new.filters ≡ police.old.filters }
    ensures gates { KeepsNumbers police.old.gates police.new.gates }
    ensures meters { KeepsNumbers police.old.meters police.new.meters }
{
    for (t, sdu, wanted) in frames {
        assert!(rt; police.earliest() <= *t && *t < 4_000_000_000_000_000_000);
        assert!(rt; police.calls() < 1000);
        let ruling = police.pass(*t, Some(1), 0, false, *sdu, 64);
        is_ruled(rt, ruling, *wanted, *t);
    }
}

/// Clears each flag.
fn clear_all<A: Allocator + Copy>(police: &mut Police<A>)
    requires filter { IsTrue (is_listed 10 police.old.filters) }
    requires gate { IsTrue (is_listed 1 police.old.gates) }
    requires meter { IsTrue (is_listed 5 police.old.meters) }
    ensures filters { police.new.filters ≡ police.old.filters }
{
    police.clear(Clear::Blocked, 10);
    police.clear(Clear::Rx, 1);
    police.clear(Clear::Octets, 1);
    police.clear(Clear::Red, 5);
}

/// Tests flags, counters and buckets of filter 10.
fn show<A: Allocator + Copy>(rt: &impl Abort, police: &Police<A>, wanted: Flags, frames: u64)
    requires { IsTrue (is_listed 10 police.now.filters) }
{
    let is_so = (police.flags(10) == wanted)
        & (police.counters(10).matching == frames)
        & police.buckets(10).is_some()
        & (police.calls() == frames)
        & (police.filter_number(Some(1), 0) == Some(10))
        & (police.filter_number(None, 0) == None);
    assert!(rt; is_so);
}

const FIRST: [(u64, u32, Verdict); 6] = [
    (0, 44, YELLOW),
    (0, 44, Red),
    (300_000, 44, GateClosed),
    (1_000_000, 44, ShutByRx),
    (1_000_000, 501, Oversize),
    (1_000_000, 44, Blocked),
];

const FLAGS: Flags = Flags {
    blocked: true,
    rx: true,
    octets: false,
    red: true,
};

const SECOND: [(u64, u32, Verdict); 3] = [
    (1_010_000, 500, Red),
    (1_020_000, 101, OctetsExceeded),
    (1_030_000, 44, ShutByOctets),
];

/// Judges frames, and clears each flag in between.
fn ask_police<A: Allocator + Copy>(rt: &impl Abort, police: &mut Police<A>)
    requires filter { IsTrue (is_listed 10 police.old.filters) }
    requires gate { IsTrue (is_listed 1 police.old.gates) }
    requires meter { IsTrue (is_listed 5 police.old.meters) }
{
    verdicts(rt, police, &FIRST);
    show(rt, police, FLAGS, 6);
    clear_all(police);
    show(rt, police, NO_FLAGS, 6);
    verdicts(rt, police, &SECOND);
}

/// Makes stream filters, and tests that asking them allocates nothing.
pub(crate) fn use_police<H: Allocator + Copy + HasAccount>(
    rt: &impl Abort,
    heap: H,
) -> Result<(), NoMemory> {
    let mut police = make_police(heap)?;
    let made = heap.account();
    assert!(rt; made.left < NEVER && made.used > 0);
    ask_police(rt, &mut police);
    is_untouched(rt, heap, made);
    drop(police);
    Ok(())
}
