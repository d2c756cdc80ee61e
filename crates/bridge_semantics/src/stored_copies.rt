//! Origins, departures and drops as a run stores them: in arrays of octets, which need no alignment and so no padding.
ghost use Rattle.std.specs.Prelude.{◌≡◌, ◌≤◌, ◌<◌, ◌+◌, IfOk};

use crate::outcome::{Departure, Dropped, Origin};
use bridge_port::Refusal;
use std::alloc::{AllocError, Allocator};
use std::marker::Model;

/// Origin in nine octets. A run stores one for each frame of a filter.
#[derive(Debug, Drop)]
pub struct StoredOrigin {
    /// Arrival time in ns.
    at: [u8; 8],
    /// Ingress port.
    port: u8,
}

impl Model for StoredOrigin {
    ghost use Rattle.std.specs.Prelude.{◌≡◌, length};
    ghost use Rattle.std.specs.Int.{from_le_bytes, w64};
    ghost use Rattle.bridge_semantics.specs.declared.outcome.Origin.{Origin};

    ghost Value = { Origin };

    ghost view = { λ o. record { port = o.port; at = from_le_bytes w64 o.at } };
}

impl StoredOrigin {
    /// Packs an origin into its octets. `FilterRecorder::record_verdict` of `bridge_relay` calls it.
    #[inline(always)]
    pub fn new(origin: Origin) -> StoredOrigin
        ensures { result ≡ origin }
    {
        StoredOrigin {
            at: origin.at.to_le_bytes(),
            port: origin.port,
        }
    }

    /// Unpacks the origin. Reports and pictures need the frame's port and arrival time.
    #[inline(always)]
    pub fn origin(&self) -> Origin
        ensures { result ≡ self.now }
    {
        Origin {
            port: self.port,
            at: u64::from_le_bytes(self.at),
        }
    }
}

/// Departure in 16 octets. A run stores one for each copy that leaves.
#[derive(Debug, Drop)]
pub struct StoredDeparture {
    /// Start of transmission in ns.
    start: [u8; 8],
    /// Number of the frame among its filter's frames, from 1.
    own: [u8; 4],
    /// Low half of the transmission time in ns, gap included.
    time_low: [u8; 2],
    /// Octet of the transmission time above its low half.
    time_high: u8,
    /// Egress port.
    port: u8,
}

impl Model for StoredDeparture {
    ghost use Rattle.std.specs.Prelude.{◌+◌, ◌*◌, ◌<◌, ◌^◌};
    ghost use Rattle.std.specs.Int.{from_le_bytes, w16, w32, w64};
    ghost use Rattle.bridge_semantics.specs.declared.outcome.Departure.{Departure};

    ghost Value = { Departure };

    ghost view = { λ d. record {
      own = from_le_bytes w32 d.own;
      port = d.port;
      start = from_le_bytes w64 d.start;
      done = from_le_bytes w64 d.start + (from_le_bytes w16 d.time_low + 65536 * d.time_high);
    } };

    ghost invariant = { λ d. from_le_bytes w64 d.start + (from_le_bytes w16 d.time_low + 65536 * d.time_high)
        < 18446744073709551616 };
}

impl StoredDeparture {
    /// Packs the departure of frame `own` from port `port` into its octets. The transmission, from `start` to `done` in ns, takes less than
    /// 2^24 ns. `Relay::advance` of `bridge_relay` calls it.
    #[inline(always)]
    pub fn new(own: u32, port: u8, start: u64, done: u64) -> StoredDeparture
        requires ordered { start ≤ done }
        requires short { done < start + 16777216 }
        ensures { result ≡ record { own = own; port = port; start = start; done = done } }
    {
        let time = done - start;
        let low = (time % 65_536) as u16;
        StoredDeparture {
            start: start.to_le_bytes(),
            own: own.to_le_bytes(),
            time_low: low.to_le_bytes(),
            time_high: (time / 65_536) as u8,
            port,
        }
    }

    /// Unpacks the departure. `unpack_departures`, `last_frame` of `app_commands` and many more call it.
    #[inline(always)]
    pub fn departure(&self) -> Departure
        ensures { result ≡ self.now }
    {
        let start = u64::from_le_bytes(self.start);
        let time = u64::from(u16::from_le_bytes(self.time_low))
            + 65_536 * u64::from(self.time_high);
        Departure {
            own: u64::from(u32::from_le_bytes(self.own)),
            port: self.port,
            start,
            done: start + time,
        }
    }
}

/// Drop in six octets. A run stores one for each copy that a port drops.
#[derive(Debug, Drop)]
pub struct StoredDrop {
    /// Number of the frame among its filter's frames, from 1.
    own: [u8; 4],
    /// Egress port.
    port: u8,
    /// Why the port dropped the copy.
    refusal: Refusal,
}

impl Model for StoredDrop {
    ghost use Rattle.std.specs.Int.{from_le_bytes, w32};
    ghost use Rattle.bridge_semantics.specs.declared.outcome.Dropped.{Dropped};

    ghost Value = { Dropped };

    ghost view = { λ d. record { own = from_le_bytes w32 d.own; port = d.port; refusal = d.refusal } };
}

impl StoredDrop {
    /// Packs the drop of frame `own` at port `port` into its octets. `record_answer` of `bridge_relay` calls it.
    pub fn new(own: u32, port: u8, refusal: Refusal) -> StoredDrop
        ensures { result ≡ record { own = own; port = port; refusal = refusal } }
    {
        StoredDrop {
            own: own.to_le_bytes(),
            port,
            refusal,
        }
    }

    /// Unpacks the drop. `unpack_drops`, `prepend_line` of `bridge_report` and 10 more call it.
    #[inline(always)]
    pub fn dropped_copy(&self) -> Dropped
        ensures { result ≡ self.now }
    {
        Dropped {
            own: u64::from(u32::from_le_bytes(self.own)),
            port: self.port,
            refusal: self.refusal,
        }
    }
}

/// Unpacks the stored departures of a filter, in list order. Tables of runs need them.
pub fn unpack_departures<A: Allocator>(
    alloc: A,
    stored: &[StoredDeparture],
) -> Result<Vec<Departure, A>, AllocError>
    ensures { IfOk result (λ departures. departures.items ≡ stored.now) }
{
    let mut departures = Vec::with_capacity(alloc, stored.len())?;
    for departure in stored {
        departures.push(departure.departure())?;
    }
    Ok(departures)
}

/// Unpacks the stored drops of a filter, in list order. Tables of runs need them.
pub fn unpack_drops<A: Allocator>(
    alloc: A,
    stored: &[StoredDrop],
) -> Result<Vec<Dropped, A>, AllocError>
    ensures { IfOk result (λ drops. drops.items ≡ stored.now) }
{
    let mut drops = Vec::with_capacity(alloc, stored.len())?;
    for dropped in stored {
        drops.push(dropped.dropped_copy())?;
    }
    Ok(drops)
}
