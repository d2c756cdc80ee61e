//! Forwarding result of a frame, before its filter judges it.
use bridge_filter::FilterInput;
use bridge_forward::PortSet;

/// Forwarding result of a frame: malformed, not forwarded, or its egress ports with the data for the stream filters.
#[derive(Clone, Copy, Debug, PartialEq, Eq)]
pub enum Destination {
    /// The header can't be read.
    Malformed,
    /// The frame has no egress port.
    Nowhere,
    /// Egress ports `set`, and the data `call` for the stream filters.
    Forwarded { set: PortSet, call: FilterInput },
}
