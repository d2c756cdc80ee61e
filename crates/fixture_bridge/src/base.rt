//! The text of the base plan.
use std::alloc::{AllocError, Allocator};

/// Base plan. Frames of protected filter 10 enter at port 1 in the window of gate 1, and leave by port 3 in class 7. Filter 99 is the
/// catch-all filter, of class 0.
pub const BASE: &str = r#"
[[port]]
number = 1
mbps = 1000
rooms = [4, 4, 4, 4, 4, 4, 4, 4]
[[port]]
number = 2
mbps = 1000
rooms = [4, 4, 4, 4, 4, 4, 4, 4]
[[port]]
number = 3
mbps = 1000
rooms = [4, 4, 4, 4, 4, 4, 4, 4]
cycle = 1000000
gates = [{ open = [7], ns = 500000 }, { open = [0, 1, 2, 3, 4, 5, 6], ns = 500000 }]
[[vlan]]
vid = 10
members = [1, 2, 3]
[[static]]
vid = 10
address = "02-00-00-00-00-0A"
ports = [3]
[[stream]]
handle = 1
port = 1
kind = "null"
address = "02-00-00-00-00-0A"
vid = 10
tag = "tagged"
[[gate]]
number = 1
cycle = 1000000
entries = [{ open = true, ns = 300000, ipv = 7, octets = 600 }, { open = false, ns = 700000 }]
[[gate]]
number = 99
state = "open"
ipv = 0
[[filter]]
number = 10
handle = 1
gate = 1
max_sdu = 500
protected = true
[[filter]]
number = 99
gate = 99
"#;

/// Returns the text of the base plan with the lines `more` added.
pub fn base_with_lines<A: Allocator + Copy>(alloc: A, more: &str) -> Result<String<A>, AllocError> {
    let mut text = String::from_str(alloc, BASE)?;
    text.push_str(more)?;
    Ok(text)
}
