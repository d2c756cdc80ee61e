#![tactic(auto)]
//! One egress port of a bridge: eight queues, eight transmission gates and strict priority (IEEE 802.1Q-2018, 8.6.8).

mod heads;
mod item;
mod law;
mod port;
mod queues;
mod spans;
mod transmission_gates;

pub use bridge_cycle::NoMemory;
pub use item::{Item, Refusal};
pub use law::{can_fit_is_exact, can_fit_soon, own_windows_isolate, solo_copies_follow, the_limit};
pub use port::Port;
pub use queues::{LARGEST_ROOM, are_valid_rooms};
