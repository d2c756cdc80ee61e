#![tactic(auto)]
//! States that change with time in repeating cycles, and the times at which a transmission fits.
//!
//! A gate control list (IEEE 802.1Q-2018, 8.6.8.4) and the list of a stream gate (8.6.5.1.2) are a `CyclicList`. Two lists with a
//! schedule change are a `Joined`.

pub mod changing_list;
pub mod cyclic_list;
pub mod fit_search;
pub mod gate_control_lists;
pub mod laws;
pub mod run;
pub mod timeline;

pub use bridge_limits::NoMemory;
pub use changing_list::Joined;
pub use cyclic_list::{CyclicList, LONGEST_CYCLE, ListFault, MAX_ENTRIES};
pub use fit_search::{END_OF_SEARCHES, first_fit, is_open};
pub use gate_control_lists::Egress;
pub use run::{Run, longest_run};
pub use timeline::{END_OF_TURNS, Timeline, Turn};
