#![tactic(auto)]
//! Complete runs of networks in rounds. The run ends when each link delivers exactly the frames that its sender sent.

mod bridge_run;
mod delayed_capture;
mod input_capture;
mod rounds;

pub use bridge_run::{BridgeInput, is_linked};
pub use delayed_capture::delay_capture;
pub use rounds::{BridgeResult, NoObserver, RoundObserver, RoundsFault, run_network};
