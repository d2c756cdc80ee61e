//! A law of the tables of a network run: the contract of a function without a body. Reviewers read it; nobody calls this function.
ghost use Rattle.std.specs.Prelude.{◌≡◌, ℕ, List, Vec, None};
ghost use Rattle.bridge_limits.specs.Members.{IsMember};
ghost use Rattle.bridge_config.specs.Model.{Plan};
ghost use Rattle.net_file.specs.Model as file;
ghost use Rattle.net_model.specs.Alone.{HaveSameExternalInputs};
ghost use Rattle.net_model.specs.Checked.{AreClosed};
ghost use Rattle.net_model.specs.Networks.{IsNetwork};
ghost use Rattle.net_model.specs.Faults.{first_fault};
ghost use Rattle.net_model.specs.NetworkParts.{NetworkParts, network_value, stream_value};
ghost use Rattle.net_model.specs.declared.links.StreamHop.{StreamHop};
ghost use Rattle.net_check.specs.Networks.{IsNetworkOfFile};
ghost use Rattle.net_run.specs.Rounds.{RunsNetwork, commands_of_bridge};
ghost use Rattle.net_run.specs.declared.rounds.BridgeResult.{BridgeResult};
ghost use Rattle.net_run.specs.declared.bridge_run.BridgeInput.{BridgeInput};
ghost use Rattle.app_networks.specs.declared.figures.StreamFigures.{StreamFigures};
ghost use Rattle.app_networks.specs.Tables.{AreTables};

use std::alloc::Allocator;

/// Other frames and commands change no table. Two complete runs of an accepted network have equal tables if the streams' own external
/// frames and commands are equal. docs/NETWORK_PROOF.md cites it.
pub fn others_change_no_table<A: Allocator + Copy>()
    ensures { (f : file.Network) (plans : List (Plan A)) (n : NetworkParts A) (came other_came : List (BridgeInput A))
        (settled other : List (BridgeResult A)) (figures : List StreamFigures) (a b c d : List ℕ)
        → IsNetworkOfFile f plans n
        → IsNetwork (network_value n)
        → AreClosed n
        → first_fault n ≡ None
        → (ran : RunsNetwork n came settled)
        → (also : RunsNetwork n other_came other)
        → ((stream : Vec StreamHop A) → IsMember stream n.streams
        → HaveSameExternalInputs (network_value n) (stream_value stream.items) (commands_of_bridge came) ran.frames
        (commands_of_bridge other_came) also.frames)
        → AreTables n.links settled f figures a b
        → AreTables n.links other f figures c d
        → (a ≡ c) × (b ≡ d) }
{}
