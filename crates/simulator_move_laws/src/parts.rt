//! A client in a step.

ghost use Rattle.std.specs.Prelude.{◌≡◌, ℕ, ◌++◌, ◌∷◌, [], List, true};
ghost use Rattle.ixl_spec.specs.rasta_core.Outbox.{OutboxState};
ghost use Rattle.ixl_spec.specs.ixl_client.Client.{ClientState, is_ready};
ghost use Rattle.ixl_spec.specs.ixl_client.ClientSoFar.{begun};
ghost use Rattle.ixl_spec.specs.ixl_client.Step.{commanding, hearing, ticking};
ghost use Rattle.ixl_spec.specs.ixl_client.declared.command.Command.{Command};
ghost use Rattle.simulator_move_laws.specs.Fits.{FitsBehind, IsAlive, commands_after_tick};
ghost use Rattle.simulator_move_laws.specs.Calls.{Items};
ghost use Rattle.simulator_move_laws.specs.Link.{ClientFits};

/// What a client gave in its connection, and what it took, fits to its stage after each part of a step: after a datagram,
/// after a command that it is ready for, and after a tick, on which a connection may begin.
pub fn clients_fit_behind_each_part()
    ensures datagram { (now : ℕ) (bytes : List ℕ) (client : ClientState) (outbox : OutboxState) (items : Items) (commands : List Command)
        → ClientFits now client items commands → IsAlive now client.link → FitsBehind now client (hearing now bytes (begun client outbox)) items commands }
    ensures command { (now : ℕ) (command : Command) (client : ClientState) (outbox : OutboxState) (items : Items) (commands : List Command)
        → ClientFits now client items commands → IsAlive now client.link → is_ready client.stage ≡ true
        → FitsBehind now client (commanding now command (begun client outbox)) items (commands ++ command ∷ []) }
    ensures tick { (now : ℕ) (client : ClientState) (outbox : OutboxState) (items : Items) (commands : List Command)
        → ClientFits now client items commands → IsAlive now client.link
        → FitsBehind now client (ticking now (begun client outbox)) items (commands_after_tick now client.link commands) }
{}
