//! A signal in its host, as the machine sees it.

ghost use Rattle.std.specs.Prelude.{◌≡◌, ◌≢◌, ℕ, true, false, List};
ghost use Rattle.sci_telegram.specs.declared.message.Aspect.TheVariants.{Stop};
ghost use Rattle.rasta_core.specs.Ends.{reading_of};
ghost use Rattle.rasta_core.specs.Events.{Start, started};
ghost use Rattle.rasta_core.specs.Names.{Names, identity_of};
ghost use Rattle.rasta_core.specs.Run.{Ends, later, restarted};
ghost use Rattle.rasta_core.specs.State.{is_open};
ghost use Rattle.rasta_core.specs.identity.Role.TheVariants.{Server};
ghost use Rattle.object_host.specs.Host.{HostState};
ghost use Rattle.object_host.specs.Hosted.{new_host};
ghost use Rattle.object_host.specs.Step.{host_step};
ghost use Rattle.object_host.specs.declared.input.Input.{Input};
ghost use Rattle.object_host_laws.specs.World.{called_all};
ghost use Rattle.signal_ctl.specs.Lamp.{aspect_shown};
ghost use Rattle.signal_ctl.specs.Signal.{SignalState, signal_behaviour};
ghost use Rattle.simulator_machine.specs.Invariant.{IsSignalSound};
ghost use Rattle.simulator_machine.specs.Link.{LinkMove};
ghost use Rattle.simulator_machine.specs.Point.{Position};
ghost use Rattle.simulator_machine.specs.Run.{first};
ghost use Rattle.simulator_machine.specs.Signal.{Signal as MachineSignal, aspects_given, shown};
ghost use Rattle.simulator_move_laws.specs.Items.{aspect_seen, aspects_in};
ghost use Rattle.simulator_move_laws.specs.LinkMoves.{LinkGoes, moves_by};
ghost use Rattle.simulator_move_laws.specs.EndsSeen.{represented};
ghost use Rattle.simulator_move_laws.specs.Ends.{AreFit, OpensNone, Steps, server_later};
ghost use Rattle.simulator_move_laws.specs.Signal.{IsSignalSeen, SignalGoes};

use crate::{items_join, links_are_represented};
use object_host::step_settles_first;
use object_host_laws::{
    signal_shows_what_was_told, step_takes_and_gives, what_is_taken_is_acted_on,
};
use signal_ctl::Signal;
use simulator_machine::moves_of_links_are_moves;

/// At the beginning a signal in its host is the machine's.
pub fn signals_begin_seen()
    ensures { (names : Names) (start : Start) (own_name peer_name : List ℕ) (object : SignalState) (version place : ℕ) (positions : ℕ → Position) → AreFit (started names start)
        → IsSignalSeen (started names start) (new_host signal_behaviour (identity_of Server names) own_name peer_name start.server_first start.server_clock object version)
        ((first positions).signals place) }
{
    links_are_represented();
    signal_shows_what_was_told();
}

/// A step of a signal's host, whatever comes in it, is a list of moves of the machine's signal.
pub fn steps_of_signals_are_moves()
    ensures { (input : Input) (connection : ℕ) (ends : Ends) (host : HostState SignalState) (signal : MachineSignal) → IsSignalSound signal → IsSignalSeen ends host signal
        → Steps input connection ends (called_all connection (host_step signal_behaviour (reading_of ends.server.clock) input host).calls ends)
        → SignalGoes signal (IsSignalSeen (called_all connection (host_step signal_behaviour (reading_of ends.server.clock) input host).calls ends)
        (host_step signal_behaviour (reading_of ends.server.clock) input host).host) }
{
    moves_of_links_are_moves();
    items_join();
    signal_shows_what_was_told();
    step_settles_first::<Signal>();
    step_takes_and_gives::<Signal>();
    what_is_taken_is_acted_on::<Signal>();
}

/// An aspect other than stop that a signal shows is the one that the machine's signal shows.
pub fn signal_shows_what_is_seen()
    ensures { (ends : Ends) (host : HostState SignalState) (signal : MachineSignal) → AreFit ends → IsSignalSeen ends host signal
        → aspect_shown host.object.lamp (reading_of ends.server.clock) ≢ Stop → shown signal ≡ aspect_seen (aspect_shown host.object.lamp (reading_of ends.server.clock)) }
{
    signal_shows_what_was_told();
}

/// Time that passes, at both ends or at the controller's alone, and a restart of the controller are moves of the signal's
/// link, whatever the host does later.
pub fn signals_pass_time_and_restart()
    ensures passes { (elapsed of_client of_server : ℕ) (moves : List LinkMove) (ends : Ends) (host : HostState SignalState) (signal : MachineSignal) → AreFit ends → IsSignalSeen ends host signal
        → OpensNone moves → LinkGoes moves (represented ends) (represented (later elapsed of_client of_server ends))
        → SignalGoes signal (IsSignalSeen (later elapsed of_client of_server ends) host) }
    ensures alone { (elapsed of_client of_server : ℕ) (ends : Ends) (host : HostState SignalState) (signal : MachineSignal) → AreFit ends → AreFit (later elapsed of_client of_server ends)
        → IsSignalSeen ends host signal → SignalGoes signal (IsSignalSeen (server_later elapsed of_client of_server ends) host) }
    ensures restarts { (clock first : ℕ) (object : SignalState) (ends : Ends) (host : HostState SignalState) (signal : MachineSignal) → AreFit ends → AreFit (restarted Server clock first ends)
        → IsSignalSeen ends host signal → LinkGoes (moves_by false (is_open ends.server.link.phase) false) (represented ends) (represented (restarted Server clock first ends))
        → SignalGoes signal (IsSignalSeen (restarted Server clock first ends)
        (new_host signal_behaviour ends.server.link.identity host.own_name host.peer_name first clock object host.version)) }
{
    moves_of_links_are_moves();
    signal_shows_what_was_told();
}

/// What leaves the server's end as it is leaves what is seen, where the link and the aspects given are seen still.
pub fn signals_stay_elsewhere()
    ensures { (ends new : Ends) (host : HostState SignalState) (signal other : MachineSignal) → new.server ≡ ends.server → IsSignalSeen ends host signal → other.link ≡ represented new
        → aspects_given other ≡ aspects_in new.client.given → (is_open new.server.link.phase ≡ true → other.done ≡ signal.done) → IsSignalSeen new host other }
{}
