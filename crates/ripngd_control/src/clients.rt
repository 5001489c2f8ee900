//! The clients of a running router. One at a time is served, for a bounded time between two turns.

ghost use Rattle.std.specs.Prelude.{ℕ, ◌≡◌, ◌≢◌, ◌++◌, ◌∷◌, ◌⊎◌, [], IfOk, IfSome, IsNone, None, Some, codes, false, true};
ghost use Rattle.ripngd_control.specs.Common.{control_text, seen, Heeds, TakesIn, ClientsState};

use crate::answering::{RunState, respond};
use crate::command::{Command, read_command};
use crate::connection::{Connection, LINE_LIMIT};
use crate::control_socket::{ControlSocket, ListenFault};
use crate::counts::Losses;
use crate::monitor::Monitor;
use crate::reply::Peering;
use rand_core::Rng;
use ripngd_engine::{Engine, Entry, Link, LinkChange, TimeSource, Transcript, first_line};
use route_table::RouteStore;
use std::alloc::Global;
use std::io::Write;
use std::marker::Model;
use std::net::Net;
use std::os::fd::RawFd;
use std::rt::{Clock, Files};

/// The clients of a router: its control socket, while it listens, and the client that is served. Contracts see the lines that named a
/// command and were obeyed.
#[derive(Drop)]
pub struct Clients {
    socket: Option<ControlSocket>,
    connection: Option<Connection>,
    transcript: Transcript,
}

impl Model for Clients {
    ghost Value = { ClientsState };

    ghost view = { λ c. record { lines = c.transcript.past.lines } };
}

/// Whether a command says that a link is cut.
fn is_cut(command: &Option<Command>) -> bool
    ensures { result ≡ true → (iface : ℕ) × (command.now ≡ Some (Command.LinkDown iface)) }
{
    matches!(*command, Some(Command::LinkDown(_)))
}

impl Clients {
    /// Listens at a path. The socket of a router that has ended is replaced.
    ///
    /// # Errors
    /// Those of [`ListenFault`].
    pub fn open<R: Files + Net>(rt: &R, path: &str) -> Result<Clients, ListenFault>
        ensures { IfOk result (λ clients. clients.lines ≡ []) }
    {
        Ok(Clients {
            socket: Some(ControlSocket::open(rt, path)?),
            connection: None,
            transcript: Transcript::of(&Entry::Nothing),
        })
    }

    /// The descriptor at which clients are seen to connect, while it listens.
    pub fn fd(&self) -> Option<RawFd> {
        Some(self.socket.as_ref()?.fd())
    }

    /// Whether a client is served.
    pub fn is_serving(&self) -> bool {
        self.connection.is_some()
    }

    /// Stops listening, and removes the file of the socket if it is still the one that was made. The client that is served is let go.
    pub fn close<R: Files>(&mut self, rt: &R, path: &str)
        ensures { self.new.lines ≡ self.old.lines }
    {
        self.connection = None;
        if let Some(socket) = self.socket.take() {
            socket.close(rt, path);
        }
    }

    /// The client that is served, or else one that has connected.
    fn next_connection<R: Clock + AllocGlobal>(&mut self, rt: &R) -> Option<Connection>
        ensures { self.new.lines ≡ self.old.lines }
    {
        if self.connection.is_some() {
            return self.connection.take();
        }
        let stream = self.socket.as_ref()?.accept()?;
        Connection::new(rt, stream).ok()
    }

    /// Reads once from a client. `None`: no complete line yet, or its command is known already. `Some(None)`: its line is no command.
    /// `Some(Some(c))`: command c.
    fn listen(&mut self, alloc: Global, connection: &mut Connection) -> Option<Option<Command>>
        ensures taken { IfSome result (λ command. TakesIn command connection.new.received.items self.old.lines self.new.lines) }
        ensures none { IsNone result → self.new.lines ≡ self.old.lines }
        ensures once { connection.old.rest ≢ None → result ≡ None }
    {
        if !connection.receive() {
            return None;
        }
        let received = connection.received.as_slice();
        match first_line(received) {
            None if received.len() < LINE_LIMIT => None,
            None => Some(None),
            Some((line, _)) => {
                let command = read_command(alloc, line).ok()?;
                if command.is_some() {
                    self.transcript = Transcript::of(&Entry::Obeyed(&self.transcript, line));
                }
                Some(command)
            }
        }
    }

    /// Serves the clients of a router between two of its turns: accepts one if none is served, reads once from it, does its command,
    /// and sends it up to 16 pieces of its answer. Returns whether the router goes on, and whether the command was that a link is cut.
    /// That a client is ever accepted is tested and not proved: nothing is known of a socket.
    pub fn serve<
        RT: Clock + AllocGlobal,
        S: RouteStore,
        L: Link,
        C: TimeSource,
        R: Rng + Drop,
        P: LinkChange<L> + Peering,
        W: Write,
        E: Write,
    >(
        &mut self,
        rt: &RT,
        engine: &mut Engine<S, L, C, R>,
        monitor: &Monitor<E>,
        lost: Losses,
        peering: &mut P,
        log: &mut W,
    ) -> (RunState, bool)
        requires { engine.old.ended ≡ false }
        ensures heeds { Heeds self.old.lines (seen R.stream W.contents engine.old log.old)
            self.new.lines (seen R.stream W.contents engine.new log.new) }
        ensures goes_on { result.0 ≢ RunState.Ended → engine.new.ended ≡ false }
        ensures stops { result.0 ≡ RunState.Stopped → (self.new.lines ≡ self.old.lines ++ codes "stop" ∷ [])
            ⊎ (self.new.lines ≡ self.old.lines ++ codes "stop now" ∷ []) }
        ensures cuts { result.1 ≡ true → (iface : ℕ) × (self.new.lines ≡ self.old.lines ++ control_text (Command.LinkDown iface) ∷ []) }
    {
        let Some(mut connection) = self.next_connection(rt) else {
            return (RunState::Running, false);
        };
        let served = match self.listen(rt.alloc(), &mut connection) {
            None => (RunState::Running, false),
            Some(command) => {
                let is_cut = is_cut(&command);
                let (rest, state) = respond(
                    engine,
                    command,
                    monitor,
                    lost,
                    peering,
                    log,
                    &mut connection.text,
                );
                connection.rest = Some(rest);
                (state, is_cut)
            }
        };
        if connection.send(rt, engine.router(), engine.fib()) {
            self.connection = Some(connection);
        }
        served
    }
}
