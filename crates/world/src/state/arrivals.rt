//! Bytes that come to nodes: the orders of cancel requests.
ghost use Rattle.std.specs.Prelude.{◌≡◌, ◌≢◌, ◌+◌, ◌<◌, ◌≤◌, ◌++◌, ◌∷◌, [], ℕ, true, false, List, None, Some, IfOk, IfSome, IfNone, OnOk, OnErr, length, slice_get};
ghost use Rattle.std.specs.Vec.{vec_len, vec_capacity};
ghost use Rattle.pg_ids.specs.AnyKey.{IsAnyKey, any_identity_of};
ghost use Rattle.startup.specs.CancelPacket.{packet_bytes};
ghost use Rattle.startup.specs.declared.first.First.TheVariants as asked;
ghost use Rattle.node_core.specs.View.{NodeView};
ghost use Rattle.world.specs.declared.event.Event.TheVariants as event;
ghost use Rattle.world.specs.declared.reply.Reply.TheVariants as answer;
ghost use Rattle.world.specs.declared.request.Connection.{Connection as ConnectionRow};
ghost use Rattle.world.specs.declared.request.Forward.{Forward as ForwardRow};
ghost use Rattle.world.specs.World.{Backend, IsBackend, IsNode, IsOwner, IsServer};
ghost use Rattle.world.specs.CancelEvents.{Comes, Arrives, IsRequest, IsOther, takes_key};
ghost use Rattle.world.specs.Admissible.{Admissible};
ghost use Rattle.world.specs.Facts.{AreWhole, Facts, OneServer};
ghost use Rattle.world.specs.WorldRun.{WorldStep};

use super::State;
use crate::backends::Backends;
use crate::event::Bytes;
use crate::forwards::Forwards;
use crate::memory::Memory;
use crate::numbers::{ArrivalNo, BackendNo, ConnectionNo, FlightNo, Label, ServerNo};
use crate::reply::{Reply, Took};
use crate::request::{Arrival, Connection, Forward, Issue, Taken};
use crate::servers::server_of;
use crate::table::Table;
use cancel_router::RouteRefusal;
use ini_config::Group;
use node_core::{CancelRefusal, DatabaseNo, Order, TicketRecord};
use pg_ids::{AnyKey, PeerNo, ServerKey};
use startup::{First, Opening, Packet, StartupError};
use std::alloc::Global;

// The server process to which a request goes.
#[derive(Clone, Copy, Debug)]
struct Target {
    server: ServerNo,
    backend: BackendNo,
}

impl State {
    /// Bytes come to a node as a connection of their own.
    pub fn deliver(&mut self, flight: FlightNo, node: PeerNo) -> Result<Took, Memory>
        requires { Facts self.old }
        ensures step { IfOk result
            (λ took. WorldStep (event.Deliver flight node) took self.old self.new) }
        ensures err { OnErr result (self.new ≡ self.old) }
        ensures may { OnErr result (Admissible self.old (event.Deliver flight node)) }
    {
        if flight.0 as usize >= self.flights.len() || self.nodes.get(node).is_none() {
            return Ok(Took::Skipped);
        }
        Ok(Took::Done(self.come(flight, node)?))
    }

    /// A forwarded request comes to a node on its forward connection.
    pub fn accept(&mut self, flight: FlightNo, node: PeerNo) -> Result<Took, Memory>
        requires { Facts self.old }
        ensures step { IfOk result
            (λ took. WorldStep (event.Accept flight node) took self.old self.new) }
        ensures err { OnErr result (self.new ≡ self.old) }
        ensures may { OnErr result (Admissible self.old (event.Accept flight node)) }
    {
        let Some(found) = self.forwards.of_flight(flight) else {
            return Ok(Took::Skipped);
        };
        let forward = found.row;
        if forward.accepted.is_some()
            || forward.report.is_some()
            || self.nodes.get(node).is_none()
        {
            return Ok(Took::Skipped);
        }
        let arrival = ArrivalNo(self.arrivals.len() as u64);
        let reply = self.come(flight, node)?;
        if reply.is_request() {
            self.forwards.set(found.place, forward.leading(arrival));
        }
        Ok(Took::Done(reply))
    }

    // The bytes of a flight come to a node.
    fn come(&mut self, flight: FlightNo, node: PeerNo) -> Result<Reply, Memory>
        requires facts { Facts self.old }
        requires whole { AreWhole self.old.nodes }
        requires flight { flight < length self.old.flights }
        requires node { (place : ℕ) × (view : NodeView) × IsNode self.old.nodes node place view }
        ensures comes { IfOk result (λ said. Comes flight node said self.old self.new) }
        ensures err { OnErr result (self.new ≡ self.old) }
    {
        let Some(bytes) = self.flights.get(flight.0 as usize) else {
            unreachable!()
        };
        match read_request(self.alloc, bytes)? {
            Some(key) => self.arrive(flight, node, key),
            None => Ok(Reply::NoCancel),
        }
    }

    // A request comes to a node.
    fn arrive(&mut self, flight: FlightNo, node: PeerNo, key: AnyKey) -> Result<Reply, Memory>
        requires facts { Facts self.old }
        requires whole { AreWhole self.old.nodes }
        requires flight { flight < length self.old.flights }
        requires node { (place : ℕ) × (view : NodeView) × IsNode self.old.nodes node place view }
        requires key { IsAnyKey key }
        ensures arrives { IfOk result (λ said. Arrives flight node key said self.old self.new) }
        ensures err { OnErr result (self.new ≡ self.old) }
    {
        let key = &key;
        let owner = &owner_of(&self.issues, key);
        let bytes = make_room(
            self.alloc,
            &mut self.arrivals,
            &mut self.taken,
            &mut self.connections,
            &mut self.forwards,
            &mut self.flights,
        )?;
        let arrival = ArrivalNo(self.arrivals.len() as u64);
        let order = &self.nodes.cancel(node, *key);
        note_taken(&mut self.taken, node, key, order, owner);
        note_arrival(&mut self.arrivals, flight, node, key, order);
        match order {
            Order::Serve(ticket, database, server_key) => {
                let Some(target) = target_of(
                    &self.group,
                    &self.backends,
                    node,
                    *database,
                    *server_key,
                ) else {
                    unreachable!()
                };
                let connections = &mut self.connections;
                Ok(connect(connections, &target, *server_key, owner, arrival, ticket))
            }
            Order::Forward(_, packet) => {
                let bytes = packet_in(bytes, packet);
                Ok(send_on(&mut self.flights, &mut self.forwards, bytes, arrival))
            }
            Order::Unwait(_) => Ok(Reply::Unwait(arrival)),
            Order::Refused(reason) => Ok(Reply::CancelRefused(arrival, *reason)),
        }
    }
}

// The client to whom a key was issued, if it was.
fn owner_of(issues: &Table<Issue>, key: &AnyKey) -> Option<Label>
    ensures { (label : ℕ) → IsOwner issues.now.rows (any_identity_of key.now) label
        → result ≡ Some label }
{
    let found = issues.find(key.identity())?;
    Some(found.row.label)
}

// Makes room for all that an order may bring. Returns that for the bytes of a forwarded packet.
fn make_room(
    alloc: Global,
    arrivals: &mut Vec<Arrival>,
    taken: &mut Vec<Taken>,
    connections: &mut Table<Connection>,
    forwards: &mut Forwards,
    flights: &mut Vec<Bytes>,
) -> Result<Vec<u8>, Memory>
    ensures arrivals { arrivals.new.items ≡ arrivals.old.items }
    ensures taken { taken.new.items ≡ taken.old.items }
    ensures connections { connections.new.rows ≡ connections.old.rows }
    ensures forwards { forwards.new.rows ≡ forwards.old.rows }
    ensures flights { flights.new.items ≡ flights.old.items }
    ensures for_arrival { OnOk result (vec_len arrivals.new < vec_capacity arrivals.new) }
    ensures for_taken { OnOk result (vec_len taken.new < vec_capacity taken.new) }
    ensures for_connection { OnOk result (0 < connections.new.room) }
    ensures for_forward { OnOk result (0 < forwards.new.room) }
    ensures for_flight { OnOk result (vec_len flights.new < vec_capacity flights.new) }
    ensures empty { IfOk result (λ bytes. bytes.items ≡ []) }
    ensures for_packet { IfOk result (λ bytes. vec_len bytes + 32 ≤ vec_capacity bytes) }
{
    arrivals.reserve(1)?;
    taken.reserve(1)?;
    connections.reserve()?;
    forwards.reserve()?;
    flights.reserve(1)?;
    Ok(Vec::with_capacity(alloc, 32)?)
}

// Whether an order takes the key for a client's.
fn takes_key(order: &Order<TicketRecord>) -> bool
    ensures { result ≡ takes_key order.now }
{
    match order {
        Order::Serve(_, _, _) | Order::Unwait(_) => true,
        Order::Forward(_, _) => false,
        Order::Refused(reason) => match reason {
            CancelRefusal::Route(route) => matches!(route, RouteRefusal::NoLink),
            CancelRefusal::Busy => true,
            CancelRefusal::Exhausted => false,
        },
    }
}

// If an order takes the key for a client's, then that is noted for its owner.
fn note_taken(
    taken: &mut Vec<Taken>,
    node: PeerNo,
    key: &AnyKey,
    order: &Order<TicketRecord>,
    owner: &Option<Label>,
)
    requires room { vec_len taken.old < vec_capacity taken.old }
    ensures yes { (label : ℕ) → takes_key order.now ≡ true → owner.now ≡ Some label
        → taken.new.items
        ≡ taken.old.items ++ record { node = node; key = key.now; label = label } ∷ [] }
    ensures no { takes_key order.now ≡ false → taken.new.items ≡ taken.old.items }
{
    if !takes_key(order) {
        return;
    }
    let Some(label) = *owner else {
        return;
    };
    let Ok(()) = taken.push(Taken {
        node,
        key: *key,
        label,
    }) else {
        unreachable!()
    };
}

// That a request came to a node is noted, with the order.
fn note_arrival(
    arrivals: &mut Vec<Arrival>,
    flight: FlightNo,
    node: PeerNo,
    key: &AnyKey,
    order: &Order<TicketRecord>,
)
    requires room { vec_len arrivals.old < vec_capacity arrivals.old }
    ensures { arrivals.new.items ≡ arrivals.old.items ++ record {
      flight = flight;
      node = node;
      key = key.now;
      order = order.now;
    } ∷ [] }
{
    let Ok(()) = arrivals.push(Arrival {
        flight,
        node,
        key: *key,
        order: *order,
    }) else {
        unreachable!()
    };
}

// The server process with this key, of the server of a node's database.
fn target_of(
    group: &Group,
    backends: &Backends,
    node: PeerNo,
    database: DatabaseNo,
    key: ServerKey,
) -> Option<Target>
    ensures { (server place : ℕ) (backend : Backend) → OneServer group.now
        → IsServer group.now node database server
        → IsBackend backends.now.rows server key place backend
        → result ≡ Some record { server = server; backend = place } }
{
    let server = server_of(group, node, database)?;
    let backend = backends.find(server, key)?;
    Some(Target { server, backend })
}

// A request goes to a server process, on a new cancel connection.
fn connect(
    connections: &mut Table<Connection>,
    target: &Target,
    key: ServerKey,
    holder: &Option<Label>,
    arrival: ArrivalNo,
    ticket: &TicketRecord,
) -> Reply
    requires room { 0 < connections.old.room }
    requires new { (place : ℕ) (other : ConnectionRow)
        → slice_get connections.old.rows place ≡ Some other → other.arrival ≢ arrival }
    ensures rows { connections.new.rows ≡ connections.old.rows ++ record {
      server = target.now.server;
      key = key;
      backend = target.now.backend;
      holder = holder.now;
      arrival = arrival;
      ticket = ticket.now;
      acted = false;
      ended = false;
      report = None;
    } ∷ [] }
    ensures said { result ≡ answer.Serve arrival (length connections.old.rows) }
{
    let number = ConnectionNo(connections.len() as u64);
    connections.push(Connection {
        server: target.server,
        key,
        backend: target.backend,
        holder: *holder,
        arrival,
        ticket: *ticket,
        acted: false,
        ended: false,
        report: None,
    });
    Reply::Serve(arrival, number)
}

// The bytes of a packet, in memory that was reserved for them.
fn packet_in(bytes: Vec<u8>, packet: &Packet) -> Bytes
    requires empty { bytes.items ≡ [] }
    requires room { vec_len bytes + 32 ≤ vec_capacity bytes }
    ensures { result ≡ packet_bytes packet.now }
{
    let mut bytes = bytes;
    let written = match packet {
        Packet::Short(packet) => bytes.extend_from_slice(packet),
        Packet::Long(packet) => bytes.extend_from_slice(packet),
    };
    let Ok(()) = written else { unreachable!() };
    Bytes::from_vec(bytes)
}

// A request goes on to another node, as a flight with a forward connection.
fn send_on(
    flights: &mut Vec<Bytes>,
    forwards: &mut Forwards,
    bytes: Bytes,
    arrival: ArrivalNo,
) -> Reply
    requires for_flight { vec_len flights.old < vec_capacity flights.old }
    requires for_forward { 0 < forwards.old.room }
    requires flight { (place : ℕ) (other : ForwardRow)
        → slice_get forwards.old.rows place ≡ Some other → other.flight ≢ length flights.old.items }
    requires origin { (place : ℕ) (other : ForwardRow)
        → slice_get forwards.old.rows place ≡ Some other → other.origin ≢ arrival }
    ensures flights { flights.new.items ≡ flights.old.items ++ bytes ∷ [] }
    ensures forwards { forwards.new.rows ≡ forwards.old.rows ++ record {
      flight = length flights.old.items;
      origin = arrival;
      accepted = None;
      ended = false;
      report = None;
    } ∷ [] }
    ensures said { result ≡ answer.Forward arrival (length flights.old.items) }
{
    let flight = FlightNo(flights.len() as u64);
    let Ok(()) = flights.push(bytes) else {
        unreachable!()
    };
    forwards.push(Forward {
        flight,
        origin: arrival,
        accepted: None,
        ended: false,
        report: None,
    });
    Reply::Forward(arrival, flight)
}

// The key of a CancelRequest, if the bytes are one as a connection's first packet.
fn read_request(alloc: Global, bytes: &Bytes) -> Result<Option<AnyKey>, Memory>
    ensures request { IfOk result
        (λ key. IfSome key (λ key. IsRequest bytes.now key × IsAnyKey key)) }
    ensures other { IfOk result (λ key. IfNone key (IsOther bytes.now)) }
{
    match Opening::new(alloc).read(bytes.as_slice(), true) {
        Ok(first) => Ok(key_of(&first)),
        Err(StartupError::Memory) => Err(Memory),
        Err(_) => Ok(None),
    }
}

// The key, if a first packet is a CancelRequest.
fn key_of(first: &First) -> Option<AnyKey>
    ensures found { IfSome result (λ key. first.now ≡ asked.Cancel key) }
    ensures none { IfNone result ((key : AnyKey) → first.now ≢ asked.Cancel key) }
{
    match first {
        First::Cancel { key } => Some(*key),
        First::Startup { .. } | First::Ssl | First::Gss | First::More => None,
    }
}
