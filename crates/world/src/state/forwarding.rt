//! Bytes in flight, and how the connections that forward requests end.
ghost use Rattle.std.specs.Prelude.{◌≡◌, ◌↔◌, IfOk, OnErr, IsTrue, slice_get};
ghost use Rattle.world.specs.declared.event.Event.TheVariants as event;
ghost use Rattle.world.specs.Admissible.{IsAnswered};
ghost use Rattle.world.specs.Answered.{IsCarried, IsPassedOn};
ghost use Rattle.world.specs.Facts.{Facts};
ghost use Rattle.world.specs.WorldRun.{WorldStep};

use super::State;
use crate::event::Bytes;
use crate::memory::Memory;
use crate::numbers::{ArrivalNo, FlightNo};
use crate::reply::{Reply, Took};
use crate::request::{Arrival, Report};
use node_core::Order;

impl State {
    /// Somebody sends bytes.
    pub fn put(&mut self, bytes: &Bytes) -> Result<Took, Memory>
        ensures step { IfOk result
            (λ took. WorldStep (event.Put bytes.now) took self.old self.new) }
        ensures err { OnErr result (self.new ≡ self.old) }
    {
        let flight = FlightNo(self.flights.len() as u64);
        self.flights.push(bytes.copy(self.alloc)?)?;
        Ok(Took::Done(Reply::Flight(flight)))
    }

    /// A forward connection is ended without a byte.
    pub fn end_forward(&mut self, flight: FlightNo) -> Took
        requires { Facts self.old }
        ensures { WorldStep (event.ForwardEnded flight) result self.old self.new }
    {
        let Some(found) = self.forwards.of_flight(flight) else {
            return Took::Skipped;
        };
        let forward = found.row;
        let Some(arrival) = forward.accepted else {
            return Took::Skipped;
        };
        if forward.ended {
            return Took::Skipped;
        }
        if !self.is_answered(arrival) {
            return Took::Skipped;
        }
        self.forwards.set(found.place, forward.ending());
        Took::Done(Reply::Done)
    }

    // Whether the end of a request may be reported to whoever forwarded it.
    fn is_answered(&self, arrival: ArrivalNo) -> bool
        requires { Facts self.now }
        ensures { IsTrue result
            ↔ IsAnswered self.now.arrivals self.now.connections self.now.forwards arrival }
    {
        let Some(came) = self.arrival(arrival) else {
            return false;
        };
        match &came.order {
            Order::Unwait(_) | Order::Refused(_) => true,
            Order::Serve(_, _, _) => self.is_carried(arrival),
            Order::Forward(_, _) => self.is_passed_on(arrival),
        }
    }

    // The arrival with this number.
    fn arrival(&self, arrival: ArrivalNo) -> Option<Arrival>
        ensures { result ≡ slice_get self.now.arrivals arrival }
    {
        self.arrivals.get(arrival.0 as usize).copied()
    }

    // Whether the cancel connection of an arrival was reported clean.
    fn is_carried(&self, arrival: ArrivalNo) -> bool
        ensures { IsTrue result ↔ IsCarried self.now.connections arrival }
    {
        match self.connections.find(arrival) {
            Some(found) => found.row.is_clean(),
            None => false,
        }
    }

    // Whether the forward connection of an arrival was reported clean.
    fn is_passed_on(&self, arrival: ArrivalNo) -> bool
        ensures { IsTrue result ↔ IsPassedOn self.now.forwards arrival }
    {
        match self.forwards.of_arrival(arrival) {
            Some(found) => found.row.is_clean(),
            None => false,
        }
    }

    /// The node that forwarded learns of the end of its forward connection.
    pub fn tell_forward(&mut self, flight: FlightNo) -> Took
        requires { Facts self.old }
        ensures { WorldStep (event.ForwardTold flight) result self.old self.new }
    {
        let Some(found) = self.forwards.of_flight(flight) else {
            return Took::Skipped;
        };
        let forward = found.row;
        if forward.report.is_some() || !forward.ended {
            return Took::Skipped;
        }
        self.forwards
            .set(found.place, forward.reported(Report::Clean));
        Took::Done(Reply::Done)
    }

    /// The node that forwarded learns that its forward connection broke.
    pub fn break_forward(&mut self, flight: FlightNo) -> Took
        requires { Facts self.old }
        ensures { WorldStep (event.ForwardBroken flight) result self.old self.new }
    {
        let Some(found) = self.forwards.of_flight(flight) else {
            return Took::Skipped;
        };
        let forward = found.row;
        if forward.report.is_some() {
            return Took::Skipped;
        }
        self.forwards
            .set(found.place, forward.reported(Report::Fault));
        Took::Done(Reply::Done)
    }
}
