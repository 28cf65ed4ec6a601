//! The numbers in a call with its answer: those of what is handed in and out.
ghost use Rattle.std.specs.Prelude.{◌≡◌, ◌+◌, ◌<◌, ◌≤◌, [], ◌∷◌, ◌++◌, drop, length};
ghost use Rattle.locked_node.specs.CallNumbers.{key_number, key_numbers, packet_numbers, place_numbers, pass_numbers, permit_numbers, link_numbers, ticket_numbers};

use byteorder::{BigEndian, ByteOrder};
use node_core::{LinkPlace, LinkRecord, PassRecord, PermitRecord, TicketRecord};
use pg_ids::{AnyKey, ServerKey};
use startup::Packet;
use std::marker::Model;

/// How many numbers a call has at most.
pub const WIDEST: usize = 12;

/// The numbers of a call, in their order. Those of the call before stay behind them: no memory is
/// cleared for a call.
#[derive(Debug, Drop)]
pub struct Numbers {
    cells: [u64; WIDEST],
    count: usize,
}

impl Model for Numbers {
    ghost use Rattle.std.specs.Prelude.{◌≤◌, ℕ, List, take};

    ghost Value = { List ℕ };

    ghost view = { λ n. take n.count n.cells };

    ghost invariant = { λ n. n.count ≤ 12 };
}

impl Numbers {
    // No numbers.
    pub(crate) fn new() -> Numbers
        ensures { result ≡ [] }
    {
        Numbers {
            cells: [0; WIDEST],
            count: 0,
        }
    }

    // Another call's numbers are to follow.
    #[inline(always)]
    pub(crate) fn clear(&mut self)
        ensures { self.new ≡ [] }
    {
        self.count = 0;
    }

    // One number more.
    #[inline(always)]
    pub(crate) fn push(&mut self, number: u64)
        requires { length self.old < 12 }
        ensures pushed { self.new ≡ self.old ++ number ∷ [] }
        ensures many { length self.new ≡ length self.old + 1 }
    {
        self.cells[self.count] = number;
        self.count += 1;
    }

    #[inline(always)]
    pub(crate) fn as_slice(&self) -> &[u64]
        ensures value { result.now ≡ self.now }
        ensures few { length result.now ≤ 12 }
    {
        self.cells.split_at(self.count).0
    }
}

// The number that eight bytes from this place on are, big-endian.
#[inline(always)]
fn eight_from(bytes: &[u8], place: usize) -> u64
    requires { place + 8 ≤ length bytes.now }
    ensures { result ≡ key_number (drop place bytes.now) }
{
    BigEndian::read_u64(bytes.split_at(place).1)
}

// The key by which a server cancels.
#[inline(always)]
pub(crate) fn push_server_key(numbers: &mut Numbers, key: &ServerKey)
    requires { length numbers.old < 12 }
    ensures { numbers.new ≡ numbers.old ++ key_number key.now ∷ [] }
{
    numbers.push(BigEndian::read_u64(&key.to_bytes()));
}

// The key of a client: its first eight bytes and, if it is long, its boot and its serial.
#[inline(always)]
pub(crate) fn push_any_key(numbers: &mut Numbers, key: &AnyKey)
    requires { length numbers.old + 3 ≤ 12 }
    ensures pushed { numbers.new ≡ numbers.old ++ key_numbers key.now }
    ensures few { length numbers.new ≤ length numbers.old + 3 }
{
    match key {
        AnyKey::Short(short) => numbers.push(BigEndian::read_u64(&short.to_bytes())),
        AnyKey::Long(short, part) => {
            numbers.push(BigEndian::read_u64(&short.to_bytes()));
            numbers.push(part.boot.get());
            numbers.push(part.serial.get());
        }
    }
}

// The key of a CancelRequest, which follows its length and its code, of four bytes each.
#[inline(always)]
pub(crate) fn push_packet(numbers: &mut Numbers, packet: &Packet)
    requires { length numbers.old + 3 ≤ 12 }
    ensures { numbers.new ≡ numbers.old ++ packet_numbers packet.now }
{
    match packet {
        Packet::Short(bytes) => numbers.push(eight_from(bytes, 8)),
        Packet::Long(bytes) => {
            numbers.push(eight_from(bytes, 8));
            numbers.push(eight_from(bytes, 16));
            numbers.push(eight_from(bytes, 24));
        }
    }
}

// A place of the pools.
#[inline(always)]
fn push_place(numbers: &mut Numbers, place: &LinkPlace)
    requires { length numbers.old + 2 ≤ 12 }
    ensures pushed { numbers.new ≡ numbers.old ++ place_numbers place.now }
    ensures many { length numbers.new ≡ length numbers.old + 2 }
{
    numbers.push(u64::from(place.database.get()));
    numbers.push(u64::from(place.index));
}

#[inline(always)]
pub(crate) fn push_pass(numbers: &mut Numbers, pass: &PassRecord)
    requires { length numbers.old + 3 ≤ 12 }
    ensures pushed { numbers.new ≡ numbers.old ++ pass_numbers pass.now }
    ensures many { length numbers.new ≡ length numbers.old + 3 }
{
    numbers.push(u64::from(pass.key.peer().get()));
    numbers.push(pass.incarnation);
    numbers.push(pass.number);
}

#[inline(always)]
pub(crate) fn push_permit(numbers: &mut Numbers, permit: &PermitRecord)
    requires { length numbers.old + 5 ≤ 12 }
    ensures pushed { numbers.new ≡ numbers.old ++ permit_numbers permit.now }
    ensures many { length numbers.new ≡ length numbers.old + 5 }
{
    numbers.push(u64::from(permit.peer.get()));
    numbers.push(permit.incarnation);
    numbers.push(permit.number);
    push_place(numbers, &permit.at);
}

#[inline(always)]
pub(crate) fn push_link(numbers: &mut Numbers, lease: &LinkRecord)
    requires { length numbers.old + 5 ≤ 12 }
    ensures pushed { numbers.new ≡ numbers.old ++ link_numbers lease.now }
    ensures many { length numbers.new ≡ length numbers.old + 5 }
{
    numbers.push(u64::from(lease.peer.get()));
    numbers.push(lease.incarnation);
    numbers.push(lease.link.get());
    push_place(numbers, &lease.at);
}

#[inline(always)]
pub(crate) fn push_ticket(numbers: &mut Numbers, ticket: &TicketRecord)
    requires { length numbers.old + 6 ≤ 12 }
    ensures pushed { numbers.new ≡ numbers.old ++ ticket_numbers ticket.now }
    ensures many { length numbers.new ≡ length numbers.old + 6 }
{
    numbers.push(u64::from(ticket.peer.get()));
    numbers.push(ticket.incarnation);
    numbers.push(ticket.number);
    numbers.push(ticket.link.get());
    push_place(numbers, &ticket.at);
}
