//! Makes a queue.
ghost use Rattle.std.specs.Prelude.{◌≡◌, ℕ, ◌^◌, ◌<◌, ◌≤◌, [], length, None, replicate, IfOk, slice_index_or};
ghost use Rattle.subvl_queue.specs.Messages.{most_bytes, room_with};
ghost use Rattle.subvl_queue.specs.Queue.{IsAtTable};
ghost use Rattle.subvl_queue.specs.Steps.{first_view};
ghost use Rattle.subvl_queue.specs.Views.{SenderView, new_sender, new_receiver};

use crate::receiver::Receiver;
use crate::ring::{Knowing, NO_ROOM, READY, ROOM, Ring, TAIL};
use crate::room::Room;
use crate::sender::Sender;
use atomic_table::Table;
use std::alloc::{AllocError, Global};
use std::sync::Arc;

/// The greatest length of a message, in bytes.
const MOST_BYTES: usize = 8192;

/// Makes a queue for `capacity` messages, 1 to 256, of at most 8,192 bytes each: its receiver, and `ports` senders with
/// the indexes 0, 1 and so on, in order. Each sender may request `calls` slots, 1 to 2^40. Allocates all memory that
/// the queue ever needs; if an allocation fails, frees what it had.
pub fn make(
    alloc: Global,
    capacity: usize,
    ports: usize,
    calls: u64,
) -> Result<(Receiver, Vec<Sender>), AllocError>
    requires some { 1 ≤ capacity }
    requires capacity { capacity ≤ 256 }
    requires ports { ports ≤ 64 }
    requires some_calls { 1 ≤ calls }
    requires calls { calls ≤ 2 ^ 40 }
    ensures receiver { IfOk result (λ r. r.0 ≡ new_receiver r.0.queue capacity most_bytes ports) }
    ensures count { IfOk result (λ r. length r.1.items ≡ ports) }
    ensures senders { IfOk result (λ r. (k : ℕ) (d : SenderView) → k < ports →
        slice_index_or r.1.items k d ≡ new_sender r.0.queue capacity most_bytes calls k) }
{
    let mut receiver = open_queue(alloc, capacity, MOST_BYTES, ports)?;
    let mut senders = Vec::with_capacity(alloc, ports)?;
    for _port in 0..ports {
        senders.push_reserved(receiver.new_sender(alloc, calls)?);
    }
    Ok((receiver, senders))
}

/// Makes a queue for `capacity` messages, 1 to 256, of at most `most` bytes each, without a sender, and with places for
/// the rooms that `ports` senders bring back. If an allocation fails, frees what it had.
pub fn open_queue(
    alloc: Global,
    capacity: usize,
    most: usize,
    ports: usize,
) -> Result<Receiver, AllocError>
    requires some { 1 ≤ capacity }
    requires capacity { capacity ≤ 256 }
    requires most { most ≤ most_bytes }
    ensures { IfOk result (λ r. r ≡ new_receiver r.queue capacity most 0) }
{
    let spares = Vec::with_capacity(alloc, ports)?;
    let (ring, seat) = empty_ring(alloc, capacity, most)?;
    Ok(Receiver {
        ring,
        seat,
        ports: 0,
        taken: 0,
        slot: 0,
        total: None,
        spares,
    })
}

// Makes the rooms of an empty queue.
fn empty_rooms(alloc: Global, capacity: usize, most: usize) -> Result<Vec<Room>, AllocError>
    ensures { IfOk result (λ rooms. rooms.items ≡ replicate capacity (room_with most None)) }
{
    let mut rooms = Vec::with_capacity(alloc, capacity)?;
    for _i in 0..capacity {
        rooms.push_reserved(Room::new(alloc, most)?);
    }
    Ok(rooms)
}

// Makes the table of an empty queue.
#[tactic(auto, using(crate::proofs::Seats::starts_ok))]
fn empty_ring(
    alloc: Global,
    capacity: usize,
    most: usize,
) -> Result<(Arc<Ring>, Knowing), AllocError>
    requires some { 1 ≤ capacity }
    requires capacity { capacity ≤ 256 }
    requires most { most ≤ most_bytes }
    ensures capacity { IfOk result (λ r. r.0.value.capacity ≡ capacity) }
    ensures most { IfOk result (λ r. r.0.value.most ≡ most) }
    ensures seat { IfOk result (λ r. IsAtTable r.0.value.table.shared.table_id r.1) }
    ensures fresh { IfOk result (λ r. r.1.me ≡ (first_view, [])) }
{
    let mut words = Vec::from_elem(alloc, 0u64, capacity + 2)?;
    let row = words.as_mut_slice();
    row[ROOM] = NO_ROOM + capacity as u64;
    row[TAIL] = 0;
    for i in 0..capacity {
        row[i + READY] = 0;
    }
    let rooms = empty_rooms(alloc, capacity, most)?;
    let Ok((table, seat)) = Table::new(alloc, row, rooms, &most) else {
        return Err(AllocError);
    };
    let Ok(ring) = Arc::new(
        alloc,
        Ring {
            capacity,
            most,
            table,
        },
    ) else {
        return Err(AllocError);
    };
    Ok((ring, seat))
}
