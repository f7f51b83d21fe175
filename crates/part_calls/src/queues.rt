//! Queues.
ghost use Rattle.std.specs.Prelude.{◌≡◌, ◌<◌, ◌≤◌, None};
ghost use Rattle.subvl_queue.specs.Messages.{room_with};

use crate::Tried;
use std::alloc::Global;
use subvl_queue::{Receiver, Room, Sender, Why, make};

/// Sends a message of one byte, and returns whether it was accepted or, if there is no room, refused as by a full
/// queue.
fn is_sent(sender: &mut Sender, has_room: bool) -> bool
    requires { sender.old.most ≡ 8192 }
    ensures { sender.new.most ≡ 8192 }
{
    let wanted = if has_room { Ok(()) } else { Err(Why::Full) };
    sender.send_slice(&[7]) == wanted
}

/// Takes a message, and returns whether there was the one of that byte.
fn is_taken(receiver: &mut Receiver, room: &mut Room) -> bool
    requires { room.old ≡ room_with receiver.old.most None }
    ensures most { receiver.new.most ≡ receiver.old.most }
    ensures room { room.new ≡ room_with receiver.new.most None }
{
    let taken = receiver.take(room) && room.bytes().first() == Some(&7);
    room.clear();
    taken
}

/// Makes a queue, fills it with messages of its last sender, and takes them.
fn try_queue(alloc: Global, capacity: usize, ports: usize) -> Tried
    requires some { 1 ≤ capacity }
    requires capacity { capacity ≤ 256 }
    requires some_ports { 1 ≤ ports }
    requires ports { ports ≤ 64 }
{
    let (mut receiver, mut senders) = make(alloc, capacity, ports, 257)?;
    let mut room = Room::new(alloc, 8_192)?;
    let sender = &mut senders[ports - 1];
    let mut is_well = true;
    for place in 0..=capacity {
        is_well = is_sent(sender, place < capacity) && is_well;
    }
    for _place in 0..capacity {
        is_well = is_taken(&mut receiver, &mut room) && is_well;
    }
    Ok(is_well && !is_taken(&mut receiver, &mut room))
}

/// Tries the least queue, one with a place more, and the greatest.
pub fn try_queues(alloc: Global) -> Tried {
    let least = try_queue(alloc, 1, 1)?;
    let more = try_queue(alloc, 2, 1)?;
    let greatest = try_queue(alloc, 256, 64)?;
    Ok(least && more && greatest)
}
