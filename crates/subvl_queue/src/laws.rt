//! A call that needs both ends of a queue together.
ghost use Rattle.std.specs.Prelude.{◌≡◌, ◌≤◌, length, IfOk, IfErr, None, Some};
ghost use Rattle.subvl_queue.specs.Messages.{room_with};
ghost use Rattle.subvl_queue.specs.Views.{IsPlaced, IsRefused, IsLast};

use crate::receiver::Receiver;
use crate::room::Room;
use crate::sender::{Sender, Why};

/// Sends a message, and takes the next one. If the message was accepted at the next place, `take` finds it.
///
/// Between two threads no call can state this, as neither thread knows which of them came first.
pub fn finds_sent(
    receiver: &mut Receiver,
    sender: &mut Sender,
    bytes: &[u8],
    room: &mut Room,
) -> Result<(), Why>
    requires same { sender.old.queue ≡ receiver.old.queue }
    requires some { 1 ≤ length bytes.now }
    requires most { length bytes.now ≤ sender.old.most }
    requires empty { room.old ≡ room_with receiver.old.most None }
    ensures ok { IfOk result (λ _. IsPlaced sender.old bytes.now sender.new) }
    ensures refused { IfErr result (λ why. IsRefused sender.old why sender.new) }
    ensures found { IfOk result (λ _. IsLast sender.new.places (length receiver.old.taken)
        → room.new.item ≡ Some (sender.new.port, bytes.now)) }
    ensures alone { IfOk result (λ _. receiver.old.ports ≡ 1 → length receiver.old.taken ≡ length sender.old.own
        → room.new.item ≡ Some (sender.new.port, bytes.now)) }
{
    sender.send_slice(bytes)?;
    receiver.hear(sender);
    receiver.take(room);
    Ok(())
}
