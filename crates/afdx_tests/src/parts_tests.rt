//! Tests of a queue, of a board, of cutting a message, and of the readers of frames, each alone.
ghost use Rattle.std.specs.Prelude.{◌≡◌, None, length, slice_index_or};
ghost use Rattle.afdx_plan.specs.Plan.{IsPort, SendsOver};
ghost use Rattle.subvl_queue.specs.Messages.{room_with};
ghost use Rattle.subvl_queue.specs.Views.{AreOf, SenderView};

use crate::testing::*;
use afdx_frame::{Cut, Net, ident_of, more_of, offset_of, sn_of, sub_of, vl_of};
use afdx_plan::{LinkPlan, PortPlan, VlId, demo_config};
use status_board::{Counts, open_board};
use subvl_queue::{Receiver, Room, Sender, Why, make};

const NONE: Counts = Counts {
    frames: 0,
    bytes: 0,
    messages: 0,
    last: 0,
};

const FIRST: Counts = Counts {
    frames: 1,
    bytes: 60,
    messages: 1,
    last: 0,
};

/// Sends a message of one byte.
fn send(sender: &mut Sender, byte: u8) -> Result<(), Why>
    requires { sender.old.most ≡ 8192 }
    ensures queue { sender.new.queue ≡ sender.old.queue }
    ensures most { sender.new.most ≡ 8192 }
{
    sender.send_slice(&[byte])
}

/// Sends until the one place is taken and both requests are used, takes the first message, and sends once more.
fn fill(rt: &impl Abort, receiver: &mut Receiver, sender: &mut Sender, room: &mut Room)
    requires sends { sender.old.most ≡ 8192 }
    requires room { room.old ≡ room_with receiver.old.most None }
    ensures receiver { receiver.new.queue ≡ receiver.old.queue }
    ensures most { receiver.new.most ≡ receiver.old.most }
    ensures room { room.new ≡ room_with receiver.new.most None }
    ensures sender { sender.new.queue ≡ sender.old.queue }
{
    assert_same(rt, send(sender, 1), Ok(()));
    assert_same(rt, send(sender, 2), Err(Why::Full));
    assert_same(rt, send(sender, 3), Err(Why::Exhausted));
    let taken = receiver.take(room);
    assert_same(rt, (taken, room.bytes().first().copied()), (true, Some(1)));
    room.clear();
    assert_same(rt, send(sender, 4), Err(Why::Exhausted));
    assert_same(rt, sender.accepted(), 1);
}

/// Gathers without the senders, which is refused, and with them; nothing is left.
fn gather(rt: &impl Host, receiver: Receiver, senders: Vec<Sender>, room: &mut Room)
    requires senders { AreOf receiver.queue senders.items }
    requires room { room.old ≡ room_with receiver.most None }
{
    let Err((receiver, _none)) = receiver.gather(Vec::new(rt.alloc())) else {
        panic!(rt; "gathered without senders");
    };
    let Ok(mut gathered) = receiver.gather(senders) else {
        panic!(rt; "refused with all senders");
    };
    assert!(rt; !gathered.take(room));
}

/// Fills a queue of one place, and gathers its ends.
fn fill_and_gather(
    rt: &impl Host,
    mut receiver: Receiver,
    mut senders: Vec<Sender>,
    room: &mut Room,
)
    requires one { length senders.items ≡ 1 }
    requires senders { AreOf receiver.queue senders.items }
    requires sends { (d : SenderView) → (slice_index_or senders.items 0 d).most ≡ 8192 }
    requires room { room.old ≡ room_with receiver.most None }
{
    fill(rt, &mut receiver, &mut senders[0], room);
    gather(rt, receiver, senders, room);
}

#[test]
fn a_queue_of_one_place_refuses_as_full_and_then_as_exhausted(rt: HostRuntime) {
    let alloc = rt.alloc();
    let (Ok((receiver, senders)), Ok(mut room)) = (make(alloc, 1, 1, 2), Room::new(alloc, 8_192))
    else {
        panic!(&rt; "no memory");
    };
    fill_and_gather(&rt, receiver, senders, &mut room);
}

#[test]
fn a_monitor_reads_zeros_and_then_what_was_published(rt: HostRuntime) {
    let Ok((mut board, mut monitor)) = open_board(rt.alloc(), 1) else {
        panic!(&rt; "no memory");
    };
    assert_same(&rt, monitor.read(&rt, 0), NONE);
    board.publish(&rt, 0, FIRST);
    assert_same(&rt, monitor.read(&rt, 0), FIRST);
    drop((board, monitor));
}

/// The demonstration port's message of the byte 01, for network A.
const FRAME: [u8; 60] = *b"\x03\x00\x00\x00\x00\x01\x02\x00\x00\x00\x01\x20\x08\x00\
    \x45\x00\x00\x1d\x00\x00\x00\x00\x01\x11\xcd\xee\x0a\x00\x01\x01\xe0\xe0\x00\x01\
    \x03\xe8\x07\xd0\x00\x09\x00\x00\x01\
    \x00\x00\x00\x00\x00\x00\x00\x00\x00\x00\x00\x00\x00\x00\x00\x00\x00";

#[test]
fn a_frame_cut_short_or_with_other_padding_has_no_link(rt: HostRuntime) {
    assert_same(&rt, vl_of(&FRAME), Some(VlId(1)));
    assert_same(&rt, vl_of(&FRAME[..59]), None);
    let mut padded = FRAME;
    padded[50] = 1;
    assert_same(&rt, vl_of(&padded), None);
}

/// Returns the port and the link of the demonstration.
fn demo_flow(rt: &impl Host) -> (PortPlan, LinkPlan)
    ensures port { IsPort result.0 }
    ensures over { SendsOver result.0 result.1 }
{
    let Ok(config) = demo_config(rt.alloc()) else {
        panic!(rt; "no memory");
    };
    if config.ports().is_empty() || config.links().is_empty() {
        panic!(rt; "no port");
    }
    let (port, link) = (config.ports()[0], config.links()[0]);
    if link.id != port.vl || port.sub >= link.sub_vls {
        panic!(rt; "a port of another link");
    }
    (port, link)
}

/// Asserts the fields of a frame of the demonstration's first message: its number, its offset in units of 8 bytes, and
/// whether more pieces follow.
fn assert_fields(rt: &impl Abort, frame: &[u8], number: u8, offset: u16, more: bool) {
    assert_same(rt, (vl_of(frame), sub_of(frame)), (Some(VlId(1)), Some(0)));
    assert_same(rt, (sn_of(frame), ident_of(frame)), (Some(number), Some(0)));
    assert_same(
        rt,
        (offset_of(frame), more_of(frame)),
        (Some(offset), Some(more)),
    );
}

#[test]
fn a_message_of_1472_bytes_is_cut_in_two_whose_fields_are_read(rt: HostRuntime) {
    let (port, link) = demo_flow(&rt);
    let Ok(message) = Vec::from_elem(rt.alloc(), 0xaau8, 1_472) else {
        panic!(&rt; "no memory");
    };
    let mut cut = Cut::new(message, 0, &port);
    let (Some(first), Some(second)) = (
        cut.next_frame(&link, 1, 0, Net::A),
        cut.next_frame(&link, 1, 1, Net::A),
    ) else {
        panic!(&rt; "fewer than two pieces");
    };
    assert_same(
        &rt,
        (first.len(), second.len(), cut.is_done()),
        (1_507, 60, true),
    );
    assert_fields(&rt, first.as_slice(), 0, 0, true);
    assert_fields(&rt, second.as_slice(), 1, 184, false);
}
