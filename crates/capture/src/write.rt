//! Writing a capture.
ghost use Rattle.std.specs.Prelude.{◌≡◌, ◌≤◌, [], ◌∷◌, length, OnOk};
ghost use Rattle.std.specs.Io.KnownBytes.{Appends};
ghost use Rattle.capture.specs.Capture.{capture_bytes, header_blocks, section_block, interface_block, packet_block, packet_front, filled, fill, word, interface_of};
ghost use Rattle.capture.specs.Order.{shown};

use crate::in_order::{InOrder, SentFrame};
use afdx_frame::{GREATEST_FRAME, Net};
use byteorder::{LittleEndian, WriteBytesExt};
use redundant_mux::FrameLog;
use std::io::{self, Write};

// The section header block: its type, its length, the byte-order magic, version 1.0, a section of
// unknown length, and the length of the block again.
const SECTION: [u8; 28] = [
    0x0a, 0x0d, 0x0d, 0x0a, 28, 0, 0, 0, 0x4d, 0x3c, 0x2b, 0x1a, 1, 0, 0, 0, 0xff, 0xff, 0xff,
    0xff, 0xff, 0xff, 0xff, 0xff, 28, 0, 0, 0,
];

// One more than the greatest number of 32 bits.
const WORD: u64 = 0x1_0000_0000;

// The padding of a frame.
const ZEROES: [u8; 3] = [0; 3];

/// Writes the frames of two networks as a capture in the pcapng format: a section header, an interface
/// for each network, and then a packet for each frame, with its time in microseconds. The earlier frame
/// comes first; of two frames at one time, A's. If the writer fails, it may have written a part of the
/// capture.
#[tactic(auto, using(script_text::proofs::Written::written_none, script_text::proofs::Written::written_turn, script_text::proofs::Written::written_all), unfolding(crate::specs::Capture::packet_blocks))]
pub fn write_capture<W: Write>(writer: &mut W, a: &FrameLog, b: &FrameLog) -> io::Result<()>
    ensures { OnOk result (Appends (W.contents writer.old) (W.contents writer.new)
        (capture_bytes a.now.handed b.now.handed)) }
{
    write_header(writer)?;
    for packet in InOrder::new(a, b) {
        write_packet(writer, packet)?;
    }
    Ok(())
}

/// Writes the section header and the interfaces of the two networks.
#[tactic(auto, unfolding(crate::specs::Capture::header_blocks))]
fn write_header<W: Write>(writer: &mut W) -> io::Result<()>
    ensures { OnOk result (Appends (W.contents writer.old) (W.contents writer.new) header_blocks) }
{
    write_section(writer)?;
    write_interface(writer, b'A')?;
    write_interface(writer, b'B')
}

#[tactic(auto, unfolding(crate::specs::Capture::section_block, crate::specs::Capture::word, crate::specs::Capture::half))]
fn write_section<W: Write>(writer: &mut W) -> io::Result<()>
    ensures { OnOk result (Appends (W.contents writer.old) (W.contents writer.new) section_block) }
{
    writer.write_all(&SECTION)
}

/// Writes the interface of a network, whose name has one letter: the type of the block, its length, the
/// link type of Ethernet, the longest frame, the option of the name, the end of the options, and the
/// length of the block again.
#[tactic(auto, unfolding(crate::specs::Capture::interface_block, crate::specs::Capture::word, crate::specs::Capture::half))]
fn write_interface<W: Write>(writer: &mut W, name: u8) -> io::Result<()>
    ensures { OnOk result (Appends (W.contents writer.old) (W.contents writer.new) (interface_block (name ∷ []))) }
{
    writer.write_all(&[
        1, 0, 0, 0, 32, 0, 0, 0, 1, 0, 0, 0, 0xea, 0x05, 0, 0, 2, 0, 1, 0, name, 0, 0, 0, 0, 0, 0,
        0, 32, 0, 0, 0,
    ])
}

/// Writes the packet of a frame.
fn write_packet<W: Write>(writer: &mut W, packet: SentFrame<'_>) -> io::Result<()>
    requires { length packet.frame.now ≤ GREATEST_FRAME }
    ensures { OnOk result (Appends (W.contents writer.old) (W.contents writer.new)
        (packet_block (shown packet.entry))) }
{
    let len = packet.frame.len();
    let whole = 32 + (len + fill_of(len)) as u32;
    write_front(writer, packet.net, packet.at, len as u32, whole)?;
    write_filled(writer, packet.frame)?;
    write_word(writer, whole)?;
    Ok(())
}

/// Writes the front of a packet, up to the frame's bytes: `len` bytes in a block of `whole`.
#[tactic(auto, unfolding(crate::specs::Capture::word))]
fn write_front<W: Write>(writer: &mut W, net: Net, at: u64, len: u32, whole: u32) -> io::Result<()>
    ensures { OnOk result (Appends (W.contents writer.old) (W.contents writer.new)
        (packet_front (interface_of net) at len whole)) }
{
    let [w0, w1, w2, w3] = whole.to_le_bytes();
    let [i0, i1, i2, i3] = interface(net).to_le_bytes();
    let [h0, h1, h2, h3] = ((at / WORD) as u32).to_le_bytes();
    let [l0, l1, l2, l3] = ((at % WORD) as u32).to_le_bytes();
    let [n0, n1, n2, n3] = len.to_le_bytes();
    // the type of an enhanced packet block is 6
    writer.write_all(&[
        6, 0, 0, 0, w0, w1, w2, w3, i0, i1, i2, i3, h0, h1, h2, h3, l0, l1, l2, l3, n0, n1, n2, n3,
        n0, n1, n2, n3,
    ])
}

/// Writes bytes, padded with zeros to a multiple of 4.
fn write_filled<W: Write>(writer: &mut W, bytes: &[u8]) -> io::Result<()>
    ensures { OnOk result (Appends (W.contents writer.old) (W.contents writer.new) (filled bytes.now)) }
{
    writer.write_all(bytes)?;
    writer.write_all(&ZEROES[..fill_of(bytes.len())])
}

#[tactic(auto, unfolding(crate::specs::Capture::word))]
fn write_word<W: Write>(writer: &mut W, number: u32) -> io::Result<()>
    ensures { OnOk result (Appends (W.contents writer.old) (W.contents writer.new) (word number)) }
{
    writer.write_u32::<LittleEndian>(number)
}

/// Returns the padding of `len` bytes to a multiple of 4.
pub(crate) fn fill_of(len: usize) -> usize
    ensures value { result ≡ fill len }
    ensures most { result ≤ 3 }
{
    (4 - len % 4) % 4
}

fn interface(net: Net) -> u32
    ensures { result ≡ interface_of net }
{
    match net {
        Net::A => 0,
        Net::B => 1,
    }
}
