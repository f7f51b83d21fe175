//! The fields of a frame of the layout.
ghost use Rattle.std.specs.Prelude.{◌≡◌, ◌≤◌};
ghost use Rattle.afdx_frame.specs.Profile.{total_length};
ghost use Rattle.judge.specs.Fields.{ends_message, fields_of, AreSmall};
ghost use Rattle.afdx_frame.specs.Layout.{IsReadable};

use afdx_frame::field::{self, OFFSET_MODULUS, has_more, is_icmp};
use afdx_frame::word_at;
use internet_sum::{word_sum, word_sum_modulo};

/// The fields of a frame.
#[derive(Clone, Copy)]
pub(crate) struct Fields {
    /// The sequence number.
    pub(crate) number: u8,
    pub(crate) piece: PieceIn,
    /// The frame carries ICMP, and no piece of a port's message.
    pub(crate) icmp: bool,
    pub(crate) flow: Flow,
    /// The UDP length and checksum, in a first piece.
    pub(crate) udp_len: u16,
    pub(crate) udp_sum: u16,
    /// The sum of the words of the piece, modulo 65,535.
    pub(crate) sum: u16,
    /// The sum of the words of the addresses.
    pub(crate) ends: u32,
}

/// The piece of a datagram that a frame carries: its message's identification, its place and its length in bytes, and
/// whether more pieces follow.
#[derive(Clone, Copy)]
pub(crate) struct PieceIn {
    pub(crate) ident: u16,
    pub(crate) start: u32,
    pub(crate) len: u32,
    pub(crate) more: bool,
}

/// The fields that tell ports apart: the partition and the destination address, and in a first piece the UDP ports.
#[derive(Clone, Copy)]
pub(crate) struct Flow {
    pub(crate) partition: u8,
    pub(crate) address: u32,
    pub(crate) source: u16,
    pub(crate) destination: u16,
}

impl Fields {
    /// Returns true if the frame has the last piece of a message.
    pub(crate) fn ends_message(&self) -> bool
        ensures { result ≡ ends_message self.now }
    {
        !(self.piece.more || self.icmp)
    }
}

/// Returns the fields of a frame of the layout.
#[tactic(auto, unfolding(crate::specs::Fields::fields_of))]
pub(crate) fn fields_of(frame: &[u8]) -> Fields
    requires { IsReadable frame.now }
    ensures value { result ≡ fields_of frame.now }
    ensures small { AreSmall result }
{
    let (total, fragment) = (
        word_at(frame, field::TOTAL_LENGTH),
        word_at(frame, field::FRAGMENT),
    );
    Fields {
        number: frame[frame.len() - 1],
        piece: PieceIn {
            ident: word_at(frame, field::IDENTIFICATION),
            start: 8 * (fragment % OFFSET_MODULUS) as u32,
            len: total as u32 - 20,
            more: has_more(frame),
        },
        icmp: is_icmp(frame),
        flow: Flow {
            partition: frame[field::SOURCE + 3],
            address: 0x1_0000 * word_at(frame, field::DESTINATION) as u32
                + word_at(frame, field::DESTINATION + 2) as u32,
            source: word_at(frame, field::DATA),
            destination: word_at(frame, field::DATA + 2),
        },
        udp_len: word_at(frame, field::UDP_LENGTH),
        udp_sum: word_at(frame, field::UDP_CHECKSUM),
        sum: word_sum_modulo(&frame[field::DATA..field::VERSION + total as usize]),
        ends: word_sum(&frame[field::SOURCE..field::DATA]),
    }
}
