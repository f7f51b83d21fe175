//! The addresses of a maker whose frames have another constant field or other interface bytes than the profile's.
ghost use Rattle.std.specs.Prelude.{◌≡◌, OnOk};
ghost use Rattle.judge.specs.Addresses.{exchanged, interface_as, interface_from, number_from, frame_as, packet_as, told_as};

use crate::check_sequence::check_sequence;
use crate::finding::{Finding, FindingKind};
use crate::rules::checked;
use afdx_frame::field;
use afdx_frame::net::{INTERFACE_A, INTERFACE_B};
use byteorder::{ByteOrder, LittleEndian};
use std::alloc::AllocError;

/// The constant field of the profile, the first bytes of a destination MAC address.
pub const CONSTANT: [u8; 4] = [3, 0, 0, 0];

/// The constant field of a maker's destination MAC addresses, and the interface bytes of its networks.
#[derive(Clone, Copy, Debug, PartialEq, Eq)]
pub struct Addressing {
    pub constant: [u8; 4],
    pub a: u8,
    pub b: u8,
}

/// Returns the byte for which another one is exchanged.
fn exchanged(one: u8, other: u8, byte: u8) -> u8
    ensures { result ≡ exchanged one other byte }
{
    if byte == one {
        other
    } else if byte == other {
        one
    } else {
        byte
    }
}

impl Addressing {
    /// Returns the profile's interface byte for one of this addressing.
    fn interface_as(&self, byte: u8) -> u8
        ensures { result ≡ interface_as self.now byte }
    {
        let left = exchanged(self.a, INTERFACE_A, self.b);
        exchanged(left, INTERFACE_B, exchanged(self.a, INTERFACE_A, byte))
    }

    /// Returns the interface byte of this addressing for one of the profile.
    fn interface_from(&self, byte: u8) -> u8
        ensures { result ≡ interface_from self.now byte }
    {
        let left = exchanged(self.a, INTERFACE_A, self.b);
        exchanged(self.a, INTERFACE_A, exchanged(left, INTERFACE_B, byte))
    }

    /// Rewrites a frame of this addressing as one of the profile.
    #[tactic(auto, unfolding(crate::specs::Addresses::frame_as))]
    fn rewrite(&self, frame: &mut [u8])
        ensures { frame.new ≡ frame_as self.now frame.old }
    {
        if frame.len() < 12 {
            return;
        }
        frame[0] = exchanged(self.constant[0], CONSTANT[0], frame[0]);
        frame[1] = exchanged(self.constant[1], CONSTANT[1], frame[1]);
        frame[2] = exchanged(self.constant[2], CONSTANT[2], frame[2]);
        frame[3] = exchanged(self.constant[3], CONSTANT[3], frame[3]);
        frame[field::INTERFACE] = self.interface_as(frame[field::INTERFACE]);
    }

    /// Writes a packet's bytes into a room as the profile has them. If they end with a check sequence, a right one
    /// makes way for the new frame's. Bytes with a wrong one stay as they are, so that it is found. Fails only if
    /// memory runs out.
    #[tactic(auto, unfolding(crate::specs::Addresses::packet_as))]
    pub fn write(&self, has_check: bool, bytes: &[u8], room: &mut Vec<u8>) -> Result<(), AllocError>
        ensures { OnOk result (room.new.items ≡ packet_as self.now has_check bytes.now) }
    {
        room.clear();
        if !has_check {
            room.extend_from_slice(bytes)?;
            self.rewrite(room.as_mut_slice());
            return Ok(());
        }
        let Ok(frame) = checked(bytes) else {
            return room.extend_from_slice(bytes);
        };
        room.extend_from_slice(frame)?;
        self.rewrite(room.as_mut_slice());
        let mut check = [0; 4];
        LittleEndian::write_u32(&mut check, check_sequence(room.as_slice()));
        room.extend_from_slice(&check)
    }

    /// Returns a number of a finding that is an interface byte, with that of this addressing.
    fn number_from(&self, number: u64) -> u64
        ensures { result ≡ number_from self.now number }
    {
        if number < 256 {
            self.interface_from(number as u8) as u64
        } else {
            number
        }
    }

    /// Returns a finding at a rewritten frame with the interface bytes of this addressing.
    pub fn told(&self, finding: &Finding) -> Finding
        ensures { result ≡ told_as self.now finding.now }
    {
        let mut told = *finding;
        if matches!(told.kind, FindingKind::Network) {
            told.seen = self.number_from(told.seen);
            if told.wanted != 0 {
                told.wanted = self.number_from(told.wanted);
            }
        }
        told
    }
}
