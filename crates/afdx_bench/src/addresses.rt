//! A maker's own addresses in frames: the words for them, and packets and findings of such frames.
use afdx_frame::Net;
use afdx_frame::net::{INTERFACE_A, INTERFACE_B};
use bench_words::{AddressingRow, Case};
use capture::Packet;
use judge::{Addressing, CONSTANT, Finding};
use std::alloc::{AllocError, Global};
use std::fmt;

/// Returns the addressing that the words give, if they give a part of one; the profile has the other part.
pub fn addressing_of(case: &Case) -> Option<Addressing> {
    if case.constant.is_none() && case.interfaces.is_none() {
        return None;
    }
    let [a, b] = case.interfaces.unwrap_or([INTERFACE_A, INTERFACE_B]);
    let constant = case.constant.unwrap_or(CONSTANT);
    Some(Addressing { constant, a, b })
}

/// Returns the network that an interface byte names; without an addressing, by the profile.
pub fn net_of(own: Option<Addressing>, byte: u8) -> Option<Net> {
    let (a, b) = match own {
        Some(own) => (own.a, own.b),
        None => (INTERFACE_A, INTERFACE_B),
    };
    if byte == a {
        Some(Net::A)
    } else if byte == b {
        Some(Net::B)
    } else {
        None
    }
}

/// The constant field of an addressing, printed in hexadecimal.
#[derive(Clone, Copy)]
struct Constant([u8; 4]);

impl fmt::Display for Constant {
    fn fmt<W: fmt::Write>(&self, f: &mut fmt::Formatter<W>) -> fmt::Result {
        let [a, b, c, d] = self.0;
        write!(f, "{a:02x}:{b:02x}:{c:02x}:{d:02x}")
    }
}

/// An addressing, printed with its options' names.
#[derive(Clone, Copy)]
pub struct Addresses(pub Addressing);

impl fmt::Display for Addresses {
    fn fmt<W: fmt::Write>(&self, f: &mut fmt::Formatter<W>) -> fmt::Result {
        let Addressing { constant, a, b } = self.0;
        let constant = Constant(constant);
        write!(f, "constant {constant}, interfaces {a:02x},{b:02x}")
    }
}

/// Returns the row of an addressing in a document.
pub fn addressing_row(
    alloc: Global,
    given: Option<Addressing>,
) -> Result<Option<AddressingRow>, AllocError> {
    let Some(own) = given else {
        return Ok(None);
    };
    let bytes = own.constant;
    let constant = Constant(bytes);
    Ok(Some(AddressingRow {
        constant: format!(in alloc; "{constant}")?,
        interface_a: own.a,
        interface_b: own.b,
    }))
}

/// A maker's addressing, and the room for a packet that is rewritten.
#[derive(Drop)]
pub struct Rewriting {
    addressing: Addressing,
    // Frames end with their check sequence, whatever the capture says.
    fcs: bool,
    room: Vec<u8>,
}

impl Rewriting {
    /// Creates the rewriting of frames.
    pub fn new(alloc: Global, addressing: Addressing, fcs: bool) -> Rewriting {
        Rewriting {
            addressing,
            fcs,
            room: Vec::new(alloc),
        }
    }

    /// Returns a packet with the profile's addresses.
    pub fn packet(&mut self, packet: &Packet<'_>) -> Result<Packet<'_>, AllocError> {
        let has_check = self.fcs || packet.fcs == Some(true);
        self.addressing
            .write(has_check, packet.bytes, &mut self.room)?;
        Ok(Packet {
            interface: packet.interface,
            network: packet.network,
            at: packet.at,
            original: packet.original,
            bytes: self.room.as_slice(),
            fcs: packet.fcs,
        })
    }

    /// Gives findings at a rewritten packet the bytes that were recorded.
    pub fn restore(&self, found: &mut [Finding]) {
        for finding in found.iter_mut() {
            *finding = self.addressing.told(finding);
        }
    }
}
