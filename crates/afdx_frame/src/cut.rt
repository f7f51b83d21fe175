//! A message, cut into frames, one piece per call.
ghost use Rattle.std.specs.Prelude.{◌≡◌, ℕ, ◌+◌, ◌≤◌, ◌<◌, ◌-◌, ◌%◌, ◌↔◌, length, [], ◌∷◌, List, IsTrue, true, false, IfSome, MatchOption, vec_len, vec_capacity};
ghost use Rattle.afdx_frame.specs.Checksum.{word_sum};
ghost use Rattle.afdx_plan.specs.Plan.{IsPort, SendsOver, room_of};
ghost use Rattle.afdx_frame.specs.Frame.{frame_of, greatest_message, greatest_datagram};
ghost use Rattle.afdx_frame.specs.Header.{IsFrameOf};
ghost use Rattle.afdx_frame.specs.Fragments.{blanked, fragments_at, fragments_left};
ghost use Rattle.afdx_frame.specs.declared.net.Net.{Net as Network};
ghost use Rattle.afdx_frame.specs.Cutting.{cut_of, cutting, pieces_from, pieces_left, piece_at, SameMessage, TakesFirst, whole, uncut, written, Remains, IsCut, Held};

use crate::buffer::FrameBuffer;
use crate::field::Piece;
use crate::net::{Frame, Net};
use crate::template::Template;
use crate::write::write_frame;
use afdx_plan::{LinkPlan, PortPlan};
use std::marker::Model;

/// The rest of a message at a place of its sub-VL, given frame by frame. Its bytes, and the template of its port, are
/// lent at each call. The datagram's bytes before `start` were given. No call allocates.
#[derive(Drop)]
pub struct Rest {
    place: u64,
    start: usize,
    // The length of the datagram.
    end: usize,
}

impl Model for Rest {
    ghost Value = { Remains };

    ghost view = { λ r. record {
      place = r.place;
      start = r.start;
      end = r.end;
    } };

    ghost invariant = { λ r. IsCut r.end r.start };
}

/// A message of a port at a place of its sub-VL, given frame by frame. No call allocates.
#[derive(Drop)]
pub struct Cut {
    port: PortPlan,
    bytes: Vec<u8>,
    rest: Rest,
}

impl Model for Cut {
    ghost Value = { Held };

    ghost view = { λ c. record {
      cut = cut_of c.port c.bytes.items c.rest;
      capacity = vec_capacity c.bytes;
    } };

    ghost invariant = { λ c. IsPort c.port × (c.rest.end ≡ 8 + length c.bytes.items) };
}

/// Returns the next piece, if there is one. If the rest doesn't fit into the room, the piece is the greatest multiple
/// of 8 bytes that does (RFC 791, the example procedure of fragmentation).
fn next_piece(room: usize, len: usize, start: usize) -> Option<Piece>
    requires room { 25 ≤ room }
    requires len { len ≤ greatest_datagram }
    ensures { MatchOption result (len ≤ start) (λ piece. (start < len) × (piece ≡ piece_at room len start)) }
{
    if start >= len {
        return None;
    }
    let left = len - start;
    if room < left {
        Some(Piece {
            start,
            len: room - room % 8,
            more: true,
        })
    } else {
        Some(Piece {
            start,
            len: left,
            more: false,
        })
    }
}

impl Rest {
    /// Creates the rest of a message of `len` bytes, 1 to 8,192, before its first piece. `place` counts the accepted
    /// messages of the sub-VL from 0.
    pub fn new(len: usize, place: u64) -> Rest
        requires some { 1 ≤ len }
        requires most { len ≤ greatest_message }
        ensures { result ≡ whole place len }
    {
        Rest {
            place,
            start: 0,
            end: 8 + len,
        }
    }

    /// Returns the rest of no message: all pieces were given.
    #[tactic(auto, using(crate::proofs::CuttingLemmas::left_none))]
    pub fn none() -> Rest
        ensures empty { result.end ≡ 8 }
        ensures none { (port : _) (room : ℕ) → pieces_left room (cut_of port [] result) ≡ [] }
    {
        Rest {
            place: 0,
            start: 8,
            end: 8,
        }
    }

    /// Returns true if all pieces were given.
    #[tactic(auto, using(crate::proofs::CuttingLemmas::left_none, crate::proofs::CuttingLemmas::left_only))]
    pub fn is_done(&self) -> bool
        ensures { (port : _) (bytes : List ℕ) (room : ℕ) → self.now.end ≡ 8 + length bytes →
            IsTrue result ↔ (pieces_left room (cut_of port bytes self.now) ≡ []) }
    {
        self.start == self.end
    }

    /// Writes the frame of the next piece, with this sequence number, for this network, into the
    /// caller's buffer, which it overwrites. Returns whether a piece was left; if none was, the
    /// buffer and the message are unchanged. `sum` is the sum of the message's 16-bit words modulo
    /// 65,535, if it is known: otherwise the first frame of a port with checksums makes it.
    pub fn write_next(
        &mut self,
        bytes: &[u8],
        sum: Option<u16>,
        template: &Template,
        link: &LinkPlan,
        number: u8,
        net: Net,
        out: &mut FrameBuffer,
    ) -> bool
        requires over { SendsOver template.now.port link.now }
        requires message { self.old.end ≡ 8 + length bytes.now }
        requires sum { IfSome sum (λ sum. sum ≡ word_sum bytes.now % 65535) }
        ensures frame { TakesFirst (λ piece frame. frame.items ≡ frame_of
            template.now.end_system template.now.port bytes.now self.old.place piece net number)
            (pieces_left (room_of link.now.lmax) (cut_of template.now.port bytes.now self.old)) (written result out.new)
            (pieces_left (room_of link.now.lmax) (cut_of template.now.port bytes.now self.new)) }
        ensures same { (self.new.place ≡ self.old.place) × (self.new.end ≡ self.old.end) }
        ensures fragments { MatchOption (written result out.new)
            (fragments_left template.now.end_system (room_of link.now.lmax) net
            (cut_of template.now.port bytes.now self.old) ≡ [])
            (λ frame. fragments_left template.now.end_system (room_of link.now.lmax) net
            (cut_of template.now.port bytes.now self.old) ≡ blanked frame.items
            ∷ fragments_left template.now.end_system (room_of link.now.lmax) net
            (cut_of template.now.port bytes.now self.new)) }
        ensures header { result ≡ true →
            IsFrameOf template.now.port.vl.0 template.now.port.sub number net out.new.items }
        ensures none { result ≡ false → out.new ≡ out.old }
    {
        let room = link.lmax.room() as usize;
        let Some(piece) = next_piece(room, self.end, self.start) else {
            return false;
        };
        write_frame(out, template, bytes, sum, self.place, piece, net, number);
        self.start += piece.len;
        true
    }
}

impl Cut {
    /// Begins to cut a message of 1 to 8,192 bytes. `place` counts the accepted messages of the
    /// sub-VL from 0.
    #[tactic(auto, using(crate::proofs::Twins::pieces_whole))]
    pub fn new(bytes: Vec<u8>, place: u64, port: &PortPlan) -> Cut
        requires port { IsPort port.now }
        requires some { 1 ≤ vec_len bytes }
        requires most { vec_len bytes ≤ greatest_message }
        ensures message { result.cut ≡ uncut port.now place bytes.items }
        ensures memory { result.capacity ≡ vec_capacity bytes }
        ensures pieces { (room : ℕ) →
            pieces_left room result.cut ≡ pieces_from 0 (cutting room (8 + length bytes.items)) }
        ensures fragments { (end_system room : ℕ) (net : Network) → fragments_left end_system room net result.cut
            ≡ fragments_at end_system room net place (record { port = port.now; bytes = bytes.items }) }
    {
        let rest = Rest::new(bytes.len(), place);
        Cut {
            port: *port,
            bytes,
            rest,
        }
    }

    /// Returns true if all pieces were given.
    pub fn is_done(&self) -> bool
        ensures { (room : ℕ) → IsTrue result ↔ (pieces_left room self.now.cut ≡ []) }
    {
        self.rest.is_done()
    }

    /// Returns the frame of the next piece, with this sequence number, for this network. Returns
    /// `None`, and changes nothing, exactly if all pieces were given.
    pub fn next_frame(
        &mut self,
        link: &LinkPlan,
        end_system: u16,
        number: u8,
        net: Net,
    ) -> Option<Frame>
        requires { SendsOver self.old.cut.port link.now }
        ensures frame { TakesFirst (λ piece frame. frame.items ≡ frame_of
            end_system self.old.cut.port self.old.cut.bytes self.old.cut.place piece net number)
            (pieces_left (room_of link.now.lmax) self.old.cut) result
            (pieces_left (room_of link.now.lmax) self.new.cut) }
        ensures same { SameMessage self.old.cut self.new.cut }
        ensures memory { self.new.capacity ≡ self.old.capacity }
        ensures fragments { MatchOption result (fragments_left end_system (room_of link.now.lmax) net self.old.cut ≡ [])
            (λ frame. fragments_left end_system (room_of link.now.lmax) net self.old.cut ≡ blanked frame.items
            ∷ fragments_left end_system (room_of link.now.lmax) net self.new.cut) }
    {
        let template = Template::new(end_system, &self.port);
        let mut frame = FrameBuffer::new();
        if !self.rest.write_next(&self.bytes, None, &template, link, number, net, &mut frame) {
            return None;
        }
        Some(frame.into_frame())
    }
}
