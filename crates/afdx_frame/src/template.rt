//! The headers of a port's frames, made once for all of them.
ghost use Rattle.std.specs.Prelude.{◌≡◌, ◌≤◌, length, take};
ghost use Rattle.afdx_plan.specs.Plan.{IsPort};
ghost use Rattle.afdx_plan.specs.Address.{destination_address};
ghost use Rattle.afdx_frame.specs.Template.{unfilled, Origin, IsTemplate};
ghost use Rattle.afdx_frame.specs.Checksum.{word_sum};
ghost use Rattle.afdx_frame.specs.Frame.{addresses};

use crate::buffer::put_first;
use crate::field::{self, set_word};
use crate::net::INTERFACE_A;
use afdx_plan::PortPlan;
use internet_sum::word_sum;
use std::marker::Model;

/// The bytes that all frames of a port of an end system share. Contracts see the end system and the port.
#[derive(Clone, Copy)]
pub struct Template {
    pub(crate) port: PortPlan,
    // The headers for network A up to the UDP ports, with zeros in the fields that a frame fills in.
    pub(crate) headers: [u8; 38],
    // The sum of the words of the addresses.
    pub(crate) sum: u32,
    // For contracts: the headers have it.
    end_system: u16,
}

impl Model for Template {
    ghost Value = { Origin };

    ghost view = { λ t. record { end_system = t.end_system; port = t.port } };

    ghost invariant = { λ t. IsTemplate (record { end_system = t.end_system; port = t.port }) t.headers t.sum };

    ghost inverse = { λ of. record {
      port = of.port;
      headers = unfilled of;
      sum = word_sum (addresses of.end_system of.port);
      end_system = of.end_system;
    } };
}

/// Returns the destination address of a port.
fn destination(port: &PortPlan) -> [u8; 4]
    requires { IsPort port.now }
    ensures { result ≡ destination_address port.now }
{
    match port.unicast {
        Some(address) => address,
        None => {
            let mut address = [0xe0; 4];
            set_word(&mut address, 2, port.vl.0);
            address
        }
    }
}

impl Template {
    /// Creates the template of a port of an end system.
    pub fn new(end_system: u16, port: &PortPlan) -> Template
        requires { IsPort port.now }
        ensures { result ≡ record { end_system = end_system; port = port.now } }
    {
        let [d0, d1, d2, d3] = destination(port);
        let (a, p) = (INTERFACE_A, port.partition);
        let mut headers = [
            3, 0, 0, 0, 0, 0, 2, 0, 0, 0, 0, a, 8, 0, // MAC addresses, type
            0x45, 0, 0, 0, 0, 0, 0, 0, 1, 17, 0, 0, // the internet header to its checksum
            10, 0, 0, p, d0, d1, d2, d3, // addresses
            0, 0, 0, 0, // UDP ports
        ];
        set_word(&mut headers, field::LINK, port.vl.0);
        set_word(&mut headers, field::END_SYSTEM, end_system);
        set_word(&mut headers, field::SOURCE + 1, end_system);
        set_word(&mut headers, field::DATA, port.source);
        set_word(&mut headers, field::DATA + 2, port.destination);
        Template {
            port: *port,
            headers,
            sum: word_sum(&headers[field::SOURCE..field::DATA]),
            end_system,
        }
    }

    /// Writes the headers, not filled in yet.
    pub(crate) fn put(&self, out: &mut [u8])
        requires { 38 ≤ length out.old }
        ensures { take 38 out.new ≡ unfilled self.now }
    {
        put_first(out, &self.headers);
    }
}
