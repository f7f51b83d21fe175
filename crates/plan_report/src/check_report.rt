//! The report of `check` on a plan.
ghost use Rattle.std.specs.Prelude.{◌≡◌, OnOk, flat_map, Some};
ghost use Rattle.std.specs.Io.KnownBytes.{Appends};
ghost use Rattle.plan_report.specs.Report.{kind_name as name_of_kind, checksum_text as text_of_checksum, networks_text as text_of_networks, end_system_line, jitter_line, report_of, link_line, way_text, flow_text, port_line, destination_text};

use afdx_plan::{Config, Kind, LinkPlan, Networks, PortPlan, UdpSum, jitter_ns};
use plan_analysis::JITTER_LIMIT;
use std::fmt;
use std::io::{self, Write};
use std::net::Ipv4Addr;

/// Writes the report on a plan: a line each for the end system, every link and every port, in the
/// order of the plan, and a last one for the jitter.
#[tactic(auto, unfolding(crate::specs::Report::report_of))]
pub fn write_report<W: Write>(writer: &mut W, config: &Config) -> io::Result<()>
    ensures { OnOk result (Appends (W.contents writer.old) (W.contents writer.new) (report_of config.now)) }
{
    write_end_system(writer, config.end_system())?;
    write_links(writer, config.links())?;
    write_ports(writer, config.ports())?;
    write_jitter(writer, " ns, limit ", jitter_ns(config))
}

#[tactic(auto, unfolding(crate::specs::Report::end_system_line))]
fn write_end_system<W: Write>(writer: &mut W, id: u16) -> io::Result<()>
    ensures { OnOk result (Appends (W.contents writer.old) (W.contents writer.new) (end_system_line id)) }
{
    writeln!(writer, "end system {id}")
}

fn write_links<W: Write>(writer: &mut W, links: &[LinkPlan]) -> io::Result<()>
    ensures { OnOk result (Appends (W.contents writer.old) (W.contents writer.new) (flat_map link_line links.now)) }
{
    for link in links {
        write_link(writer, link)?;
    }
    Ok(())
}

fn write_link<W: Write>(writer: &mut W, link: &LinkPlan) -> io::Result<()>
    ensures { OnOk result (Appends (W.contents writer.old) (W.contents writer.new) (link_line link.now)) }
{
    let id = link.id.0;
    let gap = link.bag.ms();
    let lmax = link.lmax.bytes();
    let subs = link.sub_vls;
    let capacity = link.capacity;
    let networks = networks_text(link.networks);
    writeln!(
        writer,
        "link {id}: bag {gap} ms, lmax {lmax}, sub-VLs {subs}, capacity {capacity}{networks}"
    )
}

fn networks_text(networks: Networks) -> &'static str
    ensures { result.now ≡ text_of_networks networks }
{
    match networks {
        Networks::Both => "",
        Networks::OnlyA => ", network A",
        Networks::OnlyB => ", network B",
    }
}

fn write_ports<W: Write>(writer: &mut W, ports: &[PortPlan]) -> io::Result<()>
    ensures { OnOk result (Appends (W.contents writer.old) (W.contents writer.new) (flat_map port_line ports.now)) }
{
    for port in ports {
        write_port(writer, port)?;
    }
    Ok(())
}

#[tactic(auto, unfolding(crate::specs::Report::port_line))]
fn write_port<W: Write>(writer: &mut W, port: &PortPlan) -> io::Result<()>
    ensures { OnOk result (Appends (W.contents writer.old) (W.contents writer.new) (port_line port.now)) }
{
    write_way(writer, port)?;
    write_flow(writer, port)?;
    let address = Address(port.unicast);
    let checksum = checksum_text(port.checksum);
    writeln!(writer, ", {address}{checksum}")
}

#[tactic(auto, unfolding(crate::specs::Report::way_text))]
fn write_way<W: Write>(writer: &mut W, port: &PortPlan) -> io::Result<()>
    ensures { OnOk result (Appends (W.contents writer.old) (W.contents writer.new) (way_text port.now)) }
{
    let id = port.id.0;
    let link = port.vl.0;
    let sub = port.sub;
    let partition = port.partition;
    write!(
        writer,
        "port {id}: link {link} sub {sub}, partition {partition}"
    )
}

#[tactic(auto, unfolding(crate::specs::Report::flow_text))]
fn write_flow<W: Write>(writer: &mut W, port: &PortPlan) -> io::Result<()>
    ensures { OnOk result (Appends (W.contents writer.old) (W.contents writer.new) (flow_text port.now)) }
{
    let kind = kind_name(port.kind);
    let source = port.source;
    let destination = port.destination;
    let max = port.max;
    write!(writer, ", {kind}, {source} to {destination}, max {max}")
}

/// The destination of a port: its unicast address, if it has one.
#[derive(Drop)]
struct Address(Option<[u8; 4]>);

impl fmt::Display for Address {
    ghost output = { λ address. Some (destination_text address.0) };

    #[tactic(auto, unfolding(crate::specs::Report::destination_text))]
    fn fmt<W: fmt::Write>(&self, f: &mut fmt::Formatter<W>) -> fmt::Result {
        match self.0 {
            Some(address) => write!(f, "{}", Ipv4Addr::from(address)),
            None => f.write_str("multicast"),
        }
    }
}

fn kind_name(kind: Kind) -> &'static str
    ensures { result.now ≡ name_of_kind kind }
{
    match kind {
        Kind::Sampling => "sampling",
        Kind::Queuing => "queuing",
    }
}

fn checksum_text(checksum: UdpSum) -> &'static str
    ensures { result.now ≡ text_of_checksum checksum }
{
    match checksum {
        UdpSum::Omitted => "",
        UdpSum::Generated => ", checksum udp",
    }
}

/// Writes the line of the jitter, with words before its limit.
#[tactic(auto, unfolding(crate::specs::Report::jitter_line))]
pub(crate) fn write_jitter<W: Write>(writer: &mut W, words: &str, jitter: u64) -> io::Result<()>
    ensures { OnOk result (Appends (W.contents writer.old) (W.contents writer.new) (jitter_line words.now jitter)) }
{
    let exceeded = if jitter > JITTER_LIMIT {
        ", exceeded"
    } else {
        ""
    };
    writeln!(writer, "jitter {jitter}{words}{JITTER_LIMIT}{exceeded}")
}
