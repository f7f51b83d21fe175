//! The text of an analysis.
ghost use Rattle.std.specs.Prelude.{◌≡◌, OnOk, flat_map};
ghost use Rattle.std.specs.Io.KnownBytes.{Appends};
ghost use Rattle.plan_report.specs.AnalysisText.{head_line, links_head, link_line, network_line, ports_head, port_line, sub_line, total_line, links_table, networks_table, ports_table, memory_head, memory_table, text_of, networks_cell as cell_of_networks, network_name as name_of_network, exceeded_cell as cell_of_exceeded};

use crate::check_report::write_jitter;
use crate::numbers::{Decimal, HUNDREDTHS, THOUSANDTHS};
use afdx_frame::Net;
use afdx_plan::Networks;
use plan_analysis::{Analysis, LinkAnalysis, NetworkRow, PortAnalysis, SubRow};
use std::io::{self, Write};

/// Writes an analysis as text: one table each for links, networks, ports and sub-VLs. Each row is a line of
/// words, so a script can split it.
#[tactic(auto, unfolding(crate::specs::AnalysisText::text_of))]
pub fn write_analysis<W: Write>(writer: &mut W, analysis: &Analysis) -> io::Result<()>
    ensures { OnOk result (Appends (W.contents writer.old) (W.contents writer.new) (text_of analysis.now)) }
{
    write_head(writer, analysis.end_system, analysis.lateness)?;
    write_links_table(writer, analysis.links.as_slice(), analysis.jitter)?;
    write_networks_table(writer, &analysis.network_a, &analysis.network_b)?;
    write_ports_table(writer, analysis.ports.as_slice())?;
    let memory = &analysis.memory;
    write_memory_table(writer, memory.subs.as_slice(), memory.bytes, &memory.large)
}

#[tactic(auto, unfolding(crate::specs::AnalysisText::links_table))]
fn write_links_table<W: Write>(
    writer: &mut W,
    links: &[LinkAnalysis],
    jitter: u64,
) -> io::Result<()>
    ensures { OnOk result (Appends (W.contents writer.old) (W.contents writer.new) (links_table links.now jitter)) }
{
    write_links_head(writer)?;
    write_links(writer, links)?;
    write_jitter(writer, " ns of ", jitter)
}

#[tactic(auto, unfolding(crate::specs::AnalysisText::networks_table, crate::specs::AnalysisText::networks_head))]
fn write_networks_table<W: Write>(writer: &mut W, a: &NetworkRow, b: &NetworkRow) -> io::Result<()>
    ensures { OnOk result (Appends (W.contents writer.old) (W.contents writer.new) (networks_table a.now b.now)) }
{
    writer.write_all(b"network    load-kbit/s  share-%  exceeded  jitter-ns\n")?;
    write_network(writer, a)?;
    write_network(writer, b)
}

#[tactic(auto, unfolding(crate::specs::AnalysisText::ports_table))]
fn write_ports_table<W: Write>(writer: &mut W, ports: &[PortAnalysis]) -> io::Result<()>
    ensures { OnOk result (Appends (W.contents writer.old) (W.contents writer.new) (ports_table ports.now)) }
{
    write_ports_head(writer)?;
    write_ports(writer, ports)
}

#[tactic(auto, unfolding(crate::specs::AnalysisText::memory_table))]
fn write_memory_table<W: Write>(
    writer: &mut W,
    subs: &[SubRow],
    bytes: u64,
    large: &Option<SubRow>,
) -> io::Result<()>
    ensures { OnOk result (Appends (W.contents writer.old) (W.contents writer.new)
        (memory_table subs.now bytes large.now)) }
{
    write_memory_head(writer)?;
    write_subs(writer, subs)?;
    write_total(writer, bytes, large)
}

#[tactic(auto, unfolding(crate::specs::AnalysisText::head_line))]
fn write_head<W: Write>(writer: &mut W, end_system: u16, lateness: u64) -> io::Result<()>
    ensures { OnOk result (Appends (W.contents writer.old) (W.contents writer.new) (head_line end_system lateness)) }
{
    writeln!(
        writer,
        "end system {end_system}, polls up to {lateness} us late"
    )
}

#[tactic(auto, unfolding(crate::specs::AnalysisText::links_head))]
fn write_links_head<W: Write>(writer: &mut W) -> io::Result<()>
    ensures { OnOk result (Appends (W.contents writer.old) (W.contents writer.new) links_head) }
{
    writer.write_all(b" link bag-ms lmax subs  nets    load-kbit/s  share-%  jitter-ns\n")
}

fn write_links<W: Write>(writer: &mut W, links: &[LinkAnalysis]) -> io::Result<()>
    ensures { OnOk result (Appends (W.contents writer.old) (W.contents writer.new) (flat_map link_line links.now)) }
{
    for link in links {
        write_link(writer, link)?;
    }
    Ok(())
}

#[tactic(auto, unfolding(crate::specs::AnalysisText::link_line))]
fn write_link<W: Write>(writer: &mut W, row: &LinkAnalysis) -> io::Result<()>
    ensures { OnOk result (Appends (W.contents writer.old) (W.contents writer.new) (link_line row.now)) }
{
    let id = row.plan.id.0;
    let bag = row.plan.bag.ms();
    let lmax = row.plan.lmax.bytes();
    let subs = row.plan.sub_vls;
    let networks = networks_cell(row.plan.networks);
    let load = Decimal(row.load, THOUSANDTHS, Some(11));
    let share = Decimal(row.share, HUNDREDTHS, Some(6));
    let jitter = row.jitter;
    writeln!(
        writer,
        "{id:>5}{bag:>7}{lmax:>5}{subs:>5} {networks}{load}{share}{jitter:>11}"
    )
}

pub(crate) fn networks_cell(networks: Networks) -> &'static str
    ensures { result.now ≡ cell_of_networks networks }
{
    match networks {
        Networks::Both => "  A+B",
        Networks::OnlyA => "    A",
        Networks::OnlyB => "    B",
    }
}

#[tactic(auto, unfolding(crate::specs::AnalysisText::network_line))]
fn write_network<W: Write>(writer: &mut W, row: &NetworkRow) -> io::Result<()>
    ensures { OnOk result (Appends (W.contents writer.old) (W.contents writer.new) (network_line row.now)) }
{
    let name = network_name(row.net);
    let load = Decimal(row.load, THOUSANDTHS, Some(11));
    let share = Decimal(row.share, HUNDREDTHS, Some(6));
    let exceeded = exceeded_cell(row.exceeded);
    let jitter = row.jitter;
    writeln!(writer, "{name}{load}{share}{exceeded}{jitter:>11}")
}

pub(crate) fn network_name(net: Net) -> &'static str
    ensures { result.now ≡ name_of_network net }
{
    match net {
        Net::A => "      A",
        Net::B => "      B",
    }
}

fn exceeded_cell(exceeded: bool) -> &'static str
    ensures { result.now ≡ cell_of_exceeded exceeded }
{
    if exceeded { "       yes" } else { "        no" }
}

#[tactic(auto, unfolding(crate::specs::AnalysisText::ports_head))]
fn write_ports_head<W: Write>(writer: &mut W) -> io::Result<()>
    ensures { OnOk result (Appends (W.contents writer.old) (W.contents writer.new) ports_head) }
{
    writer.write_all(b" port  link sub fragments        wait-us   messages/s\n")
}

fn write_ports<W: Write>(writer: &mut W, ports: &[PortAnalysis]) -> io::Result<()>
    ensures { OnOk result (Appends (W.contents writer.old) (W.contents writer.new) (flat_map port_line ports.now)) }
{
    for port in ports {
        write_port(writer, port)?;
    }
    Ok(())
}

#[tactic(auto, unfolding(crate::specs::AnalysisText::port_line))]
fn write_port<W: Write>(writer: &mut W, row: &PortAnalysis) -> io::Result<()>
    ensures { OnOk result (Appends (W.contents writer.old) (W.contents writer.new) (port_line row.now)) }
{
    let id = row.id.0;
    let link = row.vl.0;
    let sub = row.sub;
    let fragments = row.fragments;
    let wait = row.wait;
    let rate = Decimal(row.sustained, THOUSANDTHS, Some(9));
    writeln!(
        writer,
        "{id:>5}{link:>6}{sub:>4}{fragments:>10}{wait:>15}{rate}"
    )
}

#[tactic(auto, unfolding(crate::specs::AnalysisText::memory_head))]
fn write_memory_head<W: Write>(writer: &mut W) -> io::Result<()>
    ensures { OnOk result (Appends (W.contents writer.old) (W.contents writer.new) memory_head) }
{
    writer.write_all(b" link sub capacity ports partitions greatest         bytes\n")
}

fn write_subs<W: Write>(writer: &mut W, subs: &[SubRow]) -> io::Result<()>
    ensures { OnOk result (Appends (W.contents writer.old) (W.contents writer.new) (flat_map sub_line subs.now)) }
{
    for sub in subs {
        write_sub(writer, sub)?;
    }
    Ok(())
}

#[tactic(auto, unfolding(crate::specs::AnalysisText::sub_line))]
fn write_sub<W: Write>(writer: &mut W, row: &SubRow) -> io::Result<()>
    ensures { OnOk result (Appends (W.contents writer.old) (W.contents writer.new) (sub_line row.now)) }
{
    let link = row.vl.0;
    let sub = row.sub;
    let capacity = row.capacity;
    let ports = row.ports;
    let partitions = row.partitions;
    let greatest = row.greatest;
    let bytes = row.bytes;
    writeln!(
        writer,
        "{link:>5}{sub:>4}{capacity:>9}{ports:>6}{partitions:>11}{greatest:>9}{bytes:>14}"
    )
}

#[tactic(auto, unfolding(crate::specs::AnalysisText::total_line))]
fn write_total<W: Write>(writer: &mut W, bytes: u64, large: &Option<SubRow>) -> io::Result<()>
    ensures { OnOk result (Appends (W.contents writer.old) (W.contents writer.new) (total_line bytes large.now)) }
{
    match large {
        Some(row) => {
            let link = row.vl.0;
            let sub = row.sub;
            writeln!(
                writer,
                "memory {bytes} bytes, 64 MiB or more: link {link} sub {sub} holds the most"
            )
        }
        None => writeln!(writer, "memory {bytes} bytes"),
    }
}
