//! The totals of a storm, and a storm whose totals are written.
ghost use Rattle.std.specs.Prelude.{◌≡◌, if◌then◌else◌, length, OnOk, ◌≢◌, ◌≤◌, ◌↔◌, IfErr};
ghost use Rattle.std.specs.Io.KnownBytes.{Appends, Keeps};
ghost use Rattle.storm.specs.Storms.{link_line, link_lines_to, totals_of, HasShortPort, ReportsPlan};

use crate::both::KeptLinks;
use crate::fault::{StormFault, ThrowFault};
use crate::gate::Gate;
use crate::storm_report::{StormReport, storm};
use afdx_plan::{Config, LinkPlan, VlId};
use status_board::Counts;
use std::alloc::Global;
use std::io::{self, Write};
use std::sync::Wait;
use std::thread::Threads;

/// Writes the totals of a storm over these links, in the order of their plan: the number of accepted messages, the
/// counts of each link, whether both networks have the same frames, and whether a count was seen to fall.
#[tactic(auto, unfolding(crate::specs::Storms::totals_text))]
pub fn write_totals<W: Write>(
    writer: &mut W,
    links: &[LinkPlan],
    report: &StormReport,
) -> io::Result<()>
    requires { length report.now.links.items ≡ length links.now }
    ensures { OnOk result (Appends (W.contents writer.old) (W.contents writer.new) (totals_of links.now report.now)) }
{
    let accepted = report.accepted;
    let networks = either(report.equal, "equal", "differ");
    let watcher = either(report.back, "back", "never back");
    writeln!(writer, "accepted {accepted}")?;
    write_links(writer, links, report)?;
    writeln!(writer, "networks {networks}")?;
    writeln!(writer, "watcher {watcher}")
}

fn write_links<W: Write>(writer: &mut W, links: &[LinkPlan], report: &StormReport) -> io::Result<()>
    requires { length report.now.links.items ≡ length links.now }
    ensures { OnOk result (Appends (W.contents writer.old) (W.contents writer.new)
        (link_lines_to links.now report.now.links.items (length links.now))) }
{
    for place in 0..links.len() {
        write_link(writer, links[place].id, &report.links[place])?;
    }
    Ok(())
}

#[tactic(auto, unfolding(crate::specs::Storms::link_line))]
fn write_link<W: Write>(writer: &mut W, id: VlId, counts: &Counts) -> io::Result<()>
    ensures { OnOk result (Appends (W.contents writer.old) (W.contents writer.new) (link_line id.0 counts.now)) }
{
    let link = id.0;
    let frames = counts.frames;
    let bytes = counts.bytes;
    let messages = counts.messages;
    writeln!(
        writer,
        "link {link}: frames {frames}, bytes {bytes}, messages {messages}"
    )
}

fn either(is: bool, yes: &'static str, no: &'static str) -> &'static str
    ensures { result.now ≡ (if is then yes.now else no.now) }
{
    if is { yes } else { no }
}

/// Runs a storm over an end system of a plan, and writes the totals. If it ends early, writes nothing.
pub fn throw_storm<W: Write, G: Gate + Sync, R: Threads + Wait + Sync>(
    rt: &R,
    alloc: Global,
    config: Config,
    writer: &mut W,
    messages: u32,
    turns: u64,
    gate: &G,
) -> Result<(), ThrowFault>
    requires messages { (1 ≤ messages) × (messages ≤ 65535) }
    requires turns { (1 ≤ turns) × (turns ≤ 1000000000) }
    ensures ok { OnOk result (ReportsPlan config messages (W.contents writer.old) (W.contents writer.new)) }
    ensures short { IfErr result (λ fault. (fault ≡ ThrowFault.Storm StormFault.Short) ↔ HasShortPort config) }
    ensures unchanged { IfErr result (λ fault. fault ≢ ThrowFault.Write →
        Keeps (W.contents writer.old) (W.contents writer.new)) }
{
    let links = KeptLinks::of(config.links());
    match storm(rt, alloc, config, messages, turns, gate) {
        Ok(report) => match write_totals(writer, links.as_slice(), &report) {
            Ok(()) => Ok(()),
            Err(_) => Err(ThrowFault::Write),
        },
        Err(fault) => Err(ThrowFault::Storm(fault)),
    }
}
