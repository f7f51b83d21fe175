//! The commands `import` and `schedule`.
ghost use Rattle.std.specs.Prelude.{◌≤◌};

use crate::files::{open, open_plan};
use crate::stop::{Cause, Stop, of_file};
use bench_words::{End, read_text};
use interface_file::{PortTraffic, flows_of, import, sendings_until, write_script};
use plan_report::sheet::Others;
use plan_report::{Traffic, read_traffic};
use std::alloc::{AllocError, Global};
use std::io::Write;

/// Writes the plan of an interface document. If the document has faults, writes these to standard error, and no plan.
pub fn import_file<'a, W: Write>(
    rt: &HostRuntime,
    path: &'a str,
    writer: &mut W,
) -> Result<End, Stop<'a>> {
    let alloc = rt.alloc();
    let text = of_file(read_text(alloc, open(rt, path)?), path, Cause::UnreadPlan)?;
    let made = import(alloc, text.as_slice())?;
    tell_others(rt, path, &made.others);
    if let Some(plan) = &made.plan {
        writer.write_all(plan.as_str().as_bytes())?;
        return Ok(End::Told);
    }
    tell_count(rt, made.count, "the interface document");
    for fault in made.faults.iter() {
        let _told = eprintln!(rt; "{path}: {fault}");
    }
    tell_rest(rt, made.count, made.faults.len());
    Ok(End::FileWrong)
}

/// Writes a script in which the ports of a plan send at their periods for a number of seconds. If the traffic has
/// faults, or the script would be too long, writes this to standard error, and no script.
pub fn schedule<'a, W: Write>(
    rt: &HostRuntime,
    path: &'a str,
    traffic: &'a str,
    seconds: u64,
    seed: u64,
    writer: &mut W,
) -> Result<End, Stop<'a>>
    requires { seconds ≤ 999 }
{
    let alloc = rt.alloc();
    let (_text, plan) = open_plan(rt, path)?;
    let text = of_file(
        read_text(alloc, open(rt, traffic)?),
        traffic,
        Cause::UnreadPlan,
    )?;
    let read = read_traffic(alloc, &plan, text.as_slice())?;
    tell_others(rt, traffic, &read.others);
    if !read.faults.is_empty() {
        tell_traffic(rt, traffic, &read);
        return Ok(End::FileWrong);
    }
    let ports = ports_of(alloc, &read)?;
    let flows = flows_of(alloc, &plan, ports.as_slice(), seed)?;
    let sendings = sendings_until(alloc, flows.as_slice(), 1_000_000 * seconds)?;
    let ports = ports.as_slice();
    let is_whole = match sendings {
        Some(sendings) => write_script(
            writer,
            &plan,
            ports,
            flows.as_slice(),
            sendings.as_slice(),
            seconds,
        )?,
        None => false,
    };
    if is_whole {
        return Ok(End::Told);
    }
    let _told = eprintln!(rt;
        "the script would have more than 1000000 lines: give fewer --seconds"
    );
    Ok(End::FileWrong)
}

/// Returns the names and periods of ports.
fn ports_of(alloc: Global, traffic: &Traffic) -> Result<Vec<PortTraffic<'_>>, AllocError> {
    let mut ports = Vec::with_capacity(alloc, traffic.demands.len())?;
    for demand in traffic.demands.iter() {
        ports.push(PortTraffic {
            name: demand.name.as_str(),
            period: demand.period,
        })?;
    }
    Ok(ports)
}

/// Writes the columns of a file that are left alone to standard error, if there are any.
pub fn tell_others(rt: &HostRuntime, path: &str, others: &Others) {
    if others.count > 0 {
        let _told = eprintln!(rt; "{path}: columns that are left alone: {others}");
    }
}

/// Writes the faults of a traffic file to standard error.
pub fn tell_traffic(rt: &HostRuntime, path: &str, traffic: &Traffic) {
    tell_count(rt, traffic.count, "the traffic");
    for fault in traffic.faults.iter() {
        let _told = eprintln!(rt; "{path}: {fault}");
    }
    tell_rest(rt, traffic.count, traffic.faults.len());
}

/// Writes the number of faults to standard error.
fn tell_count(rt: &HostRuntime, count: usize, whole: &str) {
    let faults = if count == 1 { "fault" } else { "faults" };
    let _told = eprintln!(rt; "{count} {faults} of {whole}");
}

/// Writes the number of faults beside the printed ones to standard error.
fn tell_rest(rt: &HostRuntime, count: usize, told: usize) {
    let more = count.saturating_sub(told);
    if more > 0 {
        let _told = eprintln!(rt; "and {more} more");
    }
}
