//! The commands `check` and `explain`.
use crate::files::open;
use crate::network::{open_network, paths_of};
use crate::stop::{Cause, Stop, of_file};
use afdx_config::explain_file;
use bench_words::{End, check, check_document, explain_document, read_text, tell_faults};
use plan_report::write_report;
use std::io::Write;

/// Writes the report on each plan of a network, or a document of them. Of one plan, writes its report alone; of several
/// also how many end systems and links there are. If plans share an end system or a link, writes that to standard
/// error.
pub fn check_plans<'a, W: Write>(
    rt: &HostRuntime,
    configs: &'a [String],
    json: bool,
    writer: &mut W,
) -> Result<End, Stop<'a>> {
    let alloc = rt.alloc();
    if let ([path], false) = (configs, json) {
        let checked = check(alloc, open(rt, path.as_str())?, writer);
        of_file(checked, path.as_str(), Cause::UnreadPlan)?;
        return Ok(End::Told);
    }
    let paths = paths_of(alloc, None, configs)?;
    let Some(network) = open_network(rt, paths.as_slice())? else {
        return Ok(End::FileWrong);
    };
    if json {
        let document = check_document(alloc, paths.as_slice(), network.plans.as_slice())?;
        writer.write_all(document.as_slice())?;
        return Ok(End::Told);
    }
    let mut links = 0usize;
    for plan in network.plans.iter() {
        write_report(writer, plan)?;
        links = links.saturating_add(plan.links().len());
    }
    let count = network.plans.len();
    writeln!(writer, "network: {count} end systems, {links} links")?;
    Ok(End::Told)
}

/// Writes the faults of a plan, as text or as a document.
pub fn explain_plan<'a, W: Write>(
    rt: &HostRuntime,
    path: &'a str,
    json: bool,
    writer: &mut W,
) -> Result<End, Stop<'a>> {
    let (alloc, file) = (rt.alloc(), open(rt, path)?);
    if !json {
        let told = tell_faults(alloc, file, path, writer);
        return of_file(told, path, Cause::UnreadPlan);
    }
    let text = of_file(read_text(alloc, file), path, Cause::UnreadPlan)?;
    let explained = explain_file(alloc, text.as_slice(), path)?;
    let document = explain_document(alloc, path, &explained)?;
    writer.write_all(document.as_slice())?;
    if explained.count == 0 {
        Ok(End::Told)
    } else {
        Ok(End::FaultsTold)
    }
}
