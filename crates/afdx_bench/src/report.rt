//! The command `report`.
ghost use Rattle.std.specs.Prelude.{◌≤◌};

use crate::files::{buffered, create, differ, open, open_given, written};
use crate::interface::{tell_others, tell_traffic};
use crate::network::{open_network, paths_of};
use crate::stop::{Cause, Stop, of_file};
use afdx_plan::Config;
use bench_words::{
    Asked, End, ReportedPlan, read_digested, read_text, report_document, reported_plan,
};
use csv::{ErrorKind, WriterBuilder};
use plan_analysis::{Analysis, LATENESS_LIMIT, analyze, traffic_bounds};
use plan_report::{
    Assessment, Digested, Sums, Traffic, no_traffic, read_traffic, senders_of, write_analysis,
    write_page, write_queues, write_rows, write_sums, write_traffic, write_verdict,
};
use std::alloc::{AllocError, Global};
use std::fs::File;
use std::io::{self, Write};
use std::path::Path;

/// Writes the report on each plan of a network, and of several also the loads of the networks; or a document of them.
/// If plans share an end system or a link, writes that to standard error.
pub fn report<'a, W: Write>(
    rt: &HostRuntime,
    asked: &'a Asked,
    writer: &mut W,
) -> Result<End, Stop<'a>>
    requires { asked.now.lateness ≤ LATENESS_LIMIT }
{
    if let [path] = asked.configs.as_slice() {
        return report_one(rt, asked, path.as_str(), writer);
    }
    let alloc = rt.alloc();
    let paths = paths_of(alloc, None, asked.configs.as_slice())?;
    let Some(network) = open_network(rt, paths.as_slice())? else {
        return Ok(End::FileWrong);
    };
    let (mut sums, mut is_kept, mut rows) = (Sums::new(), true, Vec::new(alloc));
    for (path, plan) in paths.iter().zip(network.plans.iter()) {
        let analysis = analyze(alloc, plan, asked.lateness)?;
        let traffic = no_traffic(alloc, plan)?;
        let senders = senders_of(alloc, plan, &traffic)?;
        let bounds = traffic_bounds(alloc, plan, asked.lateness, senders.as_slice())?;
        let assessment = Assessment::new(alloc, &analysis, &traffic, bounds.as_slice())?;
        sums.add(&analysis);
        is_kept = is_kept && assessment.all_kept();
        if asked.json {
            let row = reported_plan(alloc, path, &assessment, false)?;
            let Ok(()) = rows.push(row) else {
                return Err(Stop::from(AllocError));
            };
        } else {
            write_verdict(writer, &assessment)?;
            write_analysis(writer, &analysis)?;
        }
    }
    if asked.json {
        writer.write_all(report_document(alloc, rows, &sums)?.as_slice())?;
    } else {
        write_sums(writer, network.plans.len(), &sums)?;
    }
    Ok(ended(asked, is_kept && !sums.is_exceeded()))
}

/// Returns the end of a report: `Missed` if it is strict and not all limits are kept.
fn ended(asked: &Asked, is_kept: bool) -> End {
    if asked.strict && !is_kept {
        End::Missed
    } else {
        End::Told
    }
}

/// Writes the verdict, the loads, the jitter, the longest waits and the queues of a plan; and before that the
/// page and the rows to their files. If the traffic has faults, writes these alone, to standard error.
fn report_one<'a, W: Write>(
    rt: &HostRuntime,
    asked: &'a Asked,
    path: &'a str,
    writer: &mut W,
) -> Result<End, Stop<'a>>
    requires { asked.now.lateness ≤ LATENESS_LIMIT }
{
    let (alloc, lateness) = (rt.alloc(), asked.lateness);
    let text = open(rt, path)?;
    let plan = of_file(read_digested(alloc, &text), path, Cause::UnreadPlan)?;
    let file = open_given(rt, &asked.traffic)?;
    let traffic = traffic_of(alloc, &plan.config, asked, file.as_ref())?;
    if let Some(path) = &asked.traffic {
        tell_others(rt, path.as_str(), &traffic.others);
        if !traffic.faults.is_empty() {
            tell_traffic(rt, path.as_str(), &traffic);
            return Ok(End::FileWrong);
        }
    }
    let analysis = analyze(alloc, &plan.config, lateness)?;
    let senders = senders_of(alloc, &plan.config, &traffic)?;
    let bounds = traffic_bounds(alloc, &plan.config, lateness, senders.as_slice())?;
    let assessment = Assessment::new(alloc, &analysis, &traffic, bounds.as_slice())?;
    let read = [&text, file.as_ref().unwrap_or(&text)];
    differ(rt, &asked.html, &asked.csv)?;
    if let (Some(html), Some(page)) = (&asked.html, create(rt, &asked.html, &read)?) {
        let done = save_page(alloc, page, path, asked, &plan, &assessment);
        written(done, html.as_str())?;
        differ(rt, &asked.html, &asked.csv)?;
    }
    if let (Some(path), Some(rows)) = (&asked.csv, create(rt, &asked.csv, &read)?) {
        written(save_rows(alloc, rows, &assessment), path.as_str())?;
    }
    let has_traffic = file.is_some();
    tell_one(
        alloc,
        asked,
        path,
        &analysis,
        &assessment,
        has_traffic,
        writer,
    )
}

/// Writes the report on one plan, or a document of it.
fn tell_one<'a, W: Write>(
    alloc: Global,
    asked: &'a Asked,
    path: &'a str,
    analysis: &Analysis,
    assessment: &Assessment<'_>,
    has_traffic: bool,
    writer: &mut W,
) -> Result<End, Stop<'a>> {
    if asked.json {
        let (mut rows, mut sums) = (Vec::new(alloc), Sums::new());
        let row = reported_plan(alloc, path, assessment, has_traffic)?;
        let Ok(()) = rows.push(row) else {
            return Err(Stop::from(AllocError));
        };
        sums.add(analysis);
        writer.write_all(report_document(alloc, rows, &sums)?.as_slice())?;
    } else {
        write_verdict(writer, assessment)?;
        write_analysis(writer, analysis)?;
        if has_traffic {
            write_traffic(writer, assessment)?;
            write_queues(writer, assessment)?;
        }
    }
    Ok(ended(asked, assessment.all_kept()))
}

/// Returns the traffic of a plan's ports, from its file if there is one.
fn traffic_of<'a>(
    alloc: Global,
    plan: &Config,
    asked: &'a Asked,
    file: Option<&File>,
) -> Result<Traffic, Stop<'a>> {
    match (&asked.traffic, file) {
        (Some(path), Some(file)) => {
            let text = of_file(read_text(alloc, file), path.as_str(), Cause::Unread)?;
            Ok(read_traffic(alloc, plan, text.as_slice())?)
        }
        _ => Ok(no_traffic(alloc, plan)?),
    }
}

/// Writes the page of a report to a file.
fn save_page(
    alloc: Global,
    page: File,
    path: &str,
    asked: &Asked,
    plan: &Digested,
    assessment: &Assessment<'_>,
) -> io::Result<()> {
    let file = Path::new(path).file_name().unwrap_or(path);
    let mut output = buffered(alloc, page)?;
    write_page(&mut output, plan, assessment, file, &asked.date)?;
    output.flush()
}

/// Writes the rows of the ports to a file.
fn save_rows(alloc: Global, rows: File, assessment: &Assessment<'_>) -> io::Result<()> {
    let mut output = WriterBuilder::new().from_writer(buffered(alloc, rows)?);
    write_rows(&mut output, assessment).map_err(|error| match error.into_kind() {
        ErrorKind::Io(error) => error,
        _ => io::Error::from(AllocError),
    })
}
