//! The document that `report` prints for a plan.
use crate::checked::networks_name;
use crate::document::{LAYOUT, json_of};
use afdx_frame::Net;
use plan_analysis::{Analysis, Bound, JITTER_LIMIT, Memory};
use plan_report::{Assessment, Queue, Row, Sum, Sums};
use serde::Serialize;
use std::alloc::{AllocError, Global};
use std::num::nearest_u64_to_f64;

/// A plan's verdict and tables, in the order of the text.
#[derive(Drop, Serialize)]
pub struct ReportedPlan<'a> {
    file: &'a str,
    kept: bool,
    verdict: Vec<String>,
    end_system: u16,
    lateness_us: u64,
    links: Vec<LinkRow>,
    jitter_ns: u64,
    jitter_limit_ns: u64,
    networks: Vec<NetworkRow>,
    ports: Vec<PortRow>,
    memory: MemoryRows,
    // none without a file of the traffic
    traffic: Option<Vec<TrafficRow>>,
    queues: Option<Vec<QueueRow>>,
}

#[derive(Drop, Serialize)]
struct LinkRow {
    link: u16,
    bag_ms: u64,
    lmax: u16,
    subs: u8,
    nets: &'static str,
    load_kbit_s: f64,
    share_percent: f64,
    jitter_ns: u64,
}

#[derive(Drop, Serialize)]
struct NetworkRow {
    network: &'static str,
    load_kbit_s: f64,
    share_percent: f64,
    exceeded: bool,
    jitter_ns: u64,
}

#[derive(Drop, Serialize)]
struct PortRow {
    port: u16,
    link: u16,
    sub: u8,
    fragments: u64,
    wait_us: u64,
    messages_s: f64,
}

#[derive(Drop, Serialize)]
struct MemoryRows {
    sub_vls: Vec<SubRow>,
    bytes: u64,
    // the link and the sub-VL that hold the most of 64 MiB or more
    heaviest: Option<(u16, u8)>,
}

#[derive(Drop, Serialize)]
struct SubRow {
    link: u16,
    sub: u8,
    capacity: u64,
    ports: u64,
    partitions: u64,
    greatest: u64,
    bytes: u64,
}

#[derive(Drop, Serialize)]
struct TrafficRow {
    port: u16,
    name: String,
    period_us: Option<u64>,
    jitter_us: Option<u64>,
    deadline_us: Option<u64>,
    wait_queue_us: u64,
    wait_traffic_us: Option<u64>,
    holds: &'static str,
    slack_us: Option<i128>,
    missed: Option<bool>,
}

#[derive(Drop, Serialize)]
struct QueueRow {
    link: u16,
    sub: u8,
    capacity: u64,
    need: Option<u64>,
    // the reason that no number is known
    unknown: Option<&'static str>,
    suffices: Option<bool>,
}

/// Returns what `report` tells of a plan in a file; of its traffic only if that was given. Fails only if an allocation
/// fails.
pub fn reported_plan<'a>(
    alloc: Global,
    file: &'a str,
    assessment: &Assessment<'_>,
    has_traffic: bool,
) -> Result<ReportedPlan<'a>, AllocError> {
    let analysis = assessment.analysis;
    let mut verdict = Vec::new(alloc);
    for sentence in assessment.verdict().iter() {
        verdict.push(format!(in alloc; "{sentence}")?)?;
    }
    Ok(ReportedPlan {
        file,
        kept: assessment.all_kept(),
        verdict,
        end_system: analysis.end_system,
        lateness_us: analysis.lateness,
        links: link_rows(alloc, analysis)?,
        jitter_ns: analysis.jitter,
        jitter_limit_ns: JITTER_LIMIT,
        networks: network_rows(alloc, analysis)?,
        ports: port_rows(alloc, analysis)?,
        memory: memory_rows(alloc, &analysis.memory)?,
        traffic: match has_traffic {
            true => Some(traffic_rows(alloc, assessment.rows())?),
            false => None,
        },
        queues: match has_traffic {
            true => Some(queue_rows(alloc, assessment.queues())?),
            false => None,
        },
    })
}

/// The reports on the plans of a network, and the loads of both networks.
#[derive(Drop, Serialize)]
struct Reported<'a> {
    version: u32,
    plans: Vec<ReportedPlan<'a>>,
    networks: Vec<SumRow>,
}

#[derive(Drop, Serialize)]
struct SumRow {
    network: &'static str,
    load_kbit_s: f64,
    share_percent: f64,
    exceeded: bool,
}

/// Returns the document of the reports on the plans of a network. Fails only if an allocation fails.
pub fn report_document(
    alloc: Global,
    plans: Vec<ReportedPlan<'_>>,
    sums: &Sums,
) -> Result<Vec<u8>, AllocError> {
    let mut networks = Vec::with_capacity(alloc, 2)?;
    for sum in [&sums.a, &sums.b] {
        networks.push(sum_row(sum))?;
    }
    let document = Reported {
        version: LAYOUT,
        plans,
        networks,
    };
    json_of(alloc, &document)
}

fn sum_row(sum: &Sum) -> SumRow {
    SumRow {
        network: network_name(sum.net),
        load_kbit_s: thousandths(sum.load),
        share_percent: hundredths(sum.share()),
        exceeded: sum.is_exceeded(),
    }
}

fn network_name(net: Net) -> &'static str {
    match net {
        Net::A => "A",
        Net::B => "B",
    }
}

/// Converts thousandths.
fn thousandths(parts: u64) -> f64 {
    nearest_u64_to_f64(parts) / 1_000.0
}

/// Converts hundredths.
pub fn hundredths(parts: u64) -> f64 {
    nearest_u64_to_f64(parts) / 100.0
}

fn link_rows(alloc: Global, analysis: &Analysis) -> Result<Vec<LinkRow>, AllocError> {
    let mut rows = Vec::with_capacity(alloc, analysis.links.len())?;
    for row in analysis.links.iter() {
        rows.push(LinkRow {
            link: row.plan.id.0,
            bag_ms: row.plan.bag.ms(),
            lmax: row.plan.lmax.bytes(),
            subs: row.plan.sub_vls,
            nets: networks_name(row.plan.networks),
            load_kbit_s: thousandths(row.load),
            share_percent: hundredths(row.share),
            jitter_ns: row.jitter,
        })?;
    }
    Ok(rows)
}

fn network_rows(alloc: Global, analysis: &Analysis) -> Result<Vec<NetworkRow>, AllocError> {
    let mut rows = Vec::with_capacity(alloc, 2)?;
    for row in [&analysis.network_a, &analysis.network_b] {
        rows.push(NetworkRow {
            network: network_name(row.net),
            load_kbit_s: thousandths(row.load),
            share_percent: hundredths(row.share),
            exceeded: row.exceeded,
            jitter_ns: row.jitter,
        })?;
    }
    Ok(rows)
}

fn port_rows(alloc: Global, analysis: &Analysis) -> Result<Vec<PortRow>, AllocError> {
    let mut rows = Vec::with_capacity(alloc, analysis.ports.len())?;
    for row in analysis.ports.iter() {
        rows.push(PortRow {
            port: row.id.0,
            link: row.vl.0,
            sub: row.sub,
            fragments: row.fragments,
            wait_us: row.wait,
            messages_s: thousandths(row.sustained),
        })?;
    }
    Ok(rows)
}

fn memory_rows(alloc: Global, memory: &Memory) -> Result<MemoryRows, AllocError> {
    let mut sub_vls = Vec::with_capacity(alloc, memory.subs.len())?;
    for row in memory.subs.iter() {
        sub_vls.push(SubRow {
            link: row.vl.0,
            sub: row.sub,
            capacity: row.capacity,
            ports: row.ports,
            partitions: row.partitions,
            greatest: row.greatest,
            bytes: row.bytes,
        })?;
    }
    Ok(MemoryRows {
        sub_vls,
        bytes: memory.bytes,
        heaviest: match &memory.large {
            Some(row) => Some((row.vl.0, row.sub)),
            None => None,
        },
    })
}

fn traffic_rows(alloc: Global, rows: &[Row<'_>]) -> Result<Vec<TrafficRow>, AllocError> {
    let mut made = Vec::with_capacity(alloc, rows.len())?;
    for row in rows {
        made.push(TrafficRow {
            port: row.port.id.0,
            name: String::from_str(alloc, row.demand.name.as_str())?,
            period_us: row.demand.period,
            jitter_us: row.jitter(),
            deadline_us: row.demand.deadline,
            wait_queue_us: row.port.wait,
            wait_traffic_us: row.by_traffic,
            holds: row.bound(),
            slack_us: row.slack(),
            missed: row.demand.deadline.map(|_| row.is_missed()),
        })?;
    }
    Ok(made)
}

fn queue_rows(alloc: Global, queues: &[Queue<'_>]) -> Result<Vec<QueueRow>, AllocError> {
    let mut made = Vec::with_capacity(alloc, queues.len())?;
    for queue in queues {
        let (need, unknown) = match queue.bound {
            Some(Bound::Found(worst)) => (Some(worst.need), None),
            Some(Bound::Overloaded) => (None, Some("overloaded")),
            Some(Bound::TooLong) => (None, Some("unknown")),
            None | Some(Bound::NoPeriod) => (None, None),
        };
        made.push(QueueRow {
            link: queue.sub.vl.0,
            sub: queue.sub.sub,
            capacity: queue.sub.capacity,
            need,
            unknown,
            suffices: queue.suffices(),
        })?;
    }
    Ok(made)
}
