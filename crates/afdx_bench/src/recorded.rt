//! The document of a judged recording.
use crate::addresses::{addressing_of, addressing_row};
use crate::findings::{kind_name, network_name};
use crate::foreign::Foreign;
use crate::hearing::Hearing;
use crate::link_row::LinkRow;
use crate::source::Source;
use afdx_frame::Net;
use bench_words::{
    CaptureRow, Case, FindingRow, ForeignRow, Judged, JudgedLink, JudgedPlan, KindRow, TakenRow,
    hundredths,
};
use judge::{Finding, FindingKind, Judge};
use std::alloc::{AllocError, Global};

/// Returns what is told of a recording, with its captures in their order.
pub fn recorded<'a>(
    alloc: Global,
    case: &'a Case,
    hearing: &Hearing,
    captures: Vec<CaptureRow<'a>>,
    whole: bool,
) -> Result<Judged<'a>, AllocError> {
    let tally = &hearing.tally;
    let is_judged = tally.no_capture.is_none();
    let mut plans = Vec::new(alloc);
    let paths = Some(&case.config).into_iter().chain(case.with.iter());
    for (path, id) in paths.zip(hearing.tap.end_systems().iter()) {
        let Some(judge) = hearing.tap.judge_of(*id) else {
            continue;
        };
        plans.push(JudgedPlan {
            file: path.as_str(),
            end_system: judge.config().end_system(),
            links: links_of(alloc, judge)?,
        })?;
    }
    let mut networks = Vec::new(alloc);
    for taken in hearing.taken.iter() {
        networks.push(TakenRow {
            network: network_name(taken.net),
            capture: taken.capture,
            interface: taken.interface,
        })?;
    }
    Ok(Judged {
        verdict: format!(in alloc; "{tally}")?,
        judged: is_judged,
        whole,
        captures,
        networks,
        addressing: addressing_row(alloc, addressing_of(case))?,
        first_ns: hearing.times.map(|(first, _)| first),
        last_ns: hearing.times.map(|(_, last)| last),
        kinds: kinds_of(alloc, hearing)?,
        findings: findings_of(alloc, hearing.kept.as_slice())?,
        foreign: match case.foreign {
            true => Some(foreign_of(alloc, &hearing.foreign)?),
            false => None,
        },
        plans,
    })
}

/// Returns a capture's row of a document.
pub fn capture_row<'a>(
    alloc: Global,
    number: u8,
    file: &'a str,
    source: &Source<'a>,
) -> Result<CaptureRow<'a>, AllocError> {
    Ok(CaptureRow {
        capture: number,
        file,
        packets: source.packets(),
        others: source.others(),
        lost: source.lost(),
        whole: source.is_whole(),
        told: format!(in alloc; "{source}")?,
    })
}

fn kinds_of(alloc: Global, hearing: &Hearing) -> Result<Vec<KindRow>, AllocError> {
    let mut kinds = Vec::new(alloc);
    for (kind, count) in hearing.tally.counts() {
        if count > 0 {
            kinds.push(KindRow { kind, count })?;
        }
    }
    Ok(kinds)
}

fn findings_of(alloc: Global, kept: &[Finding]) -> Result<Vec<FindingRow>, AllocError> {
    let mut findings = Vec::with_capacity(alloc, kept.len())?;
    for finding in kept {
        findings.push(FindingRow {
            packet: finding.packet,
            network: network_name(finding.net),
            time_ns: finding.at,
            link: finding.link.map(|id| id.0),
            kind: kind_name(finding.kind),
            rule: rule_of(alloc, finding.kind)?,
            seen: finding.seen,
            wanted: finding.wanted,
        })?;
    }
    Ok(findings)
}

/// Returns the name of a kind's rule, if it has one.
fn rule_of(alloc: Global, kind: FindingKind) -> Result<Option<String>, AllocError> {
    match kind {
        FindingKind::Frame(rule) => Ok(Some(format!(in alloc; "{rule:?}")?)),
        FindingKind::Fragment(rule) => Ok(Some(format!(in alloc; "{rule:?}")?)),
        FindingKind::Message(rule) => Ok(Some(format!(in alloc; "{rule:?}")?)),
        _ => Ok(None),
    }
}

fn foreign_of(alloc: Global, foreign: &Foreign) -> Result<Vec<ForeignRow>, AllocError> {
    let mut rows = Vec::new(alloc);
    for row in foreign.rows.iter() {
        let source = row.source;
        rows.push(ForeignRow {
            source: Some(format!(in alloc; "{source}")?),
            ether_type: Some(row.ether_type),
            packets: row.packets,
        })?;
    }
    if foreign.others > 0 {
        rows.push(ForeignRow {
            source: None,
            ether_type: None,
            packets: foreign.others,
        })?;
    }
    Ok(rows)
}

fn links_of(alloc: Global, judge: &Judge) -> Result<Vec<JudgedLink>, AllocError> {
    let mut links = Vec::new(alloc);
    for (place, link) in judge.config().links().iter().enumerate() {
        for net in [Net::A, Net::B] {
            if let Some(row) = LinkRow::of(judge, place, link, net) {
                links.push(judged_link(&row))?;
            }
        }
    }
    Ok(links)
}

fn judged_link(row: &LinkRow) -> JudgedLink {
    let figures = &row.figures;
    JudgedLink {
        link: row.link.id.0,
        net: network_name(row.net),
        frames: figures.frames,
        bytes: figures.bytes,
        messages: figures.messages,
        bag_ns: row.bag,
        least_gap_ns: figures.least_gap,
        lead_ns: row.lead,
        greatest_gap_ns: figures.greatest_gap,
        mean_gap_ns: row.mean_gap,
        mean_lead_ns: row.mean_lead,
        used_percent: row.used.map(|share| hundredths(share.0)),
    }
}
