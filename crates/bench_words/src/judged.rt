//! The document that `judge` prints for a recording.
use crate::document::{LAYOUT, json_of};
use serde::Serialize;
use std::alloc::{AllocError, Global};

/// A recording: its verdict, the captures, which interface was taken for which network, addresses that aren't the
/// profile's, the first findings of each kind, how many there are, foreign frames, and the end systems.
#[derive(Drop, Serialize)]
pub struct Judged<'a> {
    pub verdict: String,
    pub judged: bool,
    pub whole: bool,
    pub captures: Vec<CaptureRow<'a>>,
    pub networks: Vec<TakenRow>,
    pub addressing: Option<AddressingRow>,
    pub first_ns: Option<u128>,
    pub last_ns: Option<u128>,
    pub kinds: Vec<KindRow>,
    pub findings: Vec<FindingRow>,
    pub foreign: Option<Vec<ForeignRow>>,
    pub plans: Vec<JudgedPlan<'a>>,
}

#[derive(Drop, Serialize)]
pub struct CaptureRow<'a> {
    pub capture: u8,
    pub file: &'a str,
    pub packets: u64,
    pub others: u64,
    // packets that the recorder lost
    pub lost: u64,
    pub whole: bool,
    // the line of the text
    pub told: String,
}

#[derive(Clone, Copy, Serialize)]
pub struct TakenRow {
    pub network: &'static str,
    pub capture: u8,
    pub interface: u32,
}

#[derive(Drop, Serialize)]
pub struct AddressingRow {
    // the constant field of destination MAC addresses
    pub constant: String,
    pub interface_a: u8,
    pub interface_b: u8,
}

#[derive(Clone, Copy, Serialize)]
pub struct KindRow {
    pub kind: &'static str,
    pub count: u64,
}

#[derive(Drop, Serialize)]
pub struct FindingRow {
    pub packet: u64,
    pub network: &'static str,
    pub time_ns: u128,
    pub link: Option<u16>,
    pub kind: &'static str,
    pub rule: Option<String>,
    pub seen: u64,
    pub wanted: u64,
}

#[derive(Drop, Serialize)]
pub struct ForeignRow {
    // none for those without a row of their own
    pub source: Option<String>,
    pub ether_type: Option<u16>,
    pub packets: u64,
}

#[derive(Drop, Serialize)]
pub struct JudgedPlan<'a> {
    pub file: &'a str,
    pub end_system: u16,
    pub links: Vec<JudgedLink>,
}

#[derive(Clone, Copy, Serialize)]
pub struct JudgedLink {
    pub link: u16,
    pub net: &'static str,
    pub frames: u64,
    pub bytes: u64,
    pub messages: u64,
    pub bag_ns: u64,
    pub least_gap_ns: Option<u128>,
    pub lead_ns: Option<u128>,
    pub greatest_gap_ns: Option<u128>,
    pub mean_gap_ns: Option<u128>,
    pub mean_lead_ns: Option<u128>,
    // the share of the link's bandwidth
    pub used_percent: Option<f64>,
}

/// A recording, and the version of the layout.
#[derive(Drop, Serialize)]
struct Document<'a> {
    version: u32,
    recording: Judged<'a>,
}

/// Returns the document of a recording. Fails only if an allocation fails.
pub fn judge_document(alloc: Global, recording: Judged<'_>) -> Result<Vec<u8>, AllocError> {
    let document = Document {
        version: LAYOUT,
        recording,
    };
    json_of(alloc, &document)
}
