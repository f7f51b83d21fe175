//! A judge of a recording.
ghost use Rattle.std.specs.Prelude.{◌≡◌, ◌<◌, length, replicate, slice_get, IfOk, IfErr, OnOk};
ghost use Rattle.capture.specs.Recording.{recorded};
ghost use Rattle.judge.specs.Fields.{fields_of};
ghost use Rattle.afdx_frame.specs.Layout.{IsReadable};
ghost use Rattle.judge.specs.Judging.{Judging, Admitted, at_start, measure_of, nearness_of, setting_of, first_port, with_arrival, found_of_arrival, with_refusal, found_refusal, admitted, after_packet, found_with_packet, found_with_end, timed, found_left, is_with_check, new_link, figures_on, lead_of, leads_of};
ghost use Rattle.judge.specs.Times.{recorded_for};

use crate::fields::{Fields, fields_of};
use crate::figures::{Figures, Total};
use crate::finding::{Deviation, Finding, FindingKind, Tag, add};
use crate::joining::port_of;
use crate::line::Measure;
use crate::link::{Link, Setting};
use crate::rules::{Refused, frame_in, place_of};
use crate::sub::sub_in;
use crate::times::Times;
use crate::twins::Nearness;
use afdx_frame::{Layout, Net};
use afdx_plan::{Config, LinkPlan, PortPlan, VlId};
use capture::Packet;
use std::alloc::{AllocError, Global};
use std::marker::Model;

/// The tolerances of a judge, and the way the recording was made. All are zero and false by default.
#[derive(Clone, Copy, Debug, Default, PartialEq, Eq)]
pub struct Options {
    /// The most by which the time from a frame's release to its recording varies, in microseconds.
    pub jitter: u64,
    /// The greatest time in microseconds between a frame and its twin.
    pub skew: u64,
    /// The recording began after the end system: a link's first sequence number may be any, and its first frames may be
    /// the end of a message.
    pub late: bool,
    /// Frames were recorded with their check sequence, which is tested. Without this, a capture may say so of its
    /// packets.
    pub fcs: bool,
    /// Frames are judged by ARINC 664 Part 7 alone, as frames of other makers: their time to live, type of service and
    /// padding may be any, a frame may carry ICMP, and messages may be cut anywhere, have no bytes, the flag DF if they
    /// are in one frame, or a checksum that the plan has not. Identifications only tell neighbouring messages of a
    /// sub-VL apart that are cut.
    pub arinc: bool,
}

/// A judge of the packets of a recording, by a plan. The time for a packet doesn't grow with the recording. Memory
/// holds the frames that wait for their twins: of each link those within the skew, and those since the other network's
/// latest packet, at most 512 of at most 1,514 bytes.
#[derive(Drop)]
pub struct Judge {
    config: Config,
    options: Options,
    times: Times,
    // A frame with its check sequence was found.
    told: bool,
    // The links, by their places in the plan.
    links: Vec<Link>,
}

impl Model for Judge {
    ghost Value = { Judging };

    ghost view = { λ j. record {
      plan = j.config;
      options = j.options;
      times = j.times;
      told = j.told;
      links = j.links.items;
    } };

    ghost invariant = { λ j. length j.links.items ≡ length j.config.links };
}

/// Returns the bounds on twins: the skew, and the times of both networks' packets.
fn nearness_of(options: &Options, times: &Times) -> Nearness
    ensures { result ≡ nearness_of options.now times.now }
{
    Nearness {
        skew: 1_000 * options.skew as u128,
        times: *times,
    }
}

/// Returns the port of a first piece, and `None` for another piece.
fn first_port(arinc: bool, ports: &[PortPlan], vl: VlId, fields: &Fields) -> Option<PortPlan>
    ensures { result ≡ first_port arinc ports.now vl fields.now }
{
    if fields.piece.start == 0 {
        port_of(arinc, ports, vl, sub_in(fields), &fields.flow).copied()
    } else {
        None
    }
}

/// Makes the links of a plan, without frames.
fn make_links(alloc: Global, count: usize, late: bool, arinc: bool) -> Result<Vec<Link>, AllocError>
    ensures { IfOk result (λ links. links.items ≡ replicate count (new_link late arinc)) }
{
    let mut links = Vec::new(alloc);
    'links: while links.len() < count {
        links.push(Link::new(alloc, late, arinc))?;
    }
    Ok(links)
}

impl Judge {
    /// Creates a judge that has seen no packet. Fails only if memory runs out.
    pub fn new(alloc: Global, config: Config, options: Options) -> Result<Judge, AllocError>
        ensures { IfOk result (λ judge. judge ≡ at_start config options) }
    {
        let links = make_links(alloc, config.links().len(), options.late, options.arinc)?;
        Ok(Judge {
            config,
            options,
            times: Times::new(),
            told: false,
            links,
        })
    }

    /// Returns the plan.
    pub fn config(&self) -> &Config
        ensures { result.now ≡ self.now.plan }
    {
        &self.config
    }

    /// Returns the counts of a link's frames on a network, by the link's place in the plan.
    pub fn figures(&self, link: usize, net: Net) -> Option<Figures>
        ensures { result ≡ figures_on net (slice_get self.now.links link) }
    {
        Some(self.links.get(link)?.line_on(net).figures)
    }

    /// Returns the greatest time in nanoseconds between a frame of a link and its twin, by the link's place in the
    /// plan.
    pub fn lead(&self, link: usize) -> Option<u128>
        ensures { result ≡ lead_of (slice_get self.now.links link) }
    {
        self.links.get(link)?.twins.lead
    }

    /// Returns the times between frames of a link and their twins, by the link's place in the plan.
    pub fn leads(&self, link: usize) -> Option<Total>
        ensures { result ≡ leads_of (slice_get self.now.links link) }
    {
        Some(self.links.get(link)?.twins.leads)
    }

    /// Returns how long a network was recorded: the time in nanoseconds from the earliest of its packets that the judge
    /// took to the latest. `None` if it took none with a time.
    pub fn recorded_for(&self, net: Net) -> Option<u128>
        ensures { result ≡ recorded_for net self.now.times }
    {
        self.times.recorded_for(net)
    }

    /// Judges a packet that was recorded on a network: appends the missing frames that it shows, and then its own
    /// findings. The packets of a network come in their order, and those of both in order of time: a frame is told as
    /// missing if its twin comes much later. Fails if memory runs out: then nothing more can be said of the recording.
    #[tactic(auto, unfolding(crate::specs::Judging::after_packet, crate::specs::Judging::found_with_packet, crate::specs::Judging::admitted))]
    pub fn take(
        &mut self,
        net: Net,
        number: u64,
        packet: &Packet<'_>,
        found: &mut Vec<Finding>,
    ) -> Result<(), AllocError>
        ensures after { OnOk result (self.new ≡ after_packet net number (recorded packet.now) self.old) }
        ensures found { OnOk result (found.new.items
            ≡ found_with_packet net number (recorded packet.now) self.old found.old.items) }
    {
        let tag = Tag {
            packet: number,
            net,
            at: packet.at.unwrap_or(0),
        };
        let Some(at) = packet.at else {
            let deviation = Deviation::new(FindingKind::Frame(Layout::Time), 0, 0);
            return add(found, &tag, None, Some(deviation));
        };
        self.times = self.times.with(net, at);
        let frame = match frame_in(packet, &self.options) {
            Ok(frame) => frame,
            Err(why) => return self.refuse(&tag, &why, found),
        };
        match place_of(&self.config, net, frame) {
            Ok(place) => self.arrive(&tag, place, frame, found),
            Err(why) => self.refuse(&tag, &why, found),
        }
    }

    /// Appends the reason for which a packet is judged no further. The finding that frames have their check sequences
    /// is appended once.
    fn refuse(
        &mut self,
        tag: &Tag,
        why: &Refused,
        found: &mut Vec<Finding>,
    ) -> Result<(), AllocError>
        ensures after { OnOk result (self.new ≡ with_refusal why.now self.old) }
        ensures found { OnOk result (found.new.items ≡ found_refusal tag.now why.now self.old found.old.items) }
    {
        if matches!(why.deviation.kind, FindingKind::Frame(Layout::Recorded)) {
            if self.told {
                return Ok(());
            }
            self.told = true;
        }
        add(found, tag, why.link, Some(why.deviation))
    }

    /// Takes a frame of the link at a place.
    #[tactic(auto, unfolding(crate::specs::Judging::with_arrival, crate::specs::Judging::found_of_arrival))]
    fn arrive(
        &mut self,
        tag: &Tag,
        place: usize,
        frame: &[u8],
        found: &mut Vec<Finding>,
    ) -> Result<(), AllocError>
        requires readable { IsReadable frame.now }
        requires within { place < length self.old.plan.links }
        ensures after { OnOk result (self.new ≡ with_arrival tag.now place frame.now self.old) }
        ensures found { OnOk result (found.new.items
            ≡ found_of_arrival tag.now place frame.now self.old found.old.items) }
    {
        let plan = self.config.links()[place];
        let vl = plan.id;
        let setting = Setting {
            plan,
            measure: Measure {
                room: plan.lmax.room(),
                sub_vls: plan.sub_vls,
                gap: 1_000 * plan.bag.micros(),
                jitter: 1_000 * self.options.jitter as u128,
                late: self.options.late,
                arinc: self.options.arinc,
            },
            nearness: nearness_of(&self.options, &self.times),
        };
        let fields = fields_of(frame);
        let port = first_port(self.options.arinc, self.config.ports(), vl, &fields);
        let link = &mut self.links[place];
        link.arrive(&setting, tag, port, frame, &fields, found)
    }

    /// Appends the frames missing at the end of the recording: those without a twin between the first and the last
    /// packet of the other network, more than the skew away from each.
    #[tactic(auto, unfolding(crate::specs::Judging::found_with_end))]
    pub fn end(&self, found: &mut Vec<Finding>) -> Result<(), AllocError>
        ensures { OnOk result (found.new.items ≡ found_with_end self.now found.old.items) }
    {
        let nearness = nearness_of(&self.options, &self.times);
        add_left(&nearness, self.config.links(), self.links.as_slice(), found)
    }
}

/// Appends the missing frames of links at the end of the recording.
fn add_left(
    nearness: &Nearness,
    plans: &[LinkPlan],
    links: &[Link],
    found: &mut Vec<Finding>,
) -> Result<(), AllocError>
    requires { length links.now ≡ length plans.now }
    ensures { OnOk result (found.new.items ≡ found_left nearness.now plans.now links.now found.old.items) }
{
    let (mut left, mut rest) = (plans, links);
    'links: while let ([plan, more_plans @ ..], [link, more_links @ ..]) = (left, rest) {
        link.twins.find_left(nearness, plan.id, found)?;
        left = more_plans;
        rest = more_links;
    }
    Ok(())
}
