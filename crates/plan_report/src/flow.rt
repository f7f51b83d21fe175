//! The picture of a plan: partitions, ports, sub-VLs, links and networks as one flow from left to right.
use afdx_frame::Net;
use afdx_plan::{Config, LinkPlan, PortPlan};
use plan_analysis::carries;
use std::fmt;
use std::io::{self, Write};

/// The height of a port's row, and of the heads, in pixels.
const ROW: u64 = 16;

const HEADS: u64 = 34;

/// The heads of the columns of the picture, and their places in percent of its width.
static COLUMNS: [(u64, &str); 5] = [
    (PARTITION, "partition"),
    (PORT, "port"),
    (SUB_VL, "sub-VL"),
    (LINK, "link"),
    (NETWORK, "network"),
];

const PARTITION: u64 = 8;

const PORT: u64 = 29;

const SUB_VL: u64 = 50;

const LINK: u64 = 71;

const NETWORK: u64 = 92;

/// The networks, and the quarters of the height at which they stand.
static NETWORKS: [(Net, &str, u64); 2] = [(Net::A, "A", 1), (Net::B, "B", 3)];

/// Half the width of a label.
const HALF: u64 = 5;

/// A place in the picture: its column and its height.
#[derive(Clone, Copy)]
struct Node(u64, u64);

/// Writes a text at a place.
fn write_label<W: Write, T: fmt::Display + Drop>(
    writer: &mut W,
    at: Node,
    text: T,
) -> io::Result<()> {
    let Node(x, y) = at;
    writeln!(writer, "<text x=\"{x}%\" y=\"{y}\">{text}</text>")
}

/// Writes a line between two labels, in the color of a class.
fn write_edge<W: Write>(writer: &mut W, class: &str, from: Node, to: Node) -> io::Result<()> {
    let (x1, y1) = (from.0.saturating_add(HALF), from.1);
    let (x2, y2) = (to.0.saturating_sub(HALF), to.1);
    writeln!(
        writer,
        "<line class=\"{class}\" x1=\"{x1}%\" y1=\"{y1}\" x2=\"{x2}%\" y2=\"{y2}\"/>"
    )
}

/// Returns the middle of `count` rows, from row `first` on.
fn middle(column: u64, first: u64, count: u64) -> Node {
    let halves = first
        .saturating_mul(2)
        .saturating_add(count.saturating_sub(1));
    Node(column, HEADS.saturating_add(halves.saturating_mul(ROW / 2)))
}

/// A plan, and the number of rows of its picture: one for each port, and for each link without a port; two at least.
#[derive(Clone, Copy)]
struct Flow<'a> {
    config: &'a Config,
    rows: u64,
}

/// Writes the picture.
pub(crate) fn write_flow<W: Write>(writer: &mut W, config: &Config) -> io::Result<()> {
    let mut flow = Flow { config, rows: 0 };
    for link in config.links() {
        flow.rows = flow.rows.saturating_add(flow.count(link, None).max(1));
    }
    flow.rows = flow.rows.max(2);
    let height = HEADS.saturating_add(flow.rows.saturating_mul(ROW));
    writeln!(
        writer,
        "<h2>From partitions to networks</h2>\n<svg class=\"flow\" style=\"height:{height}px\">"
    )?;
    for &(column, text) in &COLUMNS {
        write_label(writer, Node(column, 10), text)?;
    }
    flow.write_links(writer)?;
    for partition in 0..32u8 {
        if flow.has_port(partition) {
            write_label(writer, flow.partition(partition), partition)?;
        }
    }
    for &(_, name, part) in &NETWORKS {
        write_label(writer, flow.part(NETWORK, part, 4), name)?;
    }
    writer.write_all(b"</svg>\n")
}

impl Flow<'_> {
    /// Returns the number of ports of a link, or of one of its sub-VLs.
    fn count(&self, link: &LinkPlan, sub: Option<u8>) -> u64 {
        let ports = self.config.ports().iter();
        ports.filter(|port| is_on(port, link, sub)).count() as u64
    }

    /// Returns the place at a part of the height.
    fn part(&self, column: u64, part: u64, whole: u64) -> Node {
        let rows = self.rows.saturating_mul(ROW).saturating_mul(part) / whole.max(1);
        Node(column, rows.saturating_add(HEADS - ROW / 2))
    }

    fn has_port(&self, partition: u8) -> bool {
        let ports = self.config.ports();
        ports.iter().any(|port| port.partition == partition)
    }

    /// Returns the place of a partition: partitions with ports are at like distances, in order.
    fn partition(&self, partition: u8) -> Node {
        let mut before = 1u64;
        let mut whole = 0u64;
        for other in 0..32u8 {
            if self.has_port(other) {
                whole = whole.saturating_add(2);
                if other < partition {
                    before = before.saturating_add(2);
                }
            }
        }
        self.part(PARTITION, before, whole)
    }

    /// Writes the links. Neighbouring links differ in color.
    fn write_links<W: Write>(&self, writer: &mut W) -> io::Result<()> {
        let mut first = 0u64;
        let mut class = "one";
        for link in self.config.links() {
            let rows = self.count(link, None).max(1);
            let to = middle(LINK, first, rows);
            write_label(writer, to, link.id.0)?;
            for &(net, _, part) in &NETWORKS {
                if carries(net, link.networks) {
                    write_edge(writer, class, to, self.part(NETWORK, part, 4))?;
                }
            }
            self.write_subs(writer, link, class, first, to)?;
            first = first.saturating_add(rows);
            class = if class == "one" { "two" } else { "one" };
        }
        Ok(())
    }

    /// Writes the sub-VLs of a link that have ports, from row `first` on.
    fn write_subs<W: Write>(
        &self,
        writer: &mut W,
        link: &LinkPlan,
        class: &str,
        first: u64,
        to: Node,
    ) -> io::Result<()> {
        let mut row = first;
        for sub in 0..link.sub_vls {
            let ports = self.count(link, Some(sub));
            if ports == 0 {
                continue;
            }
            let from = middle(SUB_VL, row, ports);
            write_label(writer, from, sub)?;
            write_edge(writer, class, from, to)?;
            for port in self.config.ports() {
                if is_on(port, link, Some(sub)) {
                    let at = middle(PORT, row, 1);
                    write_label(writer, at, port.id.0)?;
                    write_edge(writer, class, self.partition(port.partition), at)?;
                    write_edge(writer, class, at, from)?;
                    row = row.saturating_add(1);
                }
            }
        }
        Ok(())
    }
}

/// Returns true if a port sends on a link, and on sub-VL `sub` of the link if one is given.
fn is_on(port: &PortPlan, link: &LinkPlan, sub: Option<u8>) -> bool {
    port.vl.0 == link.id.0 && port.sub == sub.unwrap_or(port.sub)
}
