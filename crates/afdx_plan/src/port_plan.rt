//! A port of a plan: identifiers, kinds and UDP checksums.

/// The plan of a port.
#[derive(Clone, Copy, Debug, PartialEq, Eq)]
pub struct PortPlan {
    pub id: PortId,
    pub vl: VlId,
    // the index of the sub-VL in its link
    pub sub: u8,
    // 0 to 31
    pub partition: u8,
    pub kind: Kind,
    // the UDP ports
    pub source: u16,
    pub destination: u16,
    // the greatest message, in bytes: 1 to 8,192
    pub max: usize,
    // the destination in 10.0.0.0/8; if `None`, it is the link's multicast address
    pub unicast: Option<[u8; 4]>,
    // the checksum field of its datagrams
    pub checksum: UdpSum,
}

/// The 16-bit identifier of a virtual link.
#[derive(Clone, Copy, Debug, PartialEq, Eq)]
pub struct VlId(pub u16);

/// The 16-bit identifier of a port.
#[derive(Clone, Copy, Debug, PartialEq, Eq)]
pub struct PortId(pub u16);

/// The kinds of ports. A message of a sampling port fits into one frame. A message of a queuing port
/// may be fragmented.
#[derive(Clone, Copy, Debug, PartialEq, Eq)]
pub enum Kind {
    Sampling,
    Queuing,
}

/// The checksum field of a port's datagrams (RFC 768): zero, which means none, or the checksum.
#[derive(Clone, Copy, Debug, PartialEq, Eq)]
pub enum UdpSum {
    Omitted,
    Generated,
}
