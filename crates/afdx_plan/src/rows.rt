//! The values of links and ports as a text gives them, each with a fault or without.
use crate::link_plan::{Bag, Networks};
use crate::port_plan::{Kind, UdpSum};

/// The values of a link. A value with a fault is `None`.
#[derive(Clone, Copy)]
pub struct LinkRow {
    pub id: Option<u16>,
    pub bag: Option<Bag>,
    pub lmax: Option<u16>,
    pub sub_vls: Option<u16>,
    pub capacity: Option<u16>,
    pub networks: Option<Networks>,
}

/// The values of a port. A value with a fault is `None`.
#[derive(Clone, Copy)]
pub struct PortRow {
    pub id: Option<u16>,
    pub vl: Option<u16>,
    pub sub: Option<u16>,
    pub partition: Option<u16>,
    pub kind: Option<Kind>,
    pub source: Option<u16>,
    pub destination: Option<u16>,
    pub max: Option<u16>,
    pub unicast: Option<Option<[u8; 4]>>,
    pub checksum: Option<UdpSum>,
}

/// The ways in which a port does not fit its link.
#[derive(Clone, Copy)]
pub enum Misfit {
    NoLink,
    NoSub,
    TooLong,
}
