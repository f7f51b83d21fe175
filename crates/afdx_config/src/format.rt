//! The format of a plan: the keys of its tables and their values.
ghost use Rattle.std.specs.Prelude.{◌≡◌};
ghost use Rattle.afdx_config.specs.Names.{bytes_eq, find, map, option_copied};
ghost use Rattle.afdx_config.specs.Tables.{key_fault};
ghost use Rattle.afdx_config.specs.Seen.{field_of};

use afdx_plan::{CAPACITY_LIMIT, ConfigFault, MESSAGE_LIMIT};

/// The least and the greatest number of a range.
pub(crate) type Range = (u16, u16);

pub(crate) const IDENTIFIER: Range = (0, 65535);

pub(crate) const VERSION: Range = (1, 2);

pub(crate) const LMAX: Range = (64, 1518);

pub(crate) const SUB_VLS: Range = (1, 4);

pub(crate) const CAPACITY: Range = (1, CAPACITY_LIMIT as u16);

pub(crate) const SUB_VL: Range = (0, 3);

pub(crate) const PARTITION: Range = (0, 31);

pub(crate) const UDP_PORT: Range = (1, 65535);

pub(crate) const MESSAGE: Range = (1, MESSAGE_LIMIT as u16);

/// The value of a key: an integer in a range, the version of the format, a BAG in milliseconds, the name of a link's
/// networks, of a kind of port or of a UDP checksum, a unicast address, a table, or an array of tables. The version,
/// networks, address and checksum may be missing.
#[derive(Clone, Copy)]
pub(crate) enum Content {
    Whole(Range),
    Version,
    Gap,
    Networks,
    PortKind,
    Address,
    Checksum,
    Section,
    Rows,
}

/// A key of a table, and its value.
#[derive(Clone, Copy)]
pub(crate) struct Field(pub &'static str, pub Content);

/// The top level of the text.
pub(crate) const DOCUMENT: [Field; 4] = [
    Field("version", Content::Version),
    Field("end_system", Content::Section),
    Field("vl", Content::Rows),
    Field("port", Content::Rows),
];

/// The table of the end system.
pub(crate) const END: [Field; 1] = [Field("id", Content::Whole(IDENTIFIER))];

/// The table of a link in version 2. Version 1 lacks the last key.
pub(crate) const LINK: [Field; 6] = [
    Field("id", Content::Whole(IDENTIFIER)),
    Field("bag_ms", Content::Gap),
    Field("lmax", Content::Whole(LMAX)),
    Field("sub_vls", Content::Whole(SUB_VLS)),
    Field("capacity", Content::Whole(CAPACITY)),
    Field("networks", Content::Networks),
];

/// The table of a port in version 2. Version 1 lacks the last key.
pub(crate) const PORT: [Field; 10] = [
    Field("id", Content::Whole(IDENTIFIER)),
    Field("vl", Content::Whole(IDENTIFIER)),
    Field("sub", Content::Whole(SUB_VL)),
    Field("partition", Content::Whole(PARTITION)),
    Field("kind", Content::PortKind),
    Field("source", Content::Whole(UDP_PORT)),
    Field("destination", Content::Whole(UDP_PORT)),
    Field("max", Content::Whole(MESSAGE)),
    Field("dest_ip", Content::Address),
    Field("checksum", Content::Checksum),
];

/// Returns the row of a format that has this key.
pub(crate) fn field_named<'a>(fields: &'a [Field], key: &str) -> Option<&'a Field>
    ensures { option_copied result ≡ find (λ f. bytes_eq key.now (field_of f).key) fields.now }
{
    fields.iter().find(|field| key == field.0)
}

/// Returns the fault of a key that a table has: it is not in the format.
#[tactic(auto, using(crate::proofs::SectionLemmas::any_mapped))]
pub(crate) fn key_fault(fields: &[Field], key: &str) -> Option<ConfigFault>
    ensures { result ≡ key_fault (map field_of fields.now) key.now }
{
    match field_named(fields, key) {
        Some(_) => None,
        None => Some(ConfigFault::UnknownKey),
    }
}
