//! The values of tables, each read once: a value, or its fault.
ghost use Rattle.std.specs.Prelude.{if◌then◌else◌, ◌==◌, ◌≡◌, ◌≤◌};
ghost use Rattle.afdx_config.specs.Names.{ConfigFault, Err, IfOk, IfSome, IsUnicast, List, MissingKey, None, Option, Some, WrongKind, as_integer, as_str, as_table, codes, get_member, is_none, list_any, option_map, slice_index, table_view, view, ℕ};
ghost use Rattle.afdx_config.specs.declared.format.Content.{Content};
ghost use Rattle.afdx_config.specs.Tables.{address_under, content_fault, in_range, number_under, gap_under, read, version_under};
ghost use Rattle.afdx_config.specs.Values.{address_of, bag_of, networks_of, kind_of, checksum_of};

use crate::format::{Range, VERSION};
use afdx_plan::{Bag, ConfigFault, Kind, Networks, UdpSum};
use std::net::Ipv4Addr;
use toml::{Table, Value};

/// Returns the value under a key.
#[tactic(auto, using(toml::proofs::Views::table_get))]
pub(crate) fn value_at<'a>(table: &'a Table, key: &str) -> Option<&'a Value>
    ensures { option_map (λ v. view v.now) result ≡ get_member key.now (table_view table.now) }
{
    table.get(key)
}

/// Returns a number of a range.
fn in_range(range: Range, number: i64) -> Option<u16>
    ensures value { result ≡ in_range range number }
    ensures bounds { IfSome result (λ n. (range.0 ≤ n) × (n ≤ range.1)) }
{
    let (least, most) = range;
    if number < i64::from(least) || i64::from(most) < number {
        return None;
    }
    Some(number as u16)
}

/// Reads the whole number under a key.
fn whole_in(table: &Table, key: &str) -> Result<i64, ConfigFault>
    ensures { result
        ≡ read (Err MissingKey) as_integer (λ n. Some n) WrongKind (get_member key.now (table_view table.now)) }
{
    let value = value_at(table, key).ok_or(ConfigFault::MissingKey)?;
    value.as_integer().ok_or(ConfigFault::WrongKind)
}

/// Reads the number under a key.
pub(crate) fn number_in(table: &Table, key: &str, range: Range) -> Result<u16, ConfigFault>
    ensures value { result ≡ number_under range (get_member key.now (table_view table.now)) }
    ensures bounds { IfOk result (λ n. (range.0 ≤ n) × (n ≤ range.1)) }
{
    in_range(range, whole_in(table, key)?).ok_or(ConfigFault::OutOfRange)
}

/// Reads the version of the format, which is 1 if it is missing.
pub(crate) fn version_in(table: &Table) -> Result<u16, ConfigFault>
    ensures { result ≡ version_under (get_member (codes "version") (table_view table.now)) }
{
    match number_in(table, "version", VERSION) {
        Err(ConfigFault::MissingKey) => Ok(1),
        read => read,
    }
}

/// Returns the BAG of a number of milliseconds.
#[tactic(auto, unfolding(crate::specs::Values::bag_of))]
fn bag_of_ms(number: i64) -> Option<Bag>
    ensures { result ≡ bag_of number }
{
    match number {
        1 => Some(Bag::Ms1),
        2 => Some(Bag::Ms2),
        4 => Some(Bag::Ms4),
        8 => Some(Bag::Ms8),
        16 => Some(Bag::Ms16),
        32 => Some(Bag::Ms32),
        64 => Some(Bag::Ms64),
        128 => Some(Bag::Ms128),
        _ => None,
    }
}

/// Reads the BAG of a link.
pub(crate) fn bag_in(table: &Table) -> Result<Bag, ConfigFault>
    ensures { result ≡ gap_under (get_member (codes "bag_ms") (table_view table.now)) }
{
    bag_of_ms(whole_in(table, "bag_ms")?).ok_or(ConfigFault::BadBag)
}

/// A value that a text names.
pub(crate) trait Named: Copy {
    ghost named: { List ℕ → Option Self };

    /// Returns the value of this name.
    fn of_name(text: &str) -> Option<Self>
        ensures { result ≡ named text.now };
}

impl Named for Networks {
    ghost named = { networks_of };

    #[tactic(auto, unfolding(crate::specs::Values::networks_of))]
    fn of_name(text: &str) -> Option<Networks> {
        match text {
            "both" => Some(Networks::Both),
            "a" => Some(Networks::OnlyA),
            "b" => Some(Networks::OnlyB),
            _ => None,
        }
    }
}

impl Named for Kind {
    ghost named = { kind_of };

    #[tactic(auto, unfolding(crate::specs::Values::kind_of))]
    fn of_name(text: &str) -> Option<Kind> {
        match text {
            "sampling" => Some(Kind::Sampling),
            "queuing" => Some(Kind::Queuing),
            _ => None,
        }
    }
}

impl Named for UdpSum {
    ghost named = { checksum_of };

    #[tactic(auto, unfolding(crate::specs::Values::checksum_of))]
    fn of_name(text: &str) -> Option<UdpSum> {
        match text {
            "none" => Some(UdpSum::Omitted),
            "udp" => Some(UdpSum::Generated),
            _ => None,
        }
    }
}

/// Reads the name under a key. Returns its meaning, or `missing` if there is no value.
pub(crate) fn text_in<T: Named>(
    table: &Table,
    key: &str,
    missing: Result<T, ConfigFault>,
) -> Result<T, ConfigFault>
    ensures { result ≡ read missing as_str T.named ConfigFault.OutOfRange (get_member key.now (table_view table.now)) }
{
    let Some(value) = value_at(table, key) else {
        return missing;
    };
    let text = value.as_str().ok_or(ConfigFault::WrongKind)?;
    T::of_name(text).ok_or(ConfigFault::OutOfRange)
}

/// Returns the address, if its first byte is 10.
fn in_network_10(octets: [u8; 4]) -> Option<[u8; 4]>
    ensures value { result ≡ (if slice_index octets 0 == 10 then Some octets else None) }
    ensures unicast { IfSome result IsUnicast }
{
    if octets[0] == 10 { Some(octets) } else { None }
}

/// Parses a dotted address in 10.0.0.0/8.
fn unicast_address(text: &str) -> Option<[u8; 4]>
    ensures value { result ≡ address_of text.now }
    ensures unicast { IfSome result IsUnicast }
{
    match text.parse::<Ipv4Addr>() {
        Ok(address) => in_network_10(address.octets()),
        Err(_) => None,
    }
}

/// Reads the unicast address of a port, which it may lack.
pub(crate) fn unicast_in(table: &Table) -> Result<Option<[u8; 4]>, ConfigFault>
    ensures value { result ≡ address_under (get_member (codes "dest_ip") (table_view table.now)) }
    ensures unicast { IfOk result (λ a. IfSome a IsUnicast) }
{
    let Some(value) = value_at(table, "dest_ip") else {
        return Ok(None);
    };
    let text = value.as_str().ok_or(ConfigFault::WrongKind)?;
    let address = unicast_address(text).ok_or(ConfigFault::OutOfRange)?;
    Ok(Some(address))
}

/// Returns the fault of the table of the end system.
pub(crate) fn section_fault(top: &Table) -> Option<ConfigFault>
    ensures { result ≡ content_fault Content.Section (get_member (codes "end_system") (table_view top.now)) }
{
    match value_at(top, "end_system") {
        Some(value) => (!value.is_table()).then_some(ConfigFault::WrongKind),
        None => Some(ConfigFault::MissingKey),
    }
}

fn some_is_no_table(values: &[Value]) -> bool
    ensures { result ≡ list_any (λ v. is_none (as_table (view v))) values.now }
{
    values.iter().any(|value| !value.is_table())
}

/// Returns the fault of an array of tables.
#[tactic(auto, using(crate::proofs::SectionLemmas::other_item_among))]
pub(crate) fn rows_fault(top: &Table, key: &str) -> Option<ConfigFault>
    ensures { result ≡ content_fault Content.Rows (get_member key.now (table_view top.now)) }
{
    let Some(value) = value_at(top, key) else {
        return Some(ConfigFault::MissingKey);
    };
    let Some(values) = value.as_array() else {
        return Some(ConfigFault::WrongKind);
    };
    some_is_no_table(values.as_slice()).then_some(ConfigFault::WrongKind)
}
