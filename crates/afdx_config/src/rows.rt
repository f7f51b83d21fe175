//! The values of a document, read once, and the findings of its keys.
ghost use Rattle.std.specs.Prelude.{if◌then◌else◌, ◌≡◌, ◌≤◌};
ghost use Rattle.afdx_config.specs.Names.{All, Bool, IfOk, IfSome, IsLink, IsPort, List, Members, Ok, OnOk, [], codes, get_member, map, option_map_or, result_err, result_ok, table_view};
ghost use Rattle.afdx_config.specs.declared.format.Content.{Content};
ghost use Rattle.afdx_config.specs.Cells.{link_of, link_row, port_of, port_row, cells_of, end_system_of};
ghost use Rattle.afdx_config.specs.Findings.{key_finding, field_findings, each_row, key_findings, row_like, table_findings, value_findings};
ghost use Rattle.afdx_config.specs.Format.{Field as Key, link_fields, port_fields, document_fields, end_fields, id_range};
ghost use Rattle.afdx_config.specs.Seen.{Adds, field_of, AreInRange, cells_in, IsDocument, data_of};
ghost use Rattle.afdx_config.specs.Tables.{content_fault, number_under, value_at, section_at};
ghost use Rattle.afdx_config.specs.declared.findings.Place.TheVariants.{Top, EndSystem};

use crate::document::Document;
use crate::findings::{Added, Found, Place, add, row_like};
use crate::format::{
    CAPACITY, DOCUMENT, END, Field, IDENTIFIER, LINK, LMAX, MESSAGE, PARTITION, PORT, Range,
    SUB_VL, SUB_VLS, UDP_PORT, key_fault,
};
use crate::reading::{
    bag_in, number_in, rows_fault, section_fault, text_in, unicast_in, version_in,
};
use afdx_plan::{
    Bag, ConfigFault, Kind, LinkPlan, LinkRow, Lmax, Networks, PortId, PortPlan, PortRow, UdpSum,
    VlId,
};
use std::alloc::AllocError;
use toml::Table;

/// The values of a document that the rules of plans read, and whether the keys of its arrays have no fault.
#[derive(Drop)]
pub(crate) struct Rows {
    pub end_system: u16,
    pub links: Vec<LinkRow>,
    pub ports: Vec<PortRow>,
    pub has_links: bool,
    pub has_ports: bool,
}

/// Adds a key of a table if it has a fault.
fn add_key(found: &mut Found, place: Place, key: &str, fault: Option<ConfigFault>) -> Added
    ensures { OnOk result (Adds found.old found.new (key_finding place key.now fault)) }
{
    match fault {
        Some(fault) => add(found, fault, place, key, None),
        None => Ok(()),
    }
}

/// Returns a value without a fault. Adds its key if it has one.
fn keep<T: Copy>(
    found: &mut Found,
    place: Place,
    key: &str,
    read: Result<T, ConfigFault>,
) -> Result<Option<T>, AllocError>
    ensures findings { OnOk result (Adds found.old found.new (key_finding place key.now (result_err read))) }
    ensures value { IfOk result (λ value. value ≡ result_ok read) }
{
    add_key(found, place, key, read.err())?;
    Ok(read.ok())
}

/// Reads a number. Adds its key if it has a fault.
fn keep_number(
    found: &mut Found,
    place: Place,
    table: &Table,
    key: &str,
    range: Range,
) -> Result<Option<u16>, AllocError>
    ensures findings { OnOk result (Adds found.old found.new (key_finding place key.now
        (content_fault (Content.Whole range) (get_member key.now (table_view table.now))))) }
    ensures value { IfOk result (λ n. n ≡ value_at (number_under range) key.now (table_view table.now)) }
    ensures bounds { IfOk result (λ n. IfSome n (λ n. (range.0 ≤ n) × (n ≤ range.1))) }
{
    keep(found, place, key, number_in(table, key, range))
}

/// Returns the value that was read, or in version 1, which lacks the key, the value without it.
fn in_version<T: Copy>(
    is_2: bool,
    read: Result<T, ConfigFault>,
    without: T,
) -> Result<T, ConfigFault>
    ensures { result ≡ (if is_2 then read else Ok without) }
{
    if is_2 { read } else { Ok(without) }
}

/// A row that is read from a table.
pub(crate) trait Row: Copy {
    type Plan: Copy;

    ghost row_of: { Bool → Members → Self };

    ghost format: { Bool → List Key };

    ghost plan_of: { Self → Self.Plan };

    ghost Fits: { Self → Type 0 };

    /// Returns the keys of the tables.
    fn fields(is_2: bool) -> &'static [Field]
        ensures { map field_of result.now ≡ format is_2 };

    /// Reads a table. Adds the keys of its format that have a fault.
    fn read(found: &mut Found, place: Place, is_2: bool, table: &Table) -> Result<Self, AllocError>
        ensures findings { OnOk result (Adds found.old found.new
            (field_findings place (format is_2) (table_view table.now))) }
        ensures row { IfOk result (λ row. row ≡ row_of is_2 (table_view table.now)) }
        ensures fits { IfOk result Fits };

    /// Returns the part of a plan that has these values.
    fn plan(self) -> Self::Plan
        requires { Fits self }
        ensures { result ≡ plan_of self };
}

impl Row for LinkRow {
    type Plan = LinkPlan;

    ghost row_of = { link_row };

    ghost format = { link_fields };

    ghost plan_of = { link_of };

    ghost Fits = { λ row. IsLink (link_of row) };

    fn fields(is_2: bool) -> &'static [Field] {
        if is_2 { &LINK } else { &LINK[..5] }
    }

    #[tactic(auto, unfolding(crate::specs::Cells::link_row))]
    fn read(
        found: &mut Found,
        place: Place,
        is_2: bool,
        table: &Table,
    ) -> Result<LinkRow, AllocError> {
        let id = keep_number(found, place, table, "id", IDENTIFIER)?;
        let bag = keep(found, place, "bag_ms", bag_in(table))?;
        let lmax = keep_number(found, place, table, "lmax", LMAX)?;
        let sub_vls = keep_number(found, place, table, "sub_vls", SUB_VLS)?;
        let capacity = keep_number(found, place, table, "capacity", CAPACITY)?;
        let networks = text_in(table, "networks", Ok(Networks::Both));
        let networks = in_version(is_2, networks, Networks::Both);
        let networks = keep(found, place, "networks", networks)?;
        Ok(LinkRow {
            id,
            bag,
            lmax,
            sub_vls,
            capacity,
            networks,
        })
    }

    fn plan(self) -> LinkPlan {
        LinkPlan {
            id: VlId(self.id.unwrap_or(0)),
            bag: self.bag.unwrap_or(Bag::Ms1),
            lmax: Lmax::new(self.lmax.unwrap_or(64)),
            sub_vls: self.sub_vls.unwrap_or(1) as u8,
            capacity: usize::from(self.capacity.unwrap_or(1)),
            networks: self.networks.unwrap_or(Networks::Both),
        }
    }
}

impl Row for PortRow {
    type Plan = PortPlan;

    ghost row_of = { port_row };

    ghost format = { port_fields };

    ghost plan_of = { port_of };

    ghost Fits = { λ row. IsPort (port_of row) };

    fn fields(is_2: bool) -> &'static [Field] {
        if is_2 { &PORT } else { &PORT[..9] }
    }

    #[tactic(auto, unfolding(crate::specs::Cells::port_row))]
    fn read(
        found: &mut Found,
        place: Place,
        is_2: bool,
        table: &Table,
    ) -> Result<PortRow, AllocError> {
        let id = keep_number(found, place, table, "id", IDENTIFIER)?;
        let vl = keep_number(found, place, table, "vl", IDENTIFIER)?;
        let sub = keep_number(found, place, table, "sub", SUB_VL)?;
        let partition = keep_number(found, place, table, "partition", PARTITION)?;
        let kind = text_in(table, "kind", Err(ConfigFault::MissingKey));
        let kind = keep(found, place, "kind", kind)?;
        let source = keep_number(found, place, table, "source", UDP_PORT)?;
        let destination = keep_number(found, place, table, "destination", UDP_PORT)?;
        let max = keep_number(found, place, table, "max", MESSAGE)?;
        let unicast = keep(found, place, "dest_ip", unicast_in(table))?;
        let checksum = text_in(table, "checksum", Ok(UdpSum::Omitted));
        let checksum = in_version(is_2, checksum, UdpSum::Omitted);
        let checksum = keep(found, place, "checksum", checksum)?;
        Ok(PortRow {
            id,
            vl,
            sub,
            partition,
            kind,
            source,
            destination,
            max,
            unicast,
            checksum,
        })
    }

    fn plan(self) -> PortPlan {
        PortPlan {
            id: PortId(self.id.unwrap_or(0)),
            vl: VlId(self.vl.unwrap_or(0)),
            sub: self.sub.unwrap_or(0) as u8,
            partition: self.partition.unwrap_or(0) as u8,
            kind: self.kind.unwrap_or(Kind::Sampling),
            source: self.source.unwrap_or(1),
            destination: self.destination.unwrap_or(1),
            max: usize::from(self.max.unwrap_or(1)),
            unicast: self.unicast.unwrap_or(None),
            checksum: self.checksum.unwrap_or(UdpSum::Omitted),
        }
    }
}

/// Adds the keys of a table that its format lacks.
fn add_keys(found: &mut Found, place: Place, fields: &[Field], table: &Table) -> Added
    ensures { OnOk result (Adds found.old found.new
        (key_findings place (map field_of fields.now) (table_view table.now))) }
{
    for key in table.keys() {
        let key = key.as_str();
        add_key(found, place, key, key_fault(fields, key))?;
    }
    Ok(())
}

/// Adds the findings of the top level. Returns whether the arrays of links and of ports have no fault.
fn add_top(found: &mut Found, top: &Table) -> Result<(bool, bool), AllocError>
    ensures findings { OnOk result (Adds found.old found.new
        (table_findings Top document_fields (table_view top.now))) }
    ensures links { IfOk result (λ arrays. arrays.0 ≡ (cells_of (table_view top.now)).has_links) }
    ensures ports { IfOk result (λ arrays. arrays.1 ≡ (cells_of (table_view top.now)).has_ports) }
{
    let links = rows_fault(top, "vl");
    let ports = rows_fault(top, "port");
    keep(found, Place::Top, "version", version_in(top))?;
    add_key(found, Place::Top, "end_system", section_fault(top))?;
    add_key(found, Place::Top, "vl", links)?;
    add_key(found, Place::Top, "port", ports)?;
    add_keys(found, Place::Top, &DOCUMENT, top)?;
    Ok((links.is_none(), ports.is_none()))
}

/// Adds the findings of the table of the end system, and returns its identifier.
fn read_end(found: &mut Found, table: &Table) -> Result<Option<u16>, AllocError>
    ensures findings { OnOk result (Adds found.old found.new
        (table_findings EndSystem end_fields (table_view table.now))) }
    ensures value { IfOk result (λ id. id ≡ value_at (number_under id_range) (codes "id") (table_view table.now)) }
{
    let id = keep_number(found, Place::EndSystem, table, "id", IDENTIFIER)?;
    add_keys(found, Place::EndSystem, &END, table)?;
    Ok(id)
}

/// Adds the findings of the table of the end system, if there is one, and returns its identifier.
fn add_end(found: &mut Found, document: &Document<'_>) -> Result<u16, AllocError>
    requires { IsDocument document.now }
    ensures findings { OnOk result (Adds found.old found.new (option_map_or
        (table_findings EndSystem end_fields) (section_at (codes "end_system") (data_of document.now)) [])) }
    ensures value { IfOk result (λ id. id ≡ end_system_of (data_of document.now)) }
{
    match document.end {
        Some(table) => Ok(read_end(found, table)?.unwrap_or(0)),
        None => Ok(0),
    }
}

/// Adds the findings of the tables of an array that has this place, and reads the tables.
fn add_rows<R: Row>(
    found: &mut Found,
    array: Place,
    is_2: bool,
    tables: &[&Table],
) -> Result<Vec<R>, AllocError>
    ensures findings { OnOk result (Adds found.old found.new (each_row
        (λ k t. table_findings (row_like array k) (R.format is_2) (table_view t.now)) 1 tables.now)) }
    ensures rows { IfOk result (λ rows. rows.items ≡ map (λ t. R.row_of is_2 (table_view t.now)) tables.now) }
    ensures fits { IfOk result (λ rows. All R.Fits rows.items) }
{
    let mut rows = Vec::with_capacity(found.alloc(), tables.len())?;
    for (i, table) in tables.iter().enumerate() {
        let place = row_like(array, i + 1);
        let row = R::read(found, place, is_2, table)?;
        add_keys(found, place, R::fields(is_2), table)?;
        rows.push(row)?;
    }
    Ok(rows)
}

/// Adds the findings of the values of a document, and reads its values.
pub(crate) fn add_values(found: &mut Found, document: &Document<'_>) -> Result<Rows, AllocError>
    requires { IsDocument document.now }
    ensures findings { OnOk result (Adds found.old found.new (value_findings (data_of document.now))) }
    ensures rows { IfOk result (λ rows. cells_in rows ≡ cells_of (data_of document.now)) }
    ensures end_system { IfOk result (λ rows. rows.end_system ≡ end_system_of (data_of document.now)) }
    ensures fits { IfOk result AreInRange }
{
    let arrays = add_top(found, document.top)?;
    let end_system = add_end(found, document)?;
    let is_2 = document.is_2;
    let links = add_rows(found, Place::Link(0), is_2, document.links.as_slice())?;
    let ports = add_rows(found, Place::Port(0), is_2, document.ports.as_slice())?;
    Ok(Rows {
        end_system,
        links,
        ports,
        has_links: arrays.0,
        has_ports: arrays.1,
    })
}
