//! Links and ports in a table: numbers of 16 bits, the high byte first.
ghost use Rattle.std.specs.Prelude.{◌≡◌, ◌+◌, ◌*◌, ◌≤◌, ◌++◌, ◌∷◌, [], ℕ, List, length, drop, get_or, IfSome, OnOk};
ghost use Rattle.std.specs.List.{flat_map};
ghost use Rattle.afdx_plan.specs.Plan.{IsLink, IsPort, IsUnicast};
ghost use Rattle.plan_table.specs.Table.{half, link_cells, port_cells, kind_cell, checksum_cell, address_high, address_low};
ghost use Rattle.plan_table.specs.Reading.{address_from, bag_from, cells_of, link_from, port_from};

use afdx_plan::{Bag, Kind, LinkPlan, Lmax, Networks, PortId, PortPlan, UdpSum, VlId};
use std::alloc::AllocError;

// The networks, kinds and checksums by their numbers.
const NETWORKS: [Networks; 3] = [Networks::Both, Networks::OnlyA, Networks::OnlyB];

const KINDS: [Kind; 2] = [Kind::Sampling, Kind::Queuing];

const CHECKSUMS: [UdpSum; 2] = [UdpSum::Omitted, UdpSum::Generated];

/// Returns the number at index `k` of a table.
#[tactic(auto, using(crate::proofs::CellLemmas::cell_is))]
pub fn cell(bytes: &[u8], k: usize) -> u16
    requires { 2 * k + 2 ≤ length bytes.now }
    ensures { result ≡ get_or (cells_of bytes.now) k 0 }
{
    u16::from_be_bytes([bytes[2 * k], bytes[2 * k + 1]])
}

/// A link or a port, as a table has it.
pub trait Part: Copy {
    ghost width: { ℕ };

    ghost cells: { Self → List ℕ };

    ghost from: { List ℕ → Self };

    ghost IsPart: { Self → Type 0 };

    /// Returns the number of numbers of a part.
    fn width() -> usize
        ensures value { result ≡ width }
        ensures some { result ≤ 11 };

    /// Reads a part from its numbers, from index `at` on. A number that the part can't have becomes one that it can.
    fn read(bytes: &[u8], at: usize) -> Self
        requires { 2 * (at + width) ≤ length bytes.now }
        ensures value { result ≡ from (drop at (cells_of bytes.now)) }
        ensures part { IsPart result };

    /// Adds the numbers of a part to a table.
    fn write(self, table: &mut Vec<u8>) -> Result<(), AllocError>
        requires { IsPart self }
        ensures { OnOk result (table.new.items ≡ table.old.items ++ flat_map half (cells self)) };
}

/// Adds numbers to a table.
pub fn put(table: &mut Vec<u8>, numbers: &[u16]) -> Result<(), AllocError>
    ensures { OnOk result (table.new.items ≡ table.old.items ++ flat_map half numbers.now) }
{
    for number in numbers {
        table.extend_from_slice(&number.to_be_bytes())?;
    }
    Ok(())
}

impl Part for LinkPlan {
    ghost width = { 6 };

    ghost cells = { link_cells };

    ghost from = { link_from };

    ghost IsPart = { IsLink };

    fn width() -> usize {
        6
    }

    #[tactic(auto, using(crate::proofs::CellLemmas::cell_past), unfolding(crate::specs::Reading::link_from))]
    fn read(bytes: &[u8], at: usize) -> LinkPlan {
        LinkPlan {
            id: VlId(cell(bytes, at)),
            bag: bag_from(cell(bytes, at + 1)),
            lmax: Lmax::new(cell(bytes, at + 2).max(64).min(1518)),
            sub_vls: cell(bytes, at + 3).max(1).min(4) as u8,
            capacity: usize::from(cell(bytes, at + 4).max(1).min(256)),
            networks: NETWORKS[usize::from(cell(bytes, at + 5).min(2))],
        }
    }

    fn write(self, table: &mut Vec<u8>) -> Result<(), AllocError> {
        let bag = self.bag.ms() as u16;
        let lmax = self.lmax.bytes();
        let sub_vls = u16::from(self.sub_vls);
        let capacity = self.capacity as u16;
        let networks = self.networks as u16;
        put(table, &[self.id.0, bag, lmax, sub_vls, capacity, networks])
    }
}

impl Part for PortPlan {
    ghost width = { 11 };

    ghost cells = { port_cells };

    ghost from = { port_from };

    ghost IsPart = { IsPort };

    fn width() -> usize {
        11
    }

    #[tactic(auto, using(crate::proofs::CellLemmas::cell_past), unfolding(crate::specs::Reading::port_from))]
    fn read(bytes: &[u8], at: usize) -> PortPlan {
        PortPlan {
            id: PortId(cell(bytes, at)),
            vl: VlId(cell(bytes, at + 1)),
            sub: cell(bytes, at + 2).min(3) as u8,
            partition: cell(bytes, at + 3).min(31) as u8,
            kind: KINDS[usize::from(cell(bytes, at + 4).min(1))],
            source: cell(bytes, at + 5).max(1),
            destination: cell(bytes, at + 6).max(1),
            max: usize::from(cell(bytes, at + 7).max(1).min(8192)),
            unicast: address_from(cell(bytes, at + 8), cell(bytes, at + 9)),
            checksum: CHECKSUMS[usize::from(cell(bytes, at + 10).min(1))],
        }
    }

    fn write(self, table: &mut Vec<u8>) -> Result<(), AllocError> {
        let sub = u16::from(self.sub);
        let partition = u16::from(self.partition);
        let kind = kind_cell(self.kind);
        let [high, low] = address_cells(self.unicast);
        put(
            table,
            &[
                self.id.0,
                self.vl.0,
                sub,
                partition,
                kind,
                self.source,
                self.destination,
            ],
        )?;
        put(
            table,
            &[self.max as u16, high, low, checksum_cell(self.checksum)],
        )
    }
}

fn bag_from(number: u16) -> Bag
    ensures { result ≡ bag_from number }
{
    match number {
        2 => Bag::Ms2,
        4 => Bag::Ms4,
        8 => Bag::Ms8,
        16 => Bag::Ms16,
        32 => Bag::Ms32,
        64 => Bag::Ms64,
        128 => Bag::Ms128,
        _ => Bag::Ms1,
    }
}

fn kind_cell(kind: Kind) -> u16
    ensures { result ≡ kind_cell kind }
{
    kind as u16
}

fn checksum_cell(checksum: UdpSum) -> u16
    ensures { result ≡ checksum_cell checksum }
{
    checksum as u16
}

/// Returns the unicast address of two numbers: none if both are 0, else one in 10.0.0.0/8.
fn address_from(high: u16, low: u16) -> Option<[u8; 4]>
    ensures value { result ≡ address_from high low }
    ensures unicast { IfSome result IsUnicast }
{
    if high == 0 && low == 0 {
        return None;
    }
    let [_, b] = high.to_be_bytes();
    let [c, d] = low.to_be_bytes();
    Some([10, b, c, d])
}

/// Returns the two numbers of a unicast address.
fn address_cells(address: Option<[u8; 4]>) -> [u16; 2]
    ensures { result ≡ address_high address ∷ address_low address ∷ [] }
{
    let [a, b, c, d] = address.unwrap_or([0; 4]);
    [u16::from_be_bytes([a, b]), u16::from_be_bytes([c, d])]
}
