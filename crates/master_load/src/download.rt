//! A download as frames: begin, the cells in parts of 24, verify, finish.

ghost use Rattle.std.specs.Prelude.{◌≡◌, ◌+◌, ◌≤◌, ◌<◌, ◌++◌, length, map, All};
ghost use Rattle.arrayvec.specs.ArrayVec.{array_vec_len};
ghost use Rattle.snmp_msg.specs.Shortest.{IsWritableBind};
ghost use Rattle.sig_tables.specs.Putting.{put_content};
ghost use Rattle.requests.specs.Requests.{set_text};
ghost use Rattle.master_load.specs.Downloads.{ArePuts, cell_bind, part_cells, parts_for, step_after, step_binds};

use arrayvec::ArrayVec;
use oid_map::Name;
use requests::{cell_at, number_at, write_set};
use sig_tables::{Cell, CellValue};
use sig_types::Octets;
use snmp_msg::Bind;

/// Where a download is. Parts are counted from 1.
#[derive(Clone, Copy, PartialEq, Eq)]
pub enum Step {
    Begin,
    Part(u16),
    Verify,
    Finish,
}

/// A frame of a download: the cabinet, the number of the load among the cabinet's (from 1), its step, and the id that it is
/// sent under.
#[derive(Clone, Copy, PartialEq, Eq)]
pub struct LoadFrame {
    pub cab: u32,
    pub load: u32,
    pub step: Step,
    pub id: i32,
}

/// The step after one that was answered without a fault, if the load has this number of cells; none after finish.
pub(crate) fn step_after(cells: usize, step: Step) -> Option<Step>
    requires { cells ≤ 768 }
    ensures { result ≡ step_after (parts_for cells) step }
{
    match step {
        Step::Begin => Some(Step::Part(1)),
        Step::Part(k) if usize::from(k) < cells.div_ceil(24) => Some(Step::Part(k + 1)),
        Step::Part(_) => Some(Step::Verify),
        Step::Verify => Some(Step::Finish),
        Step::Finish => None,
    }
}

/// The cells of a part, which is counted from 1: at most 24.
fn part_cells(cells: &[(Cell, CellValue)], part: u16) -> &[(Cell, CellValue)]
    ensures part { map put_content result.now ≡ part_cells (map put_content cells.now) part }
    ensures few { length result.now ≤ 24 }
{
    let first = cells.len().min(24 * usize::from(part.saturating_sub(1)));
    let last = cells.len().min(first + 24);
    &cells[first..last]
}

/// Appends cells with what is to be in them.
fn push_cells(cells: &[(Cell, CellValue)], binds: &mut ArrayVec<Bind, 32>)
    requires room { array_vec_len binds.old + length cells.now ≤ 32 }
    requires puts { ArePuts (map put_content cells.now) }
    requires writable { All IsWritableBind binds.old.items }
    ensures pushed { binds.new.items ≡ binds.old.items ++ map cell_bind (map put_content cells.now) }
    ensures writable { All IsWritableBind binds.new.items }
{
    for put in cells {
        binds.push(cell_at(put.0, &put.1));
    }
}

/// The bindings of a step of the download with this number.
fn step_binds(number: u32, cells: &[(Cell, CellValue)], step: Step) -> ArrayVec<Bind, 32>
    requires number { number < 2147483648 }
    requires few { length cells.now ≤ 768 }
    requires puts { ArePuts (map put_content cells.now) }
    ensures binds { result.items ≡ step_binds number (map put_content cells.now) step }
    ensures writable { All IsWritableBind result.items }
{
    let mut binds = ArrayVec::new();
    match step {
        Step::Begin => {
            binds.push(number_at(Name::Txn(2), number));
            binds
        }
        Step::Part(part) => {
            binds.push(number_at(Name::Txn(3), number));
            binds.push(number_at(Name::Txn(4), u32::from(part)));
            push_cells(part_cells(cells, part), &mut binds);
            binds
        }
        Step::Verify => {
            binds.push(number_at(Name::Txn(3), number));
            binds.push(number_at(Name::Txn(5), cells.len().div_ceil(24) as u32));
            binds
        }
        Step::Finish => {
            binds.push(number_at(Name::Txn(3), number));
            binds.push(number_at(Name::Txn(6), 1));
            binds
        }
    }
}

/// The octets of a step of the download with this number, under an id, where the load has these cells.
pub(crate) fn step_octets(
    community: &ArrayVec<u8, 32>,
    id: i32,
    number: u32,
    cells: &[(Cell, CellValue)],
    step: Step,
) -> Octets
    requires number { number < 2147483648 }
    requires few { length cells.now ≤ 768 }
    requires puts { ArePuts (map put_content cells.now) }
    ensures { result.items ≡ set_text community.now.items id (step_binds number (map put_content cells.now) step) }
{
    let binds = step_binds(number, cells, step);
    prove!(community.len() <= 32);
    write_set(community, id, binds.as_slice())
}
