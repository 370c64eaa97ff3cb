//! The lines of the rows, and where each stands.
//!
//! A module has one line, and a second where it faulted; a thread has two, and each other row one.
//! The rows are read and never changed.
ghost use Rattle.std.specs.Prelude.{◌≡◌, ◌+◌, ◌*◌, ◌<◌, ◌≤◌, [], Some, All, length, map};
ghost use Rattle.std.specs.List.{flat_map, slice_get};
ghost use Rattle.tx_types.specs.Limits.{cell_limit, slot_limit};
ghost use Rattle.board_report.specs.Printable.{IsNumbers};
ghost use Rattle.board_report.specs.Report.{module_lines, thread_lines, object_line, device_line, show_line};

use crate::line_text::{
    put_device, put_fault, put_module, put_object, put_regs, put_show, put_thread,
};
use board_values::{DeviceRow, ModuleRow, ObjectRow, ShowRow, ThreadRow};
use tx_types::Line;

/// How many lines the modules have.
pub(crate) fn module_count(rows: &[ModuleRow]) -> u32
    requires { length rows.now ≤ slot_limit }
    ensures count { result ≡ length (flat_map module_lines rows.now) }
    ensures small { result ≤ 2 * slot_limit }
{
    let mut count = 0;
    for row in rows {
        count += if row.fault.is_some() { 2 } else { 1 };
    }
    count
}

/// How many lines the threads have.
#[tactic(auto, using(crate::proofs::Places::thread_length))]
pub(crate) fn thread_count(rows: &[ThreadRow]) -> u32
    requires { length rows.now ≤ slot_limit }
    ensures count { result ≡ length (flat_map thread_lines rows.now) }
    ensures small { result ≤ 2 * slot_limit }
{
    2 * row_count(rows)
}

/// How many rows there are.
pub(crate) fn row_count<T>(rows: &[T]) -> u32
    requires { length rows.now ≤ slot_limit }
    ensures { result ≡ length rows.now }
{
    rows.len() as u32
}

/// The i-th line of the modules.
pub(crate) fn put_module_line(line: &mut Line, rows: &[ModuleRow], i: u32)
    requires empty { line.old.bytes ≡ [] }
    requires there { i < length (flat_map module_lines rows.now) }
    ensures { slice_get (flat_map module_lines rows.now) i ≡ Some line.new.bytes }
{
    let mut left = i;
    for row in rows {
        if left == 0 {
            put_module(line, row);
            return;
        }
        left -= 1;
        if let Some(fault) = row.fault {
            if left == 0 {
                put_fault(line, row.module, &fault);
                return;
            }
            left -= 1;
        }
    }
}

/// The i-th line of the threads.
#[tactic(auto, using(crate::proofs::Places::thread_places))]
pub(crate) fn put_thread_line(line: &mut Line, rows: &[ThreadRow], i: u32)
    requires empty { line.old.bytes ≡ [] }
    requires there { i < length (flat_map thread_lines rows.now) }
    requires regs { All (λ t. length t.regs ≡ 31) rows.now }
    ensures { slice_get (flat_map thread_lines rows.now) i ≡ Some line.new.bytes }
{
    let row = &rows[(i / 2) as usize];
    if i % 2 == 0 {
        put_thread(line, row);
    } else {
        put_regs(line, row.regs.as_slice());
    }
}

/// The i-th line of the objects.
#[tactic(auto, using(crate::proofs::Places::places))]
pub(crate) fn put_object_line(line: &mut Line, rows: &[ObjectRow], i: u32)
    requires empty { line.old.bytes ≡ [] }
    requires there { i < length rows.now }
    requires numbers { All (λ o. IsNumbers o.waits) rows.now }
    ensures { slice_get (map object_line rows.now) i ≡ Some line.new.bytes }
{
    put_object(line, &rows[i as usize]);
}

/// The i-th line of the devices.
#[tactic(auto, using(crate::proofs::Places::places))]
pub(crate) fn put_device_line(line: &mut Line, rows: &[DeviceRow], i: u32)
    requires empty { line.old.bytes ≡ [] }
    requires there { i < length rows.now }
    ensures { slice_get (map device_line rows.now) i ≡ Some line.new.bytes }
{
    put_device(line, &rows[i as usize]);
}

/// The i-th line of the shows.
#[tactic(auto, using(crate::proofs::Places::places))]
pub(crate) fn put_show_line(line: &mut Line, rows: &[ShowRow], i: u32)
    requires empty { line.old.bytes ≡ [] }
    requires there { i < length rows.now }
    requires few { All (λ s. length s.cells ≤ cell_limit) rows.now }
    ensures { slice_get (map show_line rows.now) i ≡ Some line.new.bytes }
{
    put_show(line, &rows[i as usize]);
}
