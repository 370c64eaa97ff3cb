//! The rows of a report, one list for each kind of thing on the board.
//!
//! The board is read and never changed. Where memory runs out there is no list, rather than a
//! shorter one. The rows of the shows have a file of their own.
ghost use Rattle.std.specs.Prelude.{◌≡◌, ◌+◌, ◌<◌, ◌≤◌, ◌++◌, ◌∷◌, [], All, length, IfOk, OnOk, IfSome};
ghost use Rattle.std.specs.Option.{option_map, option_to_list};
ghost use Rattle.tx_types.specs.Limits.{device_limit, slot_limit};
ghost use Rattle.board_report.specs.Printable.{IsNumbers};
ghost use Rattle.board_values.specs.declared.report.ObjectRow.{ObjectRow};
ghost use Rattle.board_values.specs.declared.report.ThreadRow.{ThreadRow};
ghost use Rattle.kernel_state.specs.Kernel.{is_thread};
ghost use Rattle.kernel_state.specs.ObjectReport.{object_row};
ghost use Rattle.module_manager.specs.Modules.{fault_in, module_at};
ghost use Rattle.board_core.specs.Report.{rows_below, rows_found, device_row, fault_row, module_row, row_of_thread, thread_row};

use crate::devices::Devices;
use board_file::Board;
use board_values::{
    DevNo, DeviceRow, DeviceRows, FaultRow, ModuleRow, ModuleRows, ObjectRows, Rows, ThreadRow,
    ThreadRows,
};
use kernel_state::Kernel;
use module_manager::Manager;
use object_grants::{SLOTS, SlotState};
use std::alloc::{AllocError, Global};
use tx_types::{Kind, ModNo, NoMemory, ObjNo, ThreadNo};

/// Puts a row last.
pub(crate) fn put<T: Drop>(rows: &mut Vec<T>, row: T) -> Result<(), AllocError>
    ensures { OnOk result (rows.new.items ≡ rows.old.items ++ row ∷ []) }
{
    Ok(rows.push(row)?)
}

/// Puts a row last, where there is one.
fn put_some<T: Drop>(rows: &mut Vec<T>, row: Option<T>) -> Result<(), AllocError>
    ensures { OnOk result (rows.new.items ≡ rows.old.items ++ option_to_list row) }
{
    match row {
        Some(row) => put(rows, row),
        None => Ok(()),
    }
}

/// The fault of a module.
fn fault_row(modules: &Manager, m: ModNo) -> Option<FaultRow>
    requires { m < length modules.now }
    ensures { result ≡ option_map fault_row (fault_in (module_at modules.now m).state) }
{
    let fault = modules.row(m).state.fault()?;
    Some(FaultRow {
        thread: fault.thread.number(),
        cause: fault.cause.number(),
        pc: fault.pc,
    })
}

/// The row of a module.
#[tactic(auto, unfolding(crate::specs::Report::module_row))]
fn module_row(board: &Board, modules: &Manager, m: ModNo) -> Result<ModuleRow, NoMemory>
    requires board { m < length board.now.modules }
    requires row { m < length modules.now }
    ensures { IfOk result (λ row. row ≡ module_row board.now modules.now m) }
{
    Ok(ModuleRow {
        module: m.number(),
        name: board.modules.items()[m.number() as usize].name.clone()?,
        state: u32::from(modules.state(m)),
        queued: 0,
        dropped: 0,
        fault: fault_row(modules, m),
    })
}

/// A row for each module.
#[tactic(auto, using(crate::proofs::Lists::rows_below_none, crate::proofs::Lists::rows_below_more))]
pub(crate) fn module_rows(
    alloc: Global,
    board: &Board,
    modules: &Manager,
) -> Result<ModuleRows, NoMemory>
    requires { length modules.now ≡ length board.now.modules }
    ensures { IfOk result (λ rows. rows
        ≡ rows_below (length modules.now) (module_row board.now modules.now)) }
{
    let mut rows = Vec::new(alloc);
    for m in 0..modules.len() {
        put(&mut rows, module_row(board, modules, ModNo::new(m))?)?;
    }
    Ok(Rows::new(rows))
}

/// The row of a thread.
#[tactic(auto, unfolding(crate::specs::Report::row_of_thread))]
fn row_of_thread(alloc: Global, kernel: &Kernel, t: ThreadNo) -> Result<ThreadRow, NoMemory>
    ensures row { IfOk result (λ row. row ≡ row_of_thread kernel.now t) }
    ensures regs { IfOk result (λ row. length row.regs ≡ 31) }
{
    let thread = kernel.thread(t);
    Ok(ThreadRow {
        thread: t.number(),
        module: thread.module.number(),
        name: kernel.objects.slot(t).name.clone()?,
        state: thread.state.number(),
        priority: thread.priority.number(),
        effective_priority: kernel.effective_priority(t).number(),
        threshold: thread.threshold.number(),
        effective_threshold: kernel.effective_threshold(t).number(),
        slice: thread.slice,
        remaining: thread.left,
        pc: thread.hart.pc,
        regs: Rows::new(thread.hart.general().to_vec(alloc)?),
    })
}

/// Whether a slot has a thread.
fn is_thread(kernel: &Kernel, t: ThreadNo) -> bool
    ensures { result ≡ is_thread kernel.now t }
{
    let slot = kernel.objects.slot(t);
    slot.is_in(SlotState::Live) && slot.is_kind(Kind::Thread)
}

/// The row of the thread of a slot. None exactly where the slot has no thread.
#[tactic(auto, unfolding(crate::specs::Report::thread_row))]
fn thread_row(alloc: Global, kernel: &Kernel, t: ThreadNo) -> Result<Option<ThreadRow>, NoMemory>
    ensures row { IfOk result (λ row. row ≡ thread_row kernel.now t) }
    ensures regs { IfOk result (λ row. IfSome row (λ r. length r.regs ≡ 31)) }
{
    if is_thread(kernel, t) {
        Ok(Some(row_of_thread(alloc, kernel, t)?))
    } else {
        Ok(None)
    }
}

/// A row for each thread.
#[tactic(auto, using(crate::proofs::Lists::rows_found_none, crate::proofs::Lists::rows_found_more, crate::proofs::Lists::all_put))]
pub(crate) fn thread_rows(alloc: Global, kernel: &Kernel) -> Result<ThreadRows, NoMemory>
    requires { length kernel.now.objects ≡ slot_limit }
    ensures rows { IfOk result (λ rows. rows
        ≡ rows_found (length kernel.now.objects) (thread_row kernel.now)) }
    ensures regs { IfOk result (All (λ (t : ThreadRow). length t.regs ≡ 31)) }
{
    let mut rows = Vec::new(alloc);
    for t in 0..SLOTS {
        put_some(&mut rows, thread_row(alloc, kernel, ObjNo::new(t))?)?;
    }
    Ok(Rows::new(rows))
}

/// A row for each object that isn't a thread.
#[tactic(auto, using(crate::proofs::Lists::rows_found_none, crate::proofs::Lists::rows_found_more, crate::proofs::Lists::all_put, crate::proofs::Printing::some_numbers))]
pub(crate) fn object_rows(alloc: Global, kernel: &Kernel) -> Result<ObjectRows, NoMemory>
    requires { length kernel.now.objects ≡ slot_limit }
    ensures rows { IfOk result (λ rows. rows
        ≡ rows_found (length kernel.now.objects) (object_row kernel.now)) }
    ensures waits { IfOk result (All (λ (r : ObjectRow). IsNumbers r.waits)) }
{
    let mut rows = Vec::new(alloc);
    for o in 0..SLOTS {
        put_some(&mut rows, kernel.object_row(alloc, ObjNo::new(o))?)?;
    }
    Ok(Rows::new(rows))
}

/// The row of a device.
#[tactic(auto, unfolding(crate::specs::Report::device_row))]
fn device_row(board: &Board, devices: &Devices, d: DevNo) -> Result<DeviceRow, NoMemory>
    requires board { d < length board.now.devices }
    requires row { d < length devices.now }
    ensures { IfOk result (λ row. row ≡ device_row board.now devices.now d) }
{
    let device = devices.row(d);
    Ok(DeviceRow {
        device: d.number(),
        name: board.devices.items()[d.number() as usize].name.clone()?,
        taken: device.taken,
        last: u32::from(device.last.number()),
    })
}

/// A row for each device.
#[tactic(auto, using(crate::proofs::Lists::rows_below_none, crate::proofs::Lists::rows_below_more))]
pub(crate) fn device_rows(
    alloc: Global,
    board: &Board,
    devices: &Devices,
) -> Result<DeviceRows, NoMemory>
    requires few { length devices.now ≤ device_limit }
    requires board { length devices.now ≡ length board.now.devices }
    ensures { IfOk result (λ rows. rows
        ≡ rows_below (length devices.now) (device_row board.now devices.now)) }
{
    let mut rows = Vec::new(alloc);
    for d in 0..devices.len() {
        put(&mut rows, device_row(board, devices, DevNo::new(d as u8))?)?;
    }
    Ok(Rows::new(rows))
}
