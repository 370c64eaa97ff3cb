//! Plain values of a whole board: the number of a device, and the rows of a report.
#![tactic(auto)]

mod device;
mod report;

pub use device::DevNo;
pub use report::{
    DeviceRow, DeviceRows, FaultRow, ModuleRow, ModuleRows, Nums, ObjectRow, ObjectRows, Report,
    Rows, ShowCells, ShowRow, ShowRows, ThreadRow, ThreadRows, Words,
};
