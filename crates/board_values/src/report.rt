//! What a report says, as plain data: the counts, the scheduler, and a row for each thing on the
//! board.
//!
//! The fields of a row stand in the order of the words of its line. Lists are `Rows`, which clauses
//! see as lists.
use std::marker::Model;
use tx_types::{Name, Totals};

/// A list that was collected whole and is only read from then on.
#[derive(Drop)]
pub struct Rows<T> {
    items: Vec<T>,
}

impl<T> Model for Rows<T> {
    ghost use Rattle.std.specs.Prelude.{List};

    ghost Value = { List T };

    ghost view = { λ r. r.items.items };
}

impl<T> Rows<T> {
    ghost use Rattle.std.specs.Prelude.{◌≡◌};

    /// The list of these items.
    pub fn new(items: Vec<T>) -> Rows<T>
        ensures { result ≡ items.items }
    {
        Rows { items }
    }

    /// Its items.
    pub fn as_slice(&self) -> &[T]
        ensures { result.now ≡ self.now }
    {
        self.items.as_slice()
    }
}

/// Numbers of threads or objects.
pub type Nums = Rows<u16>;

/// Words of a register file.
pub type Words = Rows<u32>;

/// Words of memory, none where a module may not read.
pub type ShowCells = Rows<Option<u32>>;

/// A row for each module.
pub type ModuleRows = Rows<ModuleRow>;

/// A row for each thread.
pub type ThreadRows = Rows<ThreadRow>;

/// A row for each object that isn't a thread.
pub type ObjectRows = Rows<ObjectRow>;

/// A row for each device.
pub type DeviceRows = Rows<DeviceRow>;

/// A row for each place in memory that the board asks to see.
pub type ShowRows = Rows<ShowRow>;

/// The instruction at which a module's thread faulted.
#[derive(Clone, Copy, Debug, PartialEq, Eq)]
pub struct FaultRow {
    pub thread: u16,
    pub cause: u32,
    pub pc: u32,
}

/// A module, with the requests that wait for its callback thread and those that were dropped.
#[derive(Drop)]
pub struct ModuleRow {
    pub module: u8,
    pub name: Name,
    pub state: u32,
    pub queued: u32,
    pub dropped: u32,
    pub fault: Option<FaultRow>,
}

/// A thread, with its numbers as its module set them and as they are in effect.
#[derive(Drop)]
pub struct ThreadRow {
    pub thread: u16,
    pub module: u8,
    pub name: Name,
    pub state: u32,
    pub priority: u16,
    pub effective_priority: u16,
    pub threshold: u16,
    pub effective_threshold: u16,
    pub slice: u32,
    pub remaining: u32,
    pub pc: u32,
    /// x1 to x31.
    pub regs: Words,
}

/// An object that isn't a thread, with three numbers by its kind and the threads that wait for it.
#[derive(Drop)]
pub struct ObjectRow {
    pub object: u16,
    pub module: u8,
    pub kind: u32,
    pub name: Name,
    pub a: u32,
    pub b: u32,
    pub c: u32,
    pub waits: Nums,
}

/// A device, with how many interrupts were taken from it and the status of its last action.
#[derive(Drop)]
pub struct DeviceRow {
    pub device: u8,
    pub name: Name,
    pub taken: u32,
    pub last: u32,
}

/// Words of memory that the board asks to see.
#[derive(Drop)]
pub struct ShowRow {
    pub show: u8,
    pub cells: ShowCells,
}

/// The whole state of a board, as it is reported.
#[derive(Drop)]
pub struct Report {
    pub steps: u32,
    pub irqs: u32,
    pub ticks: u32,
    pub clock: u32,
    pub running: Option<u16>,
    pub held: Nums,
    pub ready: Nums,
    pub totals: Totals,
    pub modules: ModuleRows,
    pub threads: ThreadRows,
    pub objects: ObjectRows,
    pub devices: DeviceRows,
    pub shows: ShowRows,
}
