//! A board as plain data: what its file says.
//!
//! The rules of the format are checked where a file is read, not here. An image is named by its
//! path; no image is read, and no module has a place.
use crate::lists::{BoardDevices, BoardModules, BoardShares, BoardShows, Script};
use crate::text::PathText;
use tx_types::{ModNo, Name};

/// What a board file says: how many bytes of RAM, how many steps, and the lists of its parts.
#[derive(Clone, Drop)]
pub struct Board {
    pub ram: u32,
    pub steps: u32,
    pub modules: BoardModules,
    pub shares: BoardShares,
    pub devices: BoardDevices,
    pub shows: BoardShows,
}

impl Board {
    ghost use Rattle.std.specs.Prelude.{◌≡◌, ◌^◌, ◌<◌};
    ghost use Rattle.board_file.specs.Board.{script_words};

    /// How many words the scripts of its devices have together.
    pub fn words(&self) -> u32
        requires { script_words self.now.devices < 2 ^ 32 }
        ensures { result ≡ script_words self.now.devices }
    {
        let mut words = 0;
        for device in self.devices.items() {
            words += device.script.items().len() as u32;
        }
        words
    }
}

/// A module: its name, the file of its image, and whether it is started at once.
#[derive(Clone, Drop)]
pub struct BoardModule {
    pub name: Name,
    pub image: PathText,
    pub start: bool,
}

/// The `size` addresses from `base` on, shared by the modules whose bits are set in `who`.
#[derive(Clone, Drop)]
pub struct BoardShare {
    pub base: u32,
    pub size: u32,
    pub write: bool,
    pub who: u16,
}

/// A device: what an interrupt of it does, to what, and the words that it raises.
#[derive(Clone, Drop)]
pub struct BoardDevice {
    pub name: Name,
    pub action: Action,
    pub target: Name,
    pub script: Script,
}

/// Words of a module's data that the report shows, from an offset on.
#[derive(Clone, Drop)]
pub struct BoardShow {
    pub module: ModNo,
    pub offset: u32,
    pub words: u32,
}

/// What an interrupt of a device does.
#[derive(Clone, Copy, Debug, PartialEq, Eq)]
pub enum Action {
    /// Advances the clock.
    Tick,
    /// Puts to a semaphore.
    Put,
    /// Sets event flags.
    Set,
    /// Sends to a queue.
    Send,
    /// Resumes a thread.
    Resume,
    /// Starts a module.
    Start,
    /// Stops a module.
    Stop,
}
