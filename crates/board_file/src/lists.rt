//! The lists of a board, which contracts see as lists.
//!
//! Each is made of a `Vec` and gives it back without taking memory.
use crate::board::{BoardDevice, BoardModule, BoardShare, BoardShow};
use std::marker::Model;

/// The modules of a board, in their order.
#[derive(Clone, Drop)]
pub struct BoardModules {
    items: Vec<BoardModule>,
}

impl Model for BoardModules {
    ghost use Rattle.std.specs.Prelude.{List};
    ghost use Rattle.board_file.specs.declared.board.BoardModule.{BoardModule};

    ghost Value = { List BoardModule };

    ghost view = { λ l. l.items.items };
}

impl BoardModules {
    ghost use Rattle.std.specs.Prelude.{◌≡◌};

    /// The list of these items.
    pub fn new(items: Vec<BoardModule>) -> BoardModules
        ensures { result ≡ items.items }
    {
        BoardModules { items }
    }

    /// Its items.
    pub fn items(&self) -> &[BoardModule]
        ensures { result.now ≡ self.now }
    {
        &self.items
    }

    /// The `Vec` of its items.
    pub fn into_vec(self) -> Vec<BoardModule>
        ensures { result.items ≡ self }
    {
        self.items
    }
}

/// The shared ranges of a board, in their order.
#[derive(Clone, Drop)]
pub struct BoardShares {
    items: Vec<BoardShare>,
}

impl Model for BoardShares {
    ghost use Rattle.std.specs.Prelude.{List};
    ghost use Rattle.board_file.specs.declared.board.BoardShare.{BoardShare};

    ghost Value = { List BoardShare };

    ghost view = { λ l. l.items.items };
}

impl BoardShares {
    ghost use Rattle.std.specs.Prelude.{◌≡◌};

    /// The list of these items.
    pub fn new(items: Vec<BoardShare>) -> BoardShares
        ensures { result ≡ items.items }
    {
        BoardShares { items }
    }

    /// Its items.
    pub fn items(&self) -> &[BoardShare]
        ensures { result.now ≡ self.now }
    {
        &self.items
    }

    /// The `Vec` of its items.
    pub fn into_vec(self) -> Vec<BoardShare>
        ensures { result.items ≡ self }
    {
        self.items
    }
}

/// The devices of a board, in their order.
#[derive(Clone, Drop)]
pub struct BoardDevices {
    items: Vec<BoardDevice>,
}

impl Model for BoardDevices {
    ghost use Rattle.std.specs.Prelude.{List};
    ghost use Rattle.board_file.specs.declared.board.BoardDevice.{BoardDevice};

    ghost Value = { List BoardDevice };

    ghost view = { λ l. l.items.items };
}

impl BoardDevices {
    ghost use Rattle.std.specs.Prelude.{◌≡◌};

    /// The list of these items.
    pub fn new(items: Vec<BoardDevice>) -> BoardDevices
        ensures { result ≡ items.items }
    {
        BoardDevices { items }
    }

    /// Its items.
    pub fn items(&self) -> &[BoardDevice]
        ensures { result.now ≡ self.now }
    {
        &self.items
    }

    /// The `Vec` of its items.
    pub fn into_vec(self) -> Vec<BoardDevice>
        ensures { result.items ≡ self }
    {
        self.items
    }
}

/// What a report shows of the modules' data, in order.
#[derive(Clone, Drop)]
pub struct BoardShows {
    items: Vec<BoardShow>,
}

impl Model for BoardShows {
    ghost use Rattle.std.specs.Prelude.{List};
    ghost use Rattle.board_file.specs.declared.board.BoardShow.{BoardShow};

    ghost Value = { List BoardShow };

    ghost view = { λ l. l.items.items };
}

impl BoardShows {
    ghost use Rattle.std.specs.Prelude.{◌≡◌};

    /// The list of these items.
    pub fn new(items: Vec<BoardShow>) -> BoardShows
        ensures { result ≡ items.items }
    {
        BoardShows { items }
    }

    /// Its items.
    pub fn items(&self) -> &[BoardShow]
        ensures { result.now ≡ self.now }
    {
        &self.items
    }

    /// The `Vec` of its items.
    pub fn into_vec(self) -> Vec<BoardShow>
        ensures { result.items ≡ self }
    {
        self.items
    }
}

/// The words of a device's script, in order.
#[derive(Clone, Drop)]
pub struct Script {
    items: Vec<u32>,
}

impl Model for Script {
    ghost use Rattle.std.specs.Prelude.{ℕ, List};

    ghost Value = { List ℕ };

    ghost view = { λ l. l.items.items };
}

impl Script {
    ghost use Rattle.std.specs.Prelude.{◌≡◌};

    /// The list of these items.
    pub fn new(items: Vec<u32>) -> Script
        ensures { result ≡ items.items }
    {
        Script { items }
    }

    /// Its items.
    pub fn items(&self) -> &[u32]
        ensures { result.now ≡ self.now }
    {
        &self.items
    }

    /// The `Vec` of its items.
    pub fn into_vec(self) -> Vec<u32>
        ensures { result.items ≡ self }
    {
        self.items
    }
}
