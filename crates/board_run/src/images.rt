//! The images of modules, which contracts see as lists of bytes, and their preambles.
//!
//! An image is read no further than its preamble, and no file is opened here.
ghost use Rattle.std.specs.Prelude.{◌≡◌, IfOk};
ghost use Rattle.module_preamble.specs.Preamble.{preamble, IsAccepted};
ghost use Rattle.board_run.specs.Refused.{refused_image};

use crate::refusal::{Refusal, Stop};
use module_preamble::Preamble;
use std::marker::Model;

/// Images, in the order of their modules.
#[derive(Drop)]
pub struct Images {
    items: Vec<Vec<u8>>,
}

impl Model for Images {
    ghost use Rattle.std.specs.Prelude.{ℕ, List, map};

    ghost Value = { List (List ℕ) };

    ghost view = { λ i. map (λ v. v.items) i.items.items };
}

impl Images {
    ghost use Rattle.std.specs.Prelude.{◌≡◌, map};

    /// The images with these bytes.
    pub fn new(items: Vec<Vec<u8>>) -> Images
        ensures { result ≡ map (λ v. v.items) items.items }
    {
        Images { items }
    }

    /// Their bytes.
    pub fn as_slice(&self) -> &[Vec<u8>]
        ensures { map (λ v. v.items) result.now ≡ self.now }
    {
        &self.items
    }
}

/// The preamble of the image of a number, or its refusal.
pub fn preamble_of(number: u8, image: &[u8]) -> Result<Preamble, Stop>
    ensures preamble { result ≡ refused_image number (preamble image.now) }
    ensures accepted { IfOk result (λ p. IsAccepted image.now p) }
{
    match module_preamble::read(image) {
        Ok(p) => Ok(p),
        Err(err) => Err(Stop::Refused(Refusal::Image(number, err))),
    }
}
