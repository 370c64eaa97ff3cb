//! Text of the board file, which contracts see as its bytes.
//!
//! A text is given back as it came; nothing here looks into it.
use std::marker::Model;

/// A text of the board file.
#[derive(Clone, Debug, Drop)]
pub struct Text {
    text: String,
}

/// The path of an image file, as the board file gives it.
pub type PathText = Text;

/// The path of a field of the board file, as `module[2].name`.
pub type Path = Text;

impl Model for Text {
    ghost use Rattle.std.specs.Prelude.{ℕ, List, string_bytes};

    ghost Value = { List ℕ };

    ghost view = { λ t. string_bytes t.text };
}

impl Text {
    ghost use Rattle.std.specs.Prelude.{◌≡◌, string_bytes};

    /// The text of a `String`.
    pub fn new(text: String) -> Text
        ensures { result ≡ string_bytes text }
    {
        Text { text }
    }

    /// Its text.
    pub fn as_str(&self) -> &str
        ensures { result.now ≡ self.now }
    {
        self.text.as_str()
    }

    /// The `String` of its text.
    pub fn into_string(self) -> String
        ensures { string_bytes result ≡ self }
    {
        self.text
    }
}
