//! Why an image is refused: the rule that it breaks, with the number that breaks it.
//!
//! It has the name and the numbers for a printed line; the line is made elsewhere. No image is read
//! here.

ghost use Rattle.std.specs.Prelude.{◌≡◌};
ghost use Rattle.module_preamble.specs.Refusal.{name_of, number_of, word_of};

/// The first rule that an image breaks, with the word that breaks it. Where a rule is about several
/// words, the first number says which of them it is.
#[derive(Clone, Copy, Debug, PartialEq, Eq)]
pub enum PreErr {
    /// The image has the given number of bytes, which are fewer than a preamble has.
    Short(u32),
    /// The id is another.
    BadId(u32),
    /// The major version isn't known.
    BadMajor(u32),
    /// The preamble has another size.
    BadSize(u32),
    /// User mode or memory protection is missing.
    BadProps(u32),
    /// The code size isn't the image's, or no whole number of words.
    BadCode(u32),
    /// The data is too large.
    BadData(u32),
    /// An entry isn't in the code: the shell's (0), start's (1), stop's (2) or the callback's (3).
    BadEntry(u8, u32),
    /// A priority is too large: that of start and stop (0) or of the callback thread (1).
    BadPrio(u8, u32),
    /// A stack is too small or too large: that of start and stop (0) or of the callback thread (1).
    BadStack(u8, u32),
}

impl PreErr {
    /// The name of the rule.
    pub fn name(&self) -> &'static str
        ensures { result.now ≡ name_of self.now }
    {
        match self {
            PreErr::Short(_) => "Short",
            PreErr::BadId(_) => "BadId",
            PreErr::BadMajor(_) => "BadMajor",
            PreErr::BadSize(_) => "BadSize",
            PreErr::BadProps(_) => "BadProps",
            PreErr::BadCode(_) => "BadCode",
            PreErr::BadData(_) => "BadData",
            PreErr::BadEntry(..) => "BadEntry",
            PreErr::BadPrio(..) => "BadPrio",
            PreErr::BadStack(..) => "BadStack",
        }
    }

    /// The length of a short image, or the number of the word where a rule is about several.
    pub fn number(&self) -> Option<u32>
        ensures { result ≡ number_of self.now }
    {
        match *self {
            PreErr::Short(len) => Some(len),
            PreErr::BadEntry(which, _) | PreErr::BadPrio(which, _) | PreErr::BadStack(which, _) => {
                Some(u32::from(which))
            }
            _ => None,
        }
    }

    /// The word that breaks the rule: none for a short image.
    pub fn word(&self) -> Option<u32>
        ensures { result ≡ word_of self.now }
    {
        match *self {
            PreErr::Short(_) => None,
            PreErr::BadId(w)
            | PreErr::BadMajor(w)
            | PreErr::BadSize(w)
            | PreErr::BadProps(w)
            | PreErr::BadCode(w)
            | PreErr::BadData(w)
            | PreErr::BadEntry(_, w)
            | PreErr::BadPrio(_, w)
            | PreErr::BadStack(_, w) => Some(w),
        }
    }
}
