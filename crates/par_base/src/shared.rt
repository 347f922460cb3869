//! A text that its copies share.
ghost use Rattle.std.specs.Prelude.{◌≡◌, length, IfOk};

use crate::inline::{INLINE_LIMIT, InlineText};
use crate::{Memory, Text};
use std::alloc::Global;
use std::marker::Model;
use std::rc::Rc;

/// Where the characters of a text lie.
#[derive(Drop)]
enum Characters {
    /// In the value itself.
    Inline(InlineText),
    /// In memory of their own, with the count of the copies.
    Shared(Rc<Text>),
}

/// A text of a row. It never changes, and copies share it: one of at most 14 bytes takes no memory
/// but the value's, and of a longer one the characters lie in memory once.
#[derive(Drop)]
pub struct SharedText {
    characters: Characters,
}

impl Model for SharedText {
    ghost use Rattle.std.specs.Prelude.{List, ℕ};
    ghost use Rattle.par_base.specs.inner.SharedTexts.{characters_view};

    ghost Value = { List ℕ };

    ghost view = { λ shared. characters_view shared.characters };
}

impl SharedText {
    /// The text, to be shared. Where it is long, that takes memory for the count of its copies.
    pub fn from_text(alloc: Global, text: Text) -> Result<SharedText, Memory>
        ensures { IfOk result (λ made. made ≡ text) }
    {
        let characters = if text.len() <= INLINE_LIMIT {
            Characters::Inline(InlineText::new(text.as_str()))
        } else {
            Characters::Shared(Rc::new(alloc, text)?)
        };
        Ok(SharedText { characters })
    }

    /// The text of these characters, to be shared.
    pub fn from_str(alloc: Global, text: &str) -> Result<SharedText, Memory>
        ensures { IfOk result (λ made. made ≡ text.now) }
    {
        let characters = if text.len() <= INLINE_LIMIT {
            Characters::Inline(InlineText::new(text))
        } else {
            Characters::Shared(Rc::new(alloc, Text::from_str(alloc, text)?)?)
        };
        Ok(SharedText { characters })
    }

    /// The number of bytes.
    pub fn len(&self) -> usize
        ensures { result ≡ length self.now }
    {
        self.as_str().len()
    }

    /// The characters of the text.
    pub fn as_str(&self) -> &str
        ensures { result.now ≡ self.now }
    {
        match &self.characters {
            Characters::Inline(text) => text.as_str(),
            Characters::Shared(text) => text.as_ref().as_str(),
        }
    }

    /// An equal text, which shares the characters. It takes no time for long ones.
    pub fn copy(&self) -> Result<SharedText, Memory>
        ensures { IfOk result (λ made. made ≡ self.now) }
    {
        let characters = match &self.characters {
            Characters::Inline(text) => Characters::Inline(*text),
            Characters::Shared(text) => Characters::Shared(text.clone()?),
        };
        Ok(SharedText { characters })
    }
}
