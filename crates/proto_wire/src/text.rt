//! Texts.
ghost use Rattle.std.specs.Prelude.{◌≡◌, ◌↔◌, ◌++◌, [], length, IsTrue, IsUtf8, IsSome, IfSome, IfOk, OnOk, OnErr};

use crate::{Bytes, Mem, TryClone};
use std::alloc::Global;
use std::marker::Model;

/// A text in UTF-8. Contracts see the list of its bytes, and texts are ordered by them.
#[derive(Drop)]
pub struct Text {
    text: String,
}

impl Model for Text {
    ghost use Rattle.std.specs.Prelude.{ℕ, List};
    ghost use Rattle.std.specs.String.{string_bytes};

    ghost Value = { List ℕ };

    ghost view = { λ t. string_bytes t.text };
}

impl Text {
    /// The empty text. Takes no memory.
    pub fn new(alloc: Global) -> Text
        ensures { result ≡ [] }
    {
        Text {
            text: String::new(alloc),
        }
    }

    /// The text that the bytes are; they are moved in. `None` exactly where they are not UTF-8. Takes no memory.
    pub fn of(bytes: Bytes) -> Option<Text>
        ensures found { IsSome result ↔ IsUtf8 bytes }
        ensures value { IfSome result (λ text. text ≡ bytes) }
    {
        let text = String::from_utf8(bytes.into_vec()).ok()?;
        let _utf8 = text.as_str();
        Some(Text { text })
    }

    /// A copy of a text.
    pub fn copy_of(alloc: Global, text: &str) -> Mem<Text>
        ensures { IfOk result (λ copy. copy ≡ text.now) }
    {
        Ok(Text {
            text: String::from_str(alloc, text)?,
        })
    }

    /// The text, lent.
    pub fn as_str(&self) -> &str
        ensures { result.now ≡ self.now }
    {
        self.text.as_str()
    }

    /// Its bytes, lent.
    pub fn as_bytes(&self) -> &[u8]
        ensures value { result.now ≡ self.now }
        ensures utf8 { IsUtf8 self.now }
    {
        self.text.as_str().as_bytes()
    }

    /// Gives the bytes back.
    pub fn into_bytes(self) -> Bytes
        ensures { result ≡ self }
    {
        Bytes::of(self.text.into_bytes())
    }

    /// How many bytes it has.
    pub fn len(&self) -> usize
        ensures { result ≡ length self.now }
    {
        self.text.len()
    }

    /// Adds a text at the end. An `Err` changes nothing.
    pub fn append(&mut self, text: &str) -> Mem<()>
        ensures ok { OnOk result (self.new ≡ self.old ++ text.now) }
        ensures err { OnErr result (self.new ≡ self.old) }
    {
        self.text.push_str(text)?;
        Ok(())
    }

    /// Whether it has none.
    pub fn is_empty(&self) -> bool
        ensures { IsTrue result ↔ (self.now ≡ []) }
    {
        self.text.as_str().is_empty()
    }
}

impl TryClone for Text {
    fn try_clone(&self, alloc: Global) -> Mem<Text> {
        Text::copy_of(alloc, self.as_str())
    }
}
