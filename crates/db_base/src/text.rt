ghost use Rattle.std.specs.Prelude.{◌≡◌, ℕ, List, IfOk, IfErr};

use crate::refusal::Refused;
use std::alloc::Global;
use std::marker::Model;

/// A text that is owned, seen as the bytes of it.
#[derive(Debug)]
pub struct Text {
    text: String,
}

impl Drop for Text {
    fn drop(self) {
        let Text { text: _ } = self;
    }
}

impl Model for Text {
    ghost use Rattle.std.specs.Prelude.{List, ℕ, string_bytes};

    ghost Value = { List ℕ };

    ghost view = { λ t. string_bytes t.text };
}

impl Text {
    /// A copy of the text. Refused for memory alone.
    pub fn new(alloc: Global, text: &str) -> Result<Text, Refused>
        ensures ok { IfOk result (λ t. t ≡ text.now) }
        ensures memory { IfErr result (λ e. e ≡ Refused.Memory) }
    {
        match text.to_string(alloc) {
            Ok(text) => Ok(Text { text }),
            Err(_) => Err(Refused::Memory),
        }
    }

    /// The text.
    pub fn as_str(&self) -> &str
        ensures { result.now ≡ self.now }
    {
        self.text.as_str()
    }
}
