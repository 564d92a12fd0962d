ghost use Rattle.std.specs.Prelude.{◌≡◌, IfOk, IsTrue};
ghost use Rattle.ante_pack.specs.Names as names;
ghost use Rattle.ante_types.specs.Labels.{is_label};

use ante_pack::{Bytes, Name, name_text};
use std::alloc::{AllocError, Global};
use std::marker::Model;

/// A text that a failure names, as an intrinsic, a field or a kind of trap: printable ASCII without quotes and
/// backslashes.
#[derive(Debug, Drop)]
pub struct Label {
    text: Bytes,
}

impl Model for Label {
    ghost use Rattle.std.specs.Prelude.{ℕ, List, IsTrue};
    ghost use Rattle.ante_types.specs.Labels.{is_label};

    ghost Value = { List ℕ };

    ghost view = { λ l. l.text };

    ghost invariant = { λ l. IsTrue (is_label l.text) };
}

impl Label {
    /// A label of a text that is printable ASCII without quotes and backslashes.
    pub fn new(alloc: Global, text: &[u8]) -> Result<Label, AllocError>
        requires { IsTrue (is_label text.now) }
        ensures { IfOk result (λ label. label ≡ text.now) }
    {
        let text = Bytes::from_slice(alloc, text)?;
        Ok(Label { text })
    }

    /// The text of a name.
    #[tactic(auto, using(crate::proofs::Labels::name_is_label))]
    pub fn of_name(alloc: Global, name: Name) -> Result<Label, AllocError>
        ensures { IfOk result (λ label. label ≡ names.name_text name.0) }
    {
        let (text, len) = name_text(name);
        let (front, _) = text.split_at(len);
        let text = Bytes::from_slice(alloc, front)?;
        Ok(Label { text })
    }

    /// The text.
    pub fn as_slice(&self) -> &[u8]
        ensures text { result.now ≡ self.now }
        ensures is_label { IsTrue (is_label self.now) }
    {
        self.text.as_slice()
    }
}
