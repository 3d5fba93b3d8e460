//! What a log keeps of an entry.
ghost use Rattle.std.specs.Prelude.{◌≡◌, option_copied};
ghost use Rattle.framed_form.specs.Outlines.{IsOutlined};

use canton_model::Entry;
use framed_form::Outline;
use std::marker::Model;

/// An entry and, where it brings a request, what the mediator's bytes tell, so that they are read once for all. Contracts see the
/// entry.
#[derive(Drop)]
pub struct Stored {
    entry: Entry,
    outline: Option<Outline>,
}

impl Model for Stored {
    ghost use Rattle.canton_model.specs.declared.entry.Entry.{Entry};

    ghost Value = { Entry };

    ghost view = { λ s. s.entry };

    ghost use Rattle.framed_form.specs.Outlines.{IsOutlined};

    ghost invariant = { λ s. IsOutlined s.entry.message s.outline };
}

impl Stored {
    /// Puts an entry and what its mediator's bytes tell together. `outline` is Some where the entry brings a request.
    pub fn new(entry: Entry, outline: Option<Outline>) -> Stored
        requires { IsOutlined entry.message outline }
        ensures { result ≡ entry }
    {
        Stored { entry, outline }
    }

    /// The entry itself, to look at.
    pub fn entry(&self) -> &Entry
        ensures { result.now ≡ self.now }
    {
        &self.entry
    }

    /// What the mediator's bytes tell, where the entry brings a request. Where it brings another message this says nothing.
    pub fn outline(&self) -> Option<&Outline>
        ensures { IsOutlined self.now.message (option_copied result) }
    {
        self.outline.as_ref()
    }

    /// The entry, without what was kept beside it.
    pub fn into_entry(self) -> Entry
        ensures { result ≡ self }
    {
        let Stored { entry, .. } = self;
        entry
    }
}
