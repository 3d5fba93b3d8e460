//! A page that grows.
ghost use Rattle.std.specs.Prelude.{◌≡◌, ◌++◌, OnOk, decimal};
ghost use Rattle.svg_text.specs.Escape.{escaped};

use crate::stay::Stay;
use ledger_terms::{Path, Text};
use report_text::{put_number, put_path};
use std::alloc::{AllocError, Global};
use std::marker::Model;
use svg_text::{drawable, put_escaped};

/// A page that was begun, which contracts see as the bytes so far. It is HTML in the form of XML, so that readers of both take it.
#[derive(Drop)]
pub struct Html {
    out: String,
}

impl Model for Html {
    ghost use Rattle.std.specs.Prelude.{List, ℕ, string_bytes};

    ghost Value = { List ℕ };

    ghost view = { λ h. string_bytes h.out };
}

impl Html {
    /// A page on which nothing stands yet.
    pub(crate) fn new(alloc: Global) -> Html {
        Html {
            out: String::new(alloc),
        }
    }

    /// Puts markup, which stands in this program and isn't escaped.
    pub(crate) fn markup(&mut self, markup: &'static str) -> Result<(), AllocError>
        ensures { OnOk result (self.new ≡ self.old ++ markup.now) }
    {
        self.out.push_str(markup)
    }

    /// Puts a text from outside, escaped.
    pub(crate) fn text(&mut self, text: &str) -> Result<(), AllocError>
        ensures { OnOk result (self.new ≡ self.old ++ escaped text.now) }
    {
        put_escaped(&mut self.out, text)
    }

    /// Puts a number, in decimal.
    pub(crate) fn number(&mut self, number: u64) -> Result<(), AllocError>
        ensures { OnOk result (self.new ≡ self.old ++ decimal number) }
    {
        put_number(&mut self.out, number)
    }

    /// Puts a path, which is made of digits and points.
    pub(crate) fn path(&mut self, path: &Path) -> Result<(), AllocError> {
        put_path(&mut self.out, path)
    }

    /// Puts a picture, which is markup and isn't escaped.
    pub(crate) fn picture(&mut self, picture: &Text) -> Result<(), AllocError> {
        self.out.push_str(picture.as_str())
    }

    /// Begins an element with this name that is seen only while the reader is at one of the places of `stay`. The page is written as it is seen at
    /// its last place, `last`, and stays so where the script doesn't run.
    pub(crate) fn begin_at(
        &mut self,
        name: &'static str,
        stay: Stay,
        last: u64,
    ) -> Result<(), AllocError> {
        self.out.push_str("<")?;
        self.out.push_str(name)?;
        self.out.push_str(" data-f=\"")?;
        put_number(&mut self.out, stay.from)?;
        self.out.push_str("\" data-t=\"")?;
        put_number(&mut self.out, stay.to)?;
        self.out.push_str("\"")?;
        if !stay.has(last) {
            self.out.push_str(" hidden=\"\"")?;
        }
        self.out.push_str(">")
    }

    /// The whole page as text, with U+FFFD for each character that XML hasn't.
    pub(crate) fn finish(self, alloc: Global) -> Result<Text, AllocError> {
        let Html { out } = self;
        Ok(Text::of_string(drawable(alloc, out.as_str())?))
    }
}
