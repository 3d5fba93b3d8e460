//! A picture that grows.
ghost use Rattle.std.specs.Prelude.{◌≡◌, ◌++◌, OnOk, IfOk, codes};
ghost use Rattle.svg_text.specs.Elements.{text_element, titled_text_element, line_element, arrow_element, rectangle_element};
ghost use Rattle.svg_text.specs.Elements.{circle_element, mark_element, group_start, title_element};
ghost use Rattle.svg_text.specs.Opening.{opening};

use crate::attributes::{put_attribute, put_class, put_ends};
use crate::elements::{
    put_label_start, put_opening, put_outline, put_paint, put_round, put_shift, put_tip, put_title,
};
use crate::escape::put_escaped;
use crate::frame::Frame;
use crate::label::Label;
use crate::mark::Mark;
use crate::paint::Paint;
use crate::point::Point;
use crate::size::Size;
use crate::stroke::Stroke;
use ledger_terms::Text;
use std::alloc::{AllocError, Global};
use std::marker::Model;

/// A picture that was begun, which contracts see as the bytes so far. What is drawn later covers what was drawn before. Where a
/// call finds no memory, a part of its element may stand there, and the picture is of no use.
#[derive(Drop)]
pub struct Svg {
    out: String,
}

impl Model for Svg {
    ghost use Rattle.std.specs.Prelude.{List, ℕ, string_bytes};

    ghost Value = { List ℕ };

    ghost view = { λ s. string_bytes s.out };
}

impl Svg {
    /// Begins a picture of this size, with a title and a description for those who don't see it. A page of the style sheet's colour lies under all
    /// that is drawn.
    pub fn new(alloc: Global, size: Size, title: &str, description: &str) -> Result<Svg, AllocError>
        ensures { IfOk result (λ svg. svg ≡ opening size title.now description.now) }
    {
        let mut out = String::new(alloc);
        put_opening(&mut out, size, title, description)?;
        Ok(Svg { out })
    }

    /// Ends the picture and gives it as an SVG text. Each group that was begun has to be ended before.
    pub fn finish(self) -> Result<Text, AllocError>
        ensures { IfOk result (λ text. text ≡ self ++ codes "</svg>\n") }
    {
        let Svg { mut out } = self;
        out.push_str("</svg>\n")?;
        Ok(Text::of_string(out))
    }

    /// Begins a group, which has what is drawn up to its `end_group`. The class is one of the style sheet, or a word by which others find the group
    /// in the text.
    pub fn begin_group(&mut self, class: &str) -> Result<(), AllocError>
        ensures { OnOk result (self.new ≡ self.old ++ group_start class.now ++ codes "\n") }
    {
        self.out.push_str("<g")?;
        put_attribute(&mut self.out, "class", class)?;
        self.out.push_str(">\n")
    }

    /// Begins a group, which has what is drawn up to its `end_group`, with a class and with a title, which readers show when the pointer rests on it.
    pub fn begin_titled_group(&mut self, class: &str, title: &str) -> Result<(), AllocError>
        ensures { OnOk result (self.new ≡ self.old ++ group_start class.now ++ title_element title.now ++ codes "\n") }
    {
        self.out.push_str("<g")?;
        put_attribute(&mut self.out, "class", class)?;
        self.out.push_str(">")?;
        put_title(&mut self.out, title)?;
        self.out.push_str("\n")
    }

    /// Ends the group that was begun last.
    pub fn end_group(&mut self) -> Result<(), AllocError>
        ensures { OnOk result (self.new ≡ self.old ++ codes "</g>\n") }
    {
        self.out.push_str("</g>\n")
    }

    /// Draws the words as one line of text, where and how the label says. They are escaped.
    pub fn text(&mut self, label: &Label, words: &str) -> Result<(), AllocError>
        ensures { OnOk result (self.new ≡ self.old ++ text_element label.now words.now) }
    {
        put_label_start(&mut self.out, label)?;
        put_escaped(&mut self.out, words)?;
        self.out.push_str("</text>\n")
    }

    /// Draws the words as one line of text that stands for a longer one, as where it was cut. `whole` is the longer one and becomes the title of the
    /// element.
    pub fn titled_text(&mut self, label: &Label, words: &str, whole: &str) -> Result<(), AllocError>
        ensures { OnOk result (self.new ≡ self.old ++ titled_text_element label.now words.now whole.now) }
    {
        put_label_start(&mut self.out, label)?;
        put_escaped(&mut self.out, words)?;
        put_title(&mut self.out, whole)?;
        self.out.push_str("</text>\n")
    }

    /// Draws a line from one point to the other, with the tone and the dash of the stroke.
    pub fn line(&mut self, from: Point, to: Point, stroke: Stroke) -> Result<(), AllocError>
        ensures { OnOk result (self.new ≡ self.old ++ line_element from to stroke) }
    {
        self.out.push_str("<line")?;
        put_ends(&mut self.out, from, to)?;
        put_class(&mut self.out, stroke.tone.word(), stroke.dash.word())?;
        self.out.push_str("/>\n")
    }

    /// Draws an arrow, whose tip is at `to`, with the tone and the dash of the stroke. In the tone of paper it has no tip.
    pub fn arrow(&mut self, from: Point, to: Point, stroke: Stroke) -> Result<(), AllocError>
        ensures { OnOk result (self.new ≡ self.old ++ arrow_element from to stroke) }
    {
        self.out.push_str("<line")?;
        put_ends(&mut self.out, from, to)?;
        put_class(&mut self.out, stroke.tone.word(), stroke.dash.word())?;
        put_tip(&mut self.out, stroke.tone.word())?;
        self.out.push_str("/>\n")
    }

    /// Draws a rectangle; `paint` gives the tone of its edge and its fill.
    pub fn rectangle(&mut self, frame: Frame, paint: Paint) -> Result<(), AllocError>
        ensures { OnOk result (self.new ≡ self.old ++ rectangle_element frame paint) }
    {
        self.out.push_str("<rect")?;
        put_outline(&mut self.out, frame)?;
        put_paint(&mut self.out, paint)?;
        self.out.push_str("/>\n")
    }

    /// Draws a circle round the point `at`; `paint` gives the tone of its edge and its fill.
    pub fn circle(&mut self, at: Point, radius: u32, paint: Paint) -> Result<(), AllocError>
        ensures { OnOk result (self.new ≡ self.old ++ circle_element at radius paint) }
    {
        self.out.push_str("<circle")?;
        put_round(&mut self.out, at, radius)?;
        put_paint(&mut self.out, paint)?;
        self.out.push_str("/>\n")
    }

    /// Draws a mark round the point `at`, in the tone that the mark has.
    pub fn mark(&mut self, at: Point, mark: Mark) -> Result<(), AllocError>
        ensures { OnOk result (self.new ≡ self.old ++ mark_element at mark) }
    {
        self.out.push_str("<path")?;
        put_shift(&mut self.out, at)?;
        put_attribute(&mut self.out, "d", mark.path())?;
        put_class(&mut self.out, mark.tone().word(), "mark")?;
        self.out.push_str("/>\n")
    }
}
