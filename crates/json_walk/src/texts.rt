//! Texts, and the names of templates. Where memory is wanting, also for the place in a fault, the fault is Memory.
ghost use Rattle.std.specs.Prelude.{◌≡◌, ◌<◌, option_map};
ghost use Rattle.serde_json.specs.View.{view};
ghost use Rattle.ledger_terms.specs.Answers.{Follows};
ghost use Rattle.json_walk.specs.Texts.{text_of, parts_round, template_of, template_in};

use crate::limits::TEXT_BYTES;
use crate::members::member;
use crate::place::Place;
use crate::scalar::{check_limit, shape};
use crate::walk_fault::WalkFault;
use ledger_terms::{Name, TemplateName, Text};
use serde_json::Value;
use std::alloc::Global;

/// A copy of `text` in memory of its own, which `alloc` gives; the fault Limit at the place `at` where it has more than 256 bytes.
#[tactic(auto, unfolding(crate::specs::Texts::text_of))]
pub fn read_text(alloc: Global, text: &str, at: &Place) -> Result<Text, WalkFault>
    ensures { Follows WalkFault.Memory result (text_of at.now text.now) }
{
    check_limit(at, TEXT_BYTES, text.len() as u64)?;
    Ok(Text::of(alloc, text)?)
}

/// What stands before and behind the first `mark`, an ASCII character, in a text; None where the text has no such character.
pub fn parts_round(text: &str, mark: char) -> Option<(&str, &str)>
    requires { mark < 128 }
    ensures { option_map (λ p. (p.0.now, p.1.now)) result ≡ parts_round mark text.now }
{
    text.split_once(mark)
}

/// The name of a template that the value at the place `at` spells as `Package.Template`; Shape where it is no text, has no dot, or one of its two
/// parts is no name.
#[tactic(auto, unfolding(crate::specs::Texts::template_of))]
pub fn read_template_name(value: &Value, at: &Place) -> Result<TemplateName, WalkFault>
    ensures { Follows WalkFault.Memory result (template_of at.now (view value.now)) }
{
    let Some(text) = value.as_str() else {
        return shape(at);
    };
    let Some((package, name)) = parts_round(text, '.') else {
        return shape(at);
    };
    let (Some(package), Some(name)) = (Name::read(package), Name::read(name)) else {
        return shape(at);
    };
    Ok(TemplateName { package, name })
}

/// The name of a template in the member `template` of the object at the place `at`: Shape at the object where that member is absent, and at the
/// member where its value is no such name.
#[tactic(auto, unfolding(crate::specs::Texts::template_in))]
pub fn template_in(value: &Value, at: &Place) -> Result<TemplateName, WalkFault>
    ensures { Follows WalkFault.Memory result (template_in at.now (view value.now)) }
{
    let found = member(value, at, "template")?;
    read_template_name(found, &at.member("template"))
}
