// The lines of tags.
ghost use Rattle.std.specs.Prelude.{IfOk};
ghost use Rattle.pl_step.specs.Commands.{HasDates};
ghost use Rattle.pl_script.specs.LineError.{ReadsAs};
ghost use Rattle.pl_script.specs.Script as spec;
ghost use Rattle.pl_script.specs.TagText.{tag_of};

use crate::fields::Fields;
use crate::lines::{LineError, in_range};
use pl_base::Txt;
use pl_link::Canon;
use pl_step::Command;
use pl_words::TagName;
use std::alloc::Global;

pub fn tag_line(alloc: Global, mut fields: Fields<'_>) -> Result<Command, LineError>
    ensures command { ReadsAs (λ command. command) result (spec.tag_line fields.entry) }
    ensures dates { IfOk result HasDates }
{
    let address = fields.text(alloc)?;
    let text = fields.text(alloc)?;
    let date = fields.date()?;
    fields.end()?;
    let date = in_range(date)?;
    let url = Canon::read(alloc, address.as_str())?;
    let name = tag_name(alloc, &text)?;
    Ok(Command::Tag { url, name, date })
}

pub fn untag_line(alloc: Global, mut fields: Fields<'_>) -> Result<Command, LineError>
    ensures command { ReadsAs (λ command. command) result (spec.untag_line fields.entry) }
    ensures dates { IfOk result HasDates }
{
    let address = fields.text(alloc)?;
    let text = fields.text(alloc)?;
    fields.end()?;
    let url = Canon::read(alloc, address.as_str())?;
    let name = tag_name(alloc, &text)?;
    Ok(Command::Untag { url, name })
}

// The tag that a text names. Blanks at both ends are no part of its name.
fn tag_name(alloc: Global, text: &Txt) -> Result<TagName, LineError>
    ensures { ReadsAs (λ name. name) result (tag_of text.now) }
{
    Ok(TagName::read(alloc, text.as_str())?)
}
