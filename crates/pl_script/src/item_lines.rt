// The lines of the bookmark tree.
ghost use Rattle.std.specs.Prelude.{IfOk};
ghost use Rattle.pl_step.specs.Commands.{HasDates};
ghost use Rattle.pl_script.specs.LineError.{ReadsAs, ReadsInPlace};
ghost use Rattle.pl_script.specs.Script as spec;

use crate::fields::Fields;
use crate::lines::{LineError, in_range};
use pl_link::Canon;
use pl_step::Command;
use std::alloc::Global;

pub fn folder_line(alloc: Global, mut fields: Fields<'_>) -> Result<Command, LineError>
    ensures command { ReadsAs (λ command. command) result (spec.folder_line fields.entry) }
    ensures dates { IfOk result HasDates }
{
    let parent = fields.item_id()?;
    let place = fields.place()?;
    let title = fields.text(alloc)?;
    let date = fields.date()?;
    fields.end()?;
    let date = in_range(date)?;
    Ok(Command::Folder {
        parent,
        place,
        title,
        date,
    })
}

pub fn bookmark_line(alloc: Global, mut fields: Fields<'_>) -> Result<Command, LineError>
    ensures command { ReadsAs (λ command. command) result (spec.bookmark_line fields.entry) }
    ensures dates { IfOk result HasDates }
{
    let parent = fields.item_id()?;
    let place = fields.place()?;
    let address = fields.text(alloc)?;
    let title = fields.text(alloc)?;
    let date = fields.date()?;
    fields.end()?;
    let date = in_range(date)?;
    let url = Canon::read(alloc, address.as_str())?;
    Ok(Command::Bookmark {
        parent,
        place,
        url,
        title,
        date,
    })
}

pub fn separator_line(mut fields: Fields<'_>) -> Result<Command, LineError>
    ensures command { ReadsInPlace (λ command. command) result
        (spec.separator_line fields.entry) }
    ensures dates { IfOk result HasDates }
{
    let parent = fields.item_id()?;
    let place = fields.place()?;
    let date = fields.date()?;
    fields.end()?;
    let date = in_range(date)?;
    Ok(Command::Separator {
        parent,
        place,
        date,
    })
}

pub fn move_line(mut fields: Fields<'_>) -> Result<Command, LineError>
    ensures command { ReadsInPlace (λ command. command) result (spec.move_line fields.entry) }
    ensures dates { IfOk result HasDates }
{
    let item = fields.item_id()?;
    let parent = fields.item_id()?;
    let place = fields.place()?;
    let date = fields.date()?;
    fields.end()?;
    let date = in_range(date)?;
    Ok(Command::Move {
        item,
        parent,
        place,
        date,
    })
}

pub fn retitle_line(alloc: Global, mut fields: Fields<'_>) -> Result<Command, LineError>
    ensures command { ReadsAs (λ command. command) result (spec.retitle_line fields.entry) }
    ensures dates { IfOk result HasDates }
{
    let item = fields.item_id()?;
    let title = fields.text(alloc)?;
    let date = fields.date()?;
    fields.end()?;
    let date = in_range(date)?;
    Ok(Command::Retitle { item, title, date })
}

pub fn remove_line(mut fields: Fields<'_>) -> Result<Command, LineError>
    ensures command { ReadsInPlace (λ command. command) result (spec.remove_line fields.entry) }
    ensures dates { IfOk result HasDates }
{
    let item = fields.item_id()?;
    fields.end()?;
    Ok(Command::Remove { item })
}

pub fn list_line(mut fields: Fields<'_>) -> Result<Command, LineError>
    ensures command { ReadsInPlace (λ command. command) result (spec.list_line fields.entry) }
    ensures dates { IfOk result HasDates }
{
    let item = fields.item_id()?;
    fields.end()?;
    Ok(Command::List { item })
}
