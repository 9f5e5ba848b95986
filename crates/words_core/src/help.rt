//! The texts of help and of the version. Help is made from the rows of the table, so it has what the tools take.
ghost use Rattle.std.specs.Prelude.{◌≡◌, ◌++◌, drop, flat_map, length, map, IfOk, IfErr, codes};
ghost use Rattle.words_core.specs.{
  Help.{after_name, help_of, line, listed, option_line, program_help, text_about, tool_help, tool_line},
  Help.{value_listed, version_of},
  Table.{row_seen, tool_seen},
};

use crate::settings::Topic;
use crate::table::{OptionRow, Takes, ToolRow, all_tools, find_row, program_options};
use ports_core::{Calling, Fault, Tool};
use std::alloc::{AllocError, Global};

/// The version of the program, as the file `VERSION` has it.
const VERSION: &[u8] = b"1.1.0";

/// The blanks that fill an empty text up to the column of what it does.
const BLANKS: &[u8] = b"                              ";

/// A text about a tool; of `Tool::Cutters` it is about the program.
///
/// # Errors
///
/// `Memory` if there is no room for the text.
pub fn text_about(alloc: Global, tool: Tool, topic: Topic) -> Result<Vec<u8>, Fault>
    ensures ok { IfOk result (λ text. text.items ≡ text_about tool topic) }
    ensures err { IfErr result (λ fault. fault ≡ Fault.Memory) }
{
    match topic {
        Topic::Help => Ok(help_of(alloc, tool)?),
        Topic::Version => Ok(version_of(alloc, tool)?),
    }
}

fn version_of(alloc: Global, tool: Tool) -> Result<Vec<u8>, AllocError>
    ensures { IfOk result (λ text. text.items ≡ version_of tool) }
{
    let mut text = Vec::from_slice(alloc, tool.name().as_bytes())?;
    text.extend_from_slice(after_name(tool))?;
    text.extend_from_slice(VERSION)?;
    text.extend_from_slice(b"\n")?;
    Ok(text)
}

/// What stands between a name and the number of its version.
fn after_name(tool: Tool) -> &'static [u8]
    ensures { result.now ≡ after_name tool }
{
    match tool {
        Tool::Cutters => b" ",
        _ => b" (cutters) ",
    }
}

fn help_of(alloc: Global, tool: Tool) -> Result<Vec<u8>, AllocError>
    ensures { IfOk result (λ text. text.items ≡ help_of tool) }
{
    match find_row(all_tools(Calling::Cutters), tool.name()) {
        Some(row) => tool_help(alloc, row),
        None => program_help(alloc),
    }
}

fn tool_help(alloc: Global, row: &ToolRow) -> Result<Vec<u8>, AllocError>
    ensures { IfOk result (λ text. text.items ≡ tool_help (tool_seen row.now)) }
{
    let mut text = Vec::from_slice(alloc, b"Usage: cutters ")?;
    text.extend_from_slice(row.name.as_bytes())?;
    text.extend_from_slice(b" [OPTION]... ")?;
    text.extend_from_slice(row.operands.as_bytes())?;
    text.extend_from_slice(b"\n")?;
    text.extend_from_slice(row.name.as_bytes())?;
    text.extend_from_slice(b" ")?;
    text.extend_from_slice(row.does.as_bytes())?;
    text.extend_from_slice(b".\n\n")?;
    write_options(alloc, &mut text, row.options)?;
    text.extend_from_slice(b"\nThe manual: man cutters-")?;
    text.extend_from_slice(row.name.as_bytes())?;
    text.extend_from_slice(b"\n")?;
    Ok(text)
}

fn program_help(alloc: Global) -> Result<Vec<u8>, AllocError>
    ensures { IfOk result (λ text. text.items ≡ program_help) }
{
    let mut text = Vec::from_slice(
        alloc,
        b"Usage: cutters TOOL [OPTION]... [OPERAND]...\ncutters is these tools in one program.\n\n",
    )?;
    write_tools(&mut text, all_tools(Calling::Cutters))?;
    write_options(alloc, &mut text, program_options())?;
    text.extend_from_slice(b"\nThe manual: man cutters\n")?;
    Ok(text)
}

/// Writes a line for each tool.
fn write_tools(text: &mut Vec<u8>, rows: &[ToolRow]) -> Result<(), AllocError>
    ensures { IfOk result (λ _. text.new.items ≡ text.old.items ++ flat_map tool_line (map tool_seen rows.now)) }
{
    for row in rows {
        write_line(text, row.name.as_bytes(), row.does.as_bytes())?;
    }
    Ok(())
}

/// Writes a line for each option.
fn write_options(alloc: Global, text: &mut Vec<u8>, rows: &[OptionRow]) -> Result<(), AllocError>
    ensures { IfOk result (λ _. text.new.items ≡ text.old.items ++ flat_map option_line (map row_seen rows.now)) }
{
    for row in rows {
        write_option(alloc, text, row)?;
    }
    Ok(())
}

fn write_option(alloc: Global, text: &mut Vec<u8>, row: &OptionRow) -> Result<(), AllocError>
    ensures { IfOk result (λ _. text.new.items ≡ text.old.items ++ option_line (row_seen row.now)) }
{
    let mut typed = names_of(alloc, row.names)?;
    write_value(&mut typed, row.takes, row.value.as_bytes())?;
    write_line(text, &typed, row.does.as_bytes())
}

/// The names of an option, with a comma and a blank between them.
fn names_of(alloc: Global, names: &[&str]) -> Result<Vec<u8>, AllocError>
    ensures { IfOk result (λ text. text.items ≡ listed (codes "") (map (λ name. name.now) names.now)) }
{
    let mut text = Vec::new(alloc);
    let mut before: &[u8] = b"";
    for name in names {
        text.extend_from_slice(before)?;
        text.extend_from_slice(name.as_bytes())?;
        before = b", ";
    }
    Ok(text)
}

/// Writes what the value of an option is called, if the option takes a value.
fn write_value(text: &mut Vec<u8>, takes: Takes, value: &[u8]) -> Result<(), AllocError>
    ensures { IfOk result (λ _. text.new.items ≡ text.old.items ++ value_listed takes value.now) }
{
    match takes {
        Takes::Value(_) => {
            text.extend_from_slice(b"=")?;
            text.extend_from_slice(value)
        }
        Takes::Optional(_, _) => {
            text.extend_from_slice(b"[=")?;
            text.extend_from_slice(value)?;
            text.extend_from_slice(b"]")
        }
        Takes::Nothing(_) | Takes::Last(_) => Ok(()),
    }
}

/// Writes what is typed, and from its column on what it does.
fn write_line(text: &mut Vec<u8>, typed: &[u8], does: &[u8]) -> Result<(), AllocError>
    ensures { IfOk result (λ _. text.new.items ≡ text.old.items ++ line typed.now does.now) }
{
    text.extend_from_slice(b"  ")?;
    text.extend_from_slice(typed)?;
    text.extend_from_slice(blanks_after(typed))?;
    text.extend_from_slice(does)?;
    text.extend_from_slice(b"\n")
}

/// The blanks between what is typed and the column of what it does.
fn blanks_after(typed: &[u8]) -> &'static [u8]
    ensures { result.now ≡ drop (length typed.now) (codes "                              ") }
{
    if typed.len() < BLANKS.len() {
        &BLANKS[typed.len()..]
    } else {
        b""
    }
}
