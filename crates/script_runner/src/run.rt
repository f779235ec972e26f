//! Running a script.

ghost use Rattle.std.specs.Prelude.{◌≡◌, IfOk, None};
ghost use Rattle.script_lines.specs.Said.{said_by};
ghost use Rattle.script_text.specs.Settings.{script_settings, settings_of};
ghost use Rattle.script_text.specs.Script.{opened_by};
ghost use Rattle.script_runner.specs.Outcome.{IsAct, IsOutcome, IsStarted, IsStep, NumberFits, WritesLine};

use crate::centre::Centre;
use crate::fault::ScriptFault;
use config::Config;
use octet_io::{CountedReader, CountedWriter};
use script_lines::{Found as FoundLine, Line, LineBuffer, lines_are_read, read_line, spelled_so};
use std::alloc::{AllocError, Global};
use std::io::{Read, Write};
use world::Found;

/// A line of a script, its line feed taken off, and its number, from 1 on.
#[derive(Clone, Copy)]
struct NumberedLine<'a> {
    number: u64,
    octets: &'a [u8],
}

/// Runs a script: reads its lines, and writes the output of each before it reads the next. `Ok` at its end.
pub fn run_script<R: Read, W: Write>(
    alloc: Global,
    reader: &mut CountedReader<R>,
    writer: &mut CountedWriter<W>,
) -> Result<(), ScriptFault>
    ensures { IsOutcome R.remaining W.contents result reader.old reader.new writer.old writer.new }
{
    // What the proof takes of lines and of what they say; neither call does anything.
    lines_are_read();
    spelled_so();
    let config = script_config(alloc)?;
    let mut buffer = LineBuffer::make(alloc)?;
    let mut text = Vec::new(alloc);
    let mut stage = None;
    let mut number = 0u64;
    'lines: loop {
        match buffer.find_line(reader)? {
            FoundLine::End => return Ok(()),
            FoundLine::TooLong => return Err(ScriptFault::BadLine(number + 1)),
            FoundLine::Last(count) => {
                let line = NumberedLine {
                    number: number + 1,
                    octets: &buffer.octets()[..count],
                };
                return write_line(&config, &mut stage, line, &mut text, writer);
            }
            FoundLine::Line(count) => {
                let line = NumberedLine {
                    number: number + 1,
                    octets: &buffer.octets()[..count],
                };
                write_line(&config, &mut stage, line, &mut text, writer)?;
                buffer.take_off(count + 1);
                number += 1;
            }
        }
    }
}

/// Does what a line says, and writes its output, which is made in the place of what the text holds.
fn write_line<W: Write>(
    config: &Config,
    stage: &mut Option<Centre>,
    line: NumberedLine<'_>,
    text: &mut Vec<u8>,
    writer: &mut CountedWriter<W>,
) -> Result<(), ScriptFault>
    requires { settings_of config.now ≡ script_settings }
    ensures { WritesLine W.contents result stage.old line.entry.octets.now line.entry.number stage.new writer.old writer.new }
{
    text.clear();
    if !step(*text.allocator(), config, stage, line.octets, text)? {
        return Err(ScriptFault::BadLine(line.number));
    }
    writer.write_all(text).map_err(|_| ScriptFault::Write)
}

/// Does what a line says: adds its output to the text, and answers whether the line is good.
fn step(
    alloc: Global,
    config: &Config,
    stage: &mut Option<Centre>,
    line: &[u8],
    text: &mut Vec<u8>,
) -> Result<bool, AllocError>
    requires { settings_of config.now ≡ script_settings }
    ensures { IfOk result (λ good. IsStep stage.old line.now good stage.new text.old.items text.new.items) }
{
    spelled_so();
    let Some(said) = read_line(alloc, line)? else {
        return Ok(false);
    };
    match stage {
        None => start(alloc, config, stage, said),
        Some(centre) => act(config, centre, said, text),
    }
}

/// Starts the centre, if a line says so, and answers whether it may stand there. An `Err` is want of memory.
fn start(
    alloc: Global,
    config: &Config,
    stage: &mut Option<Centre>,
    said: Line,
) -> Result<bool, AllocError>
    requires settings { settings_of config.now ≡ script_settings }
    requires number { NumberFits (said_by said) }
    requires none { stage.old ≡ None }
    ensures { IfOk result (λ good. IsStarted (opened_by script_settings (said_by said)) good stage.new) }
{
    match said {
        Line::Skipped => Ok(true),
        Line::Nodes { count, serial } => {
            *stage = Some(Centre::start(alloc, config, count, serial)?);
            Ok(true)
        }
        _ => Ok(false),
    }
}

/// Does what a line says, if it names no node that is not there, and may stand there.
fn act(
    config: &Config,
    centre: &mut Centre,
    said: Line,
    text: &mut Vec<u8>,
) -> Result<bool, AllocError>
    requires settings { settings_of config.now ≡ script_settings }
    requires number { NumberFits (said_by said) }
    ensures { IfOk result (λ good. IsAct centre.old (said_by said) good centre.new text.old.items text.new.items) }
{
    if !said.names_within(centre.nodes()) {
        return Ok(false);
    }
    match said {
        Line::Skipped => {}
        Line::Nodes { .. } => return Ok(false),
        Line::Octets {
            node,
            session,
            octets,
        } => {
            centre.octets(config, node, session, &octets, text)?;
        }
        Line::Deliver { number, node } => centre.deliver(number, node, text)?,
        Line::Crash {
            node,
            number,
            after,
        } => {
            let found = if after { Found::After } else { Found::Before };
            centre.crash(node, number, found, text)?;
        }
        Line::Tick { node, moment } => centre.tick(node, moment, text)?,
        Line::Grant { node, id } => centre.grant(node, id, text)?,
        Line::Settle { nodes } => centre.settle(nodes, text)?,
        Line::Restart { node } => centre.restart(node, text)?,
        Line::Replay { count } => centre.replay(count, text)?,
    }
    Ok(true)
}

/// The configuration of a script. An `Err` is want of memory.
fn script_config(alloc: Global) -> Result<Config, AllocError>
    ensures { IfOk result (λ config. settings_of config ≡ script_settings) }
{
    Config::of_scripts(alloc)
}
