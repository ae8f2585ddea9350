//! Command lines.
ghost use Rattle.std.specs.Prelude.{◌≡◌, IfOk};
ghost use Rattle.line_language.specs.Commands.{event_of};
ghost use Rattle.line_language.specs.Events.{IsEvent};

use crate::command;
use crate::fault::LineKind;
use serial_spec::Event;
use std::marker::Model;

/// A command line, by what it asks. That has one spelling, which `put_event` writes, and so tells
/// the text. It takes no memory.
#[derive(Drop)]
pub struct Line {
    event: Event,
}

impl Model for Line {
    ghost use Rattle.serial_spec.specs.declared.event.Event.{Event};
    ghost use Rattle.line_language.specs.Events.{IsEvent};

    ghost Value = { Event };

    ghost view = { λ l. l.event };

    ghost invariant = { λ l. IsEvent l.event };
}

impl Line {
    /// What the line asks.
    pub fn event(&self) -> &Event
        ensures value { result.now ≡ self.now }
        ensures valid { IsEvent self.now }
    {
        &self.event
    }
}

/// Reads a command line, without its line feed. A header is refused as `Word`; of several faults
/// the first of `Empty`, `Word` for the first word, `Shape`, and the operands from left to right is
/// answered.
pub fn parse_line(bytes: &[u8]) -> Result<Line, LineKind>
    ensures read { result ≡ event_of bytes.now }
    ensures valid { IfOk result IsEvent }
{
    let event = command::event_of(bytes)?;
    Ok(Line { event })
}

/// What a command line asks, as `parse_line` reads it, where its text is not wanted.
pub fn parse_event(bytes: &[u8]) -> Result<Event, LineKind>
    ensures read { result ≡ event_of bytes.now }
    ensures valid { IfOk result IsEvent }
{
    command::event_of(bytes)
}
