// What is said of an input, as a command meets it.

ghost use Rattle.std.specs.Prelude.{None};

use crate::heads::push_settings_fault;
use crate::plays::{Kind, Play};
use event_lines::{LineFault, Query};
use line_streams::write_text;
use operator_cli::{Onlooker, Watcher};
use std::alloc::{AllocError, Global};
use std::io::Write;
use world_machine::World;
use world_model::{Effect, Event, StepFault};
use world_settings::{Command, Settings, SettingsFault};

/// Says in words on a writer what a command meets in its input, as it meets it. A writer that fails hears less.
#[derive(Drop)]
pub struct Explainer<'a, E> {
    alloc: Global,
    command: Command,
    errors: &'a mut E,
    /// What is to be said next.
    text: String,
    /// The lines behind the settings, once these are read.
    play: Option<Play>,
    fell_short: bool,
}

/// What the lines of a command are, where it has any.
fn kind_of(command: Command) -> Option<Kind> {
    match command {
        Command::Script => Some(Kind::Script),
        Command::Audit => Some(Kind::Journal),
        Command::Ballot | Command::Run { .. } => None,
    }
}

/// How many lines the settings take, the line of dashes too.
fn lines_of(head: &[u8]) -> u64 {
    let feeds = head.iter().filter(|byte| **byte == b'\n').count();
    (feeds as u64).saturating_add(1)
}

impl<'a, E: Write> Explainer<'a, E> {
    /// An explainer of the input of this command, which says what there is to say on this writer.
    pub fn new(alloc: Global, command: Command, errors: &'a mut E) -> Explainer<'a, E> {
        Explainer {
            alloc,
            command,
            errors,
            text: String::new(alloc),
            play: None,
            fell_short: false,
        }
    }

    /// Whether memory was refused, so that words may be missing.
    pub fn fell_short(&self) -> bool {
        self.fell_short
    }

    /// Says what was added to the text, and after want of memory nothing more of lines.
    fn say(&mut self, added: Result<(), AllocError>) {
        let _unheard = write_text(self.errors, self.text.as_bytes());
        self.text.clear();
        if added.is_err() {
            self.play = None;
            self.fell_short = true;
        }
    }
}

impl<E: Write> Watcher for Explainer<'_, E> {
    ghost heard = { λ _. None };

    fn see_event(&mut self, world: &World, event: &Event, came: &Result<Effect, StepFault>) {
        if let Some(play) = &mut self.play {
            let added = play.take_event(&mut self.text, world, event, came);
            self.say(added);
        }
    }

    fn see_query(&mut self, query: &Query, came: Result<(), StepFault>) {
        if let Some(play) = &mut self.play {
            let added = play.take_query(&mut self.text, query, came);
            self.say(added);
        }
    }

    fn see_bad(&mut self, line: &[u8], fault: LineFault) {
        if let Some(play) = &mut self.play {
            let added = play.take_bad(&mut self.text, line, fault);
            self.say(added);
        }
    }

    fn see_end(&mut self, lines: u32) {
        if self.play.is_some() {
            let added = writeln!(
                self.text,
                "sound {lines}: all lines are events that can follow each other"
            );
            self.say(added);
        }
    }
}

impl<E: Write> Onlooker for Explainer<'_, E> {
    fn see_refused(&mut self, head: &[u8], fault: SettingsFault) {
        let added = push_settings_fault(self.alloc, &mut self.text, self.command, head, fault);
        self.say(added);
    }

    fn see_settings(&mut self, head: &[u8], settings: &Settings) {
        let Some(kind) = kind_of(self.command) else {
            return;
        };
        match Play::new(self.alloc, kind, settings, lines_of(head)) {
            Ok(play) => self.play = Some(play),
            Err(_) => self.fell_short = true,
        }
    }
}
