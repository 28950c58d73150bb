// The lines behind the settings, and what is said of each.

use crate::refusals::{Scene, push_no_node, push_refusal};
use crate::stages::Stages;
use crate::wrong_words::push_wrong_line;
use event_lines::{Line, LineFault, Query, write_line};
use fault_numbers::meaning_of;
use std::alloc::{AllocError, Global};
use std::str;
use vote_weights::BallotList;
use world_machine::World;
use world_model::{Effect, Event, StepFault};
use world_settings::Settings;

/// What is said if a line of a journal begins as a query does.
const QUERY_HINT: &str =
    "hint: this is a query: `rwvote script` answers queries, a journal has only events\n";

/// What is said if the words of a line have more than one space between them.
const SPACE_HINT: &str = "hint: words are separated by exactly one space\n";

/// What the lines behind the settings are.
#[derive(Clone, Copy, PartialEq, Eq)]
pub(crate) enum Kind {
    /// A script: all are up at first, and a refused line is not the last.
    Script,
    /// A journal: all are down at first, and the first line that doesn't go on is the last.
    Journal,
}

/// What is known of lines as they are judged or done, so that it can be said why one is refused.
#[derive(Drop)]
pub(crate) struct Play {
    alloc: Global,
    kind: Kind,
    ballots: BallotList,
    stages: Stages,
    /// How many lines of the input stand before the first of these.
    before: u64,
    /// How many of these have come.
    read: u64,
}

/// Whether the line begins with the word of a query.
fn begins_query(line: &[u8]) -> bool {
    let Ok(text) = str::from_utf8(line) else {
        return false;
    };
    match text.split(' ').next() {
        Some(word) => word == "inside" || word == "waiting" || word == "holding",
        None => false,
    }
}

/// Adds that a line of this kind is blank.
fn push_blank_hint(text: &mut String, kind: Kind) -> Result<(), AllocError> {
    match kind {
        Kind::Script => text.push_str(
            "hint: the line is blank: after `---` each line is an event or a query\n",
        ),
        Kind::Journal => {
            text.push_str("hint: the line is blank: after `---` each line is an event\n")
        }
    }
}

/// Adds what is wrong with a line of this kind: its first wrong word, or what the fault's number means.
fn push_line_fault(
    alloc: Global,
    text: &mut String,
    kind: Kind,
    line: &[u8],
    fault: LineFault,
) -> Result<(), AllocError> {
    let Ok(words) = str::from_utf8(line) else {
        text.push_str(meaning_of(fault.number()))?;
        return text.push_str(": the line is not UTF-8 text");
    };
    if push_wrong_line(alloc, text, words, kind == Kind::Script)? {
        return Ok(());
    }
    text.push_str(meaning_of(fault.number()))
}

/// Whether two words of a line have more than one space between them, or one ends it.
fn has_stray_space(line: &[u8]) -> bool {
    line.split(|byte| *byte == b' ')
        .skip(1)
        .any(|word| word.is_empty())
}

/// Adds a hint on a line that is no event and no query.
fn push_line_hint(text: &mut String, kind: Kind, line: &[u8]) -> Result<(), AllocError> {
    if line.is_empty() {
        return push_blank_hint(text, kind);
    }
    if line.starts_with(b"#".as_slice()) {
        return text.push_str("hint: comments are allowed only above the line `---`\n");
    }
    if line.ends_with(b"\r".as_slice()) {
        return text.push_str(
            "hint: the line ends with a carriage return: lines end with a line feed alone\n",
        );
    }
    if has_stray_space(line) {
        return text.push_str(SPACE_HINT);
    }
    Ok(())
}

impl Play {
    /// Lines of this kind from the world of these settings, behind so many lines of the input.
    pub(crate) fn new(
        alloc: Global,
        kind: Kind,
        settings: &Settings,
        before: u64,
    ) -> Result<Play, AllocError> {
        let ballots = settings.ballots;
        let are_up = kind == Kind::Script;
        let stages = Stages::of(alloc, ballots.nodes(), settings.clients, are_up)?;
        Ok(Play {
            alloc,
            kind,
            ballots,
            stages,
            before,
            read: 0,
        })
    }

    /// Counts a line that has come.
    fn count(&mut self) {
        self.read = self.read.saturating_add(1);
    }

    /// The number of the last line that has come, among all lines of the input.
    fn line_of_input(&self) -> u64 {
        self.before.saturating_add(self.read)
    }

    /// Begins to say that a line is refused.
    fn push_front(&self, text: &mut String, fault: StepFault) -> Result<(), AllocError> {
        let (number, place) = (fault.number(), self.line_of_input());
        write!(text, "input line {place}: refused {number}: ")
    }

    /// Ends what is said of a line that is refused: with the line.
    fn push_back(&self, text: &mut String, line: &Line) -> Result<(), AllocError> {
        let said = write_line(self.alloc, line)?;
        writeln!(text, " ({said})")
    }

    /// Adds a hint where the first line shows that the other command is meant.
    fn push_other_command(&self, text: &mut String, fault: StepFault) -> Result<(), AllocError> {
        match (self.kind, fault) {
            (Kind::Script, StepFault::Up) if self.read == 1 => text.push_str(
                "hint: a script begins with all actors up: if this is a journal, use `rwvote audit`\n",
            ),
            (Kind::Journal, StepFault::Down) if self.read == 1 => text.push_str(
                "hint: a journal begins with all actors down: if this is a script, use `rwvote script`\n",
            ),
            _ => Ok(()),
        }
    }

    /// Says that an event is refused in this world, and why.
    fn tell_refused(
        &self,
        text: &mut String,
        world: &World,
        event: &Event,
        fault: StepFault,
    ) -> Result<(), AllocError> {
        let scene = Scene {
            world,
            stages: &self.stages,
            ballots: &self.ballots,
        };
        self.push_front(text, fault)?;
        push_refusal(text, scene, event, fault)?;
        self.push_back(text, &Line::Event(*event))?;
        self.push_other_command(text, fault)
    }

    /// Takes what came of an event, and says why where it is refused. The only error is want of memory, the
    /// event's own too.
    pub(crate) fn take_event(
        &mut self,
        text: &mut String,
        world: &World,
        event: &Event,
        came: &Result<Effect, StepFault>,
    ) -> Result<(), AllocError> {
        self.count();
        match came {
            Ok(effect) => {
                self.stages.follow(event, effect);
                Ok(())
            }
            Err(StepFault::Memory) => Err(AllocError),
            Err(fault) => self.tell_refused(text, world, event, *fault),
        }
    }

    /// Takes what came of a query, and says why where it is refused. The only error is want of memory, the
    /// query's own too.
    pub(crate) fn take_query(
        &mut self,
        text: &mut String,
        query: &Query,
        came: Result<(), StepFault>,
    ) -> Result<(), AllocError> {
        self.count();
        match came {
            Ok(()) => Ok(()),
            Err(StepFault::Memory) => Err(AllocError),
            Err(fault) => {
                self.push_front(text, fault)?;
                push_no_node(text, &self.stages)?;
                self.push_back(text, &Line::Query(*query))
            }
        }
    }

    /// Takes a line that is no event and, in a script, no query, and says what is wrong with it.
    pub(crate) fn take_bad(
        &mut self,
        text: &mut String,
        line: &[u8],
        fault: LineFault,
    ) -> Result<(), AllocError> {
        self.count();
        let (number, place) = (fault.number(), self.line_of_input());
        write!(text, "input line {place}: fault {number}: ")?;
        push_line_fault(self.alloc, text, self.kind, line, fault)?;
        text.push_str("\n")?;
        if self.kind == Kind::Journal && begins_query(line) {
            return text.push_str(QUERY_HINT);
        }
        push_line_hint(text, self.kind, line)
    }
}
