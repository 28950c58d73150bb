// The drawer: it takes one step after another, and hands out marks.

ghost use Rattle.std.specs.Prelude.{◌≡◌, ◌≤◌, ◌<◌, ◌+◌, ◌++◌, map, Err, IfOk, OnOk, IfErr, IsErrOf};
ghost use Rattle.std.specs.Option.{option_to_list};
ghost use Rattle.run_picture.specs.Pictures.{told, opened, came, one_if, is_about, or_same, after_at, marks_at, wants_message, wants_number, concerns, is_drawn, place_of, here, ended_marks, arrows, own_mark, marks_of_step, about_after, said_after, lasts_after, newly_said, after_step, open_marks, lost_mark};

use crate::asking::may_change;
use crate::lasting::{Since, add_ended, is_seen, lasting_behind, lasting_first, open_marks};
use crate::marks::put;
use crate::picking::{in_window, is_among, turning, wants, wants_all};
use crate::saying::{Said, is_lost, is_wanted, message_in, note_came, number_in, said_at};
use crate::{DrawFault, Lasting, Mark, Part, Place, Sign, Step};
use lock_messages::{Actor, Message, NodeId};
use std::alloc::{AllocError, Global};
use std::marker::Model;
use world_model::Event;

/// The most lines that are drawn.
pub const MAX_ROWS: u32 = 4_194_304;

/// What is known of a history as far as it was told.
///
/// Contracts see it as `Drawn` of `specs/Pictures.antt`.
#[derive(Debug, Drop)]
pub struct Drawer {
    shown: Part,
    count: u32,
    actors: Vec<Actor>,
    places: Vec<Said>,
    lasting: Vec<Since>,
}

impl Model for Drawer {
    ghost use Rattle.std.specs.Prelude.{◌≤◌};
    ghost use Rattle.run_picture.specs.Pictures.{Drawn};
    ghost use Rattle.run_picture.specs.declared.drawing.TheConstants.{MAX_ROWS};

    ghost Value = { Drawn };

    ghost view = { λ d. record { part = d.shown; rows = d.count; about = d.actors.items; said = d.places.items; lasts = d.lasting.items } };

    ghost invariant = { λ d. d.count ≤ MAX_ROWS };
}

impl Drawer {
    /// Nothing is told yet, and this lasts from the beginning.
    pub fn new(alloc: Global, part: Part, lasting: &[Lasting]) -> Result<Drawer, AllocError>
        ensures { IfOk result (λ d. d ≡ opened part lasting.now) }
    {
        let first = Place { line: 0, height: 0 };
        let lasting = lasting_first(alloc, &part, lasting, &first)?;
        Ok(Drawer {
            shown: part,
            count: 0,
            actors: Vec::new(alloc),
            places: Vec::new(alloc),
            lasting,
        })
    }

    /// Whether the actor is about the resource that is drawn.
    fn is_about(&self, who: &Actor) -> bool
        ensures { result ≡ is_about self.now.part self.now.about who.now }
    {
        wants_all(&self.shown) || is_among(self.actors.as_slice(), who)
    }

    /// Whether the message is about it.
    fn wants_message(&self, message: &Message) -> bool
        ensures { result ≡ wants_message self.now.part self.now.about message.now }
    {
        match message {
            Message::Request(_, ticket) | Message::Grant(_, ticket) | Message::Busy(_, ticket) => {
                wants(&self.shown, &ticket.resource)
            }
            Message::Release(_, client, _)
            | Message::Over(_, client, _)
            | Message::Done(_, client, _)
            | Message::Muddled(_, client, _)
            | Message::Soften(_, client, _)
            | Message::Softened(_, client, _) => self.is_about(&Actor::Client(*client)),
        }
    }

    /// Whether the message of this number is.
    fn wants_number(&self, number: u32) -> bool
        ensures { result ≡ wants_number self.now number }
    {
        is_wanted(self.places.as_slice(), number)
    }

    /// Whether the event concerns the resource.
    fn concerns(&self, event: &Event) -> bool
        ensures { result ≡ concerns self.now event.now }
    {
        match *event {
            Event::Begin(_, _, resource, _) => wants(&self.shown, &resource),
            Event::Try(who) | Event::Kept(who) => self.is_about(&who),
            Event::Say(node) => self.is_about(&Actor::Node(node)),
            Event::Take(_, number) | Event::Hear(_, number) => self.wants_number(number),
            Event::SayTo(client, _) => self.is_about(&Actor::Client(client)),
            Event::Enter(client) | Event::Leave(client) | Event::Soften(client) => {
                self.is_about(&Actor::Client(client))
            }
            Event::Fall(_) | Event::Rise(..) | Event::Switch(..) => true,
        }
    }

    /// Whether the step's line is drawn.
    fn is_drawn(&self, step: &Step) -> bool
        ensures { result ≡ is_drawn self.now (told step.now) }
    {
        in_window(&self.shown, step.line) && self.concerns(&step.event)
    }

    /// Where a line stands that comes next, and is drawn or not.
    pub fn place(&self, line: u32, drawn: bool) -> Place
        ensures { result ≡ place_of self.now line drawn }
    {
        let middle = if drawn { 1 } else { 0 };
        Place {
            line,
            height: self.count + self.count + middle,
        }
    }

    /// The arrow to where a message is taken or heard.
    fn arrow(&self, step: &Step, at: &Place) -> Option<Mark>
        ensures { option_to_list result ≡ arrows self.now (told step.now) at.now }
    {
        let number = number_in(&step.event)?;
        let message = message_in(&step.effect)?;
        let said = said_at(self.places.as_slice(), number)?;
        if said.wanted && is_seen(&said.place, at) {
            return Some(Mark {
                sign: Sign::Message(number, message),
                from: said.place,
                upto: *at,
            });
        }
        None
    }

    /// The mark of the event itself, where it is drawn.
    fn own_mark(&self, step: &Step, at: &Place) -> Option<Mark>
        ensures { option_to_list result ≡ own_mark self.now (told step.now) at.now }
    {
        if !self.is_drawn(step) {
            return None;
        }
        Some(Mark {
            sign: Sign::Event(step.event, step.effect),
            from: *at,
            upto: *at,
        })
    }

    /// The marks of the step.
    fn marks(&self, alloc: Global, step: &Step, at: &Place) -> Result<Vec<Mark>, AllocError>
        ensures { IfOk result (λ v. v.items ≡ marks_at self.now (told step.now) at.now) }
    {
        let mut marks = Vec::new(alloc);
        if may_change(&step.event) {
            add_ended(&mut marks, step, self.lasting.as_slice(), at)?;
        }
        put(&mut marks, self.arrow(step, at))?;
        put(&mut marks, self.own_mark(step, at))?;
        Ok(marks)
    }

    /// The actors that are about the resource behind the event.
    fn about_behind(&self, alloc: Global, event: &Event) -> Result<Option<Vec<Actor>>, AllocError>
        ensures { IfOk result (λ v. or_same self.now.about v ≡ about_after self.now event.now) }
    {
        let (who, is_about) = match *event {
            Event::Begin(client, _, resource, _) => {
                (Actor::Client(client), wants(&self.shown, &resource))
            }
            Event::Take(node, number) => (Actor::Node(node), self.wants_number(number)),
            Event::Switch(node, _) => (Actor::Node(node), true),
            Event::Try(_) | Event::Kept(_) | Event::SayTo(..) | Event::Say(_) => return Ok(None),
            Event::Hear(..) | Event::Enter(_) | Event::Leave(_) | Event::Soften(_) => {
                return Ok(None);
            }
            Event::Fall(_) | Event::Rise(..) => return Ok(None),
        };
        let actors = turning(alloc, self.actors.as_slice(), &who, is_about)?;
        Ok(Some(actors))
    }

    /// Notes the messages that are said here. After want of memory some of them are noted.
    fn note_said(&mut self, said: &[Message], at: &Place) -> Result<(), AllocError>
        ensures { OnOk result (self.new ≡ record self.old { said = self.old.said ++ map (newly_said self.old.part self.old.about at.now) said.now }) }
    {
        for message in said {
            let wanted = self.wants_message(message);
            self.places.push(Said {
                place: *at,
                wanted,
                came: false,
            })?;
        }
        Ok(())
    }

    /// The marks of the end: what lasts still at the end of this line.
    pub fn open_marks(&self, alloc: Global, line: u32) -> Result<Vec<Mark>, AllocError>
        ensures { IfOk result (λ v. v.items ≡ open_marks self.now line) }
    {
        open_marks(alloc, self.lasting.as_slice(), &self.place(line, false))
    }

    /// The mark of the message of this number where it was said in what is drawn, and was never taken or
    /// heard.
    pub fn lost(&self, number: u32, message: Message) -> Option<Mark>
        ensures { result ≡ lost_mark self.now number message }
    {
        let said = said_at(self.places.as_slice(), number)?;
        if is_lost(&said, &self.place(0, false)) {
            return Some(Mark {
                sign: Sign::Lost(number, message),
                from: said.place,
                upto: said.place,
            });
        }
        None
    }

    /// Takes the next step: answers the drawer behind it, and the step's marks.
    ///
    /// Errors: `Full` where as many lines were drawn as a picture may have, and only there; `Memory` where
    /// memory was refused. Then the drawer is gone.
    #[tactic(auto, unfolding(crate::specs::Pictures::marks_of_step, crate::specs::Pictures::after_step))]
    pub fn take(self, alloc: Global, step: &Step) -> Result<(Drawer, Vec<Mark>), DrawFault>
        ensures marks { IfOk result (λ r. r.1.items ≡ marks_of_step self (told step.now)) }
        ensures after { IfOk result (λ r. r.0 ≡ after_step self (told step.now)) }
        ensures full { IsErrOf result DrawFault.Full → MAX_ROWS ≤ self.rows }
        ensures fills { MAX_ROWS ≤ self.rows → result ≡ Err DrawFault.Full }
    {
        if self.count >= MAX_ROWS {
            return Err(DrawFault::Full);
        }
        let drawn = self.is_drawn(step);
        let at = self.place(step.line, drawn);
        let Ok(marks) = self.marks(alloc, step, &at) else {
            return Err(DrawFault::Memory);
        };
        let Ok(drawer) = self.behind(alloc, step, &at, drawn) else {
            return Err(DrawFault::Memory);
        };
        Ok((drawer, marks))
    }

    /// The drawer behind the step.
    fn behind(
        self,
        alloc: Global,
        step: &Step,
        at: &Place,
        drawn: bool,
    ) -> Result<Drawer, AllocError>
        requires drawn { drawn ≡ is_drawn self (told step.now) }
        requires room { self.rows < MAX_ROWS }
        ensures { IfOk result (λ d. d ≡ after_at self (told step.now) at.now) }
    {
        let mut drawer = self;
        let actors = drawer.about_behind(alloc, &step.event)?;
        let lasting = drawer.lasts_behind(alloc, step, at)?;
        drawer.note_came(number_in(&step.event));
        drawer.note_said(step.said.as_slice(), at)?;
        Ok(drawer.with(actors, lasting, drawn))
    }

    /// Notes that the message of this number, if there is one, was taken or heard.
    fn note_came(&mut self, number: Option<u32>)
        ensures { self.new ≡ record self.old { said = came number self.old.said } }
    {
        note_came(&mut self.places, number);
    }

    /// The drawer with these lists, where they are given, and a line more, where it is drawn.
    fn with(self, actors: Option<Vec<Actor>>, lasting: Option<Vec<Since>>, drawn: bool) -> Drawer
        requires { self.rows < MAX_ROWS }
        ensures { result ≡ record self { rows = self.rows + one_if drawn; about = or_same self.about actors; lasts = or_same self.lasts lasting } }
    {
        Drawer {
            shown: self.shown,
            count: if drawn { self.count + 1 } else { self.count },
            actors: actors.unwrap_or(self.actors),
            places: self.places,
            lasting: lasting.unwrap_or(self.lasting),
        }
    }

    /// What lasts behind the step, where it may be other things than before.
    fn lasts_behind(
        &self,
        alloc: Global,
        step: &Step,
        at: &Place,
    ) -> Result<Option<Vec<Since>>, AllocError>
        ensures { IfOk result (λ v. or_same self.now.lasts v ≡ lasts_after self.now (told step.now) at.now) }
    {
        if !may_change(&step.event) {
            return Ok(None);
        }
        let lasting = lasting_behind(alloc, &self.shown, self.lasting.as_slice(), step, at)?;
        Ok(Some(lasting))
    }
}
