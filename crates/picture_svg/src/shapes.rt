// The shapes of marks.

use lock_messages::{Message, Mode};
use lock_model::Heard;
use run_picture::Lasting;
use world_model::{Effect, Event};

/// What is drawn once in the head, and used where it is named: the arrows' heads, the readers' pattern, and
/// a shape for each kind of event.
pub(crate) const SHAPES: &str = "\
<style>text{fill:#222;font:10px monospace}.h{font-weight:bold;font-size:12px}.n{fill:#777;text-anchor:end}\
.l{stroke:#eee}.a{stroke:#bbb;fill:none}.e{text-anchor:end}.c{text-anchor:middle}.d{fill:#888;fill-opacity:.25}.r{fill:url(#r);stroke:#1a5fb4}.w{fill:#c64600;stroke:#7a2b00}\
.m{fill:none;stroke-width:1.3}.q{stroke:#333}.b{stroke:#333;stroke-dasharray:6 3}.g{stroke:#18794e;stroke-width:2}\
.y{stroke:#c64600;stroke-dasharray:2 3}.s{stroke:#999;stroke-dasharray:6 3}.x{stroke:#c01c28;stroke-width:2;fill:none}\
.f{fill:#222;stroke:#222}.o{fill:#fff;stroke:#222}.u{fill:#c01c28;font-weight:bold;font-size:12px}</style>
<defs><pattern id='r' width='4' height='4' patternUnits='userSpaceOnUse' patternTransform='rotate(45)'>\
<rect width='4' height='4' fill='#fff'/><path d='M0 0V4' stroke='#1a5fb4' stroke-width='3'/></pattern>
<marker id='q' viewBox='0 0 8 8' refX='7' refY='4' markerWidth='8' markerHeight='8' markerUnits='userSpaceOnUse' orient='auto'><path d='M0 1L8 4L0 7z' fill='#333'/></marker>
<marker id='g' viewBox='0 0 8 8' refX='7' refY='4' markerWidth='9' markerHeight='9' markerUnits='userSpaceOnUse' orient='auto'><path d='M0 1L8 4L0 7z' fill='#18794e'/></marker>
<marker id='y' viewBox='0 0 8 8' refX='7' refY='4' markerWidth='8' markerHeight='8' markerUnits='userSpaceOnUse' orient='auto'><path d='M0 1L8 4L0 7z' fill='#c64600'/></marker>
<marker id='s' viewBox='0 0 8 8' refX='7' refY='4' markerWidth='8' markerHeight='8' markerUnits='userSpaceOnUse' orient='auto'><path d='M0 1L8 4L0 7z' fill='#777'/></marker>
<circle id='be' r='4' class='o'/>
<g id='tr'><circle r='4' class='o'/><path d='M0-4a4 4 0 0 0 0 8z' class='f'/></g>
<circle id='ke' r='4' class='f'/>
<circle id='do' r='2' class='f'/>
<path id='ta' d='M-4-4h8v8h-8z' class='o'/>
<path id='en' d='M-4-4l8 4l-8 4z' class='f'/>
<path id='le' d='M4-4l-8 4l8 4z' class='o'/>
<path id='so' d='M0-5l5 5l-5 5l-5-5z' class='o'/>
<path id='sw' d='M0-5l5 5l-5 5l-5-5z' class='f'/>
<path id='fa' d='M-5-3h10l-5 7z' class='f'/>
<path id='ri' d='M-5 4h10l-5-7z' class='o'/>
<path id='lo' d='M-4-4l8 8m0-8l-8 8' class='x'/></defs>
";

/// The name of an event's shape.
pub(crate) fn shape(event: &Event, effect: &Effect) -> &'static str {
    match event {
        Event::Begin(..) => "be",
        Event::Try(_) => "tr",
        Event::Kept(_) => "ke",
        Event::SayTo(..) | Event::Say(_) | Event::Hear(..) => "do",
        Event::Take(..) => taken_shape(effect),
        Event::Enter(_) => "en",
        Event::Leave(_) => "le",
        Event::Soften(_) => "so",
        Event::Switch(..) => "sw",
        Event::Fall(_) => "fa",
        Event::Rise(..) => "ri",
    }
}

/// The name of the shape of a message that is taken.
fn taken_shape(effect: &Effect) -> &'static str {
    match effect {
        Effect::Took(_, true) => "ta",
        _ => "do",
    }
}

/// The class of a message's arrow, and the name of the arrow's head.
pub(crate) fn arrow_class(message: &Message) -> (&'static str, &'static str) {
    match message {
        Message::Request(..) | Message::Soften(..) => ("q", "q"),
        Message::Release(..) => ("b", "q"),
        Message::Grant(..) => ("g", "g"),
        Message::Busy(..) => ("y", "y"),
        Message::Over(..) | Message::Done(..) | Message::Muddled(..) | Message::Softened(..) => {
            ("s", "s")
        }
    }
}

/// The class of a bar.
pub(crate) fn bar_class(what: &Lasting) -> &'static str {
    match what {
        Lasting::Down(_) => "d",
        Lasting::Inside(ticket) | Lasting::Holding(_, ticket) => mode_class(ticket.mode),
    }
}

fn mode_class(mode: Mode) -> &'static str {
    match mode {
        Mode::Read => "r",
        Mode::Write => "w",
    }
}

/// What a client made of a message, in a word or two.
pub(crate) fn heard_word(heard: Heard) -> &'static str {
    match heard {
        Heard::Counted => "counted",
        Heard::Known => "known",
        Heard::Busy => "busy",
        Heard::Done => "done",
        Heard::Softened => "softened",
        Heard::NotMine => "not mine",
    }
}
