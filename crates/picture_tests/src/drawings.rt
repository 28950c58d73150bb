// Journals behind their settings, drawn as SVG and listed: what is found, and how much is written.

use crate::failing::Breaks;
use crate::listing::Listing;
use crate::playing::WHOLE;
use event_lines::LineFault;
use journal_audit::{AuditFault, Cause, Verdict};
use journal_picture::Canvas;
use lock_messages::MAX_NODES;
use operator_cli::ServeFault;
use picture_cli::{Shown, SvgCanvas, draw_journal};
use run_picture::Part;
use std::alloc::Global;
use std::io::{Read, Write};
use std::str;
use test_outcomes::{Failure, Outcome, check_row};
use test_support::{Full, plain_pairs};
use world_model::StepFault;
use world_settings::{Policies, SettingsFault};

/// What comes of drawing a part of what a reader gives on a canvas.
fn draw_on<R: Read, C: Canvas>(
    alloc: Global,
    part: Part,
    reader: R,
    canvas: &mut C,
) -> Result<Shown, Failure>
where
    R: Drop,
{
    let pairs = plain_pairs(alloc, MAX_NODES)?;
    let policies = Policies { pairs };
    match draw_journal(alloc, policies, part, reader, canvas) {
        Ok(Shown::Refused(SettingsFault::Memory)) => Err(Failure::Memory),
        Ok(shown) => Ok(shown),
        Err(ServeFault::Memory | ServeFault::Audit(AuditFault::Memory)) => Err(Failure::Memory),
        Err(ServeFault::Read) => Err(Failure::NoAnswer(931)),
        Err(ServeFault::Write) => Err(Failure::NoAnswer(932)),
        Err(ServeFault::Audit(fault)) => Err(Failure::NoAnswer(usize::from(fault.number()))),
    }
}

/// The same of all of it, as SVG.
fn draw<R: Read, W: Write>(alloc: Global, reader: R, out: &mut W) -> Result<Shown, Failure>
where
    R: Drop,
{
    draw_on(alloc, WHOLE, reader, &mut SvgCanvas::new(alloc, out))
}

const HEAD: &str = "votes = [1]\nread = 1\nwrite = 1\nproblem = 1\nclients = 2\n---\n";

/// Rows of what stands behind the settings, and what is found.
const ROWS: [(&str, Verdict); 4] = [
    ("", Verdict::Sound(0)),
    ("rise n1 old\nrise c1 old\n", Verdict::Sound(2)),
    (
        "rise n1 old\nrise n1 old\n",
        Verdict::Unsound(2, Cause::Refused(StepFault::Up)),
    ),
    ("\n", Verdict::Unsound(1, Cause::Line(LineFault::Word))),
];

/// Whether this is found of what stands behind the settings, and a whole picture is written.
fn is_drawn(alloc: Global, lines: &str, found: Verdict) -> Result<bool, Failure> {
    let mut input = String::new(alloc);
    input.push_str(HEAD)?;
    input.push_str(lines)?;
    let mut out = Vec::new(alloc);
    let shown = draw(alloc, input.as_bytes(), &mut out)?;
    let begun = out.starts_with(b"<svg ".as_slice());
    let ended = out.ends_with(b"</svg>\n".as_slice());
    Ok(shown == Shown::Drawn(found) && begun && ended)
}

#[test]
fn journals_as_svg(rt: HostRuntime) -> Outcome {
    for (row, (lines, found)) in ROWS.iter().enumerate() {
        let right = is_drawn(rt.alloc(), *lines, *found)?;
        check_row(right, row)?;
    }
    Ok(())
}

/// One alone, of which `tools/sweep` refuses each request for memory.
#[test]
fn one_journal(rt: HostRuntime) -> Outcome {
    let right = is_drawn(rt.alloc(), "rise n1 old\n", Verdict::Sound(1))?;
    check_row(right, 0)
}

/// The second line of two.
const SECOND: Part = Part {
    first: 2,
    last: 2,
    resource: None,
};

fn two_lines(alloc: Global) -> Result<String, Failure> {
    Ok(format!(in alloc; "{HEAD}rise n1 old\nrise c1 old\n")?)
}

/// The head of a part tells its lines, and the number of its actors.
#[test]
fn part_as_svg(rt: HostRuntime) -> Outcome {
    let input = two_lines(rt.alloc())?;
    let mut out = Vec::new(rt.alloc());
    let mut canvas = SvgCanvas::new(rt.alloc(), &mut out);
    let shown = draw_on(rt.alloc(), SECOND, input.as_bytes(), &mut canvas)?;
    check_row(shown == Shown::Drawn(Verdict::Sound(2)), 0)?;
    let Ok(text) = str::from_utf8(out.as_slice()) else {
        return Err(Failure::Wrong(1));
    };
    let told = ">A run. Nodes: 1, clients: 2, lines: 2 to 2<";
    check_row(text.find(told).is_some(), 2)
}

/// A picture is begun, gets its marks, and is ended.
#[test]
fn part_as_a_list(rt: HostRuntime) -> Outcome {
    let input = two_lines(rt.alloc())?;
    let mut canvas = Listing::new(rt.alloc());
    let shown = draw_on(rt.alloc(), SECOND, input.as_bytes(), &mut canvas)?;
    check_row(shown == Shown::Drawn(Verdict::Sound(2)), 0)?;
    let told = "n1 c2 2-2:down c1 0-2;2;down c2 0-;end 2 2;";
    check_row(canvas.text.as_str() == told, 1)
}

/// A text goes out as it is.
#[test]
fn text_on_a_canvas(rt: HostRuntime) -> Outcome {
    let mut out = Vec::new(rt.alloc());
    let mut canvas = SvgCanvas::new(rt.alloc(), &mut out);
    let Ok(count) = canvas.write(b"<help>".as_slice()) else {
        return Err(Failure::Memory);
    };
    check_row(count == 6 && canvas.flush().is_ok(), 0)?;
    check_row(out.as_slice() == b"<help>".as_slice(), 1)
}

/// Rows of settings that are refused, and their fault.
const REFUSED: [(&str, SettingsFault); 3] = [
    ("", SettingsFault::NoEnd),
    (
        "votes = [1]\nread = 1\nwrite = 1\nclients = 2\n---\n",
        SettingsFault::Value,
    ),
    ("vote = [1]\n---\n", SettingsFault::UnknownKey),
];

/// Nothing is written then.
#[test]
fn refused_settings(rt: HostRuntime) -> Outcome {
    for (row, (input, fault)) in REFUSED.iter().enumerate() {
        let mut out = Vec::new(rt.alloc());
        let shown = draw(rt.alloc(), input.as_bytes(), &mut out)?;
        check_row(shown == Shown::Refused(*fault), row)?;
        check_row(out.is_empty(), row)?;
    }
    Ok(())
}

/// What is answered where something fails: want of memory, or the fault by its number.
fn failed<R: Read, W: Write>(alloc: Global, reader: R, out: &mut W) -> Result<usize, Failure>
where
    R: Drop,
{
    match draw(alloc, reader, out) {
        Err(Failure::NoAnswer(number)) => Ok(number),
        Err(failure) => Err(failure),
        Ok(_) => Err(Failure::Wrong(0)),
    }
}

/// In the settings nothing is written yet, behind them the picture has begun.
#[test]
fn readers_that_fail(rt: HostRuntime) -> Outcome {
    let mut out = Vec::new(rt.alloc());
    let in_head = Breaks {
        bytes: b"votes = [1]\n".as_slice(),
    };
    let number = failed(rt.alloc(), in_head, &mut out)?;
    check_row(number == 931 && out.is_empty(), 0)?;
    let behind = Breaks {
        bytes: HEAD.as_bytes(),
    };
    let number = failed(rt.alloc(), behind, &mut out)?;
    // A vector can't be written only if memory runs out.
    if number == 817 {
        return Err(Failure::Memory);
    }
    check_row(number == 816, 1)
}

#[test]
fn full_writer(rt: HostRuntime) -> Outcome {
    let number = failed(rt.alloc(), HEAD.as_bytes(), &mut Full)?;
    check_row(number == 817, 0)
}
