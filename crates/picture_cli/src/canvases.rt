// A canvas that writes SVG.

ghost use Rattle.std.specs.Prelude.{◌≡◌};

use journal_picture::{Canvas, CanvasFault};
use line_streams::Gathered;
use picture_svg::{Frame, push_end, push_head, push_mark};
use run_picture::{Mark, Part, Place};
use std::alloc::Global;
use std::io;
use std::io::Write;

/// A canvas that writes what is drawn on it as SVG, and gathers what it writes. It lets out what is gathered
/// where a picture ends.
///
/// It is a writer too, for a text that goes where the picture would: that is written at once, in front of what
/// is still gathered.
#[derive(Drop)]
pub struct SvgCanvas<'a, W> {
    alloc: Global,
    frame: Frame,
    gathered: Gathered,
    writer: &'a mut W,
}

impl<'a, W: Write> SvgCanvas<'a, W> {
    /// Nothing is drawn yet, and nothing written.
    pub fn new(alloc: Global, writer: &'a mut W) -> SvgCanvas<'a, W>
        ensures { result.writer ≡ writer.entry }
    {
        SvgCanvas {
            alloc,
            frame: Frame {
                nodes: 0,
                clients: 0,
            },
            gathered: Gathered::new(),
            writer,
        }
    }

    /// Writes a text behind what was written.
    fn put(&mut self, text: &String) -> Result<(), CanvasFault> {
        match self.gathered.put(self.writer, text.as_bytes()) {
            Ok(()) => Ok(()),
            Err(_) => Err(CanvasFault::Write),
        }
    }
}

impl<W: Write> Canvas for SvgCanvas<'_, W> {
    ghost use Rattle.std.specs.Prelude.{None};

    // It forgets what was drawn: how that is spelled is tested, and no contract says it.
    ghost drawn = { λ _. None };

    fn begin(&mut self, nodes: u8, clients: u16, part: &Part) -> Result<(), CanvasFault> {
        self.frame = Frame { nodes, clients };
        let mut text = String::new(self.alloc);
        if push_head(self.alloc, &mut text, &self.frame, part).is_err() {
            return Err(CanvasFault::Memory);
        }
        self.put(&text)
    }

    fn draw(&mut self, mark: &Mark) -> Result<(), CanvasFault> {
        let mut text = String::new(self.alloc);
        if push_mark(self.alloc, &mut text, &self.frame, mark).is_err() {
            return Err(CanvasFault::Memory);
        }
        self.put(&text)
    }

    fn end(&mut self, at: &Place) -> Result<(), CanvasFault> {
        let mut text = String::new(self.alloc);
        if push_end(&mut text, at).is_err() {
            return Err(CanvasFault::Memory);
        }
        self.put(&text)?;
        match self.gathered.let_out(self.writer) {
            Ok(()) => Ok(()),
            Err(_) => Err(CanvasFault::Write),
        }
    }
}

impl<W: Write> Write for SvgCanvas<'_, W> {
    ghost contents = { λ c. W.contents c.writer.now };

    fn write(&mut self, bytes: &[u8]) -> io::Result<usize> {
        Write::write(&mut *self.writer, bytes)
    }

    fn flush(&mut self) -> io::Result<()> {
        Write::flush(&mut *self.writer)
    }
}
