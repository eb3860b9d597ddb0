//! The picture of the run that a trace is.

ghost use Rattle.std.specs.Prelude.{◌≡◌};
ghost use Rattle.file_answers.specs.Drawing as model;
ghost use Rattle.file_answers.specs.Drawing.{PictureGives, PictureRefuses};
ghost use Rattle.file_answers.specs.Kept.{kept_of};
ghost use Rattle.file_answers.specs.Used.{Answers, used};
ghost use Rattle.file_answers.specs.internal.Answers.{TellsPicture};

use crate::files::{Files, Source};
use crate::reading::read_run;
use crate::texts::{Names, Texts};
use command_words::Drawing;
use debug_session::{Counted, Fault, write_out};
use picture::{Pictured, picture_text};
use runs::Refusal;
use std::io::Write;

/// What the library calls that picture.
fn form_of(drawing: Drawing) -> picture::Drawing
    ensures { result ≡ model.form_of drawing }
{
    match drawing {
        Drawing::Page => picture::Drawing::Page,
        Drawing::Sheet { event, quiet } => picture::Drawing::Sheet { event, quiet },
        Drawing::Waves => picture::Drawing::Waves,
        Drawing::Data => picture::Drawing::Data,
    }
}

/// Writes the picture. Where the trace has no step of the number that is asked for the lines that say so are put into
/// `said`.
fn tell_picture<O: Write>(
    pictured: Pictured,
    said: &mut Vec<u8>,
    out: &mut Counted<O>,
) -> Result<(), Fault>
    ensures { TellsPicture pictured (used O.contents out.old out.new) said.new.items result }
{
    match pictured {
        Pictured::Text(text) => write_out(out, text.as_slice()),
        Pictured::NoSuchStep(words) => {
            *said = words;
            Err(Fault::Refused(Refusal::NoSuchEvent))
        }
    }
}

/// Draws the run of the trace.
pub fn picture_files<F: Files, O: Write>(
    from: &Source<'_, F>,
    names: &Names<'_>,
    drawing: Drawing,
    texts: &mut Texts,
    out: &mut Counted<O>,
) -> Result<(), Fault>
    ensures { Answers
        (PictureGives (F.holds from.now.files.now) names.now.file.now names.now.stimulus.now names.now.trace.now drawing)
        (PictureRefuses (F.holds from.now.files.now) names.now.file.now names.now.stimulus.now names.now.trace.now
        drawing (kept_of texts.new))
        (used O.contents out.old out.new) result }
{
    let checked = read_run(from, names, texts)?;
    let shown = picture::Names {
        file: names.file,
        stimulus: names.stimulus,
        trace: names.trace,
    };
    let pictured = picture_text(
        from.alloc,
        checked,
        texts.source.as_slice(),
        texts.trace.as_slice(),
        shown,
        form_of(drawing),
    )?;
    tell_picture(pictured, &mut texts.said, out)
}
