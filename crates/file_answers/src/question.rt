//! What is answered to people's questions about the files of a request.

ghost use Rattle.file_answers.specs.Answering.{CheckRefuses, OutlineGives, PageGives, PageRefuses, ReplayRefuses};
ghost use Rattle.file_answers.specs.Answering.{WaitingGives, WhyGives, WhyRefuses};
ghost use Rattle.file_answers.specs.Kept.{kept_of};
ghost use Rattle.file_answers.specs.Used.{Answers, used};
ghost use Rattle.file_answers.specs.internal.Answers.{TellsWhy};

use crate::files::{Files, Source};
use crate::reading::{accepted_source, read_run};
use crate::texts::{Names, Texts};
use debug_session::{Counted, Fault, write_out};
use questions::{Why, outline_text, waiting_text, why_text};
use refusal_pages::{Page, page_text};
use std::alloc::Global;
use std::io::Write;

/// A question why. `subject` is the name of a variable, or the ticket of a step.
#[derive(Clone, Copy)]
pub struct Question<'a> {
    pub subject: &'a str,
    pub all: bool,
}

/// Shows the page of a refusal.
pub fn show_page<O: Write>(alloc: Global, page: &Page, out: &mut Counted<O>) -> Result<(), Fault>
    ensures { Answers (PageGives page.now) PageRefuses (used O.contents out.old out.new) result }
{
    let text = page_text(alloc, page)?;
    write_out(out, text.as_bytes())
}

/// Tells what the description in `file` has.
pub fn outline_file<F: Files, O: Write>(
    from: &Source<'_, F>,
    file: &str,
    texts: &mut Texts,
    out: &mut Counted<O>,
) -> Result<(), Fault>
    ensures { Answers (OutlineGives (F.holds from.now.files.now) file.now)
        (CheckRefuses (F.holds from.now.files.now) file.now (kept_of texts.new))
        (used O.contents out.old out.new) result }
{
    let checked = accepted_source(from, file, texts, &mut None)?;
    let text = outline_text(from.alloc, &checked, texts.source.as_slice())?;
    write_out(out, text.as_slice())
}

/// Tells who waits behind the trace.
pub fn waiting_files<F: Files, O: Write>(
    from: &Source<'_, F>,
    names: &Names<'_>,
    texts: &mut Texts,
    out: &mut Counted<O>,
) -> Result<(), Fault>
    ensures { Answers
        (WaitingGives (F.holds from.now.files.now) names.now.file.now names.now.stimulus.now names.now.trace.now)
        (ReplayRefuses (F.holds from.now.files.now) names.now.file.now names.now.stimulus.now names.now.trace.now
        (kept_of texts.new)) (used O.contents out.old out.new) result }
{
    let checked = read_run(from, names, texts)?;
    let text = waiting_text(from.alloc, checked, texts.trace.as_slice())?;
    write_out(out, text.as_slice())
}

/// Writes the lines that tell why. Where it cannot be told the lines that say so are put into `said`.
fn tell_why<O: Write>(why: Why, said: &mut Vec<u8>, out: &mut Counted<O>) -> Result<(), Fault>
    ensures { TellsWhy why (used O.contents out.old out.new) said.new.items result }
{
    match why {
        Why::Told(lines) => write_out(out, lines.as_slice()),
        Why::Refused(reason, words) => {
            *said = words;
            Err(Fault::Refused(reason))
        }
    }
}

/// Tells why what is asked about is so behind the trace.
pub fn why_files<F: Files, O: Write>(
    from: &Source<'_, F>,
    names: &Names<'_>,
    asked: &Question<'_>,
    texts: &mut Texts,
    out: &mut Counted<O>,
) -> Result<(), Fault>
    ensures { Answers
        (WhyGives (F.holds from.now.files.now) names.now.file.now names.now.stimulus.now names.now.trace.now
        asked.now.subject.now asked.now.all)
        (WhyRefuses (F.holds from.now.files.now) names.now.file.now names.now.stimulus.now names.now.trace.now
        asked.now.subject.now asked.now.all (kept_of texts.new))
        (used O.contents out.old out.new) result }
{
    let checked = read_run(from, names, texts)?;
    let why = why_text(
        from.alloc,
        checked,
        texts.trace.as_slice(),
        asked.subject,
        asked.all,
    )?;
    tell_why(why, &mut texts.said, out)
}
