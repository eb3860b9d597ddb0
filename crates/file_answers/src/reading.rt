//! What the files of a request hold, and the system that they describe.

ghost use Rattle.std.specs.Prelude.{◌≡◌, Some, MatchResult};
ghost use Rattle.file_answers.specs.Answering.{CheckRefuses, FilesDescribe, FilesRefuse, NotHad, TextsHad, TextsNotHad};
ghost use Rattle.file_answers.specs.Kept.{kept_of};
ghost use Rattle.file_answers.specs.internal.Answers.{RunHad, RunNotHad, SourceGives};

use crate::files::{Files, Source};
use crate::texts::{Names, Part, Texts};
use debug_session::{Fault, accept, accept_leaving};
use sharing_check::Checked;
use types::Typed;

/// Keeps what the description of this name holds.
fn read_source<F: Files>(from: &Source<'_, F>, file: &str, texts: &mut Texts) -> Result<(), Fault>
    ensures { MatchResult result (λ _. F.holds from.now.files.now file.now (Some texts.new.source.items))
        (NotHad (F.holds from.now.files.now file.now)) }
{
    texts.last = Part::Source;
    let source = from.files.read(from.alloc, file, &mut texts.why)?;
    texts.source = source;
    Ok(())
}

/// The system that the description of this name describes without a stimulus. Its typed source is put into `left`.
pub fn accepted_source<F: Files>(
    from: &Source<'_, F>,
    file: &str,
    texts: &mut Texts,
    left: &mut Option<Typed>,
) -> Result<Checked, Fault>
    ensures { MatchResult result (SourceGives (F.holds from.now.files.now) file.now texts.new.source.items)
        (CheckRefuses (F.holds from.now.files.now) file.now (kept_of texts.new)) }
{
    read_source(from, file, texts)?;
    accept_leaving(from.alloc, texts.source.as_slice(), b"", left)
}

/// Keeps what the files of these names hold, of which that of the stimulus is read behind that of the source.
pub fn read_texts<F: Files>(
    from: &Source<'_, F>,
    file: &str,
    stimulus: &str,
    texts: &mut Texts,
) -> Result<(), Fault>
    ensures { MatchResult result
        (λ _. TextsHad (F.holds from.now.files.now) file.now stimulus.now texts.new.source.items texts.new.values.items)
        (TextsNotHad (F.holds from.now.files.now) file.now stimulus.now) }
{
    read_source(from, file, texts)?;
    texts.last = Part::Stimulus;
    let values = from.files.read(from.alloc, stimulus, &mut texts.why)?;
    texts.values = values;
    Ok(())
}

/// The system that the files of these names describe.
pub fn read_system<F: Files>(
    from: &Source<'_, F>,
    file: &str,
    stimulus: &str,
    texts: &mut Texts,
) -> Result<Checked, Fault>
    ensures { MatchResult result
        (FilesDescribe (F.holds from.now.files.now) file.now stimulus.now texts.new.source.items)
        (FilesRefuse (F.holds from.now.files.now) file.now stimulus.now (kept_of texts.new)) }
{
    read_texts(from, file, stimulus, texts)?;
    accept(from.alloc, texts.source.as_slice(), texts.values.as_slice())
}

/// Keeps what the trace of this name holds, beside what is kept already.
pub fn read_trace<F: Files>(
    from: &Source<'_, F>,
    trace: &str,
    texts: &mut Texts,
) -> Result<(), Fault>
    ensures { MatchResult result
        (λ _. F.holds from.now.files.now trace.now (Some texts.new.trace.items)
        × (texts.new.source ≡ texts.old.source) × (texts.new.values ≡ texts.old.values))
        (NotHad (F.holds from.now.files.now trace.now)) }
{
    texts.last = Part::Trace;
    let steps = from.files.read(from.alloc, trace, &mut texts.why)?;
    texts.trace = steps;
    Ok(())
}

/// The same as `read_system`, and what the trace holds is kept. The description is accepted before it is read.
pub fn read_run<F: Files>(
    from: &Source<'_, F>,
    names: &Names<'_>,
    texts: &mut Texts,
) -> Result<Checked, Fault>
    ensures { MatchResult result
        (λ system. RunHad (F.holds from.now.files.now) names.now.file.now names.now.stimulus.now names.now.trace.now
        texts.new.source.items system texts.new.trace.items)
        (RunNotHad (F.holds from.now.files.now) names.now.file.now names.now.stimulus.now names.now.trace.now
        (kept_of texts.new)) }
{
    let checked = read_system(from, names.file, names.stimulus, texts)?;
    read_trace(from, names.trace, texts)?;
    Ok(checked)
}
