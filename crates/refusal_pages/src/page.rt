ghost use Rattle.std.specs.Prelude.{◌≡◌, ◌++◌, IfOk, string_bytes};
ghost use Rattle.refusal_pages.specs.PageText as spec;

use std::alloc::{AllocError, Global};

/// What is said of a refusal.
#[derive(Clone, Copy)]
pub struct Page {
    pub number: u32,
    /// What stands behind the number: a byte, a line or a ticket; nothing where it is empty.
    pub field: &'static str,
    pub name: &'static str,
    pub meaning: &'static str,
    /// A source that is refused so. Empty where the example needs none of its own.
    pub source: &'static str,
    /// What is told, under the source where there is one, or a session. Empty where there is no example.
    pub told: &'static str,
    /// What it mostly comes from. Empty where nothing is to be said.
    pub causes: &'static str,
}

/// Adds each line of a text, with blanks before it.
fn add_indented(text: &mut String, shown: &str) -> Result<(), AllocError>
    ensures { IfOk result (λ _. string_bytes text.new ≡ string_bytes text.old ++ spec.indented shown.now) }
{
    for line in shown.lines() {
        text.push_str("    ")?;
        text.push_str(line)?;
        text.push_str("\n")?;
    }
    Ok(())
}

/// Adds the example, if there is one.
fn add_example(text: &mut String, source: &str, told: &str) -> Result<(), AllocError>
    ensures { IfOk result (λ _. string_bytes text.new ≡ string_bytes text.old ++ spec.example source.now told.now) }
{
    if told.is_empty() {
        return Ok(());
    }
    text.push_str("\n")?;
    add_indented(text, source)?;
    add_indented(text, told)?;
    Ok(())
}

/// Adds a part between two others, where it is not empty.
fn add_part(text: &mut String, before: &str, part: &str, behind: &str) -> Result<(), AllocError>
    ensures { IfOk result (λ _. string_bytes text.new ≡ string_bytes text.old
        ++ spec.part before.now part.now behind.now) }
{
    if part.is_empty() {
        return Ok(());
    }
    text.push_str(before)?;
    text.push_str(part)?;
    text.push_str(behind)?;
    Ok(())
}

/// The page as `balsadbg explain N` prints it. It ends with the end of a line.
pub fn page_text(alloc: Global, page: &Page) -> Result<String, AllocError>
    ensures { IfOk result (λ text. string_bytes text ≡ spec.page_text page.now) }
{
    let mut text = summary(alloc, page)?;
    text.push_str("\n")?;
    text.push_str(page.meaning)?;
    text.push_str("\n")?;
    add_example(&mut text, page.source, page.told)?;
    add_part(&mut text, "\nUsual causes: ", page.causes, "\n")?;
    Ok(text)
}

/// The first line of the page: number, what stands behind it, and name.
pub fn summary(alloc: Global, page: &Page) -> Result<String, AllocError>
    ensures { IfOk result (λ text. string_bytes text ≡ spec.summary page.now) }
{
    let number = page.number;
    let mut text = format!(in alloc; "refused {number}")?;
    add_part(&mut text, " ", page.field, "")?;
    text.push_str(": ")?;
    text.push_str(page.name)?;
    text.push_str("\n")?;
    Ok(text)
}
