ghost use Rattle.std.specs.Prelude.{◌≡◌, ◌↔◌, ◌∷◌, [], IsTrue, IsSome, IfSome};
ghost use Rattle.refusal_pages.specs.Numbers.{among, is_refusal, of_editors};

use crate::{Page, answers, editor, files, form, names, sharing};

/// The numbers of all refusals, from the least to the greatest.
pub static NUMBERS: [u32; 45] = [
    1, 2, 3, 4, 5, 6, 7, 8, 9, 10, 11, 12, 13, 14, 15, 16, 17, 21, 22, 23, 24, 25, 26, 27, 28, 31,
    32, 33, 34, 41, 42, 51, 61, 101, 102, 103, 104, 105, 106, 107, 108, 109, 110, 111, 113,
];

/// The page of the refusal with this number; none where no refusal has it.
pub fn page_of(number: u32) -> Option<&'static Page>
    ensures each { IsSome result ↔ IsTrue (is_refusal number) }
    ensures right { IfSome result (λ page. page.now.number ≡ number) }
{
    match number {
        1..=6 => form_page(number),
        7..=13 | 17 => names_page(number),
        14..=16 => sharing_page(number),
        21..=28 => answers_page(number),
        101..=113 => editor_page(number),
        _ => files_page(number),
    }
}

/// The page of a refusal of a byte, a word or the form of a source, or of want of memory.
fn form_page(number: u32) -> Option<&'static Page>
    ensures each { IsSome result ↔ IsTrue (among number (1 ∷ 2 ∷ 3 ∷ 4 ∷ 5 ∷ 6 ∷ [])) }
    ensures right { IfSome result (λ page. page.now.number ≡ number) }
{
    match number {
        1 => Some(&form::MEMORY),
        2 => Some(&form::BAD_CHARACTER),
        3 => Some(&form::OPEN_COMMENT),
        4 => Some(&form::NUMBER_TOO_LARGE),
        5 => Some(&form::UNEXPECTED),
        6 => Some(&form::TOO_DEEP),
        _ => None,
    }
}

/// The page of a refusal of names, kinds and widths.
fn names_page(number: u32) -> Option<&'static Page>
    ensures each { IsSome result ↔ IsTrue (among number (7 ∷ 8 ∷ 9 ∷ 10 ∷ 11 ∷ 12 ∷ 13 ∷ 17 ∷ [])) }
    ensures right { IfSome result (λ page. page.now.number ≡ number) }
{
    match number {
        7 => Some(&names::UNKNOWN_NAME),
        8 => Some(&names::NAME_TWICE),
        9 => Some(&names::WRONG_KIND),
        10 => Some(&names::TOO_WIDE),
        11 => Some(&names::GUARD_NOT_ONE_BIT),
        12 => Some(&names::BAD_ARM),
        13 => Some(&names::PORT_MISMATCH),
        17 => Some(&names::ENCLOSED_TWICE),
        _ => None,
    }
}

/// The page of a refusal of a system.
fn sharing_page(number: u32) -> Option<&'static Page>
    ensures each { IsSome result ↔ IsTrue (among number (14 ∷ 15 ∷ 16 ∷ [])) }
    ensures right { IfSome result (λ page. page.now.number ≡ number) }
{
    match number {
        14 => Some(&sharing::TOO_MANY_NODES),
        15 => Some(&sharing::SHARED_VARIABLE),
        16 => Some(&sharing::SHARED_CHANNEL),
        _ => None,
    }
}

/// The page of a refusal of a line of a script that cannot be done.
fn answers_page(number: u32) -> Option<&'static Page>
    ensures each { IsSome result ↔ IsTrue (among number (21 ∷ 22 ∷ 23 ∷ 24 ∷ 25 ∷ 26 ∷ 27 ∷ 28 ∷ [])) }
    ensures right { IfSome result (λ page. page.now.number ≡ number) }
{
    match number {
        21 => Some(&answers::NOT_READY),
        22 => Some(&answers::HISTORY_FULL),
        23 => Some(&answers::NO_SUCH_EVENT),
        24 => Some(&answers::NEEDED_BY),
        25 => Some(&answers::NEVER_WRITTEN),
        26 => Some(&answers::SPENT),
        27 => Some(&answers::BREAKS_FULL),
        28 => Some(&answers::NO_SUCH_LINE),
        _ => None,
    }
}

/// The page of a refusal of a trace, a file, a stimulus or a script that cannot be read.
fn files_page(number: u32) -> Option<&'static Page>
    ensures each { IsSome result ↔ IsTrue (among number (31 ∷ 32 ∷ 33 ∷ 34 ∷ 41 ∷ 42 ∷ 51 ∷ 61 ∷ [])) }
    ensures right { IfSome result (λ page. page.now.number ≡ number) }
{
    match number {
        31 => Some(&files::BAD_HEADER),
        32 => Some(&files::BAD_LINE),
        33 => Some(&files::NOT_A_STEP),
        34 => Some(&files::NOT_CANONICAL),
        41 => Some(&files::READ_FAILED),
        42 => Some(&files::WRITE_FAILED),
        51 => Some(&files::BAD_STIMULUS),
        61 => Some(&files::BAD_COMMAND),
        _ => None,
    }
}

/// The page of a refusal of a request of an editor.
fn editor_page(number: u32) -> Option<&'static Page>
    ensures each { IsSome result ↔ IsTrue (among number of_editors) }
    ensures right { IfSome result (λ page. page.now.number ≡ number) }
{
    match number {
        101 => Some(&editor::UNKNOWN_REQUEST),
        102 => Some(&editor::NOT_INITIALIZED),
        103 => Some(&editor::NOTHING_LAUNCHED),
        104 => Some(&editor::BAD_ARGUMENT),
        105 => Some(&editor::NO_THREAD),
        106 => Some(&editor::ONLY_PATHS),
        107 => Some(&editor::LAUNCHED_ALREADY),
        108 => Some(&editor::NO_PROGRAM),
        109 => Some(&editor::NO_FRAME),
        110 => Some(&editor::NO_VARIABLES),
        111 => Some(&editor::NOTHING_REFUSED),
        113 => Some(&editor::NO_ATTACHING),
        _ => None,
    }
}
