// The page.
ghost use Rattle.std.specs.Prelude.{◌≡◌, ◌++◌, IfOk, OnOk};
ghost use Rattle.picture_text.specs.PageText as model;

use crate::page_before::BEFORE;
use crate::page_drawing::DRAWING;
use crate::page_panel::PANEL;
use std::alloc::{AllocError, Global};
use text_parts::add_words;

/// The page with this text of JSON in its script. It is an error if there is no memory.
///
/// Its fixed parts are those of `page/page.html`, before and behind the script of the data.
pub fn page_text(alloc: Global, json: &[u8]) -> Result<Vec<u8>, AllocError>
    ensures { IfOk result (λ made. made.items ≡ model.page_text json.now) }
{
    let mut made = Vec::new(alloc);
    made.extend_from_slice(BEFORE.as_bytes())?;
    add_script(&mut made, json)?;
    made.extend_from_slice(DRAWING.as_bytes())?;
    made.extend_from_slice(PANEL.as_bytes())?;
    Ok(made)
}

/// Adds the script of the data, which is this text of JSON: a browser does not run it. Without memory a part of it may
/// be there.
fn add_script(made: &mut Vec<u8>, json: &[u8]) -> Result<(), AllocError>
    ensures { OnOk result (made.new.items ≡ made.old.items ++ model.script_text json.now) }
{
    add_words(made, b"<script id=\"run\" type=\"application/json\">")?;
    made.extend_from_slice(json)?;
    add_words(made, b"</script>")
}
