ghost use Rattle.std.specs.Prelude.{◌≡◌};
ghost use Rattle.command_words.specs.Words.{drawing_of, unmarked};

/// Which picture of a run is to be drawn.
#[derive(Clone, Copy)]
pub enum Drawing {
    /// A page for a browser.
    Page,
    /// A drawing for a document: with the causes and the consequences of the step of this number, if one is given;
    /// where it is `quiet`, without turns and tests.
    Sheet { event: Option<u64>, quiet: bool },
    /// A value change dump.
    Waves,
    /// The data of the page alone.
    Data,
}

/// Which forms of a picture the options ask for.
#[derive(Clone, Copy)]
pub struct Forms {
    pub svg: bool,
    pub vcd: bool,
    pub json: bool,
}

/// The picture of these forms with what `--event` and `--quiet` ask for; `None` where there is more than one form, or
/// where they stand beside another than `--svg`.
pub fn drawing_of(forms: Forms, event: Option<u64>, quiet: bool) -> Option<Drawing>
    ensures { result ≡ drawing_of forms.svg forms.vcd forms.json event quiet }
{
    match (forms.svg, forms.vcd, forms.json) {
        (true, false, false) => Some(Drawing::Sheet { event, quiet }),
        (false, false, false) => unmarked(Drawing::Page, event, quiet),
        (false, true, false) => unmarked(Drawing::Waves, event, quiet),
        (false, false, true) => unmarked(Drawing::Data, event, quiet),
        (true, true, false) => None,
        (true, false, true) => None,
        (false, true, true) => None,
        (true, true, true) => None,
    }
}

/// The picture, where no step is given and nothing is to be left out.
fn unmarked(drawing: Drawing, event: Option<u64>, quiet: bool) -> Option<Drawing>
    ensures { result ≡ unmarked drawing event quiet }
{
    match (event, quiet) {
        (None, false) => Some(drawing),
        (None, true) => None,
        (Some(_), _) => None,
    }
}
