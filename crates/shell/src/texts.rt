/// What a session is begun with: the bytes of the description and of the stimulus, and those of a trace if it begins
/// behind one.
#[derive(Clone, Copy)]
pub struct Texts<'a> {
    pub source: &'a [u8],
    pub stimulus: &'a [u8],
    pub trace: Option<&'a [u8]>,
}
