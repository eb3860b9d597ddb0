// Help: all words on one screen, or one word with an example.
use crate::Scene;
use crate::mistakes::add_unknown_word;
use crate::terms::term_of;
use crate::usage::{Usage, usage_of};
use line_text::cut_at_space;
use plain_words::Text;

/// All words.
const SCREEN: &[u8] = b"  ready, r       number the steps that can be taken; a bare number takes one
  run [N]        step the branches in turn: to a breakpoint, to the end, N steps
  next [K], n    the next step of branch K, or of the branch stepped last
  undo, back [N] take back the newest step, the newest N
  undo T         take back step T alone; roll T with all that depend on it
  rollvalue X    take back what wrote X last, with all that depend on it
  vars, value X  all variables, one variable
  why X, why T   what led to X, a variable or channel, to step T; with `all` all
  waiting        who waits for whom
  live [N]       the steps so far, the newest N in words; show T tells one step
  blame X        the last step that wrote X
  consequences T the steps that depend on step T
  list [LINE]    the source around a line: > can go on, * breakpoint, ! choice
  view           the whole source with its marks
  outline        branches, variables and channels with their numbers
  break LINE     a breakpoint on a line; clear LINE takes it off
  session K      the lines that follow are those of session K, 0 to 15
  step PLACE [ARM], branch K, trace   as in a script
  save NAME      the trace to a new file; load NAME takes the steps of a trace
  script NAME    the lines so far to a new file; save! and script! write over
  help WORD      more of one word, with an example
  help notions   names the notions of the answers, as held: help held tells it
  quit           end, as Ctrl-D and Ctrl-C do; what was saved stays
";

/// Adds help on all words, or on the one that `rest` names or begins with.
pub(crate) fn add_help(text: &mut Text, scene: &Scene<'_>, rest: &[u8]) {
    let word = rest.strip_prefix(b" ").unwrap_or(b"");
    if word.is_empty() {
        return text.add(SCREEN);
    }
    let (first, _) = cut_at_space(word);
    match (usage_of(word), term_of(word), usage_of(first)) {
        (Some(usage), _, _) => add_word(text, &usage),
        (None, Some(term), _) => term.add_to(text),
        (None, None, Some(usage)) => add_word(text, &usage),
        (None, None, None) => add_unknown_word(text, scene.alloc, word, b""),
    }
}

/// Adds help on one word.
fn add_word(text: &mut Text, usage: &Usage) {
    text.add(b"  ");
    text.add(usage.form.as_bytes());
    text.add(b"\n    ");
    text.add(usage.does.as_bytes());
    text.add(b"\n    example: ");
    text.add(usage.example.as_bytes());
    text.add(b"\n");
}
