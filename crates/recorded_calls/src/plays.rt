// The rule of the word, and the names of its steps.

use crate::{Sequential, View};
use atomic_table::{Join, Play, Split, TableRule};
use std::marker::{Brand, PhantomData};

/// Names the entry that a pass announces. Each call picks it.
pub(crate) trait Naming<C, R> {
    ghost use Rattle.std.specs.Prelude.{List};
    ghost use Rattle.recorded_calls.specs.declared.entry.Entry.{Entry};

    ghost entries: { List (Entry C R) };
}

impl<C, R> Naming<C, R> for Brand {
    ghost use Rattle.std.specs.Prelude.{[]};

    ghost entries = { [] };
}

/// The rule over the calls of an object.
pub struct Recording<P> {
    object: PhantomData<P>,
}

impl<O, C, R, P: Sequential<O, C, R>> TableRule<u8, View<O, C, R>, O> for Recording<P> {
    ghost use Rattle.std.specs.Prelude.{[]};
    ghost use Rattle.recorded_calls.specs.Kept.{Kept};
    ghost use Rattle.recorded_calls.specs.Steps.{keeper_at};

    ghost holds = { Kept P.performs };

    ghost first = { λ opening. keeper_at opening 0 [] };
}

/// The keeper's seat makes a further pass.
pub(crate) struct Makes;

impl<O, C, R> Split<View<O, C, R>> for Makes {
    ghost use Rattle.recorded_calls.specs.Steps.{one_more, new_pass_of};

    ghost left = { one_more };

    ghost right = { new_pass_of };
}

/// A seat writes a letter with the history that it knows, and a pass reads it.
pub(crate) struct Tells;

impl<O, C, R> Split<View<O, C, R>> for Tells {
    ghost use Rattle.recorded_calls.specs.Steps.{letter_of};

    ghost left = { λ v. v };

    ghost right = { letter_of };
}

impl<O, C, R> Join<View<O, C, R>> for Tells {
    ghost use Rattle.recorded_calls.specs.Steps.{reads};
    ghost use Rattle.recorded_calls.specs.declared.view.View.TheVariants.{Nobody};

    ghost both = { reads };

    ghost spent = { Nobody };
}

/// A pass claims its entry, and the keeper's seat hears the claim.
pub(crate) struct Claims;

impl<O, C, R> Split<View<O, C, R>> for Claims {
    ghost use Rattle.recorded_calls.specs.Steps.{claim_of};

    ghost left = { λ v. v };

    ghost right = { claim_of };
}

impl<O, C, R> Join<View<O, C, R>> for Claims {
    ghost use Rattle.recorded_calls.specs.Steps.{hears};
    ghost use Rattle.recorded_calls.specs.declared.view.View.TheVariants.{Nobody};

    ghost both = { hears };

    ghost spent = { Nobody };
}

/// A pass names the entry that it is about to make.
pub(crate) struct Announce<J> {
    name: PhantomData<J>,
}

impl<O, C, R, J: Naming<C, R>> Play<u8, View<O, C, R>> for Announce<J> {
    ghost use Rattle.recorded_calls.specs.Steps.{Announces};

    ghost then = { Announces J.entries };
}

/// The keeper's seat notes the entry that was claimed.
pub(crate) struct Record;

impl<O, C, R> Play<u8, View<O, C, R>> for Record {
    ghost use Rattle.recorded_calls.specs.Steps.{Records};

    ghost then = { Records };
}

/// The keeper's seat puts the claim away: the pass that made it had seen no more than is noted.
pub(crate) struct Confirm;

impl<O, C, R> Play<u8, View<O, C, R>> for Confirm {
    ghost use Rattle.recorded_calls.specs.Steps.{Confirms};

    ghost then = { Confirms };
}

/// A pass has seen what it was told, and its entry is its own.
pub(crate) struct Adopt;

impl<O, C, R> Play<u8, View<O, C, R>> for Adopt {
    ghost use Rattle.recorded_calls.specs.Steps.{Adopts};

    ghost then = { Adopts };
}

/// A pass sees the whole history, whose length the word has.
pub(crate) struct Look<P> {
    object: PhantomData<P>,
}

impl<O, C, R, P: Sequential<O, C, R>> Play<u8, View<O, C, R>> for Look<P> {
    ghost use Rattle.recorded_calls.specs.Steps.{Looks};

    ghost then = { Looks P.performs };
}

/// A pass takes the history that it was told for what it has seen.
pub(crate) struct Take;

impl<O, C, R> Play<u8, View<O, C, R>> for Take {
    ghost use Rattle.recorded_calls.specs.Steps.{Takes};

    ghost then = { Takes };
}
