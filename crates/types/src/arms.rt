// What the arms of `if`, `case`, `select` and `arbitrate` owe as a whole, beside what each of them is.
ghost use Rattle.std.specs.Prelude.{◌≡◌, [], ◌∷◌, Ok, IfOk, OnOk, map};
ghost use Rattle.types.specs.Arms as spec;
ghost use Rattle.types.specs.Findings as findings;
ghost use Rattle.types.specs.internal.Least.{least};
ghost use Rattle.types.specs.internal.Owed as owed;
ghost use Rattle.types.specs.internal.Scopes.{entries};
ghost use Rattle.types.specs.declared.tree.Action.TheVariants as typed;

use crate::expression::{Valued, least_value};
use crate::scope::{Names, Scope};
use crate::verdict::{Settled, Verdict, and, both, with_next};
use crate::{
    Action, Arm, Binding, ChannelUse, Command, Expression, Fault, Guarded, Labelled, uses,
};
use indexmap::IndexSet;
use std::alloc::{AllocError, Global};
use syntax::{Boxed, Items, Label, LabelValue};
use value::Value;

/// Arms, and what they owe as a whole where each of them is right.
#[derive(Drop)]
pub(crate) struct Arms<T> {
    pub(crate) arms: Verdict<Items<T>>,
    pub(crate) own: Verdict<()>,
}

/// An `if` with these arms and what stands after `else`.
pub(crate) fn conditional(arms: Arms<Guarded>, last: Verdict<Option<Command>>) -> Verdict<Action>
    ensures { result ≡ owed.conditional_owing arms.arms arms.own last }
{
    let Arms { arms, own } = arms;
    let (arms, last) = both(arms, last)?;
    own?;
    Ok(Action::If(arms, last))
}

/// An arm of `if`.
pub(crate) fn guarded(guard: Verdict<Valued>, body: Verdict<Command>) -> Verdict<Guarded>
    ensures { result ≡ findings.becomes owed.guarded_by (findings.both least guard body) }
{
    let (guard, body) = both(guard, body)?;
    Ok(Guarded {
        guard: guard.expression,
        body,
    })
}

/// That a guard that is right is one bit wide.
pub(crate) fn one_bit(guard: &Verdict<Valued>, start: u64) -> Verdict<()>
    ensures { result ≡ owed.guard_owes guard.now start }
{
    match guard {
        Ok(guard) => {
            if guard.width == 1 {
                Ok(())
            } else {
                Err(Fault::GuardNotOneBit(start))
            }
        }
        Err(_) => Ok(()),
    }
}

/// A `case` over the expression with these arms and what stands after `else`.
pub(crate) fn cased(
    alloc: Global,
    subject: Verdict<Valued>,
    arms: Arms<Labelled>,
    last: Verdict<Option<Command>>,
) -> Settled<Action>
    ensures { IfOk result (λ made. made ≡ owed.case_owing subject arms.arms arms.own last) }
{
    let Arms { arms, own } = arms;
    match both(subject, both(arms, last)) {
        Ok((subject, (arms, last))) => case_of(alloc, subject.expression, arms, last, own),
        Err(fault) => Ok(Err(fault)),
    }
}

/// A `case` over the expression with these arms, where it owes no more.
fn case_of(
    alloc: Global,
    subject: Expression,
    arms: Items<Labelled>,
    last: Option<Command>,
    own: Verdict<()>,
) -> Settled<Action>
    ensures { IfOk result (λ made. made ≡ findings.becomes (λ _. typed.Case subject arms last) own) }
{
    match own {
        Ok(()) => {
            let subject = Boxed::new(alloc, subject)?;
            Ok(Ok(Action::Case(subject, arms, last)))
        }
        Err(fault) => Ok(Err(fault)),
    }
}

/// How wide the expression is, if it is right.
pub(crate) fn width_of(subject: &Verdict<Valued>) -> u8
    ensures { result ≡ owed.width_of subject.now }
{
    match subject {
        Ok(subject) => subject.width,
        Err(_) => 0,
    }
}

/// A label with its value, and where it stands.
#[derive(Clone, Copy)]
pub(crate) struct LabelUse {
    offset: u64,
    value: Value,
}

/// The labels of one arm of a `case`.
pub(crate) fn settled_labels(
    alloc: Global,
    scope: &Scope,
    opened: &[Binding],
    labels: &[Label],
) -> Settled<Items<LabelUse>>
    ensures { IfOk result (λ made. made ≡ spec.judged_labels least (entries scope.now.names) opened.now labels.now) }
{
    let mut settled = Ok(Items::with_capacity(alloc, labels.len())?);
    for label in labels {
        settled = with_next(settled, settled_label(&scope.names, opened, label))?;
    }
    Ok(settled)
}

fn settled_label(names: &Names, opened: &[Binding], label: &Label) -> Verdict<LabelUse>
    ensures { result ≡ spec.judged_label (entries names.now) opened.now label.now }
{
    let offset = label.span.start;
    let value = match &label.value {
        LabelValue::Number(number) => least_value(*number),
        LabelValue::Name(name) => uses::label_use(names.find(opened, name), offset)?,
    };
    Ok(LabelUse { offset, value })
}

/// That the labels, if they are right, are no wider than the expression and have values that were not seen before.
pub(crate) fn new_labels(
    seen: &mut IndexSet<u64>,
    width: u8,
    labels: &Verdict<Items<LabelUse>>,
) -> Settled<()>
    ensures made { IfOk result (λ made. made ≡ owed.labels_owe width seen.old.keys labels.now) }
    ensures seen { OnOk result (seen.new.keys ≡ owed.seen_after seen.old.keys labels.now) }
{
    match labels {
        Ok(labels) => all_new(seen, width, labels.as_slice()),
        Err(_) => Ok(Ok(())),
    }
}

fn all_new(seen: &mut IndexSet<u64>, width: u8, labels: &[LabelUse]) -> Settled<()>
    ensures made { IfOk result (λ made.
        made ≡ findings.demands least (spec.new_labels width seen.old.keys labels.now)) }
    ensures seen { OnOk result (seen.new.keys ≡ owed.with_all_seen seen.old.keys labels.now) }
{
    let mut outcome = Ok(());
    for label in labels {
        outcome = and(outcome, new_label(seen, width, *label)?);
    }
    Ok(outcome)
}

fn new_label(seen: &mut IndexSet<u64>, width: u8, label: LabelUse) -> Settled<()>
    ensures made { IfOk result (λ made. made ≡ spec.new_label width seen.old.keys label) }
    ensures seen { OnOk result (seen.new.keys ≡ spec.with_seen seen.old.keys label.value.bits) }
{
    let is_new = seen.insert(label.value.bits())?;
    if is_new && label.value.width() <= width {
        Ok(Ok(()))
    } else {
        Ok(Err(Fault::BadArm(label.offset)))
    }
}

/// An arm of `case`.
pub(crate) fn labelled(
    alloc: Global,
    labels: Verdict<Items<LabelUse>>,
    body: Verdict<Command>,
) -> Settled<Labelled>
    ensures { IfOk result (λ made. made ≡ findings.becomes owed.labelled_by (findings.both least labels body)) }
{
    match both(labels, body) {
        Ok((labels, body)) => Ok(Ok(Labelled {
            labels: values_of(alloc, labels.as_slice())?,
            body,
        })),
        Err(fault) => Ok(Err(fault)),
    }
}

fn values_of(alloc: Global, labels: &[LabelUse]) -> Result<Items<u64>, AllocError>
    ensures { IfOk result (λ made. made ≡ map (λ l. l.value.bits) labels.now) }
{
    let mut values = Items::with_capacity(alloc, labels.len())?;
    for label in labels {
        values.push(label.value.bits())?;
    }
    Ok(values)
}

/// An arm of `select` or `arbitrate`.
#[tactic(auto, unfolding(crate::specs::Arms::arm_of))]
pub(crate) fn arm_of(channel: Verdict<ChannelUse>, body: Verdict<Command>) -> Verdict<Arm>
    ensures { result ≡ spec.arm_of least channel body }
{
    let (channel, body) = both(channel, body)?;
    Ok(Arm { channel, body })
}

/// The arms, of which no two may be on one channel.
#[tactic(auto, unfolding(crate::specs::Arms::distinct))]
pub(crate) fn distinct(alloc: Global, arms: Verdict<Items<Arm>>) -> Settled<Items<Arm>>
    ensures { IfOk result (λ made. made ≡ spec.distinct least arms) }
{
    match arms {
        Ok(arms) => match different_channels(alloc, arms.as_slice())? {
            Ok(()) => Ok(Ok(arms)),
            Err(fault) => Ok(Err(fault)),
        },
        Err(fault) => Ok(Err(fault)),
    }
}

/// That no channel stands in two of the arms.
fn different_channels(alloc: Global, arms: &[Arm]) -> Settled<()>
    ensures { IfOk result (λ made.
        made ≡ findings.demands least (spec.new_channels [] (map spec.channel_of_arm arms.now))) }
{
    let mut seen = IndexSet::new(alloc);
    different(&mut seen, arms)
}

/// That no channel stands in two of the arms, nor was seen before.
fn different(seen: &mut IndexSet<Binding>, arms: &[Arm]) -> Settled<()>
    ensures { IfOk result (λ made.
        made ≡ findings.demands least (spec.new_channels seen.old.keys (map spec.channel_of_arm arms.now))) }
{
    let mut outcome = Ok(());
    for arm in arms {
        outcome = and(outcome, new_channel(seen, arm.channel)?);
    }
    Ok(outcome)
}

fn new_channel(seen: &mut IndexSet<Binding>, channel: ChannelUse) -> Settled<()>
    ensures made { IfOk result (λ made. made ≡ spec.new_channel seen.old.keys channel) }
    ensures seen { OnOk result (seen.new.keys ≡ spec.with_channel seen.old.keys channel.channel) }
{
    if seen.insert(channel.channel)? {
        Ok(Ok(()))
    } else {
        Ok(Err(Fault::BadArm(channel.offset)))
    }
}
