// Which channels are used by more branches at one time than may use them.
//
// Each part of a command that is a branch gets a table by channel. Where tables are put together, the entries of the
// smaller go into the larger, so that an entry moves no more often than the number of nodes has binary digits.
ghost use Rattle.std.specs.Prelude.{◌≡◌, ℕ, None, nat_eq, map, IfOk, OnOk, MatchOption};
ghost use Rattle.std.specs.Option.{option_map};
ghost use Rattle.indexmap.specs.IndexMap.{IsUnique};
ghost use Rattle.system.specs.Translation.{residual_of};
ghost use Rattle.system.specs.internal.ArmParts.{guarded_of, labelled_of, arm_of};
ghost use Rattle.sharing_check.specs.declared.widths.Together.TheVariants.{InOneBranch};
ghost use Rattle.sharing_check.specs.internal.Counting as model;
ghost use Rattle.sharing_rule.specs.Rule.{is_sync};
ghost use Rattle.sharing_check.specs.Refusal.{PassesAt, Least};

use indexmap::IndexMap;
use std::alloc::{AllocError, Global};
use std::mem;
use system::{Action, Arm, Branch, ChannelKind, Command, Guarded, Labelled, System};

/// How the uses of two parts go together.
#[derive(Clone, Copy)]
enum Together {
    /// one at a time
    InOneBranch,
    /// at one time
    InBranches,
}

/// How many branches use a channel at one time, 255 where they are more.
#[derive(Clone, Copy)]
struct Width {
    /// those that send, or make a handshake without data
    senders: u8,
    /// those that receive, or make a handshake without data
    receivers: u8,
    /// those that do any of these
    users: u8,
}

impl Width {
    const NONE: Width = Width {
        senders: 0,
        receivers: 0,
        users: 0,
    };

    const SEND: Width = Width {
        senders: 1,
        receivers: 0,
        users: 1,
    };
    /// A receive, or an input that is opened.
    const RECEIVE: Width = Width {
        senders: 0,
        receivers: 1,
        users: 1,
    };

    const SYNC: Width = Width {
        senders: 1,
        receivers: 1,
        users: 1,
    };

    /// Of the uses of two parts.
    fn join(self, how: Together, other: Width) -> Width
        ensures { result ≡ model.join_widths how self other }
    {
        match how {
            Together::InOneBranch => Width {
                senders: self.senders.max(other.senders),
                receivers: self.receivers.max(other.receivers),
                users: self.users.max(other.users),
            },
            Together::InBranches => Width {
                senders: self.senders.saturating_add(other.senders),
                receivers: self.receivers.saturating_add(other.receivers),
                users: self.users.saturating_add(other.users),
            },
        }
    }
}

/// The most channels of a table that is emptied rather than dropped.
const FEW: usize = 64;

/// How many branches use each channel at one time.
#[derive(Drop)]
struct Widths {
    /// the channels that are used, by their numbers
    by_channel: IndexMap<u32, Width>,
}

impl Widths {
    /// No uses.
    fn new(alloc: Global) -> Widths
        ensures { model.table_of_widths result ≡ model.nothing }
    {
        Widths {
            by_channel: IndexMap::new(alloc),
        }
    }

    /// How many branches use the channel.
    fn of(&self, channel: u32) -> Width
        ensures { result ≡ model.stored self.now.by_channel.entries channel }
    {
        match self.by_channel.get(&channel) {
            Some(width) => *width,
            None => Width::NONE,
        }
    }

    /// Adds uses of the channel.
    fn add(&mut self, how: Together, channel: u32, width: Width) -> Result<(), AllocError>
        ensures { OnOk result (model.table_of_widths self.new
            ≡ model.join how (model.table_of_widths self.old) (model.uses channel width)) }
    {
        let width = self.of(channel).join(how, width);
        self.by_channel.insert(channel, width)?;
        Ok(())
    }

    /// Adds each of the uses.
    fn add_each(&mut self, how: Together, other: &Widths) -> Result<(), AllocError>
        ensures { OnOk result (model.table_of_widths self.new
            ≡ model.join how (model.table_of_widths self.old) (model.table_of_widths other.now)) }
    {
        for (channel, width) in &other.by_channel {
            self.add(how, *channel, *width)?;
        }
        Ok(())
    }

    /// Forgets all uses. A table of few keeps its memory: to empty a large one takes long.
    fn clear(&mut self)
        ensures { model.table_of_widths self.new ≡ model.nothing }
    {
        if self.by_channel.len() > FEW {
            *self = Widths::new(*self.by_channel.allocator());
            return;
        }
        self.by_channel.clear();
    }

    /// Puts both together, and leaves the other one without uses, so that its memory serves again.
    #[tactic(auto, using(crate::proofs::CountTables::join_swaps))]
    fn merge(&mut self, how: Together, other: &mut Widths) -> Result<(), AllocError>
        ensures merged { OnOk result (model.table_of_widths self.new
            ≡ model.join how (model.table_of_widths self.old) (model.table_of_widths other.old)) }
        ensures emptied { OnOk result (model.table_of_widths other.new ≡ model.nothing) }
    {
        // Most branches use no channel.
        if other.by_channel.is_empty() {
            return Ok(());
        }
        put_larger_first(self, other);
        self.add_each(how, other)?;
        other.clear();
        Ok(())
    }
}

/// Makes the one with fewer channels the second.
fn put_larger_first(one: &mut Widths, other: &mut Widths)
    ensures larger { one.new ≡ model.larger one.old other.old }
    ensures smaller { other.new ≡ model.smaller one.old other.old }
{
    if one.by_channel.len() < other.by_channel.len() {
        mem::swap(one, other);
    }
}

/// Adds the uses of a command.
#[cycle(widths)]
fn add_command(alloc: Global, command: &Command, widths: &mut Widths) -> Result<(), AllocError>
    ensures { OnOk result (model.table_of_widths widths.new
        ≡ model.adding (model.table_of_widths widths.old) (residual_of command.now)) }
{
    let one = Together::InOneBranch;
    match command.action.get() {
        Action::Continue | Action::Halt | Action::Assign(_, _, _) => Ok(()),
        Action::Send(channel, _, _) => widths.add(one, channel.number, Width::SEND),
        Action::Receive(channel, _) => widths.add(one, channel.number, Width::RECEIVE),
        Action::Sync(channel) => widths.add(one, channel.number, Width::SYNC),
        Action::Loop(body) => add_command(alloc, body, widths),
        Action::While(_, body) => add_command(alloc, body, widths),
        Action::If(arms, last) => {
            add_guarded(alloc, arms.as_slice(), widths)?;
            add_last(alloc, last, widths)
        }
        Action::Case(_, arms, last) => {
            add_labelled(alloc, arms.as_slice(), widths)?;
            add_last(alloc, last, widths)
        }
        Action::Input(channel, body) => {
            widths.add(one, channel.number, Width::RECEIVE)?;
            add_command(alloc, body, widths)
        }
        Action::Select(arms) | Action::Arbitrate(arms) => add_arms(alloc, arms.as_slice(), widths),
        Action::Sequence(children) => add_commands(alloc, children.as_slice(), widths),
        Action::Parallel(children) => add_parallel(alloc, children.as_slice(), widths),
    }
}

/// Adds the uses of the children of a parallel, side by side. It is a function of its own, so that the recursion takes
/// little stack where a command has another form.
#[cycle(widths)]
#[inline(never)]
fn add_parallel(alloc: Global, children: &[Command], widths: &mut Widths) -> Result<(), AllocError>
    ensures { OnOk result (model.table_of_widths widths.new
        ≡ model.join InOneBranch (model.table_of_widths widths.old)
        (model.side_by_side model.nothing (map residual_of children.now))) }
{
    let mut branches = of_branches(alloc, children)?;
    widths.merge(Together::InOneBranch, &mut branches)
}

/// Adds the uses of commands in one branch.
#[cycle(widths)]
fn add_commands(alloc: Global, commands: &[Command], widths: &mut Widths) -> Result<(), AllocError>
    ensures { OnOk result (model.table_of_widths widths.new
        ≡ model.in_turn (model.table_of_widths widths.old) (map residual_of commands.now)) }
{
    for command in commands {
        add_command(alloc, command, widths)?;
    }
    Ok(())
}

/// Adds the uses of the arms of an `if`.
#[cycle(widths)]
fn add_guarded(alloc: Global, arms: &[Guarded], widths: &mut Widths) -> Result<(), AllocError>
    ensures { OnOk result (model.table_of_widths widths.new
        ≡ model.in_turn (model.table_of_widths widths.old) (map (λ a. a.body) (map guarded_of arms.now))) }
{
    for arm in arms {
        add_command(alloc, &arm.body, widths)?;
    }
    Ok(())
}

/// Adds the uses of the arms of a `case`.
#[cycle(widths)]
fn add_labelled(alloc: Global, arms: &[Labelled], widths: &mut Widths) -> Result<(), AllocError>
    ensures { OnOk result (model.table_of_widths widths.new
        ≡ model.in_turn (model.table_of_widths widths.old) (map (λ a. a.body) (map labelled_of arms.now))) }
{
    for arm in arms {
        add_command(alloc, &arm.body, widths)?;
    }
    Ok(())
}

/// Adds the uses of the arms of a `select` or an `arbitrate`, each with the input that opens it.
#[cycle(widths)]
fn add_arms(alloc: Global, arms: &[Arm], widths: &mut Widths) -> Result<(), AllocError>
    ensures { OnOk result (model.table_of_widths widths.new
        ≡ model.arms_in_turn (model.table_of_widths widths.old) (map arm_of arms.now)) }
{
    for arm in arms {
        widths.add(Together::InOneBranch, arm.channel.number, Width::RECEIVE)?;
        add_command(alloc, &arm.body, widths)?;
    }
    Ok(())
}

/// Adds the uses of what stands behind an `else`.
#[cycle(widths)]
fn add_last(alloc: Global, last: &Option<Command>, widths: &mut Widths) -> Result<(), AllocError>
    ensures { OnOk result (model.table_of_widths widths.new
        ≡ model.last_in_turn (model.table_of_widths widths.old) (option_map residual_of last.now)) }
{
    match last {
        Some(body) => add_command(alloc, body, widths),
        None => Ok(()),
    }
}

/// The uses of the children of a parallel.
#[cycle(widths)]
fn of_branches(alloc: Global, children: &[Command]) -> Result<Widths, AllocError>
    ensures { IfOk result (λ widths.
        model.table_of_widths widths ≡ model.side_by_side model.nothing (map residual_of children.now)) }
{
    let mut widths = Widths::new(alloc);
    let mut branch = Widths::new(alloc);
    add_branches(alloc, children, &mut widths, &mut branch)?;
    Ok(widths)
}

/// Adds the uses of the children of a parallel, each beside those before it, by way of a table that has none. (It only
/// borrows both, so that no early end drops them.)
#[cycle(widths)]
fn add_branches(
    alloc: Global,
    children: &[Command],
    widths: &mut Widths,
    branch: &mut Widths,
) -> Result<(), AllocError>
    requires { model.table_of_widths branch.old ≡ model.nothing }
    ensures { OnOk result (model.table_of_widths widths.new
        ≡ model.side_by_side (model.table_of_widths widths.old) (map residual_of children.now)) }
{
    for child in children {
        put_command(alloc, child, branch)?;
        widths.merge(Together::InBranches, branch)?;
    }
    Ok(())
}

/// Puts the uses of a command into a table that has none.
#[cycle(widths)]
#[tactic(auto, using(crate::proofs::CountTables::join_nothing))]
fn put_command(alloc: Global, command: &Command, widths: &mut Widths) -> Result<(), AllocError>
    requires { model.table_of_widths widths.old ≡ model.nothing }
    ensures { OnOk result (model.table_of_widths widths.new ≡ model.used_by (residual_of command.now)) }
{
    add_command(alloc, command, widths)
}

/// The uses of a command.
fn of_command(alloc: Global, command: &Command) -> Result<Widths, AllocError>
    ensures { IfOk result (λ widths. model.table_of_widths widths ≡ model.used_by (residual_of command.now)) }
{
    let mut widths = Widths::new(alloc);
    put_command(alloc, command, &mut widths)?;
    Ok(widths)
}

/// Adds the uses of the environment, each of its branches beside all others.
fn add_environment(environment: &[Branch], widths: &mut Widths) -> Result<(), AllocError>
    ensures { OnOk result (model.table_of_widths widths.new
        ≡ model.with_environment (model.table_of_widths widths.old) environment.now) }
{
    for outside in environment {
        let (channel, width) = use_of(outside);
        widths.add(Together::InBranches, channel, width)?;
    }
    Ok(())
}

/// The channel that a branch of the environment uses, and how.
fn use_of(outside: &Branch) -> (u32, Width)
    ensures { result ≡ model.use_of outside.now }
{
    match outside {
        Branch::Feed(channel, _, _) => (*channel, Width::SEND),
        Branch::Drain(channel) => (*channel, Width::RECEIVE),
        Branch::Syncs(channel, _) => (*channel, Width::SYNC),
    }
}

/// The uses of a system.
fn of_system(alloc: Global, system: &System) -> Result<Widths, AllocError>
    ensures { IfOk result (λ widths. model.table_of_widths widths ≡ model.used_in system.now) }
{
    let mut widths = of_command(alloc, &system.main)?;
    add_environment(system.environment.as_slice(), &mut widths)?;
    Ok(widths)
}

/// Whether the channel has no data.
fn is_sync(system: &System, channel: u32) -> bool
    ensures { result ≡ is_sync system.now channel }
{
    match system.channels.get(channel as usize) {
        Some(channel) => match channel.kind {
            ChannelKind::Data(_) => false,
            ChannelKind::Sync => true,
        },
        None => false,
    }
}

/// Whether more branches use the channel at one time than may: one sender and one receiver, or two users without data.
fn is_passed(system: &System, channel: u32, width: Width) -> bool
    ensures { result ≡ model.is_passed (is_sync system.now channel) width }
{
    if is_sync(system, channel) {
        2 < width.users
    } else {
        1 < width.senders || 1 < width.receivers
    }
}

/// The offset of the channel's name in its declaration, 0 where there is no such channel.
fn declared_of(system: &System, channel: u32) -> u64
    ensures { result ≡ model.declared_of system.now channel }
{
    match system.channels.get(channel as usize) {
        Some(channel) => channel.declared,
        None => 0,
    }
}

/// The lesser of an offset and one that may be there.
fn lesser(least: Option<u64>, offset: u64) -> u64
    ensures { result ≡ model.lesser least offset }
{
    match least {
        Some(least) => least.min(offset),
        None => offset,
    }
}

/// The least offset at which a channel is declared that passes its width.
fn least_of(system: &System, widths: &Widths) -> Option<u64>
    ensures found { result ≡ model.least_onto system.now None widths.now.by_channel.entries }
    ensures unique { IsUnique nat_eq widths.now.by_channel }
{
    let mut least = None;
    for (channel, width) in &widths.by_channel {
        if is_passed(system, *channel, *width) {
            least = Some(lesser(least, declared_of(system, *channel)));
        }
    }
    least
}

/// The least offset at which a channel that passes its width is declared.
pub(crate) fn least_passing(alloc: Global, system: &System) -> Result<Option<u64>, AllocError>
    ensures { IfOk result (λ found.
        MatchOption found ((o : ℕ) → PassesAt system.now o → ⊥) (λ o. Least (PassesAt system.now) o)) }
{
    let widths = of_system(alloc, system)?;
    Ok(least_of(system, &widths))
}
