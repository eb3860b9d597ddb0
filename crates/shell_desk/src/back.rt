// Going back by the newest steps.
ghost use Rattle.std.specs.Prelude.{◌≡◌, [], MatchOption};
ghost use Rattle.shell_desk.specs.Does.{GoesBack, IsNewest, ends_way};

use crate::{Bench, Watch};
use locked_execution::{Command, Machine, Reply};

impl Bench {
    /// Takes back so many of the newest steps, or all where there are fewer; where one cannot be taken back it ends,
    /// and tells the reply to that.
    pub(crate) fn go_back<W: Watch>(&mut self, count: u64, watch: &mut W) -> Option<Reply>
        ensures { GoesBack self.old count result self.new }
    {
        for taken in 0..count {
            let Some(ticket) = self.newest() else {
                return None;
            };
            let reply = self.ask(&Command::Undo(ticket), watch);
            if ends_way(&reply) {
                return Some(reply);
            }
        }
        None
    }

    /// The greatest ticket of a live event.
    fn newest(&self) -> Option<u64>
        ensures { MatchOption result (self.now.desk.machine.live ≡ []) (λ t. IsNewest self.now.desk.machine.live t) }
    {
        newest_of(self.desk.machine())
    }
}

/// The greatest ticket of a live event of the machine.
fn newest_of(machine: &Machine) -> Option<u64>
    ensures { MatchOption result (machine.now.live ≡ []) (λ t. IsNewest machine.now.live t) }
{
    let live = machine.live_events();
    let count = live.len();
    if count == 0 {
        return None;
    }
    match machine.live_at(count as u64 - 1) {
        Some((ticket, _)) => Some(ticket),
        None => unreachable!(),
    }
}

/// Whether the reply ends a way back: it tells of no step that was taken back.
fn ends_way(reply: &Reply) -> bool
    ensures { result ≡ ends_way reply.now }
{
    match reply {
        Reply::Undone(_, _) => false,
        _ => true,
    }
}
