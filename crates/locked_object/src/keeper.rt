// The object under the lock, and the seat that notes the recorded history.
use crate::{NotRecorded, Object, Pass, Replies};
use recorded_calls::{Board, Recorder};

/// The object, the number of recorded calls, and the seat that notes them.
#[derive(Drop)]
pub struct Keeper<D, C, R> {
    pub(crate) object: D,
    pub(crate) calls: u64,
    pub(crate) recorder: Recorder<D, C, R>,
}

/// So many calls can be recorded.
const MOST_CALLS: u64 = 1 << 63;

impl<C, R, D: Object<C, R>> Keeper<D, C, R> {
    ghost use Rattle.std.specs.Prelude.{◌≡◌, ◌++◌, ◌∷◌, ◌^◌, ◌≤◌, [], length, IfOk, OnOk, IfErr, OnErr};
    ghost use mathlib.Core.List.{IsPrefix};
    ghost use Rattle.recorded_calls.specs.History.{entry_of};
    ghost use Rattle.locked_object.specs.Keepers.{IsKeeperOf, history, passes_made, NotRecordedBy};
    ghost use Rattle.locked_object.specs.Passes.{IsPassOf, number, seen_history, own, told_history};
    ghost use Rattle.locked_object.specs.Sharing.{SawNothing};

    /// Performs the command of a pass on the object, and records it with its reply. Where it is not recorded the pass
    /// is told the history, after which that is so.
    pub fn perform(
        &mut self,
        board: &Board<D, C, R, Replies<D>>,
        pass: &mut Pass<D, C, R>,
        command: &C,
    ) -> Result<R, NotRecorded<R>>
        requires keeper { IsKeeperOf D.performs board.now.table.shared.table_id board.now.table.shared.key self.old }
        requires pass { IsPassOf board.now.table.shared.table_id board.now.table.shared.key pass.old }
        ensures keeper { IsKeeperOf D.performs board.now.table.shared.table_id board.now.table.shared.key self.new }
        ensures passes { passes_made self.new ≡ passes_made self.old }
        ensures pass { IsPassOf board.now.table.shared.table_id board.now.table.shared.key pass.new
            × (number pass.new ≡ number pass.old) }
        ensures performed { IfOk result (λ reply.
            D.performs self.old.object (number pass.old) command.now reply self.new.object) }
        ensures noted { IfOk result (λ reply.
            history self.new ≡ history self.old ++ entry_of (number pass.old) command.now reply ∷ []) }
        ensures own { IfOk result (λ reply.
            own pass.new ≡ own pass.old ++ entry_of (number pass.old) command.now reply ∷ []) }
        ensures seen { OnOk result (seen_history pass.new ≡ history self.new) }
        ensures before { IsPrefix (seen_history pass.old) (history self.old) }
        ensures refused { IfErr result (NotRecordedBy D.refuses self.old (number pass.old) command.now) }
        ensures same { OnErr result ((self.new.object ≡ self.old.object) × (history self.new ≡ history self.old)) }
        ensures told { OnErr result (SawNothing pass.old pass.new × (told_history pass.new ≡ history self.old)) }
    {
        if self.calls >= MOST_CALLS {
            self.tell(board, pass);
            return Err(NotRecorded::Full);
        }
        match self.object.perform(pass.number, command) {
            Ok(reply) => {
                board.record(&mut self.recorder, &mut pass.seat, command, &reply);
                self.calls += 1;
                Ok(reply)
            }
            Err(reply) => {
                self.tell(board, pass);
                Err(NotRecorded::Refused(reply))
            }
        }
    }

    /// Tells the pass the history.
    fn tell(&mut self, board: &Board<D, C, R, Replies<D>>, pass: &mut Pass<D, C, R>)
        requires keeper { IsKeeperOf D.performs board.now.table.shared.table_id board.now.table.shared.key self.old }
        requires pass { IsPassOf board.now.table.shared.table_id board.now.table.shared.key pass.old }
        ensures keeper { IsKeeperOf D.performs board.now.table.shared.table_id board.now.table.shared.key self.new }
        ensures passes { passes_made self.new ≡ passes_made self.old }
        ensures pass { IsPassOf board.now.table.shared.table_id board.now.table.shared.key pass.new
            × (number pass.new ≡ number pass.old) }
        ensures same { (self.new.object ≡ self.old.object) × (history self.new ≡ history self.old) }
        ensures told { SawNothing pass.old pass.new × (told_history pass.new ≡ history self.old) }
        ensures before { IsPrefix (seen_history pass.old) (history self.old) }
    {
        board.tell(&mut self.recorder, &mut pass.seat);
    }

    /// The pass has then seen the recorded history.
    pub fn show(&mut self, board: &Board<D, C, R, Replies<D>>, pass: &mut Pass<D, C, R>)
        requires keeper { IsKeeperOf D.performs board.now.table.shared.table_id board.now.table.shared.key self.old }
        requires pass { IsPassOf board.now.table.shared.table_id board.now.table.shared.key pass.old }
        ensures keeper { IsKeeperOf D.performs board.now.table.shared.table_id board.now.table.shared.key self.new }
        ensures passes { passes_made self.new ≡ passes_made self.old }
        ensures pass { IsPassOf board.now.table.shared.table_id board.now.table.shared.key pass.new
            × (number pass.new ≡ number pass.old) × (own pass.new ≡ own pass.old) }
        ensures same { (self.new.object ≡ self.old.object) × (history self.new ≡ history self.old) }
        ensures seen { seen_history pass.new ≡ history self.old }
        ensures before { IsPrefix (seen_history pass.old) (history self.old) }
    {
        board.show(&mut self.recorder, &mut pass.seat);
    }

    /// The object alone.
    pub fn into_object(self) -> D
        ensures { result ≡ self.object }
    {
        let Keeper {
            object,
            calls: _,
            recorder: _recorder,
        } = self;
        object
    }
}
