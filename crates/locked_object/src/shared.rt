// The object under its lock.
ghost use Rattle.std.specs.Prelude.{◌≡◌, ◌≤◌, ◌<◌, [], length, IfOk, OnOk, IfErr, OnErr, IfSome, MatchBool};
ghost use mathlib.Core.List.{IsPrefix};
ghost use Rattle.recorded_calls.specs.History.{IsLegal};
ghost use Rattle.recorded_calls.specs.Seats.{IsRecorderOf, noted_history, pass_count};
ghost use Rattle.locked_object.specs.Guards.{TakesKeeper};
ghost use Rattle.locked_object.specs.Keepers.{IsKeeperOf, IsKeeperFor, passes_made};
ghost use Rattle.locked_object.specs.Passes.{IsPassOf, number, seen_history, own, told_history};
ghost use Rattle.locked_object.specs.Sharing.{NewPasses, Recorded, Unrecorded, SawNothing};
ghost use Rattle.locked_object.specs.declared.keeper.Keeper as any;
ghost use Rattle.locked_object.specs.declared.lock.Hold.TheVariants.{Held};
ghost use Rattle.locked_object.specs.declared.cell.Place.TheVariants.{Home};

use crate::cell::{Gives, Guarded, Place, Register, Takes};
use crate::known::Knowing;
use crate::lock::{Hold, Locks, Looks, OneHolder, Unlocks};
use crate::{Keeper, NotRecorded, Object, Pass, Replies};
use atomic_table::{Mark, RuledPerch, Seat, Table};
use recorded_calls::{Board, Recorder};
use std::alloc::{AllocError, Global};
use std::hint::spin_loop;
use std::marker::Brand;
use std::sync::{Mutex, Wait};
use std::thread::yield_now;

/// The keeper in its cell.
type KeeperCell<C, R, D> = Table<Keeper<D, C, R>, Place, Register<C, R, D>, Guarded<D>, Global>;

/// The cell's only seat.
type Key<C, R, D> = Seat<Keeper<D, C, R>, Place>;

/// The lock while a caller has it. No value of this type is dropped: whoever has the lock unlocks it, or closes the
/// cell.
struct Taken<C, R, D> {
    mark: Mark<Hold>,
    seat: Key<C, R, D>,
}

/// So often a caller looks whether the lock is free, before it sleeps.
const LOOKS: u32 = 200;

/// An object under a lock, and the word of its recorded calls.
#[derive(Drop)]
pub struct Shared<C, R, D: Object<C, R>> {
    board: Board<D, C, R, Replies<D>>,
    /// how many passes there are
    passes: u32,
    cell: KeeperCell<C, R, D>,
    lock: RuledPerch<Keeper<D, C, R>, Place, Hold, OneHolder>,
    /// where those who wait for the lock sleep, but for one
    turn: Mutex<()>,
    pub ghost guards: { (cell.shared.key.board ≡ board) × (cell.shared.key.passes ≡ passes) },
    pub ghost one_keeper: { (cell.shared.table_id.words ≡ 1) × (cell.shared.table_id.slots ≡ 1) },
    pub ghost rests: { (lock.table_id ≡ cell.shared.table_id) × (lock.view ≡ Home) },
}

impl<C, R, D: Object<C, R>> Shared<C, R, D> {
    /// The object under a lock, and so many passes, at most 16, numbered from 0.
    pub fn new(
        alloc: Global,
        object: D,
        count: u32,
    ) -> Result<(Shared<C, R, D>, Vec<Pass<D, C, R>>), AllocError>
        requires { count ≤ 16 }
        ensures opening { IfOk result (λ s. s.0.board.table.shared.key ≡ object) }
        ensures count { IfOk result (λ s. s.0.passes ≡ count) }
        ensures passes { IfOk result (λ s.
            NewPasses s.0.board.table.shared.table_id s.0.board.table.shared.key count s.1.items) }
    {
        let (board, mut recorder) = Board::new(alloc, &object)?;
        let passes = new_passes(alloc, &board, &mut recorder, count)?;
        let keeper = Keeper {
            object,
            calls: 0,
            recorder,
        };
        let named = Register {
            board,
            passes: count,
        };
        let (cell, seat) = cell_of(alloc, &named, keeper)?;
        let Register { board, passes: _ } = named;
        let (lock, mark) = RuledPerch::new(&seat, 0);
        let shared = Shared {
            board,
            passes: count,
            cell,
            lock,
            turn: Mutex::new(()),
        };
        shared.unlock(Taken { mark, seat });
        Ok((shared, passes))
    }

    /// Performs the command of a pass under the lock, for which it may wait, and records it with its reply. Where it is
    /// not recorded the pass is told the history, after which that is so; if it asks for the `length` next, it has seen
    /// at least that.
    pub fn call<W: Wait>(
        &self,
        rt: &W,
        pass: &mut Pass<D, C, R>,
        command: &C,
    ) -> Result<R, NotRecorded<R>>
        requires { IsPassOf self.now.board.table.shared.table_id self.now.board.table.shared.key pass.old }
        ensures pass { IsPassOf self.now.board.table.shared.table_id self.now.board.table.shared.key pass.new
            × (number pass.new ≡ number pass.old) }
        ensures recorded { IfOk result (λ reply. Recorded pass.old command.now reply pass.new) }
        ensures legal { OnOk result (IsLegal D.performs self.now.board.table.shared.key (seen_history pass.new)) }
        ensures refused { IfErr result
            (Unrecorded D.performs D.refuses self.now.board.table.shared.key (number pass.old) command.now
            (told_history pass.new)) }
        ensures same { OnErr result (SawNothing pass.old pass.new) }
        ensures before { OnErr result (IsPrefix (seen_history pass.old) (told_history pass.new)) }
    {
        let mut taken = self.lock(rt);
        let told = self.call_at(&mut taken.seat, pass, command);
        self.unlock(taken);
        told
    }

    /// The number of recorded calls, by one load; it waits for nobody. The pass has then seen the history of that
    /// length.
    pub fn length(&self, pass: &mut Pass<D, C, R>) -> u64
        requires { IsPassOf self.now.board.table.shared.table_id self.now.board.table.shared.key pass.old }
        ensures pass { IsPassOf self.now.board.table.shared.table_id self.now.board.table.shared.key pass.new
            × (number pass.new ≡ number pass.old) × (own pass.new ≡ own pass.old) }
        ensures length { length (seen_history pass.new) ≡ result }
        ensures legal { IsLegal D.performs self.now.board.table.shared.key (seen_history pass.new) }
        ensures before { IsPrefix (seen_history pass.old) (seen_history pass.new) }
        ensures told { IsPrefix (told_history pass.old) (seen_history pass.new) }
    {
        self.board.length(&mut pass.seat)
    }

    /// Both passes have then seen one history, of the length that is answered; it waits for nobody.
    pub fn meet(&self, one: &mut Pass<D, C, R>, other: &mut Pass<D, C, R>) -> u64
        requires one { IsPassOf self.now.board.table.shared.table_id self.now.board.table.shared.key one.old }
        requires other { IsPassOf self.now.board.table.shared.table_id self.now.board.table.shared.key other.old }
        ensures one { IsPassOf self.now.board.table.shared.table_id self.now.board.table.shared.key one.new
            × (number one.new ≡ number one.old) × (own one.new ≡ own one.old) }
        ensures other { IsPassOf self.now.board.table.shared.table_id self.now.board.table.shared.key other.new
            × (number other.new ≡ number other.old) × (own other.new ≡ own other.old) }
        ensures same { seen_history one.new ≡ seen_history other.new }
        ensures length { length (seen_history one.new) ≡ result }
        ensures legal { IsLegal D.performs self.now.board.table.shared.key (seen_history one.new) }
        ensures one_before { IsPrefix (seen_history one.old) (seen_history one.new) }
        ensures other_before { IsPrefix (seen_history other.old) (seen_history other.new) }
    {
        self.board.meet(&mut one.seat, &mut other.seat)
    }

    /// The object, once no pass calls it any more. It waits for nobody, so that no clause says what the object is:
    /// `close` has one.
    pub fn finish(self) -> D {
        let Shared {
            board: _board,
            passes: _,
            cell,
            lock: _lock,
            turn: _turn,
        } = self;
        let mut closed = cell.close();
        let keeper = closed.take(0);
        closed.free();
        keeper.into_object()
    }

    /// The word of recorded calls, and the keeper with the object, once no pass calls it any more. It takes the lock,
    /// for which it may wait, so that the object is what the opening is after the recorded history, which has calls of
    /// the passes that `new` gave and of no other; `Keeper::show` shows that history to a pass.
    pub fn close<W: Wait>(self, rt: &W) -> (Board<D, C, R, Replies<D>>, Keeper<D, C, R>)
        ensures board { result.0 ≡ self.board }
        ensures keeper { IsKeeperOf D.performs result.0.table.shared.table_id result.0.table.shared.key result.1 }
        ensures passes { passes_made result.1 ≡ self.passes }
    {
        let taken = self.lock(rt);
        let Taken { mark: _mark, seat } = taken;
        let Shared {
            board,
            passes: _,
            cell,
            lock: _lock,
            turn: _turn,
        } = self;
        let mut closed = cell.close_with(seat);
        let keeper = closed.take(0);
        closed.free();
        (board, keeper)
    }

    /// Waits until the cell's seat rests on the lock, and takes it: looks for a while, and then sleeps until no other
    /// who waits so is awake.
    fn lock<W: Wait>(&self, rt: &W) -> Taken<C, R, D>
        ensures mark { (result.mark.perch ≡ self.now.lock.name) × (result.mark.view ≡ Held) }
        ensures seat { (result.seat.table_id ≡ self.now.cell.shared.table_id) × (result.seat.me ≡ (Home, [])) }
    {
        let (_found, mut mark, seat) = self.lock.swap_new_mark::<Locks>(0);
        if let Some(seat) = seat {
            return Taken { mark, seat };
        }
        for _ in 0..LOOKS {
            if let Some(seat) = self.try_lock(&mut mark) {
                return Taken { mark, seat };
            }
            spin_loop();
        }
        let _turn = self.turn.lock(rt);
        self.lock_in_turn(rt, mark)
    }

    /// The same for the one whose turn it is: it lets others have the processor.
    fn lock_in_turn<W: Wait>(&self, rt: &W, mut mark: Mark<Hold>) -> Taken<C, R, D>
        requires { mark.perch ≡ self.now.lock.name }
        ensures mark { (result.mark.perch ≡ self.now.lock.name) × (result.mark.view ≡ Held) }
        ensures seat { (result.seat.table_id ≡ self.now.cell.shared.table_id) × (result.seat.me ≡ (Home, [])) }
    {
        for _ in rt.forever() {
            if let Some(seat) = self.try_lock(&mut mark) {
                return Taken { mark, seat };
            }
            yield_now();
        }
        unreachable!()
    }

    /// Takes the lock if the cell's seat rests on it. It looks before it writes, so that those who wait do not take the
    /// word from one another.
    fn try_lock(&self, mark: &mut Mark<Hold>) -> Option<Key<C, R, D>>
        requires { mark.old.perch ≡ self.now.lock.name }
        ensures perch { mark.new.perch ≡ self.now.lock.name }
        ensures held { IfSome result (λ _. mark.new.view ≡ Held) }
        ensures seat { IfSome result (λ s. (s.table_id ≡ self.now.cell.shared.table_id) × (s.me ≡ (Home, []))) }
    {
        if !is_free(self.lock.load::<Looks>(mark)) {
            return None;
        }
        self.lock.swap::<Locks>(mark, 0).1
    }

    /// Lets the cell's seat rest on the lock again.
    fn unlock(&self, taken: Taken<C, R, D>)
        requires mark { (taken.mark.perch ≡ self.now.lock.name) × (taken.mark.view ≡ Held) }
        requires seat { (taken.seat.table_id ≡ self.now.cell.shared.table_id) × (taken.seat.me ≡ (Home, [])) }
    {
        let Taken { mut mark, seat } = taken;
        match self.lock.give::<Unlocks>(&mut mark, seat, 0, 2) {
            Ok(()) => {}
            Err(_) => unreachable!(),
        }
    }

    /// Performs and records the command under the lock.
    fn call_at(
        &self,
        seat: &mut Key<C, R, D>,
        pass: &mut Pass<D, C, R>,
        command: &C,
    ) -> Result<R, NotRecorded<R>>
        requires seat { (seat.old.table_id ≡ self.now.cell.shared.table_id) × (seat.old.me ≡ (Home, [])) }
        requires pass { IsPassOf self.now.board.table.shared.table_id self.now.board.table.shared.key pass.old }
        ensures seat { (seat.new.table_id ≡ self.now.cell.shared.table_id) × (seat.new.me ≡ (Home, [])) }
        ensures pass { IsPassOf self.now.board.table.shared.table_id self.now.board.table.shared.key pass.new
            × (number pass.new ≡ number pass.old) }
        ensures recorded { IfOk result (λ reply. Recorded pass.old command.now reply pass.new) }
        ensures legal { OnOk result (IsLegal D.performs self.now.board.table.shared.key (seen_history pass.new)) }
        ensures refused { IfErr result
            (Unrecorded D.performs D.refuses self.now.board.table.shared.key (number pass.old) command.now
            (told_history pass.new)) }
        ensures same { OnErr result (SawNothing pass.old pass.new) }
        ensures before { OnErr result (IsPrefix (seen_history pass.old) (told_history pass.new)) }
    {
        self.take::<Brand>(seat);
        let keeper = seat.slot_mut(&self.cell.shared, 0);
        let told = keeper.perform(&self.board, pass, command);
        self.cell.shared.load::<Gives>(seat, 0);
        told
    }

    /// Takes the keeper out of the cell.
    fn take<J: Knowing<Keeper<D, C, R>>>(&self, seat: &mut Key<C, R, D>)
        requires seat { (seat.old.table_id ≡ self.now.cell.shared.table_id) × (seat.old.me ≡ (Home, [])) }
        requires known { (k : any.Keeper D C R) →
            IsKeeperFor D.performs self.now.board.table.shared.table_id self.now.board.table.shared.key self.now.passes
            k → J.known k }
        ensures seat { seat.new.table_id ≡ seat.old.table_id }
        ensures taken { TakesKeeper J.known seat.new.me }
    {
        self.cell.shared.load::<Takes<J>>(seat, 0);
    }
}

/// Whether the lock is free where its word is this: the cell's seat rests on it.
fn is_free(word: u64) -> bool
    ensures { MatchBool result (2 ≤ word) (word < 2) }
{
    word >= 2
}

/// The keeper in a cell, whose seat knows it at home.
fn cell_of<C, R, D: Object<C, R>>(
    alloc: Global,
    named: &Register<C, R, D>,
    keeper: Keeper<D, C, R>,
) -> Result<(KeeperCell<C, R, D>, Key<C, R, D>), AllocError>
    requires { IsKeeperFor D.performs named.now.board.table.shared.table_id named.now.board.table.shared.key
        named.now.passes keeper }
    ensures cell { IfOk result (λ v. (v.0.shared.key ≡ named.now) × (v.0.shared.table_id.words ≡ 1)
        × (v.0.shared.table_id.slots ≡ 1)) }
    ensures seat { IfOk result (λ v. (v.1.table_id ≡ v.0.shared.table_id) × (v.1.me ≡ (Home, []))) }
{
    let mut slots = Vec::with_capacity(alloc, 1)?;
    slots.push_reserved(keeper);
    match Table::new(alloc, &[0], slots, named) {
        Ok(made) => Ok(made),
        Err(_) => Err(AllocError),
    }
}

/// So many passes, numbered from 0, which have seen nothing.
fn new_passes<C, R, D: Object<C, R>>(
    alloc: Global,
    board: &Board<D, C, R, Replies<D>>,
    recorder: &mut Recorder<D, C, R>,
    count: u32,
) -> Result<Vec<Pass<D, C, R>>, AllocError>
    requires few { count ≤ 16 }
    requires recorder { IsRecorderOf board.now.table.shared.table_id board.now.table.shared.key recorder.old
        × (noted_history recorder.old ≡ []) × (pass_count recorder.old ≡ 0) }
    ensures recorder { IfOk result (λ _.
        IsRecorderOf board.now.table.shared.table_id board.now.table.shared.key recorder.new
        × (noted_history recorder.new ≡ []) × (pass_count recorder.new ≡ count)) }
    ensures passes { IfOk result (λ passes.
        NewPasses board.now.table.shared.table_id board.now.table.shared.key count passes.items) }
{
    let mut passes = Vec::with_capacity(alloc, count as usize)?;
    for number in 0..count {
        let seat = board.new_pass(recorder);
        passes.push_reserved(Pass { seat, number });
    }
    Ok(passes)
}
