// The word, the seats at it, and the calls that a layer above makes under its lock.
ghost use Rattle.std.specs.Prelude.{◌≡◌};

use crate::plays::{Adopt, Announce, Claims, Confirm, Look, Makes, Naming, Record, Take, Tells};
use crate::{Recording, Sequential, View};
use atomic_table::{Seat, Table};
use std::alloc::{AllocError, Global};
use std::marker::Brand;

/// The word: the number of recorded calls.
#[derive(Drop)]
pub struct Board<O, C, R, P: Sequential<O, C, R>> {
    table: Table<u8, View<O, C, R>, O, Recording<P>, Global>,
    pub ghost one_word: { table.shared.table_id.words ≡ 1 },
}

/// The keeper's seat, which notes the recorded history.
#[derive(Drop)]
pub struct Recorder<O, C, R> {
    seat: Seat<u8, View<O, C, R>>,
}

/// What one caller has seen of the history, and its own calls.
#[derive(Drop)]
pub struct Pass<O, C, R> {
    seat: Seat<u8, View<O, C, R>>,
}

impl<O, C, R, P: Sequential<O, C, R>> Board<O, C, R, P> {
    ghost use Rattle.std.specs.Prelude.{◌^◌, ◌+◌, ◌<◌, [], ◌∷◌, ◌++◌, length, IfOk};
    ghost use mathlib.Core.List.{IsPrefix};
    ghost use Rattle.recorded_calls.specs.History.{IsLegal, entry_of};
    ghost use Rattle.recorded_calls.specs.declared.entry.Entry.{Entry};
    ghost use Rattle.recorded_calls.specs.Seats.{IsPassOf, IsRecorderOf, seen_history, own, told_history, number, noted_history, pass_count};

    /// The word at 0, and the keeper's seat, which notes no call.
    pub fn new(
        alloc: Global,
        opening: &O,
    ) -> Result<(Board<O, C, R, P>, Recorder<O, C, R>), AllocError>
        ensures opening { IfOk result (λ b. b.0.table.shared.key ≡ opening.now) }
        ensures recorder { IfOk result (λ b. IsRecorderOf b.0.table.shared.table_id opening.now b.1
            × (noted_history b.1 ≡ [])
            × (pass_count b.1 ≡ 0)) }
    {
        let (table, seat) = Table::of_words(alloc, &[0], opening)?;
        Ok((Board { table }, Recorder { seat }))
    }

    /// A further pass, which has seen nothing. Passes are numbered from 0.
    pub fn new_pass(&self, recorder: &mut Recorder<O, C, R>) -> Pass<O, C, R>
        requires { IsRecorderOf self.now.table.shared.table_id self.now.table.shared.key recorder.old }
        ensures recorder { IsRecorderOf self.now.table.shared.table_id self.now.table.shared.key recorder.new
            × (noted_history recorder.new ≡ noted_history recorder.old)
            × (pass_count recorder.new ≡ pass_count recorder.old + 1) }
        ensures pass { IsPassOf self.now.table.shared.table_id self.now.table.shared.key result
            × (number result ≡ pass_count recorder.old) × (seen_history result ≡ []) × (own result ≡ []) }
    {
        Pass {
            seat: self.table.shared.split_seat::<Makes>(&mut recorder.seat),
        }
    }

    /// Records a call of the pass: what it asked, and what the object has replied from the state after the noted
    /// history.
    pub fn record(
        &self,
        recorder: &mut Recorder<O, C, R>,
        pass: &mut Pass<O, C, R>,
        command: &C,
        reply: &R,
    )
        requires recorder { IsRecorderOf self.now.table.shared.table_id self.now.table.shared.key recorder.old }
        requires pass { IsPassOf self.now.table.shared.table_id self.now.table.shared.key pass.old }
        requires legal { IsLegal P.performs self.now.table.shared.key
            (noted_history recorder.old ++ entry_of (number pass.old) command.now reply.now ∷ []) }
        requires room { length (noted_history recorder.old) < 2 ^ 63 }
        ensures recorder { IsRecorderOf self.now.table.shared.table_id self.now.table.shared.key recorder.new
            × (pass_count recorder.new ≡ pass_count recorder.old) }
        ensures noted { noted_history recorder.new
            ≡ noted_history recorder.old ++ entry_of (number pass.old) command.now reply.now ∷ [] }
        ensures pass { IsPassOf self.now.table.shared.table_id self.now.table.shared.key pass.new
            × (number pass.new ≡ number pass.old) }
        ensures seen { seen_history pass.new ≡ noted_history recorder.new }
        ensures own { own pass.new ≡ own pass.old ++ entry_of (number pass.old) command.now reply.now ∷ [] }
        ensures before { IsPrefix (seen_history pass.old) (noted_history recorder.old) }
    {
        self.record_named::<Brand>(recorder, pass, command, reply);
    }

    // The same, with the entry by its name, from which the step that announces takes it.
    fn record_named<J: Naming<C, R>>(
        &self,
        recorder: &mut Recorder<O, C, R>,
        pass: &mut Pass<O, C, R>,
        _command: &C,
        _reply: &R,
    )
        requires recorder { IsRecorderOf self.now.table.shared.table_id self.now.table.shared.key recorder.old }
        requires pass { IsPassOf self.now.table.shared.table_id self.now.table.shared.key pass.old }
        requires named { (e : Entry C R) × (J.entries ≡ e ∷ []) × (e.pass ≡ number pass.old) }
        requires legal { IsLegal P.performs self.now.table.shared.key (noted_history recorder.old ++ J.entries) }
        requires room { length (noted_history recorder.old) < 2 ^ 63 }
        ensures recorder { IsRecorderOf self.now.table.shared.table_id self.now.table.shared.key recorder.new
            × (pass_count recorder.new ≡ pass_count recorder.old) }
        ensures noted { noted_history recorder.new ≡ noted_history recorder.old ++ J.entries }
        ensures pass { IsPassOf self.now.table.shared.table_id self.now.table.shared.key pass.new
            × (number pass.new ≡ number pass.old) }
        ensures seen { seen_history pass.new ≡ noted_history recorder.old ++ J.entries }
        ensures own { own pass.new ≡ own pass.old ++ J.entries }
        ensures before { IsPrefix (seen_history pass.old) (noted_history recorder.old) }
    {
        let letter = self.table.shared.split_seat::<Tells>(&mut recorder.seat);
        self.table.shared.join_seat::<Tells>(&mut pass.seat, letter);
        self.table.shared.load::<Announce<J>>(&mut pass.seat, 0);
        let claim = self.table.shared.split_seat::<Claims>(&mut pass.seat);
        self.table
            .shared
            .join_seat::<Claims>(&mut recorder.seat, claim);
        self.table
            .shared
            .fetch_add::<Record>(&mut recorder.seat, 0, 1);
        let news = self.table.shared.split_seat::<Tells>(&mut recorder.seat);
        self.table.shared.join_seat::<Tells>(&mut pass.seat, news);
        self.table.shared.load::<Adopt>(&mut pass.seat, 0);
    }

    /// The pass is told the noted history, where its call is not recorded. It has seen no more than before.
    pub fn tell(&self, recorder: &mut Recorder<O, C, R>, pass: &mut Pass<O, C, R>)
        requires recorder { IsRecorderOf self.now.table.shared.table_id self.now.table.shared.key recorder.old }
        requires pass { IsPassOf self.now.table.shared.table_id self.now.table.shared.key pass.old }
        ensures recorder { IsRecorderOf self.now.table.shared.table_id self.now.table.shared.key recorder.new
            × (noted_history recorder.new ≡ noted_history recorder.old)
            × (pass_count recorder.new ≡ pass_count recorder.old) }
        ensures pass { IsPassOf self.now.table.shared.table_id self.now.table.shared.key pass.new
            × (number pass.new ≡ number pass.old) }
        ensures same { (seen_history pass.new ≡ seen_history pass.old) × (own pass.new ≡ own pass.old) }
        ensures told { told_history pass.new ≡ noted_history recorder.old }
        ensures before { IsPrefix (seen_history pass.old) (noted_history recorder.old) }
    {
        let claim = self.table.shared.split_seat::<Claims>(&mut pass.seat);
        self.table
            .shared
            .join_seat::<Claims>(&mut recorder.seat, claim);
        self.table.shared.load::<Confirm>(&mut recorder.seat, 0);
        let history = self.table.shared.split_seat::<Tells>(&mut recorder.seat);
        self.table
            .shared
            .join_seat::<Tells>(&mut pass.seat, history);
    }

    /// The pass has then seen the noted history.
    pub fn show(&self, recorder: &mut Recorder<O, C, R>, pass: &mut Pass<O, C, R>)
        requires recorder { IsRecorderOf self.now.table.shared.table_id self.now.table.shared.key recorder.old }
        requires pass { IsPassOf self.now.table.shared.table_id self.now.table.shared.key pass.old }
        ensures recorder { IsRecorderOf self.now.table.shared.table_id self.now.table.shared.key recorder.new
            × (noted_history recorder.new ≡ noted_history recorder.old)
            × (pass_count recorder.new ≡ pass_count recorder.old) }
        ensures pass { IsPassOf self.now.table.shared.table_id self.now.table.shared.key pass.new
            × (number pass.new ≡ number pass.old) × (own pass.new ≡ own pass.old) }
        ensures seen { seen_history pass.new ≡ noted_history recorder.old }
        ensures before { IsPrefix (seen_history pass.old) (noted_history recorder.old) }
    {
        self.tell(recorder, pass);
        self.table.shared.load::<Take>(&mut pass.seat, 0);
    }

    /// The number of recorded calls, by one load. The pass has then seen the history of that length.
    pub fn length(&self, pass: &mut Pass<O, C, R>) -> u64
        requires { IsPassOf self.now.table.shared.table_id self.now.table.shared.key pass.old }
        ensures pass { IsPassOf self.now.table.shared.table_id self.now.table.shared.key pass.new
            × (number pass.new ≡ number pass.old) × (own pass.new ≡ own pass.old) }
        ensures length { length (seen_history pass.new) ≡ result }
        ensures legal { IsLegal P.performs self.now.table.shared.key (seen_history pass.new) }
        ensures before { IsPrefix (seen_history pass.old) (seen_history pass.new) }
        ensures told { IsPrefix (told_history pass.old) (seen_history pass.new) }
    {
        self.table.shared.load::<Look<P>>(&mut pass.seat, 0)
    }

    /// Both passes have then seen one history of the length that is answered.
    pub fn meet(&self, one: &mut Pass<O, C, R>, other: &mut Pass<O, C, R>) -> u64
        requires one { IsPassOf self.now.table.shared.table_id self.now.table.shared.key one.old }
        requires other { IsPassOf self.now.table.shared.table_id self.now.table.shared.key other.old }
        ensures one { IsPassOf self.now.table.shared.table_id self.now.table.shared.key one.new
            × (number one.new ≡ number one.old) × (own one.new ≡ own one.old) }
        ensures other { IsPassOf self.now.table.shared.table_id self.now.table.shared.key other.new
            × (number other.new ≡ number other.old) × (own other.new ≡ own other.old) }
        ensures same { seen_history one.new ≡ seen_history other.new }
        ensures length { length (seen_history one.new) ≡ result }
        ensures legal { IsLegal P.performs self.now.table.shared.key (seen_history one.new) }
        ensures one_before { IsPrefix (seen_history one.old) (seen_history one.new) }
        ensures other_before { IsPrefix (seen_history other.old) (seen_history other.new) }
    {
        let letter = self.table.shared.split_seat::<Tells>(&mut other.seat);
        self.table.shared.join_seat::<Tells>(&mut one.seat, letter);
        let found = self.table.shared.load::<Look<P>>(&mut one.seat, 0);
        let news = self.table.shared.split_seat::<Tells>(&mut one.seat);
        self.table.shared.join_seat::<Tells>(&mut other.seat, news);
        self.table.shared.load::<Take>(&mut other.seat, 0);
        found
    }
}
