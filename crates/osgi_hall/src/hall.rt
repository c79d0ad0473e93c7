//! The hall: callers draw tickets, and the one that is served has the machine.

ghost use Rattle.std.specs.Prelude.{◌≡◌, ◌≢◌, ◌+◌, ◌<◌, [], IfOk, IfErr, IfSome, OnOk, OnErr};
ghost use Rattle.osgi_hall.specs.declared.board.Stage.TheVariants.{Idle};
ghost use Rattle.osgi_hall.specs.Histories.{BeginsWith, TellsOfPrefix};
ghost use Rattle.osgi_hall.specs.Passes.{IsPassOf, IsSamePass, IsLegal, IsByKnownCallers, first_pass, after_split, new_pass, after_join};
ghost use Rattle.osgi_hall.specs.Calls.{AddsNone, IsCall};
ghost use Rattle.osgi_hall.specs.computed.Steps.{staged, told};
ghost use Rattle.osgi_hall.specs.computed.Seats.{IsIdle, HasTurn, MayLeave, IsDone};

use crate::board::View;
use crate::machine::Machine;
use crate::pass::Pass;
use crate::steps::{DrawTicket, GiveTurn, Look, NoteEntries, SplitOff, TakeIn, TakeTurn, Turns};
use atomic_table::{Refused, Seat, Table};
use osgi_base::Tag;
use std::alloc::{AllocError, Global};
use std::marker::Model;
use std::snapshot::Snapshot;
use std::sync::Wait;
use std::thread;

/// The word of the table that has the next ticket.
const NEXT_TICKET: usize = 0;

/// The word that has the place that is served.
const SERVED: usize = 1;

/// The word that has the number of entries.
const LENGTH: usize = 2;

/// The slot where the machine is while nobody has the turn.
const MACHINE: usize = 0;

/// How often a caller that waits gives way to other threads before it sleeps.
const MAX_YIELDS: u32 = 32;

/// A machine that callers in many threads share by turns. A call takes the machine out, has it do one operation, and puts it
/// back before it gives the turn on, so that no two calls have it at once. Contracts see which hall it is, and the setting of its
/// machine, which stays for good.
#[derive(Drop)]
pub struct Hall<M: Machine> {
    table: Table<Option<M>, View<M::Op, M::Reply, M::Setting>, Snapshot<M>, Turns<M>, Global>,
}

impl<M: Machine> Model for Hall<M> {
    ghost use Rattle.std.specs.Prelude.{◌≡◌};
    ghost use Rattle.osgi_hall.specs.Passes.{HallView};

    ghost Value = { HallView M.Setting };

    ghost view = { λ h. record { id = h.table.shared.table_id; setting = M.setting h.table.shared.key.value } };

    ghost invariant = { λ h. (h.table.shared.table_id.words ≡ 3) × (h.table.shared.table_id.slots ≡ 1) };
}

/// What a hall leaves when it is closed.
#[derive(Drop)]
pub struct Closed<M> {
    pub machine: M,
}

/// A hall that was not closed since so many other passes are out. All goes on as if it had not been tried.
#[derive(Drop)]
pub struct Open<M: Machine> {
    pub hall: Hall<M>,
    pub pass: Pass<M>,
    pub out: u32,
}

impl<M: Machine> Hall<M> {
    /// A hall round a machine with an empty history, and the pass of caller 0. If memory runs out the machine is dropped.
    pub fn new(alloc: Global, machine: M) -> Result<(Hall<M>, Pass<M>), AllocError>
    where
        M: Drop,
        requires fresh { M.entries machine ≡ [] }
        ensures setting { IfOk result (λ made. made.0.setting ≡ M.setting machine) }
        ensures pass { IfOk result (λ made. made.1 ≡ first_pass made.0) }
        ensures legal { IfOk result (λ made. IsLegal M.can_make made.1) }
    {
        // This promises that the empty history is one that the machine can make.
        let _ = machine.length();
        // Contracts see the machine's setting by the table's key.
        let key = Snapshot::of(&machine);
        let mut slots = Vec::new(alloc);
        slots.push(Some(machine))?;
        match Table::new(alloc, &[0, 0, 0], slots, &key) {
            Ok((table, seat)) => {
                let pass = Pass {
                    seat,
                    caller: 0,
                    made: 1,
                    out: 0,
                };
                Ok((Hall { table }, pass))
            }
            Err(Refused { slots: _ }) => Err(AllocError),
        }
    }

    /// Waits for a turn, and has the machine do one operation, tagged with the pass's caller and this command. If the machine
    /// runs out of memory nothing is recorded. A hint has to tell of a prefix of what the pass has seen; `None` always may be
    /// handed in.
    pub fn call<R: Wait>(
        &self,
        rt: &R,
        pass: &mut Pass<M>,
        command: u32,
        op: M::Op,
        hint: Option<M::Hint>,
    ) -> Result<M::Reply, AllocError>
        requires hall { IsPassOf self.now pass.old }
        requires hint { IfSome hint (TellsOfPrefix (M.hints self.now.setting) pass.old.seen) }
        ensures same { IsSamePass pass.old pass.new }
        ensures legal { IsLegal M.can_make pass.new }
        ensures call { IsCall M.is_recorded (M.gives self.now.setting) pass.old pass.new command op result }
    {
        let tag = Tag {
            caller: pass.caller,
            command,
        };
        let mut machine = self.enter(rt, &mut pass.seat);
        let answer = machine.apply(tag, op, hint);
        self.leave(&mut pass.seat, machine);
        answer
    }

    /// Waits for a turn, and asks the machine. The answer tells of the history that the pass has seen afterwards, which begins
    /// with what it had seen. Nothing is recorded.
    pub fn view<R: Wait>(
        &self,
        rt: &R,
        pass: &mut Pass<M>,
        ask: M::Ask,
    ) -> Result<M::View, AllocError>
        requires hall { IsPassOf self.now pass.old }
        ensures same { IsSamePass pass.old pass.new }
        ensures legal { IsLegal M.can_make pass.new }
        ensures seen { AddsNone pass.old pass.new }
        ensures told { IfOk result (M.tells self.now.setting pass.new.seen ask) }
    {
        let mut machine = self.enter(rt, &mut pass.seat);
        let answer = machine.view(rt, ask);
        self.leave(&mut pass.seat, machine);
        answer
    }

    /// Makes a pass for another caller, which has seen what this one has. If memory runs out the pass stays as it was.
    pub fn split(&self, pass: &mut Pass<M>) -> Result<Pass<M>, AllocError>
        requires hall { IsPassOf self.now pass.old }
        requires first { (pass.old.caller ≡ 0) × (pass.old.made < u32.MAX) }
        ensures new { IfOk result (λ fresh. fresh ≡ new_pass pass.old) }
        ensures made { OnOk result (pass.new ≡ after_split pass.old) }
        ensures legal { IfOk result (λ fresh. IsLegal M.can_make fresh × IsLegal M.can_make pass.new) }
        ensures unchanged { OnErr result (pass.new ≡ pass.old) }
    {
        let shared = &self.table.shared;
        let mut seat = shared.split_seat::<SplitOff>(&mut pass.seat);
        // A read by the new seat shows it what the table's rule says; its value is not needed.
        shared.load::<Look<M>>(&mut seat, NEXT_TICKET);
        let caller = pass.made;
        pass.made += 1;
        pass.out += 1;
        Ok(Pass {
            seat,
            caller,
            made: 0,
            out: 0,
        })
    }

    /// Takes in the pass of a caller that has ended.
    pub fn join(&self, pass: &mut Pass<M>, ended: Pass<M>)
        requires hall { IsPassOf self.now pass.old × IsPassOf self.now ended }
        requires first { pass.old.caller ≡ 0 }
        ensures joined { pass.new ≡ after_join pass.old ended }
        ensures out { pass.old.out ≡ pass.new.out + 1 }
        ensures grown { BeginsWith pass.new.seen pass.old.seen × BeginsWith pass.new.seen ended.seen }
        ensures legal { IsLegal M.can_make pass.new }
    {
        let shared = &self.table.shared;
        let Pass {
            seat,
            caller: _,
            made: _,
            out: _,
        } = ended;
        shared.join_seat::<TakeIn>(&mut pass.seat, seat);
        // A read by the seat shows it which of the two histories begins with the other; its value is not needed.
        shared.load::<Look<M>>(&mut pass.seat, NEXT_TICKET);
        pass.out -= 1;
    }

    /// Ends the hall and gives its machine back, where no other pass is out; else gives back the hall and the pass.
    pub fn close(self, pass: Pass<M>) -> Result<Closed<M>, Open<M>>
        requires hall { IsPassOf self pass }
        requires first { pass.caller ≡ 0 }
        ensures none_out { OnOk result (pass.out ≡ 0) }
        ensures setting { IfOk result (λ closed. M.setting closed.machine ≡ self.setting) }
        ensures history { IfOk result (λ closed. M.entries closed.machine ≡ pass.seen) }
        ensures callers { OnOk result (IsByKnownCallers pass.ended pass.seen) }
        ensures legal { IsLegal M.can_make pass }
        ensures open { IfErr result (λ kept. (pass.out ≢ 0) × (kept.out ≡ pass.out) × (kept.hall ≡ self) × (kept.pass ≡ pass)) }
    {
        let out = pass.out;
        if out != 0 {
            return Err(Open {
                hall: self,
                pass,
                out,
            });
        }
        let Hall { table } = self;
        let Pass {
            seat,
            caller: _,
            made: _,
            out: _,
        } = pass;
        let mut closed = table.close_with(seat);
        let slot = closed.take(MACHINE);
        closed.free();
        let Some(machine) = slot else { unreachable!() };
        Ok(Closed { machine })
    }

    /// Draws a ticket, waits until it is served, and takes the machine out.
    fn enter<R: Wait>(
        &self,
        rt: &R,
        seat: &mut Seat<Option<M>, View<M::Op, M::Reply, M::Setting>>,
    ) -> M
        requires hall { seat.old.table_id ≡ self.now.id }
        requires idle { IsIdle seat.old.me }
        ensures seat { (seat.new.table_id ≡ seat.old.table_id) × (seat.new.id ≡ seat.old.id) }
        ensures turn { HasTurn M.entries M.setting seat.old.me.0 result seat.new.me }
    {
        let shared = &self.table.shared;
        let place = shared.fetch_add::<DrawTicket>(seat, NEXT_TICKET, 1);
        for _ in rt.forever() {
            let served = shared.load::<TakeTurn<M>>(seat, SERVED);
            if served == place {
                return shared.exchange(seat, MACHINE, None).unwrap();
            }
            self.wait_while_served(rt, served);
        }
        unreachable!()
    }

    /// Waits for as long as this place is served, and maybe not that long. Short turns are waited for awake, since to sleep and
    /// to be woken takes longer than they do.
    fn wait_while_served<R: Wait>(&self, rt: &R, place: u64) {
        let shared = &self.table.shared;
        for _ in 0..MAX_YIELDS {
            if shared.peek(SERVED) != place {
                return;
            }
            thread::yield_now();
        }
        shared.park(rt, SERVED, (place % (1 << 32)) as u32);
    }

    /// Puts the machine back, and gives the turn on.
    fn leave(&self, seat: &mut Seat<Option<M>, View<M::Op, M::Reply, M::Setting>>, machine: M)
        requires hall { seat.old.table_id ≡ self.now.id }
        requires turn { MayLeave M.entries M.setting machine seat.old.me }
        ensures seat { (seat.new.table_id ≡ seat.old.table_id) × (seat.new.id ≡ seat.old.id) }
        ensures told { seat.new.me ≡ (staged Idle (told (M.entries machine) seat.old.me.0), []) }
        ensures made { M.can_make (M.setting machine) (M.entries machine) }
    {
        self.put_back(seat, machine);
        self.give_turn(seat);
    }

    /// Puts the machine back, and notes its entries.
    fn put_back(&self, seat: &mut Seat<Option<M>, View<M::Op, M::Reply, M::Setting>>, machine: M)
        requires hall { seat.old.table_id ≡ self.now.id }
        requires turn { MayLeave M.entries M.setting machine seat.old.me }
        ensures seat { (seat.new.table_id ≡ seat.old.table_id) × (seat.new.id ≡ seat.old.id) }
        ensures told { seat.new.me ≡ (told (M.entries machine) seat.old.me.0, []) }
        ensures done { IsDone seat.new.me.0 }
        ensures made { M.can_make (M.setting machine) (M.entries machine) }
    {
        let shared = &self.table.shared;
        let length = machine.length();
        let nothing = shared.exchange(seat, MACHINE, Some(machine));
        let None = nothing else { unreachable!() };
        shared.swap::<NoteEntries<M>>(seat, LENGTH, length);
    }

    /// Serves the next place, and wakes those who wait, if any caller does.
    fn give_turn(&self, seat: &mut Seat<Option<M>, View<M::Op, M::Reply, M::Setting>>)
        requires hall { seat.old.table_id ≡ self.now.id }
        requires done { IsDone seat.old.me.0 }
        ensures seat { (seat.new.table_id ≡ seat.old.table_id) × (seat.new.id ≡ seat.old.id) }
        ensures given { seat.new.me ≡ (staged Idle seat.old.me.0, seat.old.me.1) }
    {
        let shared = &self.table.shared;
        let served = shared
            .fetch_add::<GiveTurn>(seat, SERVED, 1)
            .wrapping_add(1);
        // Whoever draws a ticket after this look reads the new place before it sleeps, so that no wake is lost.
        if shared.peek(NEXT_TICKET) != served {
            shared.wake_all(SERVED);
        }
    }
}
