// A shared area.
ghost use Rattle.std.specs.Prelude.{◌≡◌, ◌==◌, [], false, true, not, is_ok, IfOk, OnOk, OnErr, IsTrue};
ghost use Rattle.uw_outside.specs.Faults.{HasCause};
ghost use Rattle.uw_model.specs.declared.areas.AreaOp.{AreaOp};
ghost use Rattle.uw_model.specs.AreaOps.{AreaState, IsAreaSize, blank_area};
ghost use Rattle.uw_words.specs.Plans.{region};
ghost use Rattle.uw_intent.specs.Stores.{AllMade, SomeMade};
ghost use Rattle.uw_intent.specs.RedoRecord.{repairs};
ghost use Rattle.uw_intent.specs.Standing.{StandsFor};
ghost use Rattle.uw_intent.specs.OneTurn.{end_of, has_call_died};
ghost use Rattle.uw_area.specs.AreaWords.{AgreesWithArea, area_frame};
ghost use Rattle.uw_area.specs.AreaKind.{area_kind};
ghost use Rattle.uw_area.specs.AreaViews.{AreaView, HasOperated, todo_of, is_read, is_memory};

use crate::blank::blank_words;
use crate::ops::plan_op;
use std::alloc::Global;
use std::marker::Model;
use uw_base::Memory;
use uw_intent::{CallFault, Frame, Recoverable, commit, is_pending, recover};
use uw_model::{AreaAnswer, AreaOp, HEAD_WORDS, ListArea, area_plan_room, byte_words};
use uw_outside::{Died, Life};
use uw_words::{Overlay, Ram};

// Its size in bytes, its words, and what its last operation planned.
#[derive(Drop)]
pub(crate) struct Held {
    size: u64,
    ram: Ram,
    over: Overlay,
}

/// A shared area as a region, with what its last operation planned. It is one pointer wide.
#[derive(Drop)]
pub struct Area {
    held: Box<Held>,
}

impl Model for Area {
    ghost use Rattle.uw_area.specs.AreaViews.{AreaView, IsStandingArea};

    ghost Value = { AreaView };

    ghost view = { λ a. record { size = a.held.value.size; words = a.held.value.ram; plan = a.held.value.over.writes } };

    ghost invariant = { λ a. IsStandingArea a.held.value.size a.held.value.over.room a.held.value.ram };
}

// Where the redo record of an area of so many bytes stands.
fn frame_of(size: u64) -> Frame
    requires { IsAreaSize size }
    ensures { result ≡ area_frame size }
{
    Frame {
        gate: 10,
        used: 11,
        start: HEAD_WORDS + byte_words(size),
        room: 3 * area_plan_room(size),
    }
}

impl Area {
    /// An area of so many zero bytes, with no update counted. Takes all memory that its writes need: eight bytes for each
    /// word of the region, which are 16, one for each eight bytes of the area, and three for each word that an operation
    /// may plan; and an overlay that can name as many words as an operation may plan.
    pub fn new(alloc: Global, size: u64) -> Result<Area, Memory>
        requires { IsAreaSize size }
        ensures size { IfOk result (λ area. area.size ≡ size) }
        ensures plan { IfOk result (λ area. area.plan ≡ []) }
        ensures blank { IfOk result (λ area. AgreesWithArea size area.words (blank_area size)) }
    {
        let ram = blank_words(alloc, size)?;
        let over = Overlay::new(alloc, area_plan_room(size))?;
        Ok(Area {
            held: Box::new(alloc, Held { size, ram, over })?,
        })
    }

    /// Whether a death has left writes that are to be made. Takes no memory.
    pub fn is_pending(&self) -> bool
        ensures { result ≡ not (region self.now.words 10 == 0) }
    {
        is_pending(&self.held.ram, &frame_of(self.held.size))
    }

    /// Makes an operation: all of its writes, or as many as the life lets through. It costs the words of its slice, and not
    /// those of the area. A slice that ends behind the area is refused, with no write. Only a read takes memory: that of the
    /// bytes that it gives.
    pub fn call<L: Life>(
        &mut self,
        alloc: Global,
        op: &AreaOp,
        life: &mut L,
    ) -> Result<AreaAnswer, CallFault>
        requires idle { region self.old.words 10 ≡ 0 }
        requires alive { L.alive life.old ≡ true }
        ensures operated { HasOperated self.old self.new op.now (L.allowances life.old) (L.allowances life.new) (end_of result) }
        ensures memory { is_memory result ≡ true → is_read op.now ≡ true }
        ensures closed { has_call_died result ≡ false → region self.new.words 10 ≡ 0 }
        ensures alive { L.alive life.new ≡ not (has_call_died result) }
        ensures cause { HasCause (L.deaths life.old) (L.deaths life.new) (has_call_died result) }
    {
        let held = &mut *self.held;
        held.over.clear();
        let Ok(answer) = plan_op(alloc, held.size, &held.ram, &mut held.over, op) else {
            return Err(CallFault::Memory);
        };
        let frame = frame_of(held.size);
        match commit(&mut held.ram, &frame, &held.over, life) {
            Ok(()) => Ok(answer),
            Err(Died) => Err(CallFault::Died {
                whole: is_pending(&held.ram, &frame),
            }),
        }
    }

    /// Makes the writes that a death has left: all of them, or as many as the life lets through. Takes no memory.
    pub fn recover<L: Life>(&mut self, life: &mut L) -> Result<(), Died>
        requires alive { L.alive life.old ≡ true }
        ensures all { OnOk result (AllMade (repairs (area_frame self.old.size) self.old.words) self.old.words self.new.words
            (L.allowances life.old) (L.allowances life.new)) }
        ensures part { OnErr result (SomeMade (repairs (area_frame self.old.size) self.old.words) self.old.words self.new.words
            (L.allowances life.old) (L.allowances life.new)) }
        ensures stands { (area : AreaState) → StandsFor (area_kind self.old.size) self.old.words area
            → StandsFor (area_kind self.old.size) self.new.words area }
        ensures agrees { OnOk result ((area : AreaState) → StandsFor (area_kind self.old.size) self.old.words area
            → AgreesWithArea self.old.size self.new.words area) }
        ensures closed { OnOk result (region self.new.words 10 ≡ 0) }
        ensures size { self.new.size ≡ self.old.size }
        ensures alive { L.alive life.new ≡ is_ok result }
        ensures cause { HasCause (L.deaths life.old) (L.deaths life.new) (not (is_ok result)) }
    {
        let held = &mut *self.held;
        recover(&mut held.ram, &frame_of(held.size), life)
    }
}

impl Recoverable for Area {
    ghost use Rattle.uw_area.specs.AreaKind.{area_kind};
    ghost use Rattle.uw_area.specs.AreaViews.{todo_of};

    type Conf = u64;

    type State = ListArea;

    type Call = AreaOp;

    type Answer = AreaAnswer;

    ghost conf = { λ area. area.size };

    ghost kind = { area_kind };

    ghost words = { λ area. area.words };

    ghost todo = { todo_of };

    fn is_pending(&self) -> bool {
        self.is_pending()
    }

    fn call<L: Life>(
        &mut self,
        alloc: Global,
        moment: u64,
        call: &AreaOp,
        life: &mut L,
    ) -> Result<AreaAnswer, CallFault> {
        let _ = moment;
        self.call(alloc, call, life)
    }

    fn recover<L: Life>(&mut self, life: &mut L) -> Result<(), Died> {
        self.recover(life)
    }
}
