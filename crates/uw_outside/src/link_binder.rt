// A binder over one listener in memory.
ghost use Rattle.std.specs.Prelude.{◌≡◌, false, is_err, IfOk, MatchResult, Some, None, if◌then◌else◌};
ghost use Rattle.std.specs.Option.{option_map};
ghost use Rattle.uw_outside.specs.Counts.{next_count};
ghost use Rattle.uw_outside.specs.Faults.{HasCause};
ghost use Rattle.uw_outside.specs.Links.{Links};

use crate::binder::{Binder, NotBound};
use crate::counts::count_fault;
use crate::link_list::LinkList;
use std::alloc::Global;
use std::marker::Model;
use std::sync::Wait;

/// A binder that gives its listener for the first socket that it is asked for, whatever that is, and refuses every
/// later one.
#[derive(Drop)]
pub struct LinkBinder<R: Wait> {
    list: Option<LinkList<R>>,
    faults: u64,
    closings: u64,
}

impl<R: Wait> Model for LinkBinder<R> {
    ghost use Rattle.uw_outside.specs.Links.{Binding};

    ghost Value = { Binding };

    ghost view = { λ b. record { list = b.list; faults = b.faults; closings = b.closings } };
}

impl<R: Wait> LinkBinder<R> {
    /// The binder of this listener. Takes no memory.
    pub fn new(list: LinkList<R>) -> LinkBinder<R>
        ensures { result ≡ record { list = Some list; faults = 0; closings = 0 } }
    {
        LinkBinder {
            list: Some(list),
            faults: 0,
            closings: 0,
        }
    }
}

impl<R: Wait + Copy + Send + Drop + 'static> Binder for LinkBinder<R> {
    type Bound = LinkList<R>;

    ghost faults = { λ b. b.faults };

    ghost closings = { λ b. b.closings };

    fn bind(&mut self, _alloc: Global, _socket: &[u8]) -> Result<LinkList<R>, NotBound>
        ensures open { IfOk result (λ bound. bound.closed ≡ false) }
        ensures cause { HasCause self.old.faults self.new.faults (is_err result) }
        ensures closings { self.new.closings ≡ self.old.closings }
        ensures list { MatchResult result
            (λ bound. Some bound ≡ option_map {T = Links} (λ list. record list { closed = false }) self.old.list)
            (λ _. self.old.list ≡ None) }
        ensures first { self.new.list ≡ None }
        ensures faults { self.new.faults
            ≡ (if is_err result then next_count self.old.faults else self.old.faults) }
    {
        match self.list.take() {
            Some(list) => Ok(list.opened()),
            None => {
                count_fault(&mut self.faults);
                Err(NotBound)
            }
        }
    }

    fn closed(&mut self, bound: &LinkList<R>) -> bool
        ensures answer { result ≡ bound.now.closed }
        ensures cause { HasCause self.old.closings self.new.closings result }
        ensures faults { self.new.faults ≡ self.old.faults }
        ensures same { self.new ≡ record self.old { closings = self.new.closings } }
        ensures closings { self.new.closings
            ≡ (if result then next_count self.old.closings else self.old.closings) }
    {
        if bound.closed() {
            count_fault(&mut self.closings);
            return true;
        }
        false
    }
}
