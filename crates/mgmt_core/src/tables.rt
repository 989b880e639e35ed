ghost use Rattle.std.specs.Prelude.{◌≡◌, None, OnErr, OnOk};
ghost use Rattle.mgmt_core.specs.Reading.{asked};
ghost use Rattle.mgmt_core.specs.Room.{IsPrepared};

use crate::action::Action;
use crate::command::Command;
use crate::reply_body::ReplyRoom;
use content_store::Store;
use ndn_tlv::Memory;
use pit_fib::{Fib, StrategyTable};
use std::alloc::Global;

/// The tables that commands change: routes, strategies and the cache.
#[derive(Drop)]
pub struct Tables {
    pub fib: Fib,
    pub strategies: StrategyTable,
    pub store: Store,
    pub(crate) alloc: Global,
    // The memory that is reserved for the body of the next reply.
    pub(crate) room: ReplyRoom,
}

impl Tables {
    /// Returns the tables `fib`, `strategies` and `store` together, with no memory reserved for a
    /// reply.
    pub fn new(alloc: Global, fib: Fib, strategies: StrategyTable, store: Store) -> Tables
        ensures fib { result.fib ≡ fib }
        ensures strategies { result.strategies ≡ strategies }
        ensures store { result.store ≡ store }
    {
        Tables {
            fib,
            strategies,
            store,
            alloc,
            room: ReplyRoom::new(alloc),
        }
    }

    /// Prepares one `apply` of this command, whichever face the command comes from. The prepared
    /// `apply` cannot run out of memory if the only changes of the tables before the `apply` are
    /// removals of entries. Each later `prepare`, even one that fails, ends the preparation. The
    /// next `apply` of any command may also end the preparation.
    pub fn prepare(&mut self, command: &Command<'_>) -> Result<(), Memory>
        ensures ok { OnOk result (IsPrepared self.new (asked command.now)) }
        ensures err_routes { OnErr result (self.new.fib.prepared ≡ None) }
        ensures err_choices { OnErr result (self.new.strategies.prepared ≡ None) }
        ensures routes { self.new.fib.table ≡ self.old.fib.table }
        ensures choices { self.new.strategies.table ≡ self.old.strategies.table }
        ensures store { self.new.store ≡ self.old.store }
    {
        self.fib.forget_prepared();
        self.strategies.forget_prepared();
        self.room.prepare(command)?;
        match command.action {
            Action::AddNexthop | Action::Register => self.fib.prepare(command.name),
            Action::SetStrategy => self.strategies.prepare(command.name),
            _ => Ok(()),
        }
    }
}
