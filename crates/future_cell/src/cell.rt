//! A value that is put once, and those who wait for it.
ghost use Rattle.std.specs.Prelude.{◌≡◌, [], ◌∷◌, ◌++◌, IfErr, OnOk, Some, None};
ghost use Rattle.std.specs.Option.{option_copied};

use fut_base::list::NoMemory;
use fut_base::ready::Ready;
use std::alloc::Global;
use std::marker::Model;
use std::mem;

/// A waiter that could not be kept, for want of memory.
#[derive(Drop)]
pub struct Back<W> {
    pub waiter: W,
}

/// A place for a value that is put once. Contracts see the value, and the waiters in the order in which they came.
#[derive(Drop)]
pub struct FutureCell<T, W> {
    value: Option<T>,
    waiters: Ready<W>,
    alloc: Global,
}

impl<T, W> Model for FutureCell<T, W> {
    ghost use Rattle.future_cell.specs.Awaited.{Awaited, awaited_code};

    ghost Value = { Awaited T W };

    ghost coded = { awaited_code T.code W.code };

    ghost view = { λ c. record { value = c.value; waiters = c.waiters.items } };
}

impl<T: Drop, W: Drop> FutureCell<T, W> {
    /// Nothing was put, and nobody waits. It takes no memory.
    pub fn make(alloc: Global) -> FutureCell<T, W>
        ensures { result ≡ record { value = None; waiters = [] } }
    {
        FutureCell {
            value: None,
            waiters: Ready::make(alloc),
            alloc,
        }
    }

    /// The value; `None` exactly where nothing was put.
    pub fn look(&self) -> Option<&T>
        ensures { option_copied result ≡ self.now.value }
    {
        self.value.as_ref()
    }

    /// Puts the value and hands out all waiters in the order in which they came. It takes no memory.
    pub fn put(&mut self, value: T) -> Ready<W>
        requires { self.old.value ≡ None }
        ensures waiters { result.items ≡ self.old.waiters }
        ensures put { self.new ≡ record { value = Some value; waiters = [] } }
    {
        self.value = Some(value);
        mem::replace(&mut self.waiters, Ready::make(self.alloc))
    }

    /// One more waits, behind the others. `Err` hands the waiter back, for want of memory.
    pub fn wait(&mut self, waiter: W) -> Result<(), Back<W>>
        requires { self.old.value ≡ None }
        ensures kept { OnOk result (self.new ≡ record { value = None; waiters = self.old.waiters ++ waiter ∷ [] }) }
        ensures back { IfErr result (λ back. (back.waiter ≡ waiter) × (self.new ≡ self.old)) }
    {
        match self.waiters.reserve() {
            Ok(()) => {
                self.waiters.push(waiter);
                Ok(())
            }
            Err(NoMemory) => Err(Back { waiter }),
        }
    }
}
