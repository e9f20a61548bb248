// The line of messages that are still to be delivered, each by its place among all that were said.
ghost use Rattle.std.specs.Prelude.{◌≡◌, ◌+◌, ◌-◌, ◌≤◌, [], ◌∷◌, ◌++◌, take, drop, OnOk, nat_lt};
ghost use Rattle.std.specs.VecDeque.{deque_len};
ghost use Rattle.network.specs.Places.{gather};
ghost use Rattle.std.specs.Option.{option_to_list};

use std::alloc::{AllocError, Global};
use std::collections::VecDeque;

#[derive(Drop)]
pub struct Queue {
    places: VecDeque<usize>,
}

impl Queue {
    pub fn new(heap: Global) -> Queue
        ensures { result.places.items ≡ [] }
    {
        Queue {
            places: VecDeque::new(heap),
        }
    }

    // The first message, which stays.
    pub fn first(&self) -> Option<usize>
        ensures { option_to_list result ≡ take 1 self.now.places.items }
    {
        self.places.front().copied()
    }

    // The first message, which is taken out.
    pub fn take_first(&mut self) -> Option<usize>
        ensures value { option_to_list result ≡ take 1 self.old.places.items }
        ensures after { self.old.places.items ≡ option_to_list result ++ self.new.places.items }
    {
        self.places.pop_front()
    }

    // The first message goes to the end; false where there is none.
    pub fn delay(&mut self) -> bool
        ensures value { result ≡ nat_lt 0 (deque_len self.old.places) }
        ensures after { self.new.places.items ≡ drop 1 self.old.places.items ++ take 1 self.old.places.items }
    {
        if self.places.is_empty() {
            return false;
        }
        self.places.rotate_left(1);
        true
    }

    // Adds the messages from one place up to another, in order: none where that one is not later.
    pub fn add(&mut self, from: usize, to: usize) -> Result<(), AllocError>
        ensures { OnOk result (self.new.places.items ≡ self.old.places.items ++ gather (to - from) (λ k. (from + k) ∷ [])) }
    {
        for at in from..to {
            self.places.push_back(at)?;
        }
        Ok(())
    }
}
