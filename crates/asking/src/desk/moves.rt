// The changes of what a station keeps in mind.
ghost use Rattle.std.specs.Prelude.{◌≡◌, IfOk, option_map};
ghost use Rattle.asking.specs.Minds.{advanced, dropped, empty, mind};
ghost use Rattle.asking.specs.Told.{without};

use super::Desk;
use crate::told::Told;
use pieces::demand::Demand;
use pieces::memory::PLACES;
use pieces::names::Train;
use std::alloc::{AllocError, Global};

// There are so many stations at most.
const STATIONS: usize = 256;

impl Desk {
    // Nothing in mind.
    pub fn new(heap: Global) -> Result<Desk, AllocError>
        ensures { IfOk result (λ desk. mind desk ≡ empty) }
    {
        let order = Vec::with_capacity(heap, STATIONS)?;
        let trains = Vec::with_capacity(heap, PLACES)?;
        Ok(Desk {
            told: Told::new(heap),
            demand: None,
            order,
            at: 0,
            trains,
            ticks: 0,
        })
    }

    // What the next station is asked for once so many pieces were given, if one is.
    pub(super) fn next_demand(&self, count: u8) -> Option<Demand>
        ensures { result ≡ option_map (λ q. q.demand) (advanced (mind self.now).inquiry count) }
    {
        let demand = self.demand?;
        let left = self.order.len().saturating_sub(self.at);
        if demand.people <= count || left <= 1 {
            return None;
        }
        Some(Demand {
            people: demand.people - count,
            ..demand
        })
    }

    // So many pieces were given: the next is asked, or the ask is over.
    pub(super) fn advance(&mut self, count: u8)
        ensures { mind self.new ≡ record (mind self.old) { inquiry = advanced (mind self.old).inquiry count } }
    {
        self.demand = self.next_demand(count);
        if self.demand.is_some() {
            self.at += 1;
        }
    }

    // An ask for pieces of a train is over.
    fn drop_ask(&mut self, train: Train)
        ensures { mind self.new ≡ record (mind self.old) { inquiry = dropped train (mind self.old).inquiry } }
    {
        if self.demand.is_some_and(|demand| demand.train == train) {
            self.demand = None;
        }
    }

    // Forgets a train that is closed.
    pub(super) fn forget(&mut self, train: Train)
        ensures { mind self.new ≡ record (mind self.old) { told = without train (mind self.old).told; inquiry = dropped train (mind self.old).inquiry } }
    {
        self.told.forget(train);
        self.drop_ask(train);
    }
}
