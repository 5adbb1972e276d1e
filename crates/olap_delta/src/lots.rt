// Facts that are joined by member before they go into the views.
ghost use Rattle.std.specs.Prelude.{◌≡◌, [], ◌<◌, IfOk, IfSome, OnOk, length, slice_index_or};
ghost use Rattle.olap_base.specs.Instance.{Instance as TheInstance};
ghost use Rattle.olap_base.specs.Limits.{most_count};
ghost use Rattle.olap_delta.specs.Lots.{AreLots, AreMore, StandFor};
ghost use Rattle.olap_delta.specs.declared.lots.Lot.{Lot as TheLot};
ghost use Rattle.olap_facts.specs.Seen.{fact_of};

use olap_base::{MemberId, Memory};
use olap_facts::Fact;
use olap_view::Summary;
use std::alloc::Global;

/// A member, and the total of the values of its facts.
#[derive(Clone, Copy)]
pub(crate) struct Lot {
    pub(crate) member: MemberId,
    pub(crate) summary: Summary,
}

/// The totals of the values of some facts, by the members at which the facts stand.
#[derive(Drop)]
pub(crate) struct Lots {
    // For each member that has a lot the lot's place; for any other any number.
    pub(crate) places: Vec<u32>,
    /// The lots, in the order of the first facts of their members.
    pub(crate) lots: Vec<Lot>,
    /// How many facts were taken.
    pub(crate) taken: u64,
}

impl Lots {
    /// No facts, of an instance of this many members. It takes four bytes for each. `Memory`: out of memory.
    pub(crate) fn new(alloc: Global, members: u32) -> Result<Lots, Memory>
        ensures places { IfOk result (λ l. length l.places.items ≡ members) }
        ensures taken { IfOk result (λ l. l.taken ≡ 0) }
        ensures lots { IfOk result AreLots }
        ensures stand { IfOk result (λ l. (i : TheInstance) → StandFor i [] l) }
    {
        Ok(Lots {
            places: vec![in alloc; 0u32; members as usize]?,
            lots: Vec::new(alloc),
            taken: 0,
        })
    }

    /// The place of the member's lot, if it has one.
    fn place(&self, member: MemberId) -> Option<usize>
        requires { member.0 < length self.now.places.items }
        ensures inside { IfSome result (λ k. k < length self.now.lots.items) }
        ensures own { IfSome result (λ k. (d : TheLot)
            → (slice_index_or self.now.lots.items k d).member.0 ≡ member.0) }
    {
        let place = self.places[member.0 as usize] as usize;
        if place < self.lots.len() && self.lots[place].member.0 == member.0 {
            Some(place)
        } else {
            None
        }
    }

    /// Joins a fact's value to the lot at this place, which is its member's.
    fn join(&mut self, place: usize, fact: &Fact)
        requires inside { place < length self.old.lots.items }
        requires own { (d : TheLot)
            → (slice_index_or self.old.lots.items place d).member.0 ≡ fact.now.member.0 }
        requires room { self.old.taken < most_count }
        requires lots { AreLots self.old }
        ensures { AreMore (fact_of fact.now) self.old self.new }
    {
        let alone = Summary::of_value(fact.value);
        let summary = self.lots[place].summary.joined(alone);
        self.lots[place] = Lot {
            member: fact.member,
            summary,
        };
        self.taken += 1;
    }

    /// Begins the lot of a fact's member, for which it takes memory.
    fn begin(&mut self, fact: &Fact) -> Result<(), Memory>
        requires member { fact.now.member.0 < length self.old.places.items }
        requires room { self.old.taken < most_count }
        requires lots { AreLots self.old }
        ensures { OnOk result (AreMore (fact_of fact.now) self.old self.new) }
    {
        let alone = Summary::of_value(fact.value);
        self.places[fact.member.0 as usize] = self.lots.len() as u32;
        self.lots.push(Lot {
            member: fact.member,
            summary: alone,
        })?;
        self.taken += 1;
        Ok(())
    }

    /// Joins a fact's value to the lot of its member, or begins that lot, for which it takes memory. `Memory`: out of
    /// memory.
    pub(crate) fn take(&mut self, fact: &Fact) -> Result<(), Memory>
        requires member { fact.now.member.0 < length self.old.places.items }
        requires room { self.old.taken < most_count }
        requires lots { AreLots self.old }
        ensures { OnOk result (AreMore (fact_of fact.now) self.old self.new) }
    {
        match self.place(fact.member) {
            Some(place) => {
                self.join(place, fact);
                Ok(())
            }
            None => self.begin(fact),
        }
    }
}
