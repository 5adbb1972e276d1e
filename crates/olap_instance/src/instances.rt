// A dimension instance and its look-ups.
ghost use Rattle.std.specs.Prelude.{◌≡◌, ◌<◌, ◌≤◌, ℕ, length, map, IfSome};
ghost use Rattle.std.specs.Option.{option_map};
ghost use Rattle.olap_base.specs.Instance.{IsBelow, IsInstance, category_of, member_at, name_of, parents_of};
ghost use Rattle.olap_base.specs.Limits.{most_members};
ghost use Rattle.olap_base.specs.Naming.{place_of};
ghost use Rattle.olap_instance.specs.Members.{AllHasNoParents, AreSound, HasTexts, with_parents};
ghost use Rattle.olap_instance.specs.Passes.{parents_in};

use crate::lists::Lists;
use crate::rosters::Roster;
use olap_base::{CatId, MemberId};
use std::marker::Model;

/// A dimension instance: the members in file order, `all` as the last.
#[derive(Drop)]
pub struct Instance {
    roster: Roster,
    // The parents of each member.
    parents: Lists<MemberId>,
}

impl Model for Instance {
    ghost use Rattle.olap_base.specs.Instance.{Instance as TheInstance};

    ghost Value = { TheInstance };

    ghost use Rattle.olap_instance.specs.InstanceInside.{instance_of, IsSound};

    ghost view = { instance_of };

    ghost invariant = { IsSound };
}

impl Instance {
    /// An instance of these members, each with its parents.
    pub(crate) fn from_parts(roster: Roster, parents: Lists<MemberId>) -> Instance
        requires { AreSound roster (parents_in parents) }
        ensures { result ≡ with_parents roster (parents_in parents) }
    {
        Instance { roster, parents }
    }

    /// How many members there are, `all` included.
    pub fn members(&self) -> u32
        ensures count { result ≡ length self.now }
        ensures few { length self.now ≤ most_members }
        ensures sound { IsInstance self.now }
        ensures texts { HasTexts self.now }
        ensures top { AllHasNoParents self.now }
    {
        self.roster.len() as u32
    }

    /// The category of a member.
    #[inline(always)]
    pub fn category(&self, m: MemberId) -> CatId
        requires { m.0 < length self.now }
        ensures { result.0 ≡ category_of self.now m.0 }
    {
        self.roster.category(m.0)
    }

    /// The id of a member.
    pub fn id(&self, m: MemberId) -> &[u8]
        requires { m.0 < length self.now }
        ensures { result.now ≡ (member_at self.now m.0).id }
    {
        self.roster.id(m.0)
    }

    /// The name of a member.
    pub fn name(&self, m: MemberId) -> &[u8]
        requires { m.0 < length self.now }
        ensures { result.now ≡ name_of self.now m.0 }
    {
        self.roster.name(m.0)
    }

    /// The parents of a member, in their order.
    pub fn parents(&self, m: MemberId) -> &[MemberId]
        requires { m.0 < length self.now }
        ensures list { map (λ p. p.0) result.now ≡ parents_of self.now m.0 }
        ensures places { (y : ℕ) → IsBelow self.now m.0 y → y < length self.now }
    {
        self.parents.of(m.0 as usize)
    }

    /// The member of that id, if there is one.
    #[inline(always)]
    pub fn find(&self, id: &[u8]) -> Option<MemberId>
        ensures place { option_map (λ m. m.0) result ≡ place_of id.now (map (λ m. m.id) self.now) }
        ensures inside { IfSome result (λ m. m.0 < length self.now) }
    {
        match self.roster.find(id) {
            Some(place) => Some(MemberId(place)),
            None => None,
        }
    }
}
