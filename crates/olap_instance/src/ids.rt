// Ids as keys of an index: an id that is short stands in the key itself.
ghost use Rattle.std.specs.Prelude.{◌≡◌, ◌≤◌, ◌∷◌, [], length, nat_eq, IfOk};
ghost use Rattle.std.specs.Hash as fed;
ghost use Rattle.std.specs.Cmp.Lexicographic.{pointwise, bytes_decides, nat_list_eq_equiv};
ghost use Rattle.std.specs.Cmp.{partial_equiv_from_equiv};
ghost use Rattle.std.specs.Cmp.Rules.{hashing};
ghost use Rattle.std.proofs.Common.{◌∙◌, ap};

use indexmap::Equivalent;
use olap_base::Memory;
use std::alloc::Global;
use std::hash::{Hash, Hasher};
use std::marker::Model;

/// How many bytes an id may have that stands in its key. A key then takes 32.
const SHORT: usize = 23;

// At most this many bytes.
#[derive(Drop)]
struct Short {
    bytes: [u8; SHORT],
    len: u8,
}

impl Model for Short {
    ghost use Rattle.std.specs.Prelude.{ℕ, List, ◌≤◌, take};

    ghost Value = { List ℕ };

    ghost view = { λ s. take s.len s.bytes };

    ghost invariant = { λ s. s.len ≤ 23 };
}

impl Short {
    fn new(bytes: &[u8]) -> Short
        requires { length bytes.now ≤ 23 }
        ensures { result ≡ bytes.now }
    {
        let mut room = [0; SHORT];
        room[..bytes.len()].copy_from_slice(bytes);
        Short {
            bytes: room,
            len: bytes.len() as u8,
        }
    }

    #[inline(always)]
    fn bytes(&self) -> &[u8]
        ensures { result.now ≡ self.now }
    {
        &self.bytes[..self.len as usize]
    }
}

// Where the bytes of an id stand.
#[derive(Drop)]
enum Bytes {
    Short(Short),
    Long(Vec<u8>),
}

/// An id, which contracts see as its bytes.
#[derive(Drop)]
pub(crate) struct Id {
    bytes: Bytes,
}

impl Model for Id {
    ghost use Rattle.std.specs.Prelude.{ℕ, List};

    ghost Value = { List ℕ };

    ghost use Rattle.olap_instance.specs.IdsInside.{bytes_of_id};

    ghost view = { bytes_of_id };
}

impl Id {
    /// The id of these bytes. A short one takes no memory.
    pub(crate) fn from_bytes(alloc: Global, bytes: &[u8]) -> Result<Id, Memory>
        ensures { IfOk result (λ id. id ≡ bytes.now) }
    {
        let bytes = if bytes.len() <= SHORT {
            Bytes::Short(Short::new(bytes))
        } else {
            Bytes::Long(Vec::from_slice(alloc, bytes)?)
        };
        Ok(Id { bytes })
    }

    /// Its bytes.
    #[inline(always)]
    pub(crate) fn bytes(&self) -> &[u8]
        ensures { result.now ≡ self.now }
    {
        match &self.bytes {
            Bytes::Short(short) => short.bytes(),
            Bytes::Long(bytes) => bytes,
        }
    }
}

impl PartialEq for Id {
    ghost eq = { pointwise nat_eq };

    ghost laws = { partial_equiv_from_equiv nat_list_eq_equiv };

    #[inline(always)]
    fn eq(&self, other: &Id) -> bool {
        self.bytes() == other.bytes()
    }
}

impl Eq for Id {
    ghost laws = { nat_list_eq_equiv };
}

impl Hash for Id {
    ghost hash_input = { λ id. id ∷ [] };

    ghost respects_eq = { λ x y h. ap (λ bytes. bytes ∷ []) ((bytes_decides x y).0 h) };

    #[inline(always)]
    fn hash<H: Hasher>(&self, state: &mut H) {
        state.write(self.bytes());
    }
}

/// The bytes of an id that is looked up. They are hashed as an id is.
#[derive(Clone, Copy)]
pub(crate) struct Sought<'a>(pub(crate) &'a [u8]);

impl<'a> PartialEq for Sought<'a> {
    ghost eq = { λ x y. pointwise nat_eq x.0.now y.0.now };

    ghost laws = { record {
      symm = λ x y. nat_list_eq_equiv.symm x.0.now y.0.now;
      trans = λ x y z p q. nat_list_eq_equiv.congr x.0.now y.0.now z.0.now p ∙ q;
    } };

    #[inline(always)]
    fn eq(&self, other: &Sought<'a>) -> bool {
        self.0 == other.0
    }
}

impl<'a> Eq for Sought<'a> {
    ghost laws = { record {
      refl = λ x. nat_list_eq_equiv.refl x.0.now;
      symm = λ x y. nat_list_eq_equiv.symm x.0.now y.0.now;
      congr = λ x y z. nat_list_eq_equiv.congr x.0.now y.0.now z.0.now;
    } };
}

impl<'a> Hash for Sought<'a> {
    ghost hash_input = { λ q. q.0.now ∷ [] };

    ghost respects_eq = { λ x y h. ap (λ bytes. bytes ∷ []) ((bytes_decides x.0.now y.0.now).0 h) };

    #[inline(always)]
    fn hash<H: Hasher>(&self, state: &mut H) {
        state.write(self.0);
    }
}

impl<'a> Equivalent<Id> for Sought<'a> {
    ghost equivalent = { λ q id. pointwise nat_eq q.0.now id };

    ghost respects_hash = { λ q id h. ap (λ bytes. bytes ∷ []) ((bytes_decides q.0.now id).0 h) };

    ghost respects_eq = { λ q x y. nat_list_eq_equiv.congr q.0.now x y };

    #[inline(always)]
    fn equivalent(&self, id: &Id) -> bool {
        self.0 == id.bytes()
    }
}
