//! Names of devices and of initiators.
ghost use Rattle.std.specs.Prelude.{◌≡◌, IfSome, is_some, IsTrue, bytes_eq, nat_eq};
ghost use Rattle.std.specs.List.{list_all};
ghost use Rattle.std.specs.Cmp.{partial_equiv_from_equiv};
ghost use Rattle.std.specs.Cmp.Lexicographic.{nat_list_eq_equiv};
ghost use Rattle.std.specs.Cmp.Rules.{hashing};
ghost use Rattle.std.specs.Hash as fed;
ghost use Rattle.std.proofs.Common.{rules};
ghost use Rattle.tcmu_types.specs.Naming.{is_name, is_letter, is_name_byte};

use arrayvec::ArrayVec;
use std::hash::{Hash, Hasher};
use std::marker::Model;

/// A name: 1 to 16 characters of `a` to `z`, `0` to `9` and `_`, the first a letter.
#[derive(Debug, Drop)]
pub struct Name {
    characters: ArrayVec<u8, 16>,
}

impl Model for Name {
    ghost use Rattle.std.specs.Prelude.{ℕ, List, IsTrue};
    ghost use Rattle.tcmu_types.specs.Naming.{is_name};

    ghost Value = { List ℕ };

    ghost view = { λ a. a.characters.items };

    ghost invariant = { λ a. IsTrue (is_name a.characters.items) };
}

impl PartialEq for Name {
    ghost eq = { bytes_eq };

    ghost laws = { partial_equiv_from_equiv nat_list_eq_equiv };

    fn eq(&self, other: &Name) -> bool {
        self.as_bytes() == other.as_bytes()
    }
}

impl Eq for Name {
    ghost laws = { nat_list_eq_equiv };
}

impl Hash for Name {
    ghost hash_input = { fed.slice fed.u8 };

    ghost respects_eq = { Prim.search (hashing, rules) };

    fn hash<H: Hasher>(&self, state: &mut H) {
        self.as_bytes().hash(state);
    }
}

fn is_letter(character: u8) -> bool
    ensures { result ≡ is_letter character }
{
    b'a' <= character && character <= b'z'
}

fn is_name_byte(character: u8) -> bool
    ensures { result ≡ is_name_byte character }
{
    is_letter(character) || (b'0' <= character && character <= b'9') || character == b'_'
}

fn all_name_bytes(bytes: &[u8]) -> bool
    ensures { result ≡ list_all is_name_byte bytes.now }
{
    bytes.iter().all(|byte| is_name_byte(*byte))
}

fn is_name(bytes: &[u8]) -> bool
    ensures { result ≡ is_name bytes.now }
{
    if bytes.len() < 1 {
        return false;
    }
    if 16 < bytes.len() {
        return false;
    }
    if !is_letter(bytes[0]) {
        return false;
    }
    all_name_bytes(bytes)
}

impl Name {
    /// The name of these characters; None exactly where they are no name.
    pub fn new(text: &str) -> Option<Name>
        ensures is_name { is_some result ≡ is_name text.now }
        ensures value { IfSome result (λ name. name ≡ text.now) }
    {
        Name::from_bytes(text.as_bytes())
    }

    /// As `new`, of bytes that may be no text.
    pub fn from_bytes(bytes: &[u8]) -> Option<Name>
        ensures is_name { is_some result ≡ is_name bytes.now }
        ensures value { IfSome result (λ name. name ≡ bytes.now) }
    {
        if !is_name(bytes) {
            return None;
        }
        let mut characters = ArrayVec::new();
        match characters.try_extend_from_slice(bytes) {
            Ok(()) => Some(Name { characters }),
            Err(_) => None,
        }
    }

    /// The characters of the name, a byte each.
    pub fn as_bytes(&self) -> &[u8]
        ensures value { result.now ≡ self.now }
        ensures is_name { IsTrue (is_name self.now) }
    {
        self.characters.as_slice()
    }

    /// The same name once more; it takes no memory.
    pub fn copy(&self) -> Name
        ensures { result ≡ self.now }
    {
        let mut characters = ArrayVec::new();
        match characters.try_extend_from_slice(self.characters.as_slice()) {
            Ok(()) => Name { characters },
            Err(_) => unreachable!(),
        }
    }
}
