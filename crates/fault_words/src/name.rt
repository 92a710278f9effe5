//! Names of events and gates, which are also the words and values of attributes.
ghost use Rattle.std.specs.Prelude.{◌≡◌, ◌↔◌, ◌≤◌, length, take, IsTrue, IsSome, IfSome, IfOk, nat_eq};
ghost use Rattle.std.specs.Cmp.{partial_equiv_from_equiv};
ghost use Rattle.std.specs.Cmp.Lexicographic.{pointwise, nat_list_eq_equiv};
ghost use Rattle.std.specs.Cmp.Rules.{hashing};
ghost use Rattle.std.specs.Hash as fed;
ghost use Rattle.std.proofs.Common.{rules};
ghost use Rattle.fault_words.specs.Name.{is_name, is_name_byte, is_bare_name, is_bare_start, is_bare_byte};
ghost use Rattle.fault_words.specs.declared.name_bytes.TheConstants.{SHORT_NAME};
ghost use Rattle.std.specs.List.{list_all};

use crate::name_bytes::NameBytes;
use deck_limits::LONGEST_NAME;
use std::alloc::{AllocError, Global};
use std::hash::{Hash, Hasher};
use std::marker::Model;

/// A name: 1 to 255 bytes of printable ASCII other than `"`. A contract sees it as the list of its bytes.
#[derive(Drop)]
pub struct Name {
    bytes: NameBytes,
}

impl Model for Name {
    ghost use Rattle.std.specs.Prelude.{ℕ, List, IsTrue};
    ghost use Rattle.fault_words.specs.Name.{is_name};
    ghost use Rattle.fault_words.specs.NameBytes.{bytes_of};

    ghost Value = { List ℕ };

    ghost view = { λ name. bytes_of name.bytes };

    ghost invariant = { λ name. IsTrue (is_name (bytes_of name.bytes)) };
}

impl Name {
    /// The name of these bytes, or `None` where they are none.
    pub fn new(alloc: Global, bytes: &[u8]) -> Result<Option<Name>, AllocError>
        ensures some { IfOk result (λ made. IsSome made ↔ IsTrue (is_name bytes.now)) }
        ensures bytes { IfOk result (λ made. IfSome made (λ name. name ≡ bytes.now)) }
    {
        if !is_name(bytes) {
            return Ok(None);
        }
        Ok(Some(Name::of(alloc, bytes)?))
    }

    /// The name of these bytes, which have the form of one.
    pub fn of(alloc: Global, bytes: &[u8]) -> Result<Name, AllocError>
        requires { IsTrue (is_name bytes.now) }
        ensures { IfOk result (λ name. name ≡ bytes.now) }
    {
        Name::front(alloc, bytes, bytes.len())
    }

    /// The name of the first bytes of a text, which have the form of one. Where more of the text follows them, a short
    /// name is copied without a call.
    #[inline(always)]
    pub fn front(alloc: Global, text: &[u8], count: usize) -> Result<Name, AllocError>
        requires inside { count ≤ length text.now }
        requires form { IsTrue (is_name (take count text.now)) }
        ensures { IfOk result (λ name. name ≡ take count text.now) }
    {
        Ok(Name {
            bytes: NameBytes::front(alloc, text, count)?,
        })
    }

    /// The name of the first bytes of a text that has at least [`SHORT_NAME`] bytes, where the name has at most so
    /// many. It takes no memory, so that a reader of many names can make each where it is to stay.
    #[inline(always)]
    pub fn short(text: &[u8], count: usize) -> Name
        requires few { count ≤ SHORT_NAME }
        requires room { SHORT_NAME ≤ length text.now }
        requires form { IsTrue (is_name (take count text.now)) }
        ensures { result ≡ take count text.now }
    {
        Name {
            bytes: NameBytes::short(text, count),
        }
    }

    /// The bytes of the name.
    pub fn as_slice(&self) -> &[u8]
        ensures bytes { result.now ≡ self.now }
        ensures form { IsTrue (is_name self.now) }
    {
        self.bytes.as_slice()
    }

    /// Whether the name may stand in a text without quotes.
    pub fn is_bare(&self) -> bool
        ensures { result ≡ is_bare_name self.now }
    {
        is_bare_name(self.bytes.as_slice())
    }
}

fn is_name(bytes: &[u8]) -> bool
    ensures { result ≡ is_name bytes.now }
{
    1 <= bytes.len() && bytes.len() <= LONGEST_NAME && all_name_bytes(bytes)
}

fn all_name_bytes(bytes: &[u8]) -> bool
    ensures { result ≡ list_all is_name_byte bytes.now }
{
    bytes.iter().all(|byte| is_name_byte(*byte))
}

fn is_name_byte(byte: u8) -> bool
    ensures { result ≡ is_name_byte byte }
{
    32 <= byte && byte <= 126 && byte != b'"'
}

/// Whether these bytes are a name that may stand in a text without quotes.
pub fn is_bare_name(bytes: &[u8]) -> bool
    ensures { result ≡ is_bare_name bytes.now }
{
    match bytes {
        [first, rest @ ..] => is_bare_start(*first) && all_bare_bytes(rest),
        [] => false,
    }
}

fn is_bare_start(byte: u8) -> bool
    ensures { result ≡ is_bare_start byte }
{
    byte.is_ascii_alphabetic() || byte == b'_'
}

fn all_bare_bytes(bytes: &[u8]) -> bool
    ensures { result ≡ list_all is_bare_byte bytes.now }
{
    bytes.iter().all(|byte| is_bare_byte(*byte))
}

// Each byte of a bare name behind its first stands at its own place, and a comma at every other place: one load tells a
// byte's class.
static BARE_BYTES: [u8; 256] = *b"\
    ,,,,,,,,,,,,,,,,,,,,,,,,,,,,,,,,\
    ,,,,,,,,,,,,,-.,0123456789,,,,,,\
    ,ABCDEFGHIJKLMNOPQRSTUVWXYZ,,,,_\
    ,abcdefghijklmnopqrstuvwxyz,,,,,\
    ,,,,,,,,,,,,,,,,,,,,,,,,,,,,,,,,\
    ,,,,,,,,,,,,,,,,,,,,,,,,,,,,,,,,\
    ,,,,,,,,,,,,,,,,,,,,,,,,,,,,,,,,\
    ,,,,,,,,,,,,,,,,,,,,,,,,,,,,,,,,";

fn is_bare_byte(byte: u8) -> bool
    ensures { result ≡ is_bare_byte byte }
{
    BARE_BYTES[byte as usize] != b','
}

impl PartialEq for Name {
    ghost eq = { pointwise nat_eq };

    ghost laws = { partial_equiv_from_equiv nat_list_eq_equiv };

    fn eq(&self, other: &Name) -> bool {
        self.as_slice() == other.as_slice()
    }
}

impl Eq for Name {
    ghost laws = { nat_list_eq_equiv };
}

impl Hash for Name {
    ghost hash_input = { fed.slice fed.u8 };

    ghost respects_eq = { Prim.search (hashing, rules) };

    fn hash<H: Hasher>(&self, state: &mut H) {
        self.as_slice().hash(state);
    }
}
