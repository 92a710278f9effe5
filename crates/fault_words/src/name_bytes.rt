//! The bytes of a name: up to 22 in the value itself, and more in memory of their own. Most names are short, and a text
//! may have millions of them.
ghost use Rattle.std.specs.Prelude.{◌≡◌, ◌≤◌, length, take, IfOk};
ghost use Rattle.fault_words.specs.declared.name_bytes.TheConstants.{SHORT_NAME};

use std::alloc::{AllocError, Global};
use std::marker::Model;

/// How many bytes of a name have room in its value.
pub const SHORT_NAME: usize = 22;

/// Up to 22 bytes. A contract sees them as a list.
#[derive(Drop)]
pub(crate) struct FewBytes {
    count: u8,
    room: [u8; SHORT_NAME],
}

impl Model for FewBytes {
    ghost use Rattle.std.specs.Prelude.{ℕ, ◌≤◌, List, take};
    ghost use Rattle.fault_words.specs.declared.name_bytes.TheConstants.{SHORT_NAME};

    ghost Value = { List ℕ };

    ghost view = { λ few. take few.count few.room };

    ghost invariant = { λ few. few.count ≤ SHORT_NAME };
}

impl FewBytes {
    // The first bytes of a text. What stands behind them fills the rest of the room, so that a number of bytes known
    // beforehand is copied: that takes a few moves and no call.
    #[inline(always)]
    fn short(text: &[u8], count: usize) -> FewBytes
        requires few { count ≤ SHORT_NAME }
        requires room { SHORT_NAME ≤ length text.now }
        ensures { result ≡ take count text.now }
    {
        let mut room = [0; SHORT_NAME];
        room.copy_from_slice(&text[..SHORT_NAME]);
        FewBytes {
            count: count as u8,
            room,
        }
    }

    // The same, where the text may end before the room is full.
    #[inline(always)]
    fn front(text: &[u8], count: usize) -> FewBytes
        requires few { count ≤ SHORT_NAME }
        requires inside { count ≤ length text.now }
        ensures { result ≡ take count text.now }
    {
        if text.len() < SHORT_NAME {
            FewBytes::front_of_few(text, count)
        } else {
            FewBytes::short(text, count)
        }
    }

    // The same of a text with no more bytes than there is room for.
    #[inline(never)]
    fn front_of_few(text: &[u8], count: usize) -> FewBytes
        requires few { length text.now ≤ SHORT_NAME }
        requires inside { count ≤ length text.now }
        ensures { result ≡ take count text.now }
    {
        let mut room = [0; SHORT_NAME];
        room[..text.len()].copy_from_slice(text);
        FewBytes {
            count: count as u8,
            room,
        }
    }

    fn as_slice(&self) -> &[u8]
        ensures { result.now ≡ self.now }
    {
        &self.room[..self.count as usize]
    }
}

/// The bytes of a name.
pub(crate) enum NameBytes {
    Few(FewBytes),
    Many(Box<Vec<u8>>),
}

// By hand, so that a caller who drops a name needs no case for each form.
impl Drop for NameBytes {
    fn drop(self) {
        match self {
            NameBytes::Few(_few) => {}
            NameBytes::Many(_many) => {}
        }
    }
}

impl NameBytes {
    ghost use Rattle.fault_words.specs.NameBytes.{bytes_of};

    /// A copy of the first bytes of a text, where they are few and the text fills the room for them.
    #[inline(always)]
    pub(crate) fn short(text: &[u8], count: usize) -> NameBytes
        requires few { count ≤ SHORT_NAME }
        requires room { SHORT_NAME ≤ length text.now }
        ensures { bytes_of result ≡ take count text.now }
    {
        NameBytes::Few(FewBytes::short(text, count))
    }

    /// A copy of the first bytes of a text.
    #[inline(always)]
    pub(crate) fn front(alloc: Global, text: &[u8], count: usize) -> Result<NameBytes, AllocError>
        requires { count ≤ length text.now }
        ensures { IfOk result (λ made. bytes_of made ≡ take count text.now) }
    {
        if count <= SHORT_NAME {
            Ok(NameBytes::Few(FewBytes::front(text, count)))
        } else {
            NameBytes::many(alloc, &text[..count])
        }
    }

    #[inline(never)]
    fn many(alloc: Global, bytes: &[u8]) -> Result<NameBytes, AllocError>
        ensures { IfOk result (λ made. bytes_of made ≡ bytes.now) }
    {
        let bytes = Vec::from_slice(alloc, bytes)?;
        Ok(NameBytes::Many(Box::new(alloc, bytes)?))
    }

    /// The bytes.
    pub(crate) fn as_slice(&self) -> &[u8]
        ensures { result.now ≡ bytes_of self.now }
    {
        match self {
            NameBytes::Few(few) => few.as_slice(),
            NameBytes::Many(many) => many.as_slice(),
        }
    }
}
