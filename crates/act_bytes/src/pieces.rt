//! Numbers and lists, put at a place of a piece.

ghost use Rattle.std.specs.Prelude.{◌≡◌, ◌+◌, ◌≤◌, ◌<◌, [], ◌∷◌, length};
ghost use Rattle.byteorder.specs.Endian.{big_bytes};
ghost use Rattle.act_bytes.specs.Spelling.{key_bytes, sets_bytes, fill_bytes, fills_bytes};
ghost use Rattle.act_bytes.specs.Puts.{Puts};
ghost use Rattle.act_bytes.specs.declared.writing.TheConstants.{MAX_ACT};

use crate::writing::MAX_ACT;
use byteorder::{BigEndian, ByteOrder};
use condition_sets::OrderId;

/// Writes a number of one byte at a place, and tells the place behind it.
pub(crate) fn put_u8(into: &mut [u8; MAX_ACT], at: usize, n: u8) -> usize
    requires { at + 1 ≤ MAX_ACT }
    ensures { Puts into.old at (n ∷ []) into.new result }
{
    into[at] = n;
    at + 1
}

/// Writes a number of two bytes at a place, and tells the place behind it.
pub(crate) fn put_u16(into: &mut [u8; MAX_ACT], at: usize, n: u16) -> usize
    requires { at + 2 ≤ MAX_ACT }
    ensures { Puts into.old at (big_bytes 2 n) into.new result }
{
    BigEndian::write_u16(&mut into[at..], n);
    at + 2
}

/// Writes a number of four bytes at a place, and tells the place behind it.
pub(crate) fn put_u32(into: &mut [u8; MAX_ACT], at: usize, n: u32) -> usize
    requires { at + 4 ≤ MAX_ACT }
    ensures { Puts into.old at (big_bytes 4 n) into.new result }
{
    BigEndian::write_u32(&mut into[at..], n);
    at + 4
}

/// Writes a number of eight bytes at a place, and tells the place behind it.
pub(crate) fn put_u64(into: &mut [u8; MAX_ACT], at: usize, n: u64) -> usize
    requires { at + 8 ≤ MAX_ACT }
    ensures { Puts into.old at (big_bytes 8 n) into.new result }
{
    BigEndian::write_u64(&mut into[at..], n);
    at + 8
}

/// Writes a key at a place, and tells the place behind it.
#[tactic(auto, unfolding(crate::specs::Spelling::key_bytes))]
pub(crate) fn put_key(into: &mut [u8; MAX_ACT], at: usize, key: &[(u16, u32)]) -> usize
    requires few { length key.now < 256 }
    requires room { at + length (key_bytes key.now) ≤ MAX_ACT }
    ensures { Puts into.old at (key_bytes key.now) into.new result }
{
    let mut end = put_u8(into, at, key.len() as u8);
    for pair in key {
        end = put_u16(into, end, pair.0);
        end = put_u32(into, end, pair.1);
    }
    end
}

/// Writes a list of sets at a place, and tells the place behind it.
#[tactic(auto, unfolding(crate::specs::Spelling::sets_bytes))]
pub(crate) fn put_sets(into: &mut [u8; MAX_ACT], at: usize, sets: &[u32]) -> usize
    requires few { length sets.now < 256 }
    requires room { at + length (sets_bytes sets.now) ≤ MAX_ACT }
    ensures { Puts into.old at (sets_bytes sets.now) into.new result }
{
    let mut end = put_u8(into, at, sets.len() as u8);
    for set in sets {
        end = put_u32(into, end, *set);
    }
    end
}

/// Writes the order and the fill of a maker at a place, and tells the place behind it.
fn put_fill(into: &mut [u8; MAX_ACT], at: usize, maker: &(OrderId, u64)) -> usize
    requires { at + 12 ≤ MAX_ACT }
    ensures { Puts into.old at (fill_bytes maker.now) into.new result }
{
    let end = put_u32(into, at, maker.0.get());
    put_u64(into, end, maker.1)
}

/// Writes a list of makers at a place, and tells the place behind it.
#[tactic(auto, unfolding(crate::specs::Spelling::fills_bytes))]
pub(crate) fn put_fills(into: &mut [u8; MAX_ACT], at: usize, fills: &[(OrderId, u64)]) -> usize
    requires few { length fills.now < 256 }
    requires room { at + length (fills_bytes fills.now) ≤ MAX_ACT }
    ensures { Puts into.old at (fills_bytes fills.now) into.new result }
{
    let mut end = put_u8(into, at, fills.len() as u8);
    for maker in fills {
        end = put_fill(into, end, maker);
    }
    end
}
