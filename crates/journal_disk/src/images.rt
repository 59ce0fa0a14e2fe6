ghost use Rattle.std.specs.Prelude.{◌≡◌, ℕ, ◌+◌, ◌^◌, ◌≤◌, ◌<◌, [], ◌∷◌, List, length, take, get_or, slice_get, min, max, Some, All, Contains, IfOk};
ghost use Rattle.journal_disk.specs.Images.{IsTorn, IsCut, overlaid};
ghost use Rattle.journal_disk.specs.Memory.{contents, stored, Image, HasLength, HasFronts};

use crate::call::Call;
use crate::changed::{front, overlaid};
use condition_sets::{ListOf, NoMemory};
use std::alloc::Global;

/// What stands where an image may have any bytes, beside the new ones: the old bytes, all zeros or all ones.
#[derive(Clone, Copy)]
enum Fill {
    Old,
    Zeros,
    Ones,
}

/// An image with any part of a write of so many bytes: of this length, and filled so where it may have any bytes.
fn torn(
    alloc: Global,
    before: &[u8],
    at: usize,
    count: usize,
    len: usize,
    fill: Fill,
) -> Result<ListOf<u8>, NoMemory>
    requires at_least { length before.now ≤ len }
    requires at_most { len ≤ max (length before.now) (at + count) }
    requires end { at + count < 2 ^ 64 }

    ensures { IfOk result (IsTorn at count before.now) }
{
    let mut image = Vec::new(alloc);
    for place in 0..len {
        let byte = torn_byte(before, at, count, place, fill);
        image.push(byte)?;
    }
    Ok(ListOf::of(image))
}

/// The byte at a place of such an image.
fn torn_byte(before: &[u8], at: usize, count: usize, place: usize, fill: Fill) -> u8
    requires { at + count < 2 ^ 64 }

    ensures below { place < at → place < length before.now → result ≡ get_or before.now place 0 }
    ensures above { at + count ≤ place → place < length before.now → result ≡ get_or before.now place 0 }
{
    let old = match before.get(place) {
        Some(byte) => *byte,
        None => 0,
    };
    if place < at || place >= at + count {
        return old;
    }
    match fill {
        Fill::Old => old,
        Fill::Zeros => 0,
        Fill::Ones => 255,
    }
}

/// Images of one length with any part of a write of so many bytes, the whole of which makes the image `whole`: with
/// the old bytes, the new ones, all zeros and all ones.
fn torn_of_length(
    alloc: Global,
    before: &[u8],
    whole: &[u8],
    at: usize,
    count: usize,
    len: usize,
) -> Result<Vec<ListOf<u8>>, NoMemory>
    requires at_least { length before.now ≤ len }
    requires at_most { len ≤ length whole.now }
    requires end { at + count < 2 ^ 64 }
    requires whole { IsTorn at count before.now whole.now }

    ensures all { IfOk result (λ images. All (IsTorn at count before.now) images.items) }
    ensures front { IfOk result (λ images. Contains images.items (take len whole.now)) }
{
    let mut images = Vec::new(alloc);
    images.push(torn(alloc, before, at, count, len, Fill::Old)?)?;
    images.push(ListOf::of(Vec::from_slice(alloc, &whole[..len])?))?;
    images.push(torn(alloc, before, at, count, len, Fill::Zeros)?)?;
    images.push(torn(alloc, before, at, count, len, Fill::Ones)?)?;
    Ok(images)
}

/// Images with any part of a write, of each length that they may have, the whole of it among them. The first is the
/// image as it was.
fn torn_each(
    alloc: Global,
    before: &[u8],
    at: u64,
    written: &[u8],
) -> Result<Vec<ListOf<u8>>, NoMemory>
    ensures all { IfOk result (λ images. All (IsTorn at (length written.now) before.now) images.items) }
    ensures first { IfOk result (λ images. slice_get images.items 0 ≡ Some before.now) }
    ensures fronts { IfOk result (λ images. HasFronts (length before.now) (overlaid at written.now before.now) images.items) }
{
    let whole = overlaid(alloc, before, at, written)?;
    let mut images = one(alloc, Vec::from_slice(alloc, before)?)?;
    for len in before.len()..whole.len() + 1 {
        let mut torn = torn_of_length(alloc, before, &whole, at as usize, written.len(), len)?;
        images.append(&mut torn)?;
    }
    Ok(images)
}

/// Images that are cut, of each length that they may have. The first is the image as it was.
fn cut_each(alloc: Global, before: &[u8], len: u64) -> Result<Vec<ListOf<u8>>, NoMemory>
    ensures all { IfOk result (λ images. All (IsCut len before.now) images.items) }
    ensures first { IfOk result (λ images. slice_get images.items 0 ≡ Some before.now) }
    ensures fronts { IfOk result (λ images. HasFronts (min len (length before.now)) before.now images.items) }
{
    let shortest = before.len().min(len as usize);
    let mut images = one(alloc, Vec::from_slice(alloc, before)?)?;
    for end in shortest..before.len() {
        images.push(ListOf::of(Vec::from_slice(alloc, &before[..end])?))?;
    }
    Ok(images)
}

/// Images with any part of a write of one of these.
fn torn_all(
    alloc: Global,
    images: &[ListOf<u8>],
    at: u64,
    written: &[u8],
) -> Result<Vec<ListOf<u8>>, NoMemory>
    ensures all { IfOk result (λ after. All (λ image. (before : List ℕ) × Contains images.now before × IsTorn at (length written.now) before image) after.items) }
    ensures first { IfOk result (λ after. slice_get after.items 0 ≡ slice_get images.now 0) }
    ensures same { IfOk result (λ after. All (Contains after.items) images.now) }
    ensures fronts { IfOk result (λ after. All (λ before. HasFronts (length before) (overlaid at written.now before) after.items) images.now) }
{
    let mut after = Vec::new(alloc);
    for before in images {
        let mut each = torn_each(alloc, before.as_slice(), at, written)?;
        after.append(&mut each)?;
    }
    Ok(after)
}

/// Images that are cut of one of these.
fn cut_all(alloc: Global, images: &[ListOf<u8>], len: u64) -> Result<Vec<ListOf<u8>>, NoMemory>
    ensures all { IfOk result (λ after. All (λ image. (before : List ℕ) × Contains images.now before × IsCut len before image) after.items) }
    ensures first { IfOk result (λ after. slice_get after.items 0 ≡ slice_get images.now 0) }
    ensures fronts { IfOk result (λ after. All (λ before. HasFronts (min len (length before)) before after.items) images.now) }
{
    let mut after = Vec::new(alloc);
    for before in images {
        let mut each = cut_each(alloc, before.as_slice(), len)?;
        after.append(&mut each)?;
    }
    Ok(after)
}

/// What a read gives after calls, the newest first.
fn contents(alloc: Global, first: &[u8], calls: &[Call]) -> Result<Vec<u8>, NoMemory>
    ensures { IfOk result (λ bytes. bytes.items ≡ contents first.now calls.now) }
{
    let Some((call, older)) = calls.split_first() else {
        return Ok(Vec::from_slice(alloc, first)?);
    };
    let bytes = contents(alloc, first, older)?;
    match call {
        Call::Write {
            at,
            bytes: written,
            ok: true,
        } => overlaid(alloc, &bytes, *at, written.as_slice()),
        Call::Cut { len, ok: true } => Ok(Vec::from_slice(alloc, front(&bytes, *len))?),
        _ => Ok(bytes),
    }
}

/// Images that a crash after calls may leave, the newest call first; the first image is what was stored last, what a
/// read gives is among them, and of each length that an image may have there is one. Where an image may have any bytes
/// these are the old ones, the new ones, all zeros and all ones.
pub(crate) fn images(
    alloc: Global,
    first: &[u8],
    calls: &[Call],
) -> Result<Vec<ListOf<u8>>, NoMemory>
    ensures all { IfOk result (λ images. All (Image first.now calls.now) images.items) }
    ensures first { IfOk result (λ images. slice_get images.items 0 ≡ Some (stored first.now calls.now)) }
    ensures contents { IfOk result (λ images. Contains images.items (contents first.now calls.now)) }
    ensures lengths { IfOk result (λ images. (image : List ℕ) → Image first.now calls.now image → HasLength (length image) images.items) }
{
    let Some((call, older)) = calls.split_first() else {
        return one(alloc, Vec::from_slice(alloc, first)?);
    };
    match call {
        Call::Write { at, bytes, ok: _ } => {
            let before = images(alloc, first, older)?;
            let after = torn_all(alloc, &before, *at, bytes.as_slice())?;
            Ok(after)
        }
        Call::Cut { len, ok: _ } => {
            let before = images(alloc, first, older)?;
            let after = cut_all(alloc, &before, *len)?;
            Ok(after)
        }
        Call::Sync { ok: true } => one(alloc, contents(alloc, first, older)?),
        Call::Sync { ok: false } => images(alloc, first, older),
        Call::Read { .. } => images(alloc, first, older),
    }
}

/// One image.
fn one(alloc: Global, image: Vec<u8>) -> Result<Vec<ListOf<u8>>, NoMemory>
    ensures { IfOk result (λ images. images.items ≡ image.items ∷ []) }
{
    let mut images = Vec::new(alloc);
    images.push(ListOf::of(image))?;
    Ok(images)
}
