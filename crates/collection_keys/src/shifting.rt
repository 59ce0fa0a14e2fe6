//! Moves within the array of a collection's pairs.

ghost use Rattle.std.specs.Prelude.{◌≡◌, [], ◌∷◌, ◌++◌, ◌<◌, length, take, insert, remove};

/// Puts a pair at a place. The pairs from there on move up by one, and the last drops out.
pub(crate) fn put_at(pairs: &mut [(u16, u32)], place: usize, pair: (u16, u32))
    requires { place < length pairs.old }
    ensures { pairs.new ≡ take (length pairs.old) (insert pairs.old place pair) }
{
    pairs[place..].rotate_right(1);
    pairs[place] = pair;
}

/// Takes the pair at a place out. The pairs behind it move down by one, and (0, 0) comes last.
pub(crate) fn take_out(pairs: &mut [(u16, u32)], place: usize)
    requires { place < length pairs.old }
    ensures { pairs.new ≡ remove pairs.old place ++ (0, 0) ∷ [] }
{
    pairs[place..].rotate_left(1);
    let last = pairs.len() - 1;
    pairs[last] = (0, 0);
}
