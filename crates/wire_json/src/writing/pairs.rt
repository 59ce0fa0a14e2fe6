ghost use Rattle.std.specs.Prelude.{◌≡◌, ◌+◌, ◌≤◌, [], ◌∷◌, length, fold};
ghost use Rattle.wire_json.specs.Members.{put};
ghost use Rattle.wire_json.specs.ReplyText.{number_member, named_members};
ghost use Rattle.wire_json.specs.declared.text.TheConstants.{TEXT_BYTES};

use crate::text::Text;

/// Puts two numbers.
pub(crate) fn put_two(name: &str, number: u64, next_name: &str, next: u64, into: &mut Text)
    requires { length into.old + length name.now + length next_name.now + 48 ≤ TEXT_BYTES }
    ensures text { into.new ≡ fold put into.old (number_member name.now number ∷ number_member next_name.now next ∷ []) }
    ensures short { length into.new ≤ length into.old + length name.now + length next_name.now + 48 }
{
    into.put_number(name, number);
    into.put_number(next_name, next);
}

/// Puts a number and a name, as every refusal and every fault has them.
pub(crate) fn put_named(code: u8, name: &str, into: &mut Text)
    requires { length into.old + length name.now + 39 ≤ TEXT_BYTES }
    ensures text { into.new ≡ fold put into.old (named_members code name.now) }
    ensures short { length into.new ≤ length into.old + length name.now + 39 }
{
    into.put_number("code", u64::from(code));
    into.put_word("error", name);
}
