//! Laws of the texts.

ghost use Rattle.std.specs.Prelude.{◌≡◌, true};
ghost use Rattle.command_words.specs.declared.reply.Reply.{Reply};
ghost use Rattle.wire_json.specs.Members.{names_ascend};
ghost use Rattle.wire_json.specs.ReplyText.{reply_members};
ghost use Rattle.wire_json.specs.declared.text.TheConstants.{TEXT_BYTES};

/// Every reply's members stand in ascending order of their names.
pub fn names_ascend()
    ensures { (reply : Reply) → names_ascend (reply_members reply) ≡ true }
{}

/// The number of each public constant.
pub fn constants()
    ensures { TEXT_BYTES ≡ 1_024 }
{}
