//! The line that a run says as it ends.

ghost use Rattle.std.specs.Prelude.{◌≡◌, ◌+◌, ◌≤◌, [], ◌∷◌, length, codes};
ghost use Rattle.line_link.specs.declared.status.Status.TheVariants.{Illegal};
ghost use Rattle.wire_json.specs.Members.{object};
ghost use Rattle.wire_json.specs.ReplyText.{number_member, word_member};
ghost use Rattle.exchange_top.specs.EndText.{end_text};

use line_link::Status;
use wire_json::Text;

/// Makes the line that a run says as it ends, where its journal gives no history; at another status it is empty.
pub(crate) fn write_end(status: &Status, into: &mut Text)
    ensures { into.new ≡ end_text status.now }
{
    into.clear();
    match status {
        Status::NotJournal => write_error("NotJournal", into),
        Status::Cut { at, lsn } => write_place(*at, "Cut", *lsn, into),
        Status::NotAct { at, lsn } => write_place(*at, "NotAct", *lsn, into),
        Status::Illegal { at, lsn, code } => write_illegal(*at, *lsn, *code, into),
        _ => {}
    }
}

/// The line of an error that has no place.
fn write_error(error: &str, into: &mut Text)
    requires empty { into.old ≡ [] }
    requires short { length error.now ≤ 100 }
    ensures { into.new ≡ object (word_member (codes "error") error.now ∷ []) }
{
    into.put_word("error", error);
    into.end();
}

/// The line of a fault at a place of the journal, behind so many acts.
fn write_place(at: u64, error: &str, lsn: u64, into: &mut Text)
    requires empty { into.old ≡ [] }
    requires short { length error.now ≤ 100 }
    ensures { into.new ≡ object (number_member (codes "at") at ∷ word_member (codes "error") error.now ∷ number_member (codes "lsn") lsn ∷ []) }
{
    into.put_number("at", at);
    into.put_word("error", error);
    into.put_number("lsn", lsn);
    into.end();
}

/// The line of an act that is refused.
fn write_illegal(at: u64, lsn: u64, code: u8, into: &mut Text)
    requires { into.old ≡ [] }
    ensures { into.new ≡ end_text (Illegal at lsn code) }
{
    into.put_number("at", at);
    into.put_number("code", u64::from(code));
    into.put_word("error", "Illegal");
    into.put_number("lsn", lsn);
    into.end();
}
