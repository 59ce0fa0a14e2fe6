//! Laws of the bytes of acts: sentences about every act, each proved once.

ghost use Rattle.std.specs.Prelude.{◌≡◌, ℕ, List};
ghost use Rattle.command_words.specs.declared.act.Act.{Act};
ghost use Rattle.act_bytes.specs.Spelling.{Spells};
ghost use Rattle.act_bytes.specs.declared.writing.TheConstants.{MAX_ACT};

/// An act has one spelling.
pub fn one_spelling()
    ensures { (act : Act) (bytes other : List ℕ) → Spells bytes act → Spells other act → bytes ≡ other }
{}

/// Bytes spell at most one act.
pub fn one_act()
    ensures { (bytes : List ℕ) (act other : Act) → Spells bytes act → Spells bytes other → act ≡ other }
{}

/// The number of each public constant.
pub fn constants()
    ensures { MAX_ACT ≡ 512 }
{}
