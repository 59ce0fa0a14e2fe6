ghost use Rattle.std.specs.Prelude.{◌≡◌, ◌+◌, ◌*◌, ◌≤◌, ◌==◌, if◌then◌else◌, [], ◌++◌, length, codes, decimal, IfOk};
ghost use Rattle.wire_json.specs.Members.{Content, listed, separator, put};
ghost use Rattle.wire_json.specs.declared.text.TheConstants.{TEXT_BYTES};

use condition_sets::NoMemory;
use itoa::Buffer;
use std::alloc::Global;
use std::marker::Model;

/// How many bytes a text has room for.
pub const TEXT_BYTES: usize = 1_024;

/// The text of one reply. It has room for [`TEXT_BYTES`] bytes from the start, and takes no memory afterwards.
#[derive(Debug, Drop)]
pub struct Text {
    bytes: Vec<u8>,
}

impl Model for Text {
    ghost use Rattle.std.specs.Prelude.{ℕ, List, ◌≤◌, vec_capacity};
    ghost use Rattle.wire_json.specs.declared.text.TheConstants.{TEXT_BYTES};

    ghost Value = { List ℕ };

    ghost view = { λ t. t.bytes.items };

    ghost invariant = { λ t. TEXT_BYTES ≤ vec_capacity t.bytes };
}

impl Text {
    /// An empty text.
    pub fn new(alloc: Global) -> Result<Text, NoMemory>
        ensures { IfOk result (λ text. text ≡ []) }
    {
        Ok(Text {
            bytes: Vec::with_capacity(alloc, TEXT_BYTES)?,
        })
    }

    /// Its bytes.
    pub fn as_slice(&self) -> &[u8]
        ensures { result.now ≡ self.now }
    {
        self.bytes.as_slice()
    }

    /// Takes all bytes out of it.
    pub fn clear(&mut self)
        ensures { self.new ≡ [] }
    {
        self.bytes.clear();
    }

    /// Puts a member behind those that are there, whose value is a number.
    #[tactic(auto, unfolding(crate::specs::Members::put))]
    pub fn put_number(&mut self, name: &str, number: u64)
        requires { length self.old + length name.now + 24 ≤ TEXT_BYTES }
        ensures text { self.new ≡ put self.old (record { name = name.now; content = Content.number number }) }
        ensures short { length self.new ≤ length self.old + length name.now + 24 }
    {
        self.name_member(name);
        self.push_digits(number);
    }

    /// The same for a number of up to 128 bits.
    #[tactic(auto, unfolding(crate::specs::Members::put))]
    pub fn put_wide(&mut self, name: &str, number: u128)
        requires { length self.old + length name.now + 43 ≤ TEXT_BYTES }
        ensures text { self.new ≡ put self.old (record { name = name.now; content = Content.number number }) }
        ensures short { length self.new ≤ length self.old + length name.now + 43 }
    {
        let mut buffer = Buffer::new();
        self.name_member(name);
        self.push(buffer.format(number).as_bytes());
    }

    /// The same where the value is a truth value.
    #[tactic(auto, unfolding(crate::specs::Members::put))]
    pub fn put_truth(&mut self, name: &str, truth: bool)
        requires { length self.old + length name.now + 9 ≤ TEXT_BYTES }
        ensures text { self.new ≡ put self.old (record { name = name.now; content = Content.truth truth }) }
        ensures short { length self.new ≤ length self.old + length name.now + 9 }
    {
        self.name_member(name);
        if truth {
            self.push(b"true");
        } else {
            self.push(b"false");
        }
    }

    /// The same where the value is a word that needs no escape.
    #[tactic(auto, unfolding(crate::specs::Members::put))]
    pub fn put_word(&mut self, name: &str, word: &str)
        requires { length self.old + length name.now + length word.now + 6 ≤ TEXT_BYTES }
        ensures text { self.new ≡ put self.old (record { name = name.now; content = Content.word word.now }) }
        ensures short { length self.new ≤ length self.old + length name.now + length word.now + 6 }
    {
        self.name_member(name);
        self.push(b"\"");
        self.push(word.as_bytes());
        self.push(b"\"");
    }

    /// The same where the value is a list of numbers.
    #[tactic(auto, unfolding(crate::specs::Members::put))]
    pub fn put_numbers(&mut self, name: &str, numbers: &[u64])
        requires { length self.old + length name.now + 21 * length numbers.now + 6 ≤ TEXT_BYTES }
        ensures text { self.new ≡ put self.old (record { name = name.now; content = Content.numbers numbers.now }) }
        ensures short { length self.new ≤ length self.old + length name.now + 21 * length numbers.now + 6 }
    {
        self.name_member(name);
        self.push(b"[");
        self.push_listed(numbers);
        self.push(b"]");
    }

    /// Closes the object.
    pub fn end(&mut self)
        requires { length self.old + 2 ≤ TEXT_BYTES }
        ensures { self.new ≡ self.old ++ codes "}\n" }
    {
        self.push(b"}\n");
    }

    /// Puts a piece at its end.
    fn push(&mut self, piece: &[u8])
        requires { length self.old + length piece.now ≤ TEXT_BYTES }
        ensures { self.new ≡ self.old ++ piece.now }
    {
        match self.bytes.extend_from_slice(piece) {
            Ok(()) => {}
            Err(_) => unreachable!(),
        }
    }

    /// Puts the digits of a number at its end.
    fn push_digits(&mut self, number: u64)
        requires { length self.old + 20 ≤ TEXT_BYTES }
        ensures text { self.new ≡ self.old ++ decimal number }
        ensures short { length self.new ≤ length self.old + 20 }
    {
        let mut buffer = Buffer::new();
        self.push(buffer.format(number).as_bytes());
    }

    /// Puts numbers at its end, with commas between them.
    fn push_listed(&mut self, numbers: &[u64])
        requires { length self.old + 21 * length numbers.now ≤ TEXT_BYTES }
        ensures text { self.new ≡ self.old ++ listed numbers.now }
        ensures short { length self.new ≤ length self.old + 21 * length numbers.now }
    {
        for (place, number) in numbers.iter().enumerate() {
            self.push_item(place, *number);
        }
    }

    /// Puts the number at a place of a list at its end, and before it a comma where it isn't the first.
    fn push_item(&mut self, place: usize, number: u64)
        requires { length self.old + 21 ≤ TEXT_BYTES }
        ensures text { self.new ≡ self.old ++ (if place == 0 then [] else codes ",") ++ decimal number }
        ensures short { length self.new ≤ length self.old + 21 }
    {
        if place > 0 {
            self.push(b",");
        }
        self.push_digits(number);
    }

    /// Puts all of a member at its end but its value.
    fn name_member(&mut self, name: &str)
        requires { length self.old + length name.now + 4 ≤ TEXT_BYTES }
        ensures text { self.new ≡ self.old ++ separator self.old ++ codes "\"" ++ name.now ++ codes "\":" }
        ensures long { length self.new ≡ length self.old + length name.now + 4 }
    {
        self.push_separator();
        self.push(b"\"");
        self.push(name.as_bytes());
        self.push(b"\":");
    }

    /// Puts at its end what stands before a member.
    fn push_separator(&mut self)
        requires { length self.old + 1 ≤ TEXT_BYTES }
        ensures text { self.new ≡ self.old ++ separator self.old }
        ensures long { length self.new ≡ length self.old + 1 }
    {
        if self.bytes.is_empty() {
            self.push(b"{");
        } else {
            self.push(b",");
        }
    }
}
