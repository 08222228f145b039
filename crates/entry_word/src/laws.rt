//! Laws of the words: packing and unpacking are inverse to each other.
ghost use Rattle.std.specs.Prelude.{◌≡◌, ◌<◌, ◌^◌, ℕ, Some, Option};
ghost use Rattle.entry_word.specs.declared.mark.PresenceMark.{PresenceMark};
ghost use Rattle.entry_word.specs.declared.address.Address.{Address};
ghost use Rattle.entry_word.specs.Marks.{mark_word, mark_of, IsSmallMark, MarksUnpack};
ghost use Rattle.entry_word.specs.Addresses.{address_word, address_of, EntriesUnpack, IsSmallAddress};

/// A mark comes back from its word, and a word from its mark; every mark that is read is one that
/// may be written.
pub fn mark_words()
    ensures unpacked { MarksUnpack }
    ensures packed { (word : ℕ) (mark : PresenceMark) → mark_of word ≡ Some mark
        → mark_word mark ≡ word }
    ensures small { (word : ℕ) (mark : PresenceMark) → mark_of word ≡ Some mark → IsSmallMark mark }
{}

/// An entry comes back from its word, and a word from its entry; every entry that is read is one
/// that may be written.
pub fn address_words()
    ensures unpacked { EntriesUnpack }
    ensures packed { (word : ℕ) (address : Option Address) → address_of word ≡ Some address
        → address_word address ≡ word }
    ensures small { (word : ℕ) (address : Option Address) → address_of word ≡ Some address
        → IsSmallAddress address }
{}

/// The bits from 51 on are 0.
pub fn words_are_small()
    ensures marks { (mark : PresenceMark) → IsSmallMark mark → mark_word mark < 2 ^ 51 }
    ensures entries { (address : Option Address) → IsSmallAddress address
        → address_word address < 2 ^ 50 }
{}
