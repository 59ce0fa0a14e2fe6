//! Laws of journals: sentences about every image, each proved once.

ghost use Rattle.std.specs.Prelude.{◌≡◌, ℕ, List, ◌∷◌, ◌++◌};
ghost use Rattle.journal_store.specs.Found.{Follows, Ends, Breaks, IsForeign, OneFollows};
ghost use Rattle.journal_store.specs.Stands.{Stands};
ghost use Rattle.journal_store.specs.declared.limits.TheConstants.{MAX_PAYLOAD, MAX_PAYLOADS, VERSION};

/// An image stands for at most one list.
pub fn one_list()
    ensures { (image : List ℕ) (list other : List (List ℕ)) → Stands image list → Stands image other → list ≡ other }
{}

/// A payload that follows those of a list is the next of the whole list.
pub fn followed_by_the_rest()
    ensures { (image : List ℕ) (whole list : List (List ℕ)) (payload : List ℕ) (place : ℕ) → Stands image whole → Follows list payload place image
        → (rest : List (List ℕ)) × (whole ≡ list ++ payload ∷ rest) }
{}

/// Where the end comes behind a list, the image stands for that list.
pub fn one_end()
    ensures { (image : List ℕ) (list : List (List ℕ)) → Ends list image → Stands image list }
{}

/// No image both stands for a list and breaks off. (An open gate right behind the header makes 17 bytes, which stand for
/// the empty list.)
pub fn whole_or_broken()
    ensures { (image : List ℕ) (whole list : List (List ℕ)) (place : ℕ) → Stands image whole → Breaks list place image → ⊥ }
{}

/// An image breaks off behind one list and at one place.
pub fn one_break()
    ensures { (image : List ℕ) (list other : List (List ℕ)) (place elsewhere : ℕ) → Breaks list place image → Breaks other elsewhere image → (list ≡ other) × (place ≡ elsewhere) }
{}

/// Two readings of one journal agree: of two payloads that follow, one is the other or is told before it.
pub fn readings_agree()
    ensures { (image : List ℕ) (list other : List (List ℕ)) (payload next : List ℕ) (place elsewhere : ℕ)
        → Follows list payload place image → Follows other next elsewhere image → OneFollows list payload place other next elsewhere }
{}

/// A payload that follows is told before the place where the journal breaks off.
pub fn followed_before_the_break()
    ensures { (image : List ℕ) (list other : List (List ℕ)) (payload : List ℕ) (place elsewhere : ℕ) → Follows list payload place image
        → Breaks other elsewhere image → (more : List (List ℕ)) × (other ≡ list ++ payload ∷ more) }
{}

/// What is no journal stands for no list, has no payload, and breaks off nowhere.
pub fn nothing_of_foreign()
    ensures list { (image : List ℕ) (list : List (List ℕ)) → IsForeign image → Stands image list → ⊥ }
    ensures payload { (image : List ℕ) (list : List (List ℕ)) (payload : List ℕ) (place : ℕ) → IsForeign image → Follows list payload place image → ⊥ }
    ensures place { (image : List ℕ) (list : List (List ℕ)) (place : ℕ) → IsForeign image → Breaks list place image → ⊥ }
{}

/// The number of each public constant.
pub fn constants()
    ensures payload { MAX_PAYLOAD ≡ 512 }
    ensures payloads { MAX_PAYLOADS ≡ 64 }
    ensures version { VERSION ≡ 0x31 }
{}
