// The laws of the order, over any values with a key.

ghost use Rattle.std.specs.Prelude.{◌≡◌, [], ◌∷◌, ℕ, Bool, List, Some, slice_get, slice_set};
ghost use Rattle.std.specs.List.{AllByRecursion, filter};
ghost use Rattle.trex_merge.specs.Order.{AreDistinct, BeginsNotBefore, ComesBefore, HaveSame, IsRising, joined, ordered};

use crate::key::Keyed;

/// The laws of the order: values that are pairwise distinct in stream and number have one rising list, and it is the values in order.
pub fn order_is_unique<T: Keyed>()
    // The values in order rise strictly, and are the same values.
    ensures rising { (xs : List T) → AreDistinct T.key_of xs → IsRising T.key_of (ordered T.key_of xs) }
    ensures same { (xs : List T) → HaveSame (ordered T.key_of xs) xs }
    // A rising list with the same values is that list.
    ensures only { (xs ys : List T) → AreDistinct T.key_of ys → IsRising T.key_of xs → HaveSame xs ys → xs ≡ ordered T.key_of ys }
    // What stands before all others is the first.
    ensures first { (x : T) (xs others : List T) → AreDistinct T.key_of xs → AreDistinct T.key_of others → HaveSame xs (x ∷ others)
        → AllByRecursion (ComesBefore T.key_of x) others
        → ordered T.key_of xs ≡ x ∷ ordered T.key_of others }
    // A part of what is in order is the part in order.
    ensures parts { (test : T → Bool) (xs : List T) → AreDistinct T.key_of xs
        → filter test (ordered T.key_of xs) ≡ ordered T.key_of (filter test xs) }
    // What rises is in order.
    ensures kept { (xs : List T) → AreDistinct T.key_of xs → IsRising T.key_of xs → ordered T.key_of xs ≡ xs }
{}

/// The laws of passing the least first value of many rising lists, as of the chains' packets or of the cores' packets.
pub fn least_goes_first<T: Keyed>()
    // It is the first of all values in order, and the others in order come after it.
    ensures first { (lists : List (List T)) (at : ℕ) (x : T) (rest : List T) → slice_get lists at ≡ Some (x ∷ rest)
        → AllByRecursion (IsRising T.key_of) lists → AreDistinct T.key_of (joined lists)
        → AllByRecursion (BeginsNotBefore T.key_of x) lists
        → ordered T.key_of (joined lists) ≡ x ∷ ordered T.key_of (joined (slice_set lists at rest)) }
    // The lists still rise, and their values are still distinct.
    ensures rising { (lists : List (List T)) (at : ℕ) (x : T) (rest : List T) → slice_get lists at ≡ Some (x ∷ rest)
        → AllByRecursion (IsRising T.key_of) lists → AllByRecursion (IsRising T.key_of) (slice_set lists at rest) }
    ensures distinct { (lists : List (List T)) (at : ℕ) (x : T) (rest : List T) → slice_get lists at ≡ Some (x ∷ rest)
        → AreDistinct T.key_of (joined lists) → AreDistinct T.key_of (joined (slice_set lists at rest)) }
    // Where each list is empty, nothing is left.
    ensures none { (lists : List (List T)) → AllByRecursion (λ xs. xs ≡ []) lists → joined lists ≡ [] }
{}
