//! Laws of lists and of their texts. Each is the contract of a function that does nothing.
ghost use Rattle.std.specs.Prelude.{◌≡◌, ◌≢◌, ◌==◌, ◌≤◌, ℕ, true, false, ◌&&◌, List, length, map, Ok, IsTrue};
ghost use Rattle.std.specs.List.{Contains, list_any};
ghost use Rattle.std.specs.List.Sorted.{IsPermutation};
ghost use Rattle.acl_core.specs.declared.cred.TheConstants.{MOST_GROUPS};
ghost use Rattle.acl_core.specs.declared.entry.TheConstants.{MOST_ENTRIES};
ghost use Rattle.acl_core.specs.declared.mode.TheConstants.{MODE_MOST};
ghost use Rattle.acl_core.specs.declared.text.TheConstants.{TEXT_ROOM, LIST_ROOM};
ghost use Rattle.acl_core.specs.declared.perm.Perm.{Perm};
ghost use Rattle.acl_core.specs.declared.cred.Cred.{Cred};
ghost use Rattle.acl_core.specs.declared.entry.Entry.{Entry};
ghost use Rattle.acl_core.specs.declared.entry.Tag.TheVariants.{UserObj, User, GroupObj, Mask, Other};
ghost use Rattle.acl_core.specs.Perm.{has_all, common};
ghost use Rattle.acl_core.specs.Entry.{has_tag};
ghost use Rattle.acl_core.specs.Acl.{acl_of, is_named, IsAcl};
ghost use Rattle.acl_core.specs.Deciding.{in_group, matches_group, mask_has, without_mask, grants};
ghost use Rattle.acl_core.specs.Mode.{owner_bits, group_bits, other_bits, class_bits, minimal_list, mode_of, with_mode, inherited_list};
ghost use Rattle.acl_core.specs.Text.{list_text, HasText, IsWord};
ghost use Rattle.acl_core.specs.Reading.{read_of};

/// The same entries make the same list, or have the same fault, in whatever order they come.
pub fn order_is_free()
    ensures { (xs ys : List Entry) → IsPermutation xs ys → acl_of xs ≡ acl_of ys }
{}

/// The owner's entry decides alone: neither the mask nor another entry changes what it grants.
pub fn owner_decides_alone()
    ensures { (list : List Entry) (cred : Cred) (owner group : ℕ) (perm want : Perm) → IsAcl list
        → cred.uid ≡ owner → Contains list (record { tag = UserObj; perm = perm })
        → grants list cred owner group want ≡ has_all perm want }
{}

/// A user's entry decides alone but for the mask: no group of the user widens it.
pub fn user_decides_alone()
    ensures { (list : List Entry) (cred : Cred) (owner group : ℕ) (perm want : Perm) → IsAcl list
        → cred.uid ≢ owner → Contains list (record { tag = User cred.uid; perm = perm })
        → grants list cred owner group want ≡ (has_all perm want && mask_has list want) }
{}

/// Where a group's entry matches, one of those that match has to grant all by itself, and others'
/// entry does not count.
pub fn groups_never_fall_through()
    ensures { (list : List Entry) (cred : Cred) (owner group : ℕ) (want : Perm) → IsAcl list
        → cred.uid ≢ owner → has_tag (User cred.uid) list ≡ false
        → list_any (λ e. matches_group cred group e.tag) list ≡ true
        → grants list cred owner group want
        ≡ (list_any (λ e. matches_group cred group e.tag && has_all e.perm want) list && mask_has list want) }
{}

/// Others' entry decides alone about a caller whom no other entry names: the mask does not limit it.
pub fn other_decides_alone()
    ensures { (list : List Entry) (cred : Cred) (owner group : ℕ) (perm want : Perm) → IsAcl list
        → cred.uid ≢ owner → has_tag (User cred.uid) list ≡ false
        → list_any (λ e. matches_group cred group e.tag) list ≡ false
        → Contains list (record { tag = Other; perm = perm })
        → grants list cred owner group want ≡ has_all perm want }
{}

/// A mask takes bits away and adds none.
pub fn mask_never_widens()
    ensures { (list : List Entry) (cred : Cred) (owner group : ℕ) (want : Perm)
        → grants list cred owner group want ≡ true → grants (without_mask list) cred owner group want ≡ true }
{}

/// The list of a mode grants what the classic nine bits grant.
pub fn minimal_is_the_nine_bits()
    ensures { (mode : ℕ) (cred : Cred) (owner group : ℕ) (want : Perm) → mode ≤ MODE_MOST
        → grants (minimal_list mode) cred owner group want
        ≡ has_all (class_bits mode (cred.uid == owner) (in_group cred group)) want }
{}

/// A list that is given a mode has it.
pub fn mode_is_kept()
    ensures minimal { (mode : ℕ) → mode ≤ MODE_MOST → mode_of (minimal_list mode) ≡ mode }
    ensures with_mode { (list : List Entry) (mode : ℕ) → IsAcl list → mode ≤ MODE_MOST
        → mode_of (with_mode list mode) ≡ mode }
{}

/// The list that a new file inherits grants nothing that the default list does not.
pub fn inherited_never_widens()
    ensures { (list : List Entry) (cred : Cred) (owner group mode : ℕ) (want : Perm)
        → grants (inherited_list list mode) cred owner group want ≡ true → grants list cred owner group want ≡ true }
{}

/// A mode that is given to a list changes the owner's entry, the mask's, or that of the file's group
/// where there is no mask, and others'. Every other entry stays as it is, and all stay in order.
pub fn mode_leaves_other_entries()
    ensures tags { (list : List Entry) (mode : ℕ) → map (λ e. e.tag) (with_mode list mode) ≡ map (λ e. e.tag) list }
    ensures named_entries { (list : List Entry) (mode : ℕ) (e : Entry) → IsTrue (is_named e.tag)
        → Contains list e → Contains (with_mode list mode) e }
    ensures group_under_mask { (list : List Entry) (mode : ℕ) (e : Entry) → has_tag Mask list ≡ true
        → e.tag ≡ GroupObj → Contains list e → Contains (with_mode list mode) e }
{}

/// The list that a new file inherits has the bits that the default list and the mode have in common:
/// the owner's, those of the mask, or of the file's group where there is no mask, and others'. Every
/// other entry stays as it is, and all stay in order.
pub fn inheriting_gives_the_common_bits()
    ensures tags { (list : List Entry) (mode : ℕ) → map (λ e. e.tag) (inherited_list list mode) ≡ map (λ e. e.tag) list }
    ensures owner { (list : List Entry) (mode : ℕ) (perm : Perm) → Contains list (record { tag = UserObj; perm = perm })
        → Contains (inherited_list list mode) (record { tag = UserObj; perm = common perm (owner_bits mode) }) }
    ensures mask { (list : List Entry) (mode : ℕ) (perm : Perm) → has_tag Mask list ≡ true
        → Contains list (record { tag = Mask; perm = perm })
        → Contains (inherited_list list mode) (record { tag = Mask; perm = common perm (group_bits mode) }) }
    ensures group { (list : List Entry) (mode : ℕ) (perm : Perm) → has_tag Mask list ≡ false
        → Contains list (record { tag = GroupObj; perm = perm })
        → Contains (inherited_list list mode) (record { tag = GroupObj; perm = common perm (group_bits mode) }) }
    ensures other { (list : List Entry) (mode : ℕ) (perm : Perm) → Contains list (record { tag = Other; perm = perm })
        → Contains (inherited_list list mode) (record { tag = Other; perm = common perm (other_bits mode) }) }
    ensures named_entries { (list : List Entry) (mode : ℕ) (e : Entry) → IsTrue (is_named e.tag)
        → Contains list e → Contains (inherited_list list mode) e }
    ensures group_under_mask { (list : List Entry) (mode : ℕ) (e : Entry) → has_tag Mask list ≡ true
        → e.tag ≡ GroupObj → Contains list e → Contains (inherited_list list mode) e }
{}

/// The text of entries is read as these entries.
pub fn printed_is_read_again()
    ensures { (list : List Entry) → HasText list → read_of (list_text list) ≡ Ok list }
{}

/// The text of entries is one word, and at most 1,343 bytes long.
pub fn printed_is_one_word()
    ensures word { (list : List Entry) → HasText list → IsWord (list_text list) }
    ensures short { (list : List Entry) → HasText list → length (list_text list) ≤ 1343 }
{}

/// The figures of the limits: entries, groups, modes, and bytes of texts.
pub fn limits()
    ensures entries { MOST_ENTRIES ≡ 64 }
    ensures groups { MOST_GROUPS ≡ 16 }
    ensures mode { MODE_MOST ≡ 0o777 }
    ensures text { TEXT_ROOM ≡ 4096 }
    ensures list { LIST_ROOM ≡ 1400 }
{}
