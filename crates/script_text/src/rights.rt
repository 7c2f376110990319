//! The words of users and groups, and of which list of a node is meant.
ghost use Rattle.std.specs.Prelude.{◌≡◌, option_map};
ghost use Rattle.script_text.specs.Rights.{id_of, if_few, ids_of, groups_of, which_of};
ghost use Rattle.script_text.specs.Words.{parts_of};

use crate::numbers::read_u32;
use crate::words::{Words, is_word};
use acl_core::MOST_GROUPS;
use arrayvec::ArrayVec;
use call_words::WhichList;

const PLUS: u8 = b'+';

/// The number of a user or a group.
pub fn read_id(word: &[u8]) -> Option<u32>
    ensures { result ≡ id_of word.now }
{
    read_u32(word)
}

/// At most 16 numbers, joined by plus signs.
fn read_ids(word: &[u8]) -> Option<ArrayVec<u32, MOST_GROUPS>>
    ensures { option_map (λ ids. ids.items) result ≡ if_few (ids_of (parts_of PLUS word.now)) }
{
    let mut ids: ArrayVec<u32, MOST_GROUPS> = ArrayVec::new();
    let mut numbers = Words::parts_of(word, PLUS);
    while let Some(number) = numbers.next() {
        let id = read_id(number)?;
        if ids.is_full() {
            return None;
        }
        ids.push(id);
    }
    Some(ids)
}

/// A dash for no groups, or 1 to 16 numbers joined by plus signs.
#[tactic(auto, unfolding(crate::specs::Rights::groups_of))]
pub fn read_groups(word: &[u8]) -> Option<ArrayVec<u32, MOST_GROUPS>>
    ensures { option_map (λ groups. groups.items) result ≡ groups_of word.now }
{
    if is_word(word, b"-") {
        return Some(ArrayVec::new());
    }
    read_ids(word)
}

/// `access` or `default`.
pub fn read_which(word: &[u8]) -> Option<WhichList>
    ensures { result ≡ which_of word.now }
{
    if is_word(word, b"access") {
        Some(WhichList::Access)
    } else if is_word(word, b"default") {
        Some(WhichList::Default)
    } else {
        None
    }
}
