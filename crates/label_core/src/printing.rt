//! Labels as texts.
ghost use Rattle.std.specs.Prelude.{◌≡◌, ◌+◌, ◌≤◌, ◌++◌, length, decimal};
ghost use Rattle.arrayvec.specs.ArrayVec.{array_vec_len};
ghost use Rattle.label_core.specs.CompSet.{IsCompSet};
ghost use Rattle.label_core.specs.Element.{IsElement};
ghost use Rattle.label_core.specs.Subject.{IsSubject};
ghost use Rattle.label_core.specs.Text.{set_text, body_text, element_text, subject_text};

use crate::comp_set::{COMPARTMENTS, CompSet};
use crate::element::{Element, POLICY};
use crate::subject::Subject;
use arrayvec::ArrayVec;

/// How many bytes the text has at most that a label is printed to.
pub const TEXT_ROOM: usize = 4096;

/// How many bytes the text of an element has at most.
pub const ELEMENT_ROOM: usize = 925;

/// How many bytes suffice for the text of any label.
pub const LABEL_ROOM: usize = 2800;

/// The most bytes of a set of compartments: 9 of one digit, 90 of two and 157 of three, each with a
/// mark.
const SET_ROOM: usize = 916;

/// The most bytes of an element without its policy's name, with a grade of five digits.
const BODY_ROOM: usize = 921;

type Text = ArrayVec<u8, TEXT_ROOM>;

fn push_all(out: &mut Text, bytes: &[u8])
    requires { array_vec_len out.old + length bytes.now ≤ TEXT_ROOM }
    ensures { out.new.items ≡ out.old.items ++ bytes.now }
{
    let _ = out.try_extend_from_slice(bytes);
}

/// A number in decimal, at most five digits.
#[tactic(auto, using(crate::proofs::DecimalLemmas::decimals))]
fn push_number(out: &mut Text, number: u16)
    requires { array_vec_len out.old + length (decimal number) ≤ TEXT_ROOM }
    ensures text { out.new.items ≡ out.old.items ++ decimal number }
    ensures room { array_vec_len out.new ≤ array_vec_len out.old + 5 }
{
    push_all(out, itoa::Buffer::new().format(number).as_bytes());
}

/// The compartments of a set, with the mark before each.
fn push_set(out: &mut Text, set: &CompSet)
    requires { array_vec_len out.old + SET_ROOM ≤ TEXT_ROOM }
    ensures text { out.new.items ≡ out.old.items ++ set_text set.now }
    ensures room { array_vec_len out.new ≤ array_vec_len out.old + SET_ROOM }
    ensures valid { IsCompSet set.now }
{
    let mut mark = b':';
    for n in 1..=COMPARTMENTS {
        if set.has(n) {
            out.push(mark);
            push_number(out, n);
            mark = b'+';
        }
    }
}

/// An element without its policy's name.
#[tactic(auto, using(crate::proofs::DecimalLemmas::decimals))]
fn push_body(out: &mut Text, e: &Element)
    requires { array_vec_len out.old + BODY_ROOM ≤ TEXT_ROOM }
    ensures text { out.new.items ≡ out.old.items ++ body_text e.now }
    ensures room { array_vec_len out.new ≤ array_vec_len out.old + BODY_ROOM }
    ensures valid { IsElement e.now }
{
    match e {
        Element::Low => push_all(out, b"low"),
        Element::Equal => push_all(out, b"equal"),
        Element::High => push_all(out, b"high"),
        Element::Grade { grade, set } => {
            push_number(out, *grade);
            push_set(out, set);
        }
    }
}

/// Appends the text of an element, as mac_mls(4) writes it: `mls/` and `low`, `equal`, `high` or a
/// grade, behind which a colon and its compartments may stand, in rising order and joined by `+`. It
/// has at most 925 bytes, and so many of the 4,096 are to be free.
#[tactic(auto, unfolding(crate::specs::Text::element_text))]
pub fn print_element(e: &Element, out: &mut ArrayVec<u8, TEXT_ROOM>)
    requires { array_vec_len out.old + ELEMENT_ROOM ≤ TEXT_ROOM }
    ensures text { out.new.items ≡ out.old.items ++ element_text e.now }
    ensures room { array_vec_len out.new ≤ array_vec_len out.old + ELEMENT_ROOM }
    ensures valid { IsElement e.now }
{
    push_all(out, POLICY);
    push_body(out, e);
}

/// Appends the text of a subject, as mac_mls(4) writes it: the active element, and in brackets the
/// low and the high end with `-` between them. The brackets are left out where both ends are the
/// active element. It has at most 2,800 bytes, and so many of the 4,096 are to be free.
#[tactic(auto, unfolding(crate::specs::Text::subject_text))]
pub fn print_subject(s: &Subject, out: &mut ArrayVec<u8, TEXT_ROOM>)
    requires { array_vec_len out.old + LABEL_ROOM ≤ TEXT_ROOM }
    ensures text { out.new.items ≡ out.old.items ++ subject_text s.now }
    ensures room { array_vec_len out.new ≤ array_vec_len out.old + LABEL_ROOM }
    ensures valid { IsSubject s.now }
{
    let active = s.active();
    let low = s.low();
    let high = s.high();
    print_element(active, out);
    if low == active && high == active {
        return;
    }
    out.push(b'(');
    push_body(out, low);
    out.push(b'-');
    push_body(out, high);
    out.push(b')');
}
