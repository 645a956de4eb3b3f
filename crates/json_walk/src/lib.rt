// The walk over a JSON text that is known to read: the members of an object and the elements of an array, one after the other, first to last.
// A step passes over no value: where one ends is what `json_skip::skip_value` gives, or the walk inside it. So each byte is passed over once, however
// deep it stands. Where the grammar does not hold, as past the end, the places are of no use, and within the text.
#![tactic(auto)]

ghost use Rattle.std.specs.Prelude.{length};
ghost use Rattle.json_walk.specs.Walk.{FirstOf, NextOf, FirstElementOf, NextElementOf, FirstReads, NextReads, MemberIn, ElementIn};

use json_access::{head_at, place};
use json_marks::{separator, skip_space};
use std::ops::ControlFlow;
use text::{LEFT_BRACE, LEFT_BRACKET, RIGHT_BRACE, RIGHT_BRACKET, look};

// A member: where its name begins, after the first quote, and where its value does. Or the place after the object, or that there is no object.
#[derive(Drop)]
pub enum Member {
    At { name: usize, start: usize },
    End { after: usize },
    NoObject,
}

// (Members and elements have walks of their own: one walk for both is no plainer, as it would have a name or none at each place, and brackets by a number.)

// An element: where its value begins. Or the place after the array, or that there is no array.
#[derive(Drop)]
pub enum Element {
    At { start: usize },
    End { after: usize },
    NoArray,
}

// The first member of the object at a place.
pub fn first_member(s: &[u8], at: usize) -> Member
    ensures member_in { MemberIn at (length s.now) result }
    ensures first_of { FirstOf s.now at result }
    ensures first_reads { FirstReads s.now at result }
{
    if at > s.len() {
        return Member::NoObject;
    }
    let i = skip_space(s, at);
    if look(s, i) != LEFT_BRACE {
        return Member::NoObject;
    }
    let j = skip_space(s, i + 1);
    if look(s, j) == RIGHT_BRACE {
        return Member::End { after: j + 1 };
    }
    let h = head_at(s, j);
    let q = h.name;
    let a = h.start;
    Member::At { name: q, start: a }
}

// The member after a value that ends at a place.
pub fn next_member(s: &[u8], at: usize) -> Member
    ensures member_in { MemberIn at (length s.now) result }
    ensures next_of { NextOf s.now at result }
    ensures next_reads { NextReads s.now at result }
{
    if at > s.len() {
        return Member::End { after: s.len() };
    }
    match separator(s, at, RIGHT_BRACE) {
        ControlFlow::Continue(j) => {
            let h = head_at(s, j);
            let q = h.name;
            let a = h.start;
            Member::At { name: q, start: a }
        }
        ControlFlow::Break(r) => Member::End { after: place(r) },
    }
}

// The first element of the array at a place.
pub fn first_element(s: &[u8], at: usize) -> Element
    ensures element_in { ElementIn at (length s.now) result }
    ensures first_element_of { FirstElementOf s.now at result }
{
    if at > s.len() {
        return Element::NoArray;
    }
    let i = skip_space(s, at);
    if look(s, i) != LEFT_BRACKET {
        return Element::NoArray;
    }
    let j = skip_space(s, i + 1);
    if look(s, j) == RIGHT_BRACKET {
        return Element::End { after: j + 1 };
    }
    Element::At { start: j }
}

// The element after one that ends at a place.
pub fn next_element(s: &[u8], at: usize) -> Element
    ensures element_in { ElementIn at (length s.now) result }
    ensures next_element_of { NextElementOf s.now at result }
{
    if at > s.len() {
        return Element::End { after: s.len() };
    }
    match separator(s, at, RIGHT_BRACKET) {
        ControlFlow::Continue(j) => Element::At {
            start: skip_space(s, j),
        },
        ControlFlow::Break(r) => Element::End { after: place(r) },
    }
}
