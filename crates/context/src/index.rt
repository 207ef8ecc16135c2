// The variables' index in the work slice: a digital search tree, in which the bits of an id, the last one first, say the way down.
// That the index is right for the first variables is asked by each function, and no ghost field of their words and count: a way down is a family (specs/Tables.Leads), so that antt finds no proof that the fact is a proposition, and cut down to one it no longer gives a way. Their count is in the state, which goes by value, so that it stands beside the slice and is not in one struct with it.
// That an id has no number yet is asked where one gets its place: it relates the id with the slice.
ghost use Rattle.std.specs.Prelude.{◌≡◌, ◌+◌, ◌<◌, ◌≤◌, length, get_or, set, None};
ghost use Rattle.model.specs.Lower.{lookup};
ghost use Rattle.context.specs.Tables.{max_vars, max_indexed, links_at, var_words, half_word, vars_of, child_of, linked, with_half, IndexHeld, Descended, Joined, Entered};

use crate::{HALF_WORD, LINKS_AT, MAX_INDEXED, NAMED_WORDS, NUMBER_WORD};

// Where a way down ends: at a variable, with bits of the id still to come, of which the last one names a side.
#[derive(Clone, Copy, Debug, PartialEq, Eq)]
struct End {
    place: usize,
    bits: u32,
}

// A variable's child on the side that the last bit of `bits` names, if it has one. The left one is in the lower half of the variable's word of links, the right one in the upper half: its place and one, or 0 for none.
#[tactic(auto, unfolding(crate::specs::Tables::half, crate::specs::Tables::linked))]
fn child(vars: &[u32], p: usize, bits: u32) -> Option<usize>
    requires { (p < max_indexed) × (var_words ≤ length vars.now) }
    ensures { result ≡ linked (child_of vars.now p bits) }
{
    let w = vars[LINKS_AT + p];
    let link = if bits % 2 == 0 {
        w % HALF_WORD
    } else {
        w / HALF_WORD
    };
    if link == 0 {
        return None;
    }
    Some(link as usize - 1)
}

// A variable that has no child on a side gets one there.
#[tactic(auto, unfolding(crate::specs::Tables::half, crate::specs::Tables::with_half))]
fn set_child(vars: &mut [u32], p: usize, bits: u32, link: u32)
    requires { (p < max_indexed) × (link < half_word) × (var_words ≤ length vars.old) × (child_of vars.old p bits ≡ 0) }
    ensures { vars.new ≡ set vars.old (links_at + p) (with_half (get_or vars.old (links_at + p) 0) bits link) }
{
    let w = vars[LINKS_AT + p];
    let more = if bits % 2 == 0 {
        link
    } else {
        link * HALF_WORD
    };
    vars[LINKS_AT + p] = w + more;
}

// The way down for an id, from the root to the variable that has it or to the one that its variable would be a child of. All variables below one at depth d have the same last d bits in their ids, so that a way has at most 33 variables, whatever the ids are.
fn descend(vars: &[u32], count: usize, id: u32) -> End
    requires { (0 < count) × (count ≤ max_indexed) × IndexHeld count vars.now }
    ensures { Descended vars.now count id result.place result.bits }
{
    let mut p = 0;
    let mut bits = id;
    // A `while`, since how long the way is shows itself on it.
    while vars[p * NAMED_WORDS] != id {
        let Some(q) = child(vars, p, bits) else {
            break;
        };
        p = q;
        bits /= 2;
    }
    End { place: p, bits }
}

// The number of one of the first variables, by the tree.
fn find_indexed(vars: &[u32], count: usize, id: u32) -> Option<u32>
    requires { (count ≤ max_indexed) × IndexHeld count vars.now }
    ensures { result ≡ lookup (vars_of count vars.now) id }
{
    if count == 0 {
        return None;
    }
    let end = descend(vars, count, id);
    let p = end.place;
    if vars[p * NAMED_WORDS] != id {
        return None;
    }
    Some(vars[p * NAMED_WORDS + NUMBER_WORD])
}

// The number of a variable, the newest first: those behind the index one by one.
pub fn find(vars: &[u32], count: usize, id: u32) -> Option<u32>
    requires { (count ≤ max_vars) × IndexHeld count vars.now }
    ensures { result ≡ lookup (vars_of count vars.now) id }
{
    for k in (MAX_INDEXED..count).rev() {
        if vars[k * NAMED_WORDS] == id {
            return Some(vars[k * NAMED_WORDS + NUMBER_WORD]);
        }
    }
    find_indexed(vars, count.min(MAX_INDEXED), id)
}

// The next variable becomes the child at the end of the way down for its id; the first one is the root.
fn join(vars: &mut [u32], k: usize, id: u32)
    requires k_lt_max_indexed { (k < max_indexed) × IndexHeld k vars.old }
    requires id_value { lookup (vars_of k vars.old) id ≡ None }
    ensures { Joined k id vars.old vars.new }
{
    if k == 0 {
        return;
    }
    let end = descend(vars, k, id);
    set_child(vars, end.place, end.bits, (k + 1) as u32);
}

// The next variable, which is new, gets its place in the index, if that has room. Its own links may be of an earlier call: it has no child yet.
pub fn enter(vars: &mut [u32], k: usize, id: u32)
    requires index_held { IndexHeld k vars.old }
    requires id_value { lookup (vars_of k vars.old) id ≡ None }
    ensures { Entered k id vars.old vars.new }
{
    if k >= MAX_INDEXED {
        return;
    }
    join(vars, k, id);
    vars[LINKS_AT + k] = 0;
}
