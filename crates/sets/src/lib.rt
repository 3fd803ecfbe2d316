// Sets of yards in a 32-bit number, of which bit i marks yard i (document 01, question 8).

#![tactic(auto)]

ghost use Rattle.std.specs.Prelude.{◌≡◌, take};
ghost use Rattle.model.specs.Sets.{member, without};
ghost use Rattle.sets.specs.Within.{with32};
ghost use Rattle.sets.specs.Members.{members_below, members_of};

const BITS: usize = 32;

// Is yard i in the set?
pub fn has(set: u32, i: usize) -> bool
    ensures { result ≡ member set i }
{
    if BITS <= i {
        return false;
    }
    (set >> (i as u32)) % 2 == 1
}

// The set with yard i, or as it was where i is 32 or above.
pub fn added(set: u32, i: usize) -> u32
    ensures { result ≡ with32 set i }
{
    if BITS <= i {
        return set;
    }
    if has(set, i) {
        return set;
    }
    set + (1u32 << (i as u32))
}

// The set without yard i.
pub fn removed(set: u32, i: usize) -> u32
    ensures { result ≡ without set i }
{
    if !has(set, i) {
        return set;
    }
    set - (1u32 << (i as u32))
}

// The yards of a set by number: the first `count` places of the list.
// Stays a list with a count, both public: `members_of` and `members_below` give it, and there is no heap; `yards` is the slice.
#[derive(Clone, Copy)]
pub struct Members {
    pub list: [u8; BITS],
    pub count: usize,
}

impl Members {
    // The listed yards, in rising order where a call below made the list. A count above 32 lists every place.
    pub fn yards(&self) -> &[u8]
        ensures { result.now ≡ take self.now.count self.now.list }
    {
        &self.list[..self.count.min(BITS)]
    }
}

// The yards of a set.
pub fn members_of(set: u32) -> Members
    ensures { result ≡ members_of set }
{
    members_below(set, BITS)
}

// The yards of a set that are numbered below m.
pub fn members_below(set: u32, m: usize) -> Members
    ensures { result ≡ members_below m set }
{
    let mut list = [0u8; BITS];
    let mut count = 0;
    for i in 0..m.min(BITS) {
        let listed = has(set, i);
        // Every turn writes and adds: a write under a branch took two to three times as long.
        list[count] = if listed { i as u8 } else { 0 };
        count += usize::from(listed);
    }
    Members { list, count }
}
