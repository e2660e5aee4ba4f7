//! Groups are joined (T.81, Annex K.2, Figure K.1).
ghost use Rattle.std.specs.Prelude.{◌≡◌, ◌<◌, ◌≤◌, ◌^◌, ◌+◌, ℕ, All, sum, map, is_some};
ghost use Rattle.jpg_spec_fit.specs.Fitted.{joined_member, joined, step, least_two};
ghost use Rattle.jpg_fit.specs.Groups.{groups};

use crate::least::{least, next};

// A member of two groups that are joined has the number of the first, and a code of one bit more.
fn joined_member(member: (u16, u16), first: u16, second: u16) -> (u16, u16)
    requires { member.1 < 512 }
    ensures { result ≡ joined_member first second member }
{
    if member.0 == first || member.0 == second {
        (first, member.1 + 1)
    } else {
        member
    }
}

// The members of two groups that are joined.
fn join_members(members: &mut [(u16, u16); 257], first: u16, second: u16)
    requires { All (λ m. m.1 < 512) members.old }
    ensures { members.new ≡ map (joined_member first second) members.old }
{
    for i in 0..257usize {
        members[i] = joined_member(members[i], first, second);
    }
}

// Two groups become one.
fn join(counts: &mut [u64; 257], members: &mut [(u16, u16); 257], first: u16, second: u16)
    requires within { (first < 257) × (second < 257) }
    requires fits { sum counts.old < 2 ^ 63 }
    requires sizes { All (λ m. m.1 < 512) members.old }
    ensures { groups counts.new members.new ≡ joined (groups counts.old members.old) first second }
{
    counts[first as usize] += counts[second as usize];
    counts[second as usize] = 0;
    join_members(members, first, second);
}

// Joins the groups of the two least counts. Returns whether there were two.
pub(crate) fn join_least(counts: &mut [u64; 257], members: &mut [(u16, u16); 257]) -> bool
    requires fits { sum counts.old < 2 ^ 63 }
    requires sizes { All (λ m. m.1 < 512) members.old }
    ensures step { groups counts.new members.new ≡ step (groups counts.old members.old) }
    ensures two { result ≡ is_some (least_two counts.old) }
{
    let Some(first) = least(counts) else {
        return false;
    };
    let Some(second) = next(counts, first) else {
        return false;
    };
    join(counts, members, first, second);
    true
}
