// SPDX-License-Identifier: Apache-2.0
// Which sets of devices of the larger family are refused when they are made, and how the devices of a set that runs on may
// stand.
#![tactic(auto)]

ghost use Rattle.std.specs.Prelude.{◌≡◌, List, ℕ, Bool};
ghost use Rattle.numbers.specs.Refusal.{number_told};
ghost use Rattle.set_event.specs.declared.Member.{Member};
ghost use Rattle.set_event.specs.Set.{Held, held};
ghost use Rattle.set_event.specs.Make.{is_lent, is_within, is_between, if_here, all_here, places_are};
ghost use Rattle.set_event.specs.Make.{all_pairs, pairs_are, selects_differ, is_count, make_number};
ghost use Rattle.set_event.specs.Stand.{are_clear, stand_together};
ghost use Rattle.set_event.specs.Outcome.{lent_to};

use bus_limits::is_idle;
use fm31::step::size_of;
use numbers::Refusal;
use set_event::{MOST, Member, Set};
use wire::Phase;

// A test of what is on the line only.
#[tactic(auto, unfolding(set_event::specs::Make::if_here))]
fn if_here(count: u8, place: u8, test: bool) -> bool
    ensures { result ≡ if_here count place test }
{
    if place < count { test } else { true }
}

// The four tests of a set's places as one.
#[tactic(auto, unfolding(set_event::specs::Make::all_here))]
fn all_here(count: u8, first: bool, second: bool, third: bool, fourth: bool) -> bool
    ensures { result ≡ all_here count first second third fourth }
{
    if_here(count, 0, first)
        & (if_here(count, 1, second) & (if_here(count, 2, third) & if_here(count, 3, fourth)))
}

// The tests of each two of a set's devices as one: of first and second, and so on.
#[tactic(auto, unfolding(set_event::specs::Make::all_pairs))]
fn all_pairs(count: u8, ab: bool, ac: bool, bc: bool, ad: bool, bd: bool, cd: bool) -> bool
    ensures { result ≡ all_pairs count ab ac bc ad bd cd }
{
    if_here(count, 1, ab) & (if_here(count, 2, ac & bc) & if_here(count, 3, ad & (bd & cd)))
}

// Whether all of a device's memory is lent.
#[tactic(auto, unfolding(set_event::specs::Make::is_lent))]
fn is_lent(member: Member, memory: &[u8]) -> bool
    ensures { result ≡ is_lent (held member memory.now) }
{
    memory.len() == size_of(member.size) as usize
}

// Whether a device is within its limits.
#[tactic(auto, unfolding(set_event::specs::Make::is_within))]
fn is_within(member: Member) -> bool
    ensures { (m : List ℕ) → result ≡ is_within (held member m) }
{
    (member.select < 4)
        & member
            .state
            .is_well_formed(size_of(member.size), member.select)
}

// Whether a device is between transfers.
#[tactic(auto, unfolding(set_event::specs::Make::is_between))]
fn is_between(member: Member) -> bool
    ensures { (m : List ℕ) → result ≡ is_between (held member m) }
{
    is_idle(member.state.bus.phase)
}

// Whether all of each memory is lent.
#[tactic(auto, unfolding(set_event::specs::Make::places_are))]
pub fn are_lent(set: Set, one: &[u8], two: &[u8], three: &[u8], four: &[u8]) -> bool
    ensures { result ≡ places_are is_lent (lent_to set one.now two.now three.now four.now) }
{
    all_here(
        set.count,
        is_lent(set.first, one),
        is_lent(set.second, two),
        is_lent(set.third, three),
        is_lent(set.fourth, four),
    )
}

// Whether a test holds of each device.
#[tactic(auto, unfolding(set_event::specs::Make::places_are))]
fn places_are<F: Fn(Member) -> bool>(set: Set, test: F) -> bool
    requires { F.IsAlwaysCallable test }
    ensures { (holds : Held → Bool) → ((d : Member) (m : List ℕ) (r : Bool) → F.post test d r → r ≡ holds (held d m))
        → (k l m n : List ℕ) → result ≡ places_are holds (lent_to set k l m n) }
{
    all_here(
        set.count,
        test(set.first),
        test(set.second),
        test(set.third),
        test(set.fourth),
    )
}

// Whether a test holds of each two devices.
#[tactic(auto, unfolding(set_event::specs::Make::pairs_are))]
fn pairs_are<F: Fn(Member, Member) -> bool>(set: Set, test: F) -> bool
    requires { F.IsAlwaysCallable test }
    ensures { (holds : Held → Held → Bool)
        → ((c d : Member) (m n : List ℕ) (r : Bool) → F.post test c d r → r ≡ holds (held c m) (held d n))
        → (k l m n : List ℕ) → result ≡ pairs_are holds (lent_to set k l m n) }
{
    let Set {
        count,
        first,
        second,
        third,
        fourth,
    } = set;
    all_pairs(
        count,
        test(first, second),
        test(first, third),
        test(second, third),
        test(first, fourth),
        test(second, fourth),
        test(third, fourth),
    )
}

// Whether each device is within its limits.
fn are_within(set: Set) -> bool
    ensures { (k l m n : List ℕ) → result ≡ places_are is_within (lent_to set k l m n) }
{
    places_are(set, is_within)
}

// Whether each device is between transfers.
fn are_between(set: Set) -> bool
    ensures { (k l m n : List ℕ) → result ≡ places_are is_between (lent_to set k l m n) }
{
    places_are(set, is_between)
}

// Whether no two devices have the same selects.
pub fn selects_differ(set: Set) -> bool
    ensures { (k l m n : List ℕ) → result ≡ selects_differ (lent_to set k l m n) }
{
    pairs_are(set, |a, b| a.select != b.select)
}

// Whether of two devices one is idle, or both take the same slave byte, before its acknowledge.
fn are_clear(this: Phase, that: Phase) -> bool
    ensures { result ≡ are_clear this that }
{
    match (this, that) {
        (Phase::Idle, _) | (_, Phase::Idle) => true,
        (Phase::Slave { clocks, .. }, _) => (clocks < 8) & (this == that),
        _ => false,
    }
}

// Whether each two devices stand as in a set that was made.
pub fn stand_together(set: Set) -> bool
    ensures { (k l m n : List ℕ) → result ≡ stand_together (lent_to set k l m n) }
{
    pairs_are(set, |a, b| are_clear(a.state.bus.phase, b.state.bus.phase))
}

// Whether a set can have so many devices: one to four.
pub fn is_count(count: u8) -> bool
    ensures { result ≡ is_count count }
{
    (1 <= count) & (count <= MOST)
}

// Accepts a set with these memories, or says why it is refused when it is made. The count first, then in the order of the
// numbers.
#[tactic(auto, unfolding(set_event::specs::Make::make_number))]
pub fn accept(set: Set, one: &[u8], two: &[u8], three: &[u8], four: &[u8]) -> Result<(), Refusal>
    ensures { number_told result ≡ make_number (lent_to set one.now two.now three.now four.now) }
{
    if !is_count(set.count) {
        return Err(Refusal::WrongCount);
    }
    if !are_lent(set, one, two, three, four) {
        return Err(Refusal::WrongMemory);
    }
    if !are_within(set) {
        return Err(Refusal::WrongState);
    }
    if !selects_differ(set) {
        return Err(Refusal::EqualSelects);
    }
    if !are_between(set) {
        return Err(Refusal::InTransfer);
    }
    Ok(())
}
