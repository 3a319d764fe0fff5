//! What is tried of two sites that hold no key.
use crate::liars::{Lie, are_out_of_form, changes_nothing, refusals, stop};
use crate::many_keys::{are_paged, ask_few};
use crate::mistaken::takes_what_is_given;
use crate::peers::Counting;
use crate::refused_growth::session_of;
use crate::remotes::{
    are_ended, end_with_other_kinds, meets_among_others, meets_over_a_line, says_hello,
    take_their_kinds, windows_are_whole,
};
use crate::two_sites::{are_asked, clash, tells_old};
use mvd_dots::Refusal;
use std::alloc::Global;
use std::test::Fail;

#[derive(Clone, Copy)]
pub enum Trial {
    Asked,
    Few,
    Clash,
    Old,
    OutOfForm,
    Changes(Lie, u64),
    Refusals,
    Stops,
    Mistaken,
    Links,
    Hello,
    Kinds,
    Replies,
    Windows,
    Line,
    Among,
    Pages,
    Growth,
}

/// Tries it of sites that are lent, since a function that owns one has a dear proof.
fn holds_of(one: &mut Counting, two: &mut Counting, trial: Trial) -> Result<bool, Refusal> {
    match trial {
        Trial::Asked => are_asked(one, two),
        Trial::Few => ask_few(one, two),
        Trial::Clash => clash(one, two),
        Trial::Old => tells_old(one, two),
        Trial::OutOfForm => Ok(are_out_of_form(one, two)),
        Trial::Changes(lie, keys) => changes_nothing(one, two, lie, keys),
        Trial::Refusals => Ok(refusals(one, two) == Some(277)),
        Trial::Stops => Ok(stop(one, two)),
        Trial::Mistaken => takes_what_is_given(one, two),
        Trial::Links => Ok(are_ended(one)),
        Trial::Hello => says_hello(one.alloc),
        Trial::Pages => are_paged(one),
        Trial::Kinds => Ok(end_with_other_kinds(one)),
        Trial::Replies => take_their_kinds(one.alloc),
        Trial::Windows => windows_are_whole(one.alloc),
        Trial::Line => meets_over_a_line(one),
        Trial::Among => meets_among_others(one),
        Trial::Growth => session_of(one, two),
    }
}

fn holds_with(
    one: &mut Counting,
    number: u32,
    max_keys: u32,
    trial: Trial,
) -> Result<bool, Refusal> {
    let mut two = Counting::new(one.alloc, number, max_keys)?;
    holds_of(one, &mut two, trial)
}

/// Tries it of site 1 and a site of this number.
pub fn holds(alloc: Global, number: u32, max_keys: u32, trial: Trial) -> Result<bool, Refusal> {
    let mut one = Counting::new(alloc, 1, max_keys)?;
    holds_with(&mut one, number, max_keys, trial)
}

/// What holds, with the number of the second site, and how many keys each site may have.
const CASES: [(&str, u32, u32, Trial); 15] = [
    ("so many questions and no more", 2, 10, Trial::Asked),
    ("states that clash are left", 1, 10, Trial::Clash),
    ("an old copy is told", 2, 10, Trial::Old),
    (
        "pages and nodes out of form are 33",
        2,
        10,
        Trial::OutOfForm,
    ),
    (
        "digests alone change nothing",
        2,
        10,
        Trial::Changes(Lie::NoKeys, 1),
    ),
    (
        "nor does a key in each bucket",
        2,
        10,
        Trial::Changes(Lie::OneKey, 4_096),
    ),
    ("the state of another key clashes", 2, 10, Trial::Mistaken),
    (
        "a link tells its refusal, and stays refused where it ended",
        2,
        10,
        Trial::Links,
    ),
    (
        "a session with replies of another kind is 32",
        2,
        10,
        Trial::Kinds,
    ),
    ("a reply of every other kind is 32", 2, 10, Trial::Replies),
    ("a token is shown, and may be refused", 2, 10, Trial::Hello),
    ("keys come by the thousand", 2, 1_001, Trial::Pages),
    ("a window is read and written whole", 2, 10, Trial::Windows),
    ("a session over a line to a site", 2, 10, Trial::Line),
    (
        "a session over a line to a site among others",
        2,
        10,
        Trial::Among,
    ),
];

#[test]
fn sessions_end_as_they_should(rt: HostRuntime) -> Result<(), Fail> {
    for (name, number, max_keys, trial) in CASES {
        assert!(rt; holds(rt.alloc(), number, max_keys, trial)?, "{name}");
    }
    Ok(())
}

// Those that take long have a test each, since a test may take a minute.

#[test]
fn few_questions_for_few_keys(rt: HostRuntime) -> Result<(), Fail> {
    assert!(rt; holds(rt.alloc(), 2, 20_000, Trial::Few)?);
    Ok(())
}

/// Each question of 21 nodes, and of 64 buckets of two pages with a state that is given for each.
#[test]
fn each_question_may_be_refused(rt: HostRuntime) -> Result<(), Fail> {
    assert!(rt; holds(rt.alloc(), 2, 10, Trial::Refusals)?);
    Ok(())
}

#[test]
fn pages_without_end_are_36(rt: HostRuntime) -> Result<(), Fail> {
    assert!(rt; holds(rt.alloc(), 2, 10, Trial::Stops)?);
    Ok(())
}
