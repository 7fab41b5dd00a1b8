//! Which lines are refused before the desk is asked.

ghost use Rattle.std.specs.Prelude.{◌≡◌, ◌↔◌, IsTrue, MatchOption, ℕ, List};
ghost use Rattle.board_core.specs.Answers.{IsGone as IsGoneIn};
ghost use Rattle.decl_core.specs.HoldForm.{is_one_of};
ghost use Rattle.decl_core.specs.HoldMap.{holds_of};
ghost use Rattle.word_core.specs.Said.{Said as ASaid};
ghost use Rattle.word_core.specs.ScriptView.{said_view};
ghost use Rattle.world_core.specs.HoldDoes.{IsNew, IsNotHeld, Refuses, Asks, asked};

use apply_core::fits::arguments_fit;
use decl_core::hold::Hold;
use desk_core::desk::Desk;
use desk_core::find::place_of;
use guest_core::answer::KeyedFault;
use guest_core::held::Holds;
use path_tree::node::OpId;
use value_core::datum::Datum;
use word_core::said::Said;

/// Whether a session is one of these.
pub fn is_among(sessions: &[u32], session: u32) -> bool
    ensures { result ≡ is_one_of sessions.now session }
{
    sessions.iter().any(|other| *other == session)
}

// Whether a desk takes no call of a session, as it has left, or there is no such session.
fn is_gone(desk: &Desk, session: u32) -> bool
    ensures { IsTrue result ↔ IsGoneIn desk.now session }
{
    match desk.kept(session, 1, "", &[]) {
        Ok(_) => false,
        Err(KeyedFault::Gone) => true,
        Err(KeyedFault::BadKey) => false,
        Err(KeyedFault::KeyReused) => false,
        Err(KeyedFault::Submit(_)) => false,
    }
}

// Whether a session does not hold what this call would end.
fn lacks(
    desk: &Desk,
    rules: &[Hold],
    holds: &Holds,
    session: u32,
    op: &str,
    arguments: &[Datum],
) -> bool
    ensures { IsTrue result ↔ IsNotHeld (holds_of rules.now) holds.now desk.now (asked session op.now arguments.now) }
{
    if is_gone(desk, session) {
        return false;
    }
    let object = desk.accepted().object();
    let Some(place) = place_of(object, op.as_bytes()) else {
        return false;
    };
    if !arguments_fit(&object.operations[place], arguments) {
        return false;
    }
    !holds.may_undo(rules, session, place as OpId, arguments)
}

// Whether a call is a new one: under no key, or under that of the next call of its session.
fn is_new(desk: &Desk, session: u32, key: Option<u32>) -> bool
    requires { IsGoneIn desk.now session → ⊥ }
    ensures { IsTrue result ↔ IsNew desk.now session key }
{
    match key {
        None => true,
        Some(key) => desk.next_key(session) == key,
    }
}

// The word by which a call is refused before the desk is asked, where it is.
fn word_for(
    desk: &Desk,
    rules: &[Hold],
    holds: &Holds,
    gone: &[u32],
    session: u32,
    key: Option<u32>,
    op: &str,
    arguments: &[Datum],
) -> Option<&'static str>
    ensures { (said : ASaid) → Asks said (asked session op.now arguments.now) key →
        MatchOption result
        ((word : List ℕ) → Refuses (holds_of rules.now) desk.now holds.now gone.now said word → ⊥)
        (λ word. Refuses (holds_of rules.now) desk.now holds.now gone.now said word.now) }
{
    if is_among(gone, session) {
        return Some("Gone");
    }
    if !lacks(desk, rules, holds, session, op, arguments) {
        return None;
    }
    if is_new(desk, session, key) {
        return Some("NotHeld");
    }
    None
}

/// The word by which a line is refused before the desk is asked, where it is.
pub fn word_of(
    desk: &Desk,
    rules: &[Hold],
    holds: &Holds,
    gone: &[u32],
    said: &Said<'_>,
) -> Option<&'static str>
    ensures { MatchOption result
        ((word : List ℕ) → Refuses (holds_of rules.now) desk.now holds.now gone.now (said_view said.now) word → ⊥)
        (λ word. Refuses (holds_of rules.now) desk.now holds.now gone.now (said_view said.now) word.now) }
{
    match said {
        Said::Call(session, op, arguments) => {
            word_for(desk, rules, holds, gone, *session, None, op, arguments)
        }
        Said::CallKey(session, key, op, arguments) => {
            word_for(
                desk,
                rules,
                holds,
                gone,
                *session,
                Some(*key),
                op,
                arguments,
            )
        }
        Said::Do(session, op, arguments) => {
            word_for(desk, rules, holds, gone, *session, None, op, arguments)
        }
        Said::Step(_, _) => None,
        Said::Steps(_) => None,
        Said::Finish(_) => None,
        Said::Cancel(_) => None,
        Said::Drop(_) => None,
        Said::Resume(_) => None,
        Said::Show => None,
        Said::Trace => None,
    }
}
