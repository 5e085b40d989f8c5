//! What follows an input by itself, where another action of the schedule has come into force.
ghost use Rattle.std.specs.Prelude.{◌≡◌, [], option_map};
ghost use Rattle.tsb_bench.specs.Held.{state_of};
ghost use Rattle.tsb_bench.specs.tsb_step.Following.{action, omits, selects, with_omits};
ghost use Rattle.tsb_bench.specs.tsb_step.declared.inputs.Input.TheVariants.{Omit, Pattern};
ghost use Rattle.tsb_text.specs.Obeyed.{IsPopped};

use std::marker::Model;
use tsb_bench::{Bench, Input};

/// What follows an input, in order: a pattern, and then the arrows that are omitted, where others are. Clauses see the list
/// of these inputs.
#[derive(Drop)]
pub(crate) struct Followers {
    /// The pattern.
    pattern: Option<u32>,
    /// The arrows that are omitted, as a list (`actionArrowOmit`).
    omits: Option<u32>,
}

impl Model for Followers {
    ghost use Rattle.std.specs.Prelude.{List};
    ghost use Rattle.tsb_bench.specs.tsb_step.declared.inputs.Input.{Input as InputValue};
    ghost use Rattle.tsb_text.specs.Obeyed.{next_in};

    ghost Value = { List InputValue };

    ghost view = { λ a. next_in a.pattern a.omits };
}

impl Followers {
    /// Nothing follows.
    #[inline(always)]
    pub(crate) fn none() -> Followers
        ensures { result ≡ [] }
    {
        Followers {
            pattern: None,
            omits: None,
        }
    }

    /// What follows an input of a bench that has taken it, where this action was in force before.
    pub(crate) fn after(bench: &Bench, before: Option<u32>) -> Followers
        ensures { result ≡ with_omits (state_of bench.now) (selects (state_of bench.now).plan before (action (state_of bench.now))) }
    {
        match selected(bench, before) {
            None => Followers::none(),
            Some(pattern) => Followers {
                pattern: Some(pattern),
                omits: omitted(bench),
            },
        }
    }

    /// Takes the first of them out, if there is one.
    #[inline(always)]
    pub(crate) fn pop(&mut self) -> Option<Input>
        ensures { IsPopped result self.old self.new }
    {
        match self.pattern.take() {
            Some(pattern) => Some(Input::Pattern(pattern)),
            None => match self.omits.take() {
                Some(list) => Some(Input::Omit(list)),
                None => None,
            },
        }
    }
}

/// The pattern that follows an input of a bench that has taken it, where this action was in force before.
fn selected(bench: &Bench, before: Option<u32>) -> Option<u32>
    ensures { option_map Pattern result ≡ selects (state_of bench.now).plan before (action (state_of bench.now)) }
{
    let action = bench.action()?;
    if before == Some(action) {
        return None;
    }
    Some(bench.plan().selected_by(action))
}

/// The arrows that the action in force omits, where others are omitted.
fn omitted(bench: &Bench) -> Option<u32>
    ensures { option_map Omit result ≡ omits (state_of bench.now).plan (action (state_of bench.now)) (state_of bench.now).omitted }
{
    let action = bench.action()?;
    let list = bench.plan().omitted_by(action);
    if list == u32::from(bench.omitted_arrows().list()) {
        return None;
    }
    Some(list)
}
