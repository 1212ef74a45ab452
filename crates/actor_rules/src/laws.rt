//! Laws over any rules of actors.
//!
//! Each function does nothing: its contract is a law.
ghost use Rattle.actor_rules.specs.Laws.{RunsAreApart, StepsArePlaced, StepsLeadOn, MergesAreRuns};

/// A list of steps in strict order of keys is a run exactly where each step fits by itself: its test holds of what its actor's
/// own earlier steps left, and the letters that it looks at were sent by steps of earlier keys. The run's end is then what each
/// actor's own steps leave, whatever the order in which actors took turns.
pub fn a_run_is_what_each_actor_did<K, A, L, V, E>()
    ensures { RunsAreApart K A L V E }
{}

/// A step that is allowed at a run's end, behind all of its actor's own, and whose letters were sent by earlier keys, may stand
/// in the list at its key's place: the list is a run still, and its end is the one behind the step.
pub fn a_step_stands_at_its_key<K, A, L, V, E>()
    ensures { StepsArePlaced K A L V E }
{}

/// A step whose letters were sent by earlier keys leads on as well from a cut: from all earlier steps of its own actor, and of each
/// other actor from the first ones alone.
pub fn a_step_leads_on_from_a_cut<K, A, L, V, E>()
    ensures { StepsLeadOn K A L V E }
{}

/// Steps that each actor made by itself, and that fit, are a run when they are merged in order of keys, also behind an old run
/// of earlier keys.
pub fn a_merge_is_a_run<K, A, L, V, E>()
    ensures { MergesAreRuns K A L V E }
{}
