//! The search for the step that is next among all points of a register.
#![tactic(auto)]

ghost use Rattle.std.specs.Prelude.{◌≡◌, ◌^◌};
ghost use Rattle.agenda.specs.Earliest.{Earliest, sooner};

use market::Register;
use rules::Step;

// The one of two steps that is done first, where `next` is of the higher point.
fn sooner(upto: u64, best: Option<Step>, next: Option<Step>) -> Option<Step>
    ensures { result ≡ sooner upto best next }
{
    match next {
        Some(step) if best.map_or(step.moment <= upto, |best| step.moment < best.moment) => next,
        _ => best,
    }
}

// The earliest step up to the moment, the lowest point first among equals. Each point is asked once.
pub fn earliest<R: Register>(register: &R, upto: u64) -> Option<Step>
    ensures { Earliest (R.known register.now).look upto (2 ^ 64) result }
{
    let mut best = None;
    let mut from = 0u64;
    // No `for`: a register gives its points one at a time, each by the number from which it is asked.
    while let Some(point) = register.lowest_from(from) {
        best = sooner(upto, best, Step::of(point));
        let Some(next) = point.number.checked_add(1) else {
            break;
        };
        from = next;
    }
    best
}
