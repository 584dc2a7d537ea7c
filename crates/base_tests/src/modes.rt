use mode_rules::{Mode, clash};
use std::test::*;

// Each pair of modes, and whether they clash.
const PAIRS: [(Mode, Mode, bool); 10] = [
    (Mode::S, Mode::S, false),
    (Mode::S, Mode::O, false),
    (Mode::O, Mode::O, false),
    (Mode::S, Mode::E, true),
    (Mode::S, Mode::X, true),
    (Mode::O, Mode::E, true),
    (Mode::O, Mode::X, true),
    (Mode::E, Mode::E, true),
    (Mode::E, Mode::X, true),
    (Mode::X, Mode::X, true),
];

/// The first of these pairs that isn't so, or not both ways.
fn wrong_pair(pairs: &[(Mode, Mode, bool)]) -> Option<(Mode, Mode)> {
    for (a, b, clashes) in pairs {
        if clash(*a, *b) != *clashes || clash(*b, *a) != *clashes {
            return Some((*a, *b));
        }
    }
    None
}

#[test]
fn modes_clash_unless_both_are_shared_or_optimistic(rt: HostRuntime) {
    assert_eq!(rt; wrong_pair(&PAIRS), None);
}
